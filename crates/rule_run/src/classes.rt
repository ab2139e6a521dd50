//! Which rules of a pattern refuse all nodes of a class (ISO/IEC 19757-3, clause 6).

ghost use Rattle.std.specs.Prelude.{◌≡◌, ◌<◌, ◌≤◌, ℕ, List, Some, true, slice_get, IfSome};
ghost use Rattle.doc_tree.specs.Table.{Contents, is_live};
ghost use Rattle.xp_meaning.specs.Evaluation.{Lets};
ghost use Rattle.xslt_match.specs.Refusing.{IsOfClass, Refuses};
ghost use Rattle.sch_compiled.specs.declared.parts.PlanRule.{PlanRule as AnyRule};
ghost use Rattle.rule_run.specs.Classes.{AreRefused, IsPassedOver, IsRestRefused};

use doc_tree::{Kind, NodeId, Tree};
use sch_compiled::PlanRule;
use xslt_match::{NodeClass, refused_levels};

/// Of how many rules it is kept whether they refuse a class; those behind are tried at each node.
const RULES: usize = 64;

/// Stands for a rule that is to be tried.
const TRIED: u8 = u8::MAX;

/// How many classes are kept of elements by their names' numbers, and how many of other kinds.
const NAMES: usize = 256;

const KINDS: usize = 6;

pub(crate) const SLOTS: usize = KINDS + NAMES;

/// Which of a pattern's first rules refuse the nodes of a class.
#[derive(Clone, Copy)]
pub(crate) struct ClassRules {
    pub(crate) class: NodeClass,
    /// Of each rule, of how many nodes upwards the names are read where it is passed over: `TRIED` where it may match.
    pub(crate) levels: [u8; RULES],
    pub(crate) rest: RefusedRest,
}

/// The last rules of a pattern, all of which refuse the nodes of a class.
#[derive(Clone, Copy)]
pub(crate) struct RefusedRest {
    /// The first of them, counted from 0: the number of the pattern's rules where there are none, or more rules than something is kept of.
    pub(crate) from: usize,
    /// Of how many nodes upwards the names are read where all of them are passed over.
    pub(crate) needed: u8,
}

impl ClassRules {
    /// Looks at the first of some rules, at a live node of the class.
    pub(crate) fn learn(tree: &Tree, rules: &[PlanRule], class: NodeClass, n: NodeId) -> ClassRules
        requires live { is_live tree.now.nodes n ≡ true }
        requires class { IsOfClass tree.now class n }
        ensures class { result.class ≡ class }
        ensures refused { AreRefused tree.now rules.now result }
    {
        let mut levels = [TRIED; RULES];
        let mut r = 0;
        while r < RULES && r < rules.len() {
            levels[r] = levels_of(tree, &rules[r], n);
            r += 1;
        }
        ClassRules {
            class,
            levels,
            rest: rest_of(&levels, rules.len()),
        }
    }

    /// Of how many nodes upwards the names are read where a rule, counted from 0, refuses the nodes of the class: none where it is to be tried.
    pub(crate) fn refused_levels(&self, r: usize) -> Option<usize>
        ensures { IfSome result (λ levels. (C : Contents) (L : Lets) (rules : List AnyRule) (rule : AnyRule) (n : ℕ) → AreRefused C rules self.now →
            slice_get rules r ≡ Some rule → IsOfClass C self.now.class n → Refuses C.nodes L rule.context levels n) }
    {
        if r >= RULES {
            return None;
        }
        let levels = self.levels[r];
        if levels < TRIED {
            Some(levels as usize)
        } else {
            None
        }
    }

    /// Whether all rules from one on, counted from 0, refuse the nodes of the class and read no name but those of so many nodes upwards.
    pub(crate) fn refuses_rest(&self, r: usize, levels: usize) -> bool
        ensures { result ≡ true → (C : Contents) (L : Lets) (rules : List AnyRule) (q : ℕ) (rule : AnyRule) (n : ℕ) → AreRefused C rules self.now →
            r ≤ q → slice_get rules q ≡ Some rule → IsOfClass C self.now.class n → IsPassedOver C.nodes L rule.context levels n }
    {
        self.rest.from <= r && self.rest.needed as usize <= levels
    }
}

/// Of so many rules those behind the last that is to be tried: none where there are more rules than something is kept of.
fn rest_of(levels: &[u8; RULES], count: usize) -> RefusedRest
    ensures { IsRestRefused count levels.now result }
{
    let mut from = count;
    let mut needed = 0;
    while 0 < from && from <= RULES && levels[from - 1] < TRIED {
        from -= 1;
        if needed < levels[from] {
            needed = levels[from];
        }
    }
    RefusedRest { from, needed }
}

/// Of how many nodes upwards the names are read where a rule refuses all nodes of a live node's class, or `TRIED`.
fn levels_of(tree: &Tree, rule: &PlanRule, n: NodeId) -> u8
    requires { is_live tree.now.nodes n ≡ true }
    ensures { result < 255 → (L : Lets) (class : NodeClass) (m : ℕ) → IsOfClass tree.now class n → IsOfClass tree.now class m →
        Refuses tree.now.nodes L rule.now.context result m }
{
    match refused_levels(tree, &rule.context, n) {
        Some(levels) if levels < TRIED as usize => levels as u8,
        _ => TRIED,
    }
}

/// The slot of a class.
pub(crate) fn slot(class: NodeClass) -> usize
    ensures { result < SLOTS }
{
    match class.name {
        Some(number) => KINDS + number % NAMES,
        None => slot_of_kind(class.kind),
    }
}

fn slot_of_kind(kind: Kind) -> usize
    ensures { result < KINDS }
{
    match kind {
        Kind::Root => 0,
        Kind::Element => 1,
        Kind::Attribute => 2,
        Kind::Text => 3,
        Kind::Comment => 4,
        Kind::Pi => 5,
    }
}
