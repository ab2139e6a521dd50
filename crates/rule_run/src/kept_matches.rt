//! What is kept while nodes are matched against the contexts of a pattern's rules.

ghost use Rattle.std.specs.Prelude.{◌≡◌, ◌<◌, ◌≤◌, ◌^◌, true, List, length, IfOk, IfSome, OnOk};
ghost use Rattle.doc_tree.specs.Table.{Contents, is_live};
ghost use Rattle.xp_meaning.specs.Evaluation.{Lets};
ghost use Rattle.xslt_match.specs.Refusing.{IsOfClass};
ghost use Rattle.sch_compiled.specs.declared.parts.PlanRule.{PlanRule as AnyRule};
ghost use Rattle.rule_run.specs.Classes.{AreRefused};
ghost use Rattle.rule_run.specs.KeptMatches.{AreKept};

use crate::classes::{ClassRules, SLOTS, slot};
use doc_tree::{NodeId, Tree};
use sch_compiled::PlanRule;
use std::alloc::{AllocError, Global};
use xslt_match::{KeptSteps, NodeClass};

/// After how many nodes it is worth its cost to look at all rules for a class.
const FEW_NODES: usize = 32;

/// What is kept of the contexts of the rules of one active pattern: of each its steps, and of classes of nodes, in each slot the newest, which rules
/// refuse them.
///
/// It is kept for one tree and one table of lets, as `AreKeptFor` says.
#[derive(Drop)]
pub struct KeptMatches {
    pub(crate) rules: Vec<KeptSteps>,
    /// How many nodes came, up to `FEW_NODES`.
    pub(crate) nodes: usize,
    pub(crate) classes: Vec<Option<ClassRules>>,
}

impl KeptMatches {
    /// Nothing is kept.
    pub fn new(alloc: Global) -> KeptMatches
        ensures { (C : Contents) (L : Lets) (rules : List AnyRule) → AreKept C L rules result }
    {
        KeptMatches {
            rules: Vec::new(alloc),
            nodes: 0,
            classes: Vec::new(alloc),
        }
    }

    /// Makes a place for what is kept of a rule, counted from 0, where there is none yet.
    pub(crate) fn reach(&mut self, alloc: Global, r: usize) -> Result<(), AllocError>
        requires { r < 2 ^ 32 }
        ensures there { OnOk result (r < length self.new.rules.items) }
        ensures kept { (C : Contents) (L : Lets) (rules : List AnyRule) → AreKept C L rules self.old → AreKept C L rules self.new }
    {
        while self.rules.len() <= r {
            self.rules.push(KeptSteps::new(alloc))?;
        }
        Ok(())
    }

    /// Which rules refuse the nodes of a live node's class. Nothing is known of it while few nodes have come: what a short edit makes stale costs no more
    /// than the rules that are tried.
    pub(crate) fn class_rules(
        &mut self,
        tree: &Tree,
        rules: &[PlanRule],
        n: NodeId,
    ) -> Result<Option<ClassRules>, AllocError>
        requires live { is_live tree.now.nodes n ≡ true }
        ensures known { (L : Lets) → AreKept tree.now L rules.now self.old →
            IfOk result (λ found. IfSome found (λ known. IsOfClass tree.now known.class n × AreRefused tree.now rules.now known)) }
        ensures kept { (L : Lets) → AreKept tree.now L rules.now self.old → AreKept tree.now L rules.now self.new }
    {
        if self.nodes < FEW_NODES {
            self.nodes += 1;
            return Ok(None);
        }
        self.reach_classes()?;
        Ok(Some(self.known_class(tree, rules, n)))
    }

    /// Makes the slots of classes, where there are none yet.
    fn reach_classes(&mut self) -> Result<(), AllocError>
        ensures there { OnOk result (SLOTS ≤ length self.new.classes.items) }
        ensures kept { (C : Contents) (L : Lets) (rules : List AnyRule) → AreKept C L rules self.old → AreKept C L rules self.new }
    {
        while self.classes.len() < SLOTS {
            self.classes.push(None)?;
        }
        Ok(())
    }

    /// What is known of a live node's class; it is learned where its slot holds another or none.
    fn known_class(&mut self, tree: &Tree, rules: &[PlanRule], n: NodeId) -> ClassRules
        requires live { is_live tree.now.nodes n ≡ true }
        requires there { SLOTS ≤ length self.old.classes.items }
        ensures known { (L : Lets) → AreKept tree.now L rules.now self.old → IsOfClass tree.now result.class n × AreRefused tree.now rules.now result }
        ensures kept { (L : Lets) → AreKept tree.now L rules.now self.old → AreKept tree.now L rules.now self.new }
    {
        let class = NodeClass::of(tree, n);
        let slot = slot(class);
        if let Some(known) = self.classes[slot] {
            if known.class.is(class) {
                return known;
            }
        }
        let known = ClassRules::learn(tree, rules, class, n);
        self.classes[slot] = Some(known);
        known
    }
}
