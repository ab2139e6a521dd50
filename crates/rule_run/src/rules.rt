//! The rules of a pattern at a node (ISO/IEC 19757-3, clause 6).

ghost use Rattle.std.specs.Prelude.{◌≡◌, ℕ, ◌<◌, ◌≤◌, ◌+◌, ◌^◌, true, length, IfSome, OnOk, Some, slice_get};
ghost use Rattle.doc_tree.specs.Table.{Contents, is_live};
ghost use Rattle.xp_outcome.specs.Evaluation.{bind, done};
ghost use Rattle.xp_outcome.specs.Running.{Ran};
ghost use Rattle.xp_outcome.specs.Slots.{slots_below};
ghost use Rattle.xp_meaning.specs.Results.{shown};
ghost use Rattle.sch_compiled.specs.declared.findings.Outcome.TheVariants as outcomes;
ghost use Rattle.sch_compiled.specs.declared.parts.PlanRule.{PlanRule as AnyRule};
ghost use Rattle.xslt_match.specs.Matching.{matching};
ghost use Rattle.xp_meaning.specs.Evaluation.{Lets as AnyLets};
ghost use Rattle.xslt_match.specs.Names.{HoldsNames};
ghost use Rattle.xslt_match.specs.Refusing.{IsOfClass, Refuses};
ghost use Rattle.sch_units.specs.Firing.{fired_by, first_rule};
ghost use Rattle.rule_run.specs.Classes.{AreRefused, IsPassedOver};
ghost use Rattle.rule_run.specs.KeptMatches.{AreKept};
ghost use Rattle.rule_run.specs.inner.Counted.{IsRuleCounted, AreRulesCounted};
ghost use Rattle.rule_run.specs.inner.Setting.{SetsLets};

use crate::classes::ClassRules;
use crate::kept_matches::KeptMatches;
use crate::validator::Validator;
use sch_compiled::{Outcome, PlanLet, PlanRule};
use std::sync::ledger::Ledger;
use xp_eval::Evaluator;
use xp_meaning::Lets;
use xp_outcome::{Recorder, Steps};
use xp_values::EvalError;
use xslt_match::{NamesUp, matches_with};

/// A rule among those of its pattern, by its number there.
#[derive(Clone, Copy)]
pub(crate) struct PlacedRule<'r> {
    pub(crate) rules: &'r [PlanRule],
    pub(crate) number: usize,
    /// Which of the rules refuse all nodes of the class of the node at which they are tried, where that is known.
    pub(crate) class: &'r Option<ClassRules>,
}

impl PlacedRule<'_> {
    /// Where it is known that the rule refuses the node: of how many nodes from it upwards the names are then read.
    fn refused_levels(&self) -> Option<usize>
        ensures { IfSome result (λ levels. (C : Contents) (L : AnyLets) (n : ℕ) → IfSome self.now.class.now (λ known. IsOfClass C known.class n × AreRefused C self.now.rules.now known) →
            IfSome (slice_get self.now.rules.now self.now.number) (λ rule. Refuses C.nodes L rule.context levels n)) }
    {
        match self.class {
            Some(known) => known.refused_levels(self.number),
            None => None,
        }
    }

    /// Whether it is known that the rule and all rules after it refuse the node, and read no name but those of so many nodes from it upwards.
    fn ends_here(&self, levels: usize) -> bool
        ensures { result ≡ true → (C : Contents) (L : AnyLets) (q : ℕ) (rule : AnyRule) (n : ℕ) → IfSome self.now.class.now (λ known. IsOfClass C known.class n × AreRefused C self.now.rules.now known) →
            self.now.number ≤ q → slice_get self.now.rules.now q ≡ Some rule → IsPassedOver C.nodes L rule.context levels n }
    {
        match self.class {
            Some(known) => known.refuses_rest(self.number, levels),
            None => false,
        }
    }
}

impl Validator<'_> {
    /// The outcome of the first rule that matches the node; the rules after it aren't tried, nor are those of which it is known that they refuse all nodes of its
    /// class.
    pub(crate) fn first_rule<L: Ledger>(
        &self,
        rules: &[PlanRule],
        kept: &mut KeptMatches,
        lets: &mut Lets,
        reads: &mut Recorder,
        steps: &mut Steps<L>,
    ) -> Result<Outcome, EvalError>
        requires live { is_live self.now.caller.tree.now.nodes self.now.node ≡ true }
        requires few { length rules.now < 2 ^ 32 }
        requires counted { AreRulesCounted self.now.count rules.now }
        requires kept { AreKept self.now.caller.tree.now lets.old rules.now kept.old }
        ensures ran { Ran (first_rule self.now.caller.tree.now.nodes self.now.count lets.old self.now.node 0 rules.now)
            (shown result) reads.old reads.new steps.old steps.new }
        ensures below { slots_below self.now.count lets.new ≡ slots_below self.now.count lets.old }
        ensures kept { AreKept self.now.caller.tree.now lets.old rules.now kept.new }
    {
        if rules.is_empty() {
            return Ok(Outcome::NoRule);
        }
        let known = kept.class_rules(self.caller.tree, rules, self.node)?;
        let mut names = NamesUp::none(self.node);
        for (r, rule) in rules.iter().enumerate() {
            let at = PlacedRule {
                rules,
                number: r,
                class: &known,
            };
            if at.ends_here(names.levels()) {
                steps.tick_times(rules.len() - r);
                return Ok(Outcome::NoRule);
            }
            let matched = self.rule_matches(&at, kept, &mut names, lets, reads, steps)?;
            if matched {
                return self.fired(r as u32, rule, lets, reads, steps);
            }
        }
        Ok(Outcome::NoRule)
    }

    /// Whether a rule matches the node, of which some names may be recorded already. One that is known to refuse it is not tried where at most one name more is
    /// to be recorded for that.
    fn rule_matches<L: Ledger>(
        &self,
        at: &PlacedRule<'_>,
        kept: &mut KeptMatches,
        names: &mut NamesUp,
        lets: &Lets,
        reads: &mut Recorder,
        steps: &mut Steps<L>,
    ) -> Result<bool, EvalError>
        requires live { is_live self.now.caller.tree.now.nodes self.now.node ≡ true }
        requires node { names.old.node ≡ self.now.node }
        requires there { at.now.number < length at.now.rules.now }
        requires few { length at.now.rules.now < 2 ^ 32 }
        requires kept { AreKept self.now.caller.tree.now lets.now at.now.rules.now kept.old }
        requires class { IfSome at.now.class.now (λ known. IsOfClass self.now.caller.tree.now known.class self.now.node × AreRefused self.now.caller.tree.now at.now.rules.now known) }
        requires named { HoldsNames self.now.caller.tree.now.nodes names.old.node names.old.levels reads.old }
        ensures ran { IfSome (slice_get at.now.rules.now at.now.number) (λ rule. Ran (matching self.now.caller.tree.now.nodes lets.now rule.context self.now.node)
            (shown result) reads.old reads.new steps.old steps.new) }
        ensures kept { AreKept self.now.caller.tree.now lets.now at.now.rules.now kept.new }
        ensures node { names.new.node ≡ self.now.node }
        ensures named { OnOk result (HoldsNames self.now.caller.tree.now.nodes names.new.node names.new.levels reads.new) }
    {
        if let Some(levels) = at.refused_levels() {
            if levels.saturating_sub(1) <= names.levels() {
                names.read_to(self.caller.tree, levels, reads)?;
                steps.tick();
                return Ok(false);
            }
        }
        let r = at.number;
        kept.reach(self.caller.alloc, r)?;
        let evaluator = Evaluator {
            caller: self.caller,
            lets,
        };
        let context = &at.rules[r].context;
        let kept_steps = &mut kept.rules[r];
        matches_with(&evaluator, context, names, kept_steps, reads, steps)
    }

    /// The outcome of a rule, counted from 0, that fires.
    fn fired<L: Ledger>(
        &self,
        r: u32,
        rule: &PlanRule,
        lets: &mut Lets,
        reads: &mut Recorder,
        steps: &mut Steps<L>,
    ) -> Result<Outcome, EvalError>
        requires { IsRuleCounted self.now.count rule.now }
        ensures ran { Ran (bind (fired_by self.now.caller.tree.now.nodes lets.old self.now.node self.now.count rule.now.subject rule.now.lets rule.now.assertions)
            (λ findings. done (outcomes.Fired r findings)))
            (shown result) reads.old reads.new steps.old steps.new }
        ensures below { slots_below self.now.count lets.new ≡ slots_below self.now.count lets.old }
    {
        self.set_lets(rule.lets.as_slice(), lets, reads, steps)?;
        let assertions = rule.assertions.as_slice();
        let findings = self.all_asserted(&rule.subject, assertions, lets, reads, steps)?;
        Ok(Outcome::Fired { rule: r, findings })
    }

    /// Evaluates the lets of a rule in order, and puts the value of each into the next slot.
    fn set_lets<L: Ledger>(
        &self,
        items: &[PlanLet],
        lets: &mut Lets,
        reads: &mut Recorder,
        steps: &mut Steps<L>,
    ) -> Result<(), EvalError>
        requires { self.now.count + length items.now < 2 ^ 32 }
        ensures ran { SetsLets self.now.caller.tree.now.nodes self.now.node self.now.count items.now lets.old lets.new
            result reads.old reads.new steps.old steps.new }
        ensures below { slots_below self.now.count lets.new ≡ slots_below self.now.count lets.old }
    {
        for (i, item) in items.iter().enumerate() {
            let value = self.value(&item.expr, lets, reads, steps)?;
            lets.set(self.count + i as u32, Ok(value))?;
        }
        Ok(())
    }
}
