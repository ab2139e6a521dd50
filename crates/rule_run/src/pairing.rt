//! The evaluation of nodes under patterns.

ghost use Rattle.std.specs.Prelude.{◌≡◌, ◌<◌, ◌≤◌, true, length};
ghost use Rattle.doc_tree.specs.Table.{is_live};
ghost use Rattle.xp_outcome.specs.Recorded.{nothing_read};
ghost use Rattle.xp_outcome.specs.Running.{Ran};
ghost use Rattle.sch_compiled.specs.Soundness.{IsCounted};
ghost use Rattle.sch_units.specs.Units.{unit_pair};
ghost use Rattle.rule_run.specs.Kept.{outcome_told, pair_reads, pair_shown};
ghost use Rattle.rule_run.specs.KeptMatches.{AreKeptFor};

use crate::kept::{Kept, keep_outcome};
use crate::kept_matches::KeptMatches;
use crate::validator::Validator;
use doc_tree::{NodeId, Tree};
use sch_compiled::{Outcome, Plan};
use sch_units::first_match_fires;
use std::alloc::{AllocError, Global};
use std::sync::ledger::Ledger;
use xp_eval::Caller;
use xp_meaning::Lets;
use xp_outcome::{Recorder, Steps};

/// Evaluates a live node under the active pattern `p` and under the given lets in force: the first of the pattern's rules
/// that matches the node fires alone, and its lets and assertions are evaluated at the node.
///
/// A fault of the evaluation is kept as the outcome. The only error is want of memory, after which the count has risen by
/// at most the visits. The slots after those of the lets in force hold the rule's lets while it runs; what is read of these
/// isn't kept.
///
/// A rule that doesn't match costs what `matches` does, and no memory beside; a message costs its length and that of its
/// parts.
pub fn run_pair<L: Ledger>(
    alloc: Global,
    plan: &Plan,
    tree: &Tree,
    p: u32,
    n: NodeId,
    lets: &mut Lets,
    steps: &mut Steps<L>,
) -> Result<Kept, AllocError>
    requires counted { IsCounted plan.now }
    requires active { p < length plan.now.patterns }
    requires live { is_live tree.now.nodes n ≡ true }
    requires room { length lets.old ≤ length plan.now.lets }
    ensures ran { Ran (unit_pair plan.now tree.now.nodes lets.old p n)
        (pair_shown result) nothing_read (pair_reads result) steps.old steps.new }
    ensures counted { steps.old < steps.new }
    ensures slots { lets.new ≡ lets.old }
{
    let run = PlanRun {
        caller: Caller { alloc, tree },
        plan,
    };
    let mut kept = KeptMatches::new(alloc);
    run_pair_with(&run, p, n, &mut kept, lets, steps)
}

/// What stays the same while nodes are evaluated by a plan: the tree with the allocator, and the plan.
#[derive(Clone, Copy)]
pub struct PlanRun<'r> {
    pub caller: Caller<'r>,
    pub plan: &'r Plan,
}

impl PlanRun<'_> {
    /// The outcome that `run_pair_with` keeps, for a caller that lends the recorder: what it held is forgotten, and then it holds what is
    /// read for the outcome. So one recorder, with its memory, serves for many nodes.
    #[tactic(auto, using(xp_outcome::proofs::SlotLemmas::kept_whole))]
    pub fn outcome_of_pair<L: Ledger>(
        &self,
        p: u32,
        n: NodeId,
        kept: &mut KeptMatches,
        lets: &mut Lets,
        reads: &mut Recorder,
        steps: &mut Steps<L>,
    ) -> Result<Outcome, AllocError>
        requires counted { IsCounted self.now.plan.now }
        requires active { p < length self.now.plan.now.patterns }
        requires live { is_live self.now.caller.tree.now.nodes n ≡ true }
        requires room { length lets.old ≤ length self.now.plan.now.lets }
        requires kept { AreKeptFor self.now.plan.now self.now.caller.tree.now p lets.old kept.old }
        ensures ran { Ran (unit_pair self.now.plan.now self.now.caller.tree.now.nodes lets.old p n)
            (outcome_told result) nothing_read reads.new steps.old steps.new }
        ensures counted { steps.old < steps.new }
        ensures slots { lets.new ≡ lets.old }
        ensures kept { AreKeptFor self.now.plan.now self.now.caller.tree.now p lets.old kept.new }
    {
        first_match_fires();
        lets.laws();
        let plan = self.plan;
        reads.clear();
        steps.tick();
        let count = plan.let_count();
        let validator = Validator {
            caller: self.caller,
            node: n,
            count,
        };
        let pattern = &plan.patterns.as_slice()[p as usize];
        let outcome = validator.first_rule(pattern.rules.as_slice(), kept, lets, reads, steps);
        lets.cut(count);
        reads.cut_lets(count);
        keep_outcome(outcome)
    }
}

/// `run_pair`, with what is kept of the pattern's rules for the same tree and the same lets in force.
///
/// A rule whose context has steps with positional predicates costs what `matches_with` does. From the 33rd node on it is kept for classes of nodes which of the
/// first 64 rules refuse them by kind and name alone: at a node of such a class these cost a few instructions, and where no other rule is left, all
/// together do; the names at which they look are recorded once.
pub fn run_pair_with<L: Ledger>(
    run: &PlanRun<'_>,
    p: u32,
    n: NodeId,
    kept: &mut KeptMatches,
    lets: &mut Lets,
    steps: &mut Steps<L>,
) -> Result<Kept, AllocError>
    requires counted { IsCounted run.now.plan.now }
    requires active { p < length run.now.plan.now.patterns }
    requires live { is_live run.now.caller.tree.now.nodes n ≡ true }
    requires room { length lets.old ≤ length run.now.plan.now.lets }
    requires kept { AreKeptFor run.now.plan.now run.now.caller.tree.now p lets.old kept.old }
    ensures ran { Ran (unit_pair run.now.plan.now run.now.caller.tree.now.nodes lets.old p n)
        (pair_shown result) nothing_read (pair_reads result) steps.old steps.new }
    ensures counted { steps.old < steps.new }
    ensures slots { lets.new ≡ lets.old }
    ensures kept { AreKeptFor run.now.plan.now run.now.caller.tree.now p lets.old kept.new }
{
    let mut reads = Recorder::new(run.caller.alloc);
    let outcome = run.outcome_of_pair(p, n, kept, lets, &mut reads, steps)?;
    Ok(Kept { outcome, reads })
}
