//! The outcomes of all units.

ghost use Rattle.std.specs.Prelude.{◌≡◌, ◌+◌, ◌<◌, ◌≤◌, [], ◌∷◌, true, length, take, Some, IfOk, OnOk};
ghost use Rattle.doc_tree.specs.Table.{is_live};
ghost use Rattle.sch_compiled.specs.Findings.{IsEmptyFor, Puts};
ghost use Rattle.sch_compiled.specs.Soundness.{IsCounted, IsSound};
ghost use Rattle.sch_units.specs.Units.{lets_of};
ghost use Rattle.sch_units.specs.Validity.{pair_outcome};
ghost use Rattle.rule_run.specs.KeptMatches.{AreKeptFor};
ghost use Rattle.edit_costs.specs.Costs.{Raised, cost_of};
ghost use Rattle.edit_costs.specs.Evaluating.{SpentOn, patterns_below};
ghost use Rattle.edit_costs.specs.Units.{in_force, let_units, node_units, under, units_of};
ghost use Rattle.state_run.specs.Outcomes.{Holds, LetsHold};
ghost use Rattle.state_run.specs.inner.Running.{HoldsTo, under_node};

use doc_tree::{NodeId, Tree};
use rule_run::{Caller, KeptMatches, Lets, PlanRun, Recorder, run_let};
use sch_compiled::{Findings, Plan};
use sch_units::lets_stand_in_order;
use std::alloc::{AllocError, Global};
use std::sync::ledger::Ledger;
use xp_outcome::Steps;

/// The outcomes of all units of a plan over a tree.
pub struct Outcomes {
    /// The outcomes of the lets in force, each in its slot.
    pub lets: Lets,
    /// The outcome of each live node under each active pattern.
    pub found: Findings,
}

/// One call lets all outcomes go, wherever their owner ends.
impl Drop for Outcomes {
    fn drop(self) {
        let Outcomes { lets, found } = self;
        drop(found);
        drop(lets);
    }
}

/// What stays the same while the nodes under a pattern are evaluated: the plan and the tree, and the active pattern, counted from 0.
#[derive(Clone, Copy)]
struct PatternRun<'r> {
    run: PlanRun<'r>,
    pattern: u32,
}

/// Evaluates all units: first the lets in force in order, then the nodes pattern by pattern.
///
/// What an evaluation reads is let go with it: the memory grows with the nodes, each with a place for each pattern, and with what is
/// found at them.
pub fn evaluate<L: Ledger>(
    alloc: Global,
    plan: &Plan,
    tree: &Tree,
    steps: &mut Steps<L>,
) -> Result<Outcomes, AllocError>
    requires { IsSound plan.now }
    ensures lets { IfOk result (λ all. LetsHold plan.now tree.now.nodes all.lets) }
    ensures found { IfOk result (λ all. Holds plan.now tree.now.nodes all.found) }
    ensures raised { OnOk result (Raised plan.now tree.now.nodes (units_of plan.now tree.now.nodes) steps.old steps.new) }
    ensures at_most { steps.new ≤ steps.old + cost_of plan.now tree.now.nodes (units_of plan.now tree.now.nodes) }
    ensures steps { steps.old ≤ steps.new }
{
    lets_stand_in_order();
    let run = PlanRun {
        caller: Caller { alloc, tree },
        plan,
    };
    let mut all = no_outcomes(alloc, plan, tree)?;
    all.run(&run, steps)?;
    Ok(all)
}

/// No unit has an outcome yet.
fn no_outcomes(alloc: Global, plan: &Plan, tree: &Tree) -> Result<Outcomes, AllocError>
    requires { IsCounted plan.now }
    ensures lets { IfOk result (λ all. all.lets ≡ []) }
    ensures found { IfOk result (λ all. IsEmptyFor all.found (length plan.now.patterns)) }
{
    let found = Findings::for_nodes(alloc, plan.pattern_count(), tree.numbers_made())?;
    Ok(Outcomes {
        lets: Lets::new(alloc),
        found,
    })
}

/// Evaluates the lets in force in order, each under those before it.
fn run_lets<L: Ledger>(
    run: &PlanRun<'_>,
    lets: &mut Lets,
    steps: &mut Steps<L>,
) -> Result<(), AllocError>
    requires counted { IsCounted run.now.plan.now }
    requires none { lets.old ≡ [] }
    ensures lets { OnOk result (lets.new ≡ lets_of run.now.plan.now run.now.caller.tree.now.nodes) }
    ensures raised { OnOk result (Raised run.now.plan.now run.now.caller.tree.now.nodes (let_units run.now.plan.now) steps.old steps.new) }
    ensures spent { SpentOn run.now.plan.now run.now.caller.tree.now.nodes (let_units run.now.plan.now) steps.old steps.new }
{
    lets_stand_in_order();
    for slot in 0..run.plan.let_count() {
        set_let(run, slot, lets, steps)?;
    }
    Ok(())
}

/// Evaluates the let in force with a slot, where those before it have their outcomes.
fn set_let<L: Ledger>(
    run: &PlanRun<'_>,
    slot: u32,
    lets: &mut Lets,
    steps: &mut Steps<L>,
) -> Result<(), AllocError>
    requires in_force { slot < length run.now.plan.now.lets }
    requires before { lets.old ≡ take slot (lets_of run.now.plan.now run.now.caller.tree.now.nodes) }
    ensures lets { OnOk result (lets.new ≡ take (slot + 1) (lets_of run.now.plan.now run.now.caller.tree.now.nodes)) }
    ensures raised { OnOk result (Raised run.now.plan.now run.now.caller.tree.now.nodes (in_force slot ∷ []) steps.old steps.new) }
    ensures spent { SpentOn run.now.plan.now run.now.caller.tree.now.nodes (in_force slot ∷ []) steps.old steps.new }
{
    lets_stand_in_order();
    let caller = run.caller;
    let kept = run_let(caller.alloc, run.plan, caller.tree, slot, lets, steps)?;
    lets.set(slot, kept.value)
}

impl Outcomes {
    /// Evaluates all units where none has an outcome.
    fn run<L: Ledger>(&mut self, run: &PlanRun<'_>, steps: &mut Steps<L>) -> Result<(), AllocError>
        requires counted { IsCounted run.now.plan.now }
        requires no_let { self.old.lets ≡ [] }
        requires none { IsEmptyFor self.old.found (length run.now.plan.now.patterns) }
        ensures lets { OnOk result (self.new.lets ≡ lets_of run.now.plan.now run.now.caller.tree.now.nodes) }
        ensures found { OnOk result (Holds run.now.plan.now run.now.caller.tree.now.nodes self.new.found) }
        ensures raised { OnOk result (Raised run.now.plan.now run.now.caller.tree.now.nodes
            (units_of run.now.plan.now run.now.caller.tree.now.nodes) steps.old steps.new) }
        ensures spent { SpentOn run.now.plan.now run.now.caller.tree.now.nodes
            (units_of run.now.plan.now run.now.caller.tree.now.nodes) steps.old steps.new }
    {
        run.caller.tree.laws();
        run_lets(run, &mut self.lets, steps)?;
        self.run_patterns(run, steps)?;
        Ok(())
    }

    /// Evaluates the live nodes under each active pattern, pattern by pattern.
    fn run_patterns<L: Ledger>(
        &mut self,
        run: &PlanRun<'_>,
        steps: &mut Steps<L>,
    ) -> Result<(), AllocError>
        requires counted { IsCounted run.now.plan.now }
        requires lets { self.old.lets ≡ lets_of run.now.plan.now run.now.caller.tree.now.nodes }
        requires none { IsEmptyFor self.old.found (length run.now.plan.now.patterns) }
        ensures lets { self.new.lets ≡ self.old.lets }
        ensures found { OnOk result (HoldsTo run.now.plan.now run.now.caller.tree.now.nodes (length run.now.plan.now.patterns) 0 self.new.found) }
        ensures raised { OnOk result (Raised run.now.plan.now run.now.caller.tree.now.nodes
            (patterns_below run.now.caller.tree.now.nodes (length run.now.plan.now.patterns)) steps.old steps.new) }
        ensures spent { SpentOn run.now.plan.now run.now.caller.tree.now.nodes
            (patterns_below run.now.caller.tree.now.nodes (length run.now.plan.now.patterns)) steps.old steps.new }
    {
        for p in 0..run.plan.pattern_count() {
            let at = PatternRun {
                run: *run,
                pattern: p,
            };
            self.run_nodes(&at, steps)?;
        }
        Ok(())
    }

    /// Evaluates the live nodes under an active pattern, in the order of their numbers.
    fn run_nodes<L: Ledger>(
        &mut self,
        at: &PatternRun<'_>,
        steps: &mut Steps<L>,
    ) -> Result<(), AllocError>
        requires counted { IsCounted at.now.run.plan.now }
        requires active { at.now.pattern < length at.now.run.plan.now.patterns }
        requires lets { self.old.lets ≡ lets_of at.now.run.plan.now at.now.run.caller.tree.now.nodes }
        requires so_far { HoldsTo at.now.run.plan.now at.now.run.caller.tree.now.nodes at.now.pattern 0 self.old.found }
        ensures lets { self.new.lets ≡ self.old.lets }
        ensures found { OnOk result (HoldsTo at.now.run.plan.now at.now.run.caller.tree.now.nodes (at.now.pattern + 1) 0 self.new.found) }
        ensures raised { OnOk result (Raised at.now.run.plan.now at.now.run.caller.tree.now.nodes
            (node_units at.now.run.caller.tree.now.nodes at.now.pattern) steps.old steps.new) }
        ensures spent { SpentOn at.now.run.plan.now at.now.run.caller.tree.now.nodes
            (node_units at.now.run.caller.tree.now.nodes at.now.pattern) steps.old steps.new }
    {
        let alloc = at.run.caller.alloc;
        let mut matches = KeptMatches::new(alloc);
        let mut reads = Recorder::new(alloc);
        let done = self.run_numbers(at, &mut matches, &mut reads, steps);
        drop(reads);
        drop(matches);
        done
    }

    /// The same with what is kept of the pattern's rules, and a recorder that is lent to each evaluation.
    fn run_numbers<L: Ledger>(
        &mut self,
        at: &PatternRun<'_>,
        matches: &mut KeptMatches,
        reads: &mut Recorder,
        steps: &mut Steps<L>,
    ) -> Result<(), AllocError>
        requires counted { IsCounted at.now.run.plan.now }
        requires active { at.now.pattern < length at.now.run.plan.now.patterns }
        requires lets { self.old.lets ≡ lets_of at.now.run.plan.now at.now.run.caller.tree.now.nodes }
        requires so_far { HoldsTo at.now.run.plan.now at.now.run.caller.tree.now.nodes at.now.pattern 0 self.old.found }
        requires matches { AreKeptFor at.now.run.plan.now at.now.run.caller.tree.now at.now.pattern self.old.lets matches.old }
        ensures lets { self.new.lets ≡ self.old.lets }
        ensures found { OnOk result (HoldsTo at.now.run.plan.now at.now.run.caller.tree.now.nodes (at.now.pattern + 1) 0 self.new.found) }
        ensures raised { OnOk result (Raised at.now.run.plan.now at.now.run.caller.tree.now.nodes
            (node_units at.now.run.caller.tree.now.nodes at.now.pattern) steps.old steps.new) }
        ensures spent { SpentOn at.now.run.plan.now at.now.run.caller.tree.now.nodes
            (node_units at.now.run.caller.tree.now.nodes at.now.pattern) steps.old steps.new }
    {
        at.run.caller.tree.laws();
        for number in 0..at.run.caller.tree.numbers_made() {
            self.run_node(at, NodeId::from_number(number), matches, reads, steps)?;
        }
        Ok(())
    }

    /// Evaluates a node under an active pattern where it lives.
    fn run_node<L: Ledger>(
        &mut self,
        at: &PatternRun<'_>,
        n: NodeId,
        matches: &mut KeptMatches,
        reads: &mut Recorder,
        steps: &mut Steps<L>,
    ) -> Result<(), AllocError>
        requires counted { IsCounted at.now.run.plan.now }
        requires active { at.now.pattern < length at.now.run.plan.now.patterns }
        requires lets { self.old.lets ≡ lets_of at.now.run.plan.now at.now.run.caller.tree.now.nodes }
        requires so_far { HoldsTo at.now.run.plan.now at.now.run.caller.tree.now.nodes at.now.pattern n self.old.found }
        requires matches { AreKeptFor at.now.run.plan.now at.now.run.caller.tree.now at.now.pattern self.old.lets matches.old }
        ensures lets { self.new.lets ≡ self.old.lets }
        ensures matches { AreKeptFor at.now.run.plan.now at.now.run.caller.tree.now at.now.pattern self.old.lets matches.new }
        ensures found { OnOk result (HoldsTo at.now.run.plan.now at.now.run.caller.tree.now.nodes at.now.pattern (n + 1) self.new.found) }
        ensures raised { OnOk result (Raised at.now.run.plan.now at.now.run.caller.tree.now.nodes
            (under_node at.now.run.caller.tree.now.nodes at.now.pattern n) steps.old steps.new) }
        ensures spent { SpentOn at.now.run.plan.now at.now.run.caller.tree.now.nodes
            (under_node at.now.run.caller.tree.now.nodes at.now.pattern n) steps.old steps.new }
    {
        if at.run.caller.tree.contains(n) {
            return self.put_pair(at, n, matches, reads, steps);
        }
        Ok(())
    }

    /// Evaluates a live node under an active pattern, and puts its outcome.
    fn put_pair<L: Ledger>(
        &mut self,
        at: &PatternRun<'_>,
        n: NodeId,
        matches: &mut KeptMatches,
        reads: &mut Recorder,
        steps: &mut Steps<L>,
    ) -> Result<(), AllocError>
        requires counted { IsCounted at.now.run.plan.now }
        requires active { at.now.pattern < length at.now.run.plan.now.patterns }
        requires lets { self.old.lets ≡ lets_of at.now.run.plan.now at.now.run.caller.tree.now.nodes }
        requires patterns { self.old.found.patterns ≡ length at.now.run.plan.now.patterns }
        requires live { is_live at.now.run.caller.tree.now.nodes n ≡ true }
        requires matches { AreKeptFor at.now.run.plan.now at.now.run.caller.tree.now at.now.pattern self.old.lets matches.old }
        ensures lets { self.new.lets ≡ self.old.lets }
        ensures matches { AreKeptFor at.now.run.plan.now at.now.run.caller.tree.now at.now.pattern self.old.lets matches.new }
        ensures puts { OnOk result (Puts self.old.found self.new.found at.now.pattern n
            (Some (pair_outcome at.now.run.plan.now at.now.run.caller.tree.now.nodes at.now.pattern n))) }
        ensures raised { OnOk result (Raised at.now.run.plan.now at.now.run.caller.tree.now.nodes
            (under at.now.pattern n ∷ []) steps.old steps.new) }
        ensures spent { SpentOn at.now.run.plan.now at.now.run.caller.tree.now.nodes (under at.now.pattern n ∷ []) steps.old steps.new }
    {
        lets_stand_in_order();
        let outcome = at
            .run
            .outcome_of_pair(at.pattern, n, matches, &mut self.lets, reads, steps)?;
        self.found.put(at.pattern, n, outcome)
    }
}
