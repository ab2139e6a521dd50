//! What is kept of units.

ghost use Rattle.std.specs.Prelude.{◌≡◌, ◌≤◌, ℕ, ◌*◌, ◌+◌, ◌<◌, length, IfOk, OnOk, OnErr, None};
ghost use Rattle.doc_tree.specs.Table.{Table};
ghost use Rattle.sch_compiled.specs.Soundness.{IsCounted, IsSound};
ghost use Rattle.edit_costs.specs.Costs.{Raised, cost_of};
ghost use Rattle.edit_costs.specs.Units.{ValidationUnit};
ghost use Rattle.kept_state.specs.Kept.{Keeps};
ghost use Rattle.kept_state.specs.Running.{GoesOn, IsFresh, to_run};
ghost use Rattle.kept_units.specs.Keeping.{IsHeld, seen_in};
ghost use Rattle.kept_units.specs.inner.Refreshing.{HasPlaces, PassesNodes, Reaches, UnitsDone, UnitsGo};

use doc_tree::Tree;
use kept_reads::KeptReads;
use kept_state::{nothing_keeps, refreshes_keep};
use rule_run::{Caller, Lets, PlanRun};
use sch_compiled::{Findings, Plan};
use std::alloc::{AllocError, Global};
use std::sync::ledger::Ledger;
use xp_outcome::Steps;

/// The units of a plan over a tree: what each gave and read when it was last evaluated.
///
/// An active pattern and a node take the place `n * patterns + p`, so that a new node only adds places; of a node that was deleted
/// nothing is asked any more.
pub struct KeptUnits {
    /// The outcomes of the lets in force, each in its slot.
    pub(crate) lets: Lets,
    /// What each let in force read, in its slot.
    pub(crate) let_reads: KeptReads,
    /// The outcome of each node under each active pattern.
    pub(crate) found: Findings,
    /// What each node read under each active pattern, in a row for each node.
    pub(crate) reads: KeptReads,
}

impl KeptUnits {
    /// Nothing is kept: all units are stale.
    pub fn new(alloc: Global, plan: &Plan) -> Result<KeptUnits, AllocError>
        requires { IsSound plan.now }
        ensures held { IfOk result (λ kept. (T : Table) → IsHeld plan.now T kept) }
        ensures keeps { IfOk result (λ kept. (T : Table) → Keeps plan.now T (seen_in kept)) }
        ensures stale { IfOk result (λ kept. (unit : ValidationUnit) → (seen_in kept).reads unit ≡ None) }
    {
        nothing_keeps();
        Ok(KeptUnits {
            lets: Lets::new(alloc),
            let_reads: KeptReads::new(alloc),
            found: Findings::new(alloc, plan.pattern_count())?,
            reads: KeptReads::new(alloc),
        })
    }

    /// Evaluates the stale units, and those that read a let whose outcome has changed: first the lets in force in order, then the
    /// nodes pattern by pattern.
    ///
    /// Costs the visits of these units, and for each pattern a look at each block of 64 nodes, and at the nodes of a block that may have
    /// a stale one; where a let has another outcome, a look at all units. After want of memory the units that were evaluated are
    /// kept, and a later call goes on.
    pub fn refresh<L: Ledger>(
        &mut self,
        alloc: Global,
        plan: &Plan,
        tree: &Tree,
        steps: &mut Steps<L>,
    ) -> Result<(), AllocError>
        requires sound { IsSound plan.now }
        requires held { IsHeld plan.now tree.now.nodes self.old }
        requires keeps { Keeps plan.now tree.now.nodes (seen_in self.old) }
        ensures held { IsHeld plan.now tree.now.nodes self.new }
        ensures fresh { OnOk result (IsFresh plan.now tree.now.nodes (seen_in self.new)) }
        ensures raised { OnOk result (Raised plan.now tree.now.nodes (to_run plan.now tree.now.nodes (seen_in self.old)) steps.old steps.new) }
        ensures goes_on { GoesOn plan.now tree.now.nodes (seen_in self.old) (seen_in self.new) }
        ensures at_most { steps.new ≤ steps.old + cost_of plan.now tree.now.nodes (to_run plan.now tree.now.nodes (seen_in self.old)) }
        ensures steps { steps.old ≤ steps.new }
    {
        let run = PlanRun {
            caller: Caller { alloc, tree },
            plan,
        };
        self.make_places(&run)?;
        self.refresh_units(&run, steps)?;
        self.pass_nodes(tree);
        Ok(())
    }

    /// The outcomes of the lets in force, each in its slot.
    pub fn lets(&self) -> &Lets
        ensures { result.now ≡ self.now.lets }
    {
        &self.lets
    }

    /// The outcome of each node under each active pattern.
    pub fn found(&self) -> &Findings
        ensures { result.now ≡ self.now.found }
    {
        &self.found
    }

    /// Evaluates the stale units, and those that read a let whose outcome has changed, where all have places.
    fn refresh_units<L: Ledger>(
        &mut self,
        run: &PlanRun<'_>,
        steps: &mut Steps<L>,
    ) -> Result<(), AllocError>
        requires sound { IsSound run.now.plan.now }
        requires held { IsHeld run.now.plan.now run.now.caller.tree.now.nodes self.old }
        requires keeps { Keeps run.now.plan.now run.now.caller.tree.now.nodes (seen_in self.old) }
        requires places { HasPlaces run.now.plan.now run.now.caller.tree.now.nodes self.old }
        ensures go { UnitsGo run.now.plan.now run.now.caller.tree.now.nodes self.old self.new steps.old steps.new }
        ensures done { OnOk result (UnitsDone run.now.plan.now run.now.caller.tree.now.nodes self.old self.new steps.old steps.new) }
    {
        refreshes_keep();
        run.caller.tree.laws();
        self.refresh_lets(run, steps)?;
        self.refresh_patterns(run, steps)
    }

    /// No node that was made is stale under a pattern.
    fn pass_nodes(&mut self, tree: &Tree)
        ensures { PassesNodes tree.now.nodes self.old self.new }
    {
        let numbers = tree.numbers_made();
        self.reads.pass(numbers as usize);
    }

    /// Makes places for all units, with nothing in those that are new.
    fn make_places(&mut self, run: &PlanRun<'_>) -> Result<(), AllocError>
        requires { IsCounted run.now.plan.now }
        ensures reaches { Reaches run.now.plan.now run.now.caller.tree.now.nodes self.old self.new }
        ensures places { OnOk result (HasPlaces run.now.plan.now run.now.caller.tree.now.nodes self.new) }
    {
        let plan = run.plan;
        let numbers = run.caller.tree.numbers_made();
        self.let_reads.prepare(plan.let_count() as usize)?;
        self.reads
            .prepare(numbers as usize * plan.pattern_count() as usize)
    }
}

impl Drop for KeptUnits {
    fn drop(self) {
        let KeptUnits {
            lets,
            let_reads,
            found,
            reads,
        } = self;
        drop(lets);
        drop(let_reads);
        drop(found);
        drop(reads);
    }
}
