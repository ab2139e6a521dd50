//! The refresh of the lets in force.

ghost use Rattle.std.specs.Prelude.{◌≡◌, ℕ, ◌<◌, ◌≤◌, false, length, IfOk, OnErr, OnOk, IfSome, Some, slice_get};
ghost use Rattle.xp_outcome.specs.Slots.{in_slot};
ghost use Rattle.sch_compiled.specs.Soundness.{IsCounted, IsSound};
ghost use Rattle.sch_units.specs.Units.{unit_let};
ghost use Rattle.edit_costs.specs.SameOutcome.{same_outcome};
ghost use Rattle.kept_state.specs.Kept.{Keeps};
ghost use Rattle.kept_reads.specs.Forgetting.{flag_at};
ghost use Rattle.kept_units.specs.Keeping.{IsHeld, seen_in};
ghost use Rattle.kept_units.specs.inner.Refreshing.{CutsLet, HasPlaces, KeepsLet, LetCut, LetStops, LetsCut, LetsDone, LetsGo, LetsRefreshed, RefreshesLet, RunsLet, SetsLet};
ghost use Rattle.kept_units.specs.inner.Forgetting.{ForgetsAll, ForgetsPairs};

use crate::kept_units::KeptUnits;
use cell_covers::without_covered;
use edit_costs::{lets_need_those_before, same_outcomes_are_equal};
use kept_state::refreshes_keep;
use rule_run::{KeptLet, Lets, PlanRun, Recorder, run_let};
use sch_compiled::Plan;
use sch_units::lets_stand_in_order;
use std::alloc::{AllocError, Global};
use std::sync::ledger::Ledger;
use xp_outcome::Steps;
use xp_values::{EvalFault, Value, same_value};

impl KeptUnits {
    /// Evaluates the lets in force that are stale or read a let whose outcome has changed, in order. Whatever stops that, each unit
    /// is forgotten afterwards that read a let whose outcome has changed and wasn't evaluated since.
    pub(crate) fn refresh_lets<L: Ledger>(
        &mut self,
        run: &PlanRun<'_>,
        steps: &mut Steps<L>,
    ) -> Result<(), AllocError>
        requires sound { IsSound run.now.plan.now }
        requires held { IsHeld run.now.plan.now run.now.caller.tree.now.nodes self.old }
        requires keeps { Keeps run.now.plan.now run.now.caller.tree.now.nodes (seen_in self.old) }
        requires places { HasPlaces run.now.plan.now run.now.caller.tree.now.nodes self.old }
        ensures go { LetsGo run.now.plan.now run.now.caller.tree.now.nodes self.old self.new steps.old steps.new }
        ensures done { OnOk result (LetsDone run.now.plan.now run.now.caller.tree.now.nodes self.old self.new steps.old steps.new) }
    {
        refreshes_keep();
        lets_stand_in_order();
        run.caller.tree.laws();
        let mut changed = no_flags(run.caller.alloc, run.plan.let_count())?;
        let ended = self.run_lets(run, &mut changed, steps);
        self.forget_changed(&ended, &changed, run.plan);
        drop(changed);
        ended
    }

    /// Evaluates the lets in force that are stale or read a let whose outcome has changed, in order, and sets the flag of each whose
    /// outcome has changed.
    fn run_lets<L: Ledger>(
        &mut self,
        run: &PlanRun<'_>,
        changed: &mut Vec<bool>,
        steps: &mut Steps<L>,
    ) -> Result<(), AllocError>
        requires sound { IsSound run.now.plan.now }
        requires keeps { Keeps run.now.plan.now run.now.caller.tree.now.nodes (seen_in self.old) }
        requires places { HasPlaces run.now.plan.now run.now.caller.tree.now.nodes self.old }
        requires count { length changed.old.items ≡ length run.now.plan.now.lets }
        requires unset { (slot : ℕ) → flag_at changed.old.items slot ≡ false }
        ensures refreshed { OnOk result (LetsRefreshed run.now.plan.now run.now.caller.tree.now.nodes (length run.now.plan.now.lets)
            self.old self.new changed.new.items steps.old steps.new) }
        ensures cut { OnErr result (LetsCut run.now.plan.now run.now.caller.tree.now.nodes self.old self.new changed.new.items steps.old steps.new) }
    {
        refreshes_keep();
        lets_need_those_before();
        same_outcomes_are_equal();
        lets_stand_in_order();
        run.caller.tree.laws();
        for l in 0..run.plan.let_count() {
            self.refresh_let(run, l, changed, steps)?;
        }
        Ok(())
    }

    /// Evaluates the let in force with a slot where that is to be, under those before it.
    fn refresh_let<L: Ledger>(
        &mut self,
        run: &PlanRun<'_>,
        l: u32,
        changed: &mut Vec<bool>,
        steps: &mut Steps<L>,
    ) -> Result<(), AllocError>
        requires in_force { l < length run.now.plan.now.lets }
        requires place { l < length self.old.let_reads.entries }
        requires flag { l < length changed.old.items }
        ensures refreshes { OnOk result (RefreshesLet run.now.plan.now run.now.caller.tree.now.nodes l
            self.old self.new changed.old.items changed.new.items steps.old steps.new) }
        ensures stops { OnErr result (LetStops run.now.plan.now run.now.caller.tree.now.nodes l
            self.old self.new changed.old.items changed.new.items steps.old steps.new) }
    {
        if self.let_reads.is_stale_by(l as usize, changed) {
            return self.evaluate_let(run, l, changed, steps);
        }
        Ok(())
    }

    /// Evaluates the let in force with a slot, keeps its outcome and what it read, and sets its flag where the outcome has changed.
    fn evaluate_let<L: Ledger>(
        &mut self,
        run: &PlanRun<'_>,
        l: u32,
        changed: &mut Vec<bool>,
        steps: &mut Steps<L>,
    ) -> Result<(), AllocError>
        requires in_force { l < length run.now.plan.now.lets }
        requires place { l < length self.old.let_reads.entries }
        requires flag { l < length changed.old.items }
        ensures runs { OnOk result (IfSome (slice_get run.now.plan.now.lets l) (λ t.
            RunsLet run.now.caller.tree.now.nodes (unit_let run.now.caller.tree.now.nodes self.old.lets t.expr) l self.old self.new changed.old.items
            changed.new.items steps.old steps.new)) }
        ensures cuts { OnErr result (IfSome (slice_get run.now.plan.now.lets l) (λ t.
            CutsLet (unit_let run.now.caller.tree.now.nodes self.old.lets t.expr) l self.old self.new changed.old.items changed.new.items steps.old
            steps.new)) }
    {
        let caller = run.caller;
        let kept = run_let(caller.alloc, run.plan, caller.tree, l, &self.lets, steps)?;
        self.keep_let(run, l, kept, changed)
    }

    /// Keeps the outcome of the let in force with a slot, and what it read but for covered cells, and sets its flag where the outcome has
    /// changed. For want of memory all stays, or the let has its outcome and is stale.
    fn keep_let(
        &mut self,
        run: &PlanRun<'_>,
        l: u32,
        kept: KeptLet,
        changed: &mut Vec<bool>,
    ) -> Result<(), AllocError>
        requires place { l < length self.old.let_reads.entries }
        requires flag { l < length changed.old.items }
        ensures keeps { OnOk result (KeepsLet run.now.caller.tree.now.nodes kept.value kept.reads l
            self.old self.new changed.old.items changed.new.items) }
        ensures cut { OnErr result (LetCut kept.value l self.old self.new changed.old.items changed.new.items) }
    {
        let KeptLet { value, reads } = kept;
        let caller = run.caller;
        match without_covered(caller.alloc, caller.tree, reads) {
            Ok(held) => self.set_let(caller.alloc, l, value, held, changed),
            Err(error) => {
                drop(value);
                Err(error)
            }
        }
    }

    /// Sets the outcome of the let in force with a slot, and its flag where that has changed, and keeps what it read.
    fn set_let(
        &mut self,
        alloc: Global,
        l: u32,
        value: Result<Value, EvalFault>,
        held: Recorder,
        changed: &mut Vec<bool>,
    ) -> Result<(), AllocError>
        requires place { l < length self.old.let_reads.entries }
        requires flag { l < length changed.old.items }
        ensures sets { OnOk result (SetsLet value l (Some held) self.old self.new changed.old.items changed.new.items) }
        ensures cut { OnErr result (LetCut value l self.old self.new changed.old.items changed.new.items) }
    {
        let same = is_same_outcome(&self.lets, l, &value);
        self.lets.set(l, value)?;
        changed[l as usize] = !same;
        self.let_reads.put(alloc, l as usize, held)
    }

    /// Forgets the units that read a let for which a flag is set: where the lets were all refreshed, the nodes under patterns alone.
    fn forget_changed(&mut self, ended: &Result<(), AllocError>, changed: &Vec<bool>, plan: &Plan)
        requires { IsCounted plan.now }
        ensures pairs { OnOk ended.now (ForgetsPairs changed.now.items plan.now self.old self.new) }
        ensures all { OnErr ended.now (ForgetsAll changed.now.items plan.now self.old self.new) }
    {
        match ended {
            Ok(()) => self.forget_pairs(changed, plan),
            Err(_) => self.forget_all(changed, plan),
        }
    }

    /// Forgets the nodes under patterns that read a let for which a flag is set.
    fn forget_pairs(&mut self, changed: &Vec<bool>, plan: &Plan)
        requires { IsCounted plan.now }
        ensures { ForgetsPairs changed.now.items plan.now self.old self.new }
    {
        let patterns = plan.pattern_count();
        if patterns > 0 {
            self.reads.forget_readers(changed, patterns);
        }
    }

    /// Forgets all units that read a let for which a flag is set.
    fn forget_all(&mut self, changed: &Vec<bool>, plan: &Plan)
        requires { IsCounted plan.now }
        ensures { ForgetsAll changed.now.items plan.now self.old self.new }
    {
        self.let_reads.forget_readers(changed, 1);
        self.forget_pairs(changed, plan);
    }
}

/// A flag for each of so many lets, none of which is set.
fn no_flags(alloc: Global, count: u32) -> Result<Vec<bool>, AllocError>
    ensures count { IfOk result (λ flags. length flags.items ≡ count) }
    ensures unset { IfOk result (λ flags. (slot : ℕ) → flag_at flags.items slot ≡ false) }
{
    let mut flags = Vec::new(alloc);
    flags.resize(count as usize, false)?;
    Ok(flags)
}

/// Whether an outcome is the one that is kept in a slot, where one is.
fn is_same_outcome(lets: &Lets, l: u32, outcome: &Result<Value, EvalFault>) -> bool
    ensures { result ≡ same_outcome (in_slot lets.now l) (Some outcome.now) }
{
    match (lets.get(l), outcome) {
        (Some(Ok(kept)), Ok(value)) => same_value(kept, value),
        (Some(Err(kept)), Err(fault)) => *kept == *fault,
        _ => false,
    }
}
