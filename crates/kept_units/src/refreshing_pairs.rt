//! The refresh of nodes under active patterns.

ghost use Rattle.std.specs.Prelude.{◌≡◌, ℕ, ◌*◌, ◌/◌, ◌<◌, ◌≤◌, true, false, length, IfOk, OnErr, OnOk};
ghost use Rattle.doc_tree.specs.Table.{is_live};
ghost use Rattle.sch_compiled.specs.Soundness.{IsCounted, IsSound};
ghost use Rattle.rule_run.specs.KeptMatches.{AreKeptFor};
ghost use Rattle.kept_reads.specs.Reads.{may_be_stale};
ghost use Rattle.kept_units.specs.Keeping.{place_of};
ghost use Rattle.kept_units.specs.inner.Refreshing.{CutsPair, IsReady, KeepsPair, NodesCut, NodesRefreshed, PairCut, PairStops, PairsAlone, PairsReady, PatternsCut, PatternsRefreshed, PutsPair, RefreshesPair, RunsPair, StepsOn, pair_runs};

use crate::kept_units::KeptUnits;
use cell_covers::without_covered;
use doc_tree::NodeId;
use kept_reads::place_in_row;
use kept_state::{refreshes_keep, rules_are_typed};
use rule_run::{Kept, KeptMatches, PlanRun, Recorder, run_pair_with};
use sch_compiled::Outcome;
use std::alloc::AllocError;
use std::sync::ledger::Ledger;
use xp_outcome::Steps;

/// What stays the same while the nodes under a pattern are refreshed: the plan and the tree, and the active pattern, counted from 0.
#[derive(Clone, Copy)]
pub(crate) struct PatternRun<'r> {
    run: PlanRun<'r>,
    pattern: u32,
}

impl KeptUnits {
    /// Evaluates the nodes under active patterns that are stale, pattern by pattern.
    pub(crate) fn refresh_patterns<L: Ledger>(
        &mut self,
        run: &PlanRun<'_>,
        steps: &mut Steps<L>,
    ) -> Result<(), AllocError>
        requires sound { IsSound run.now.plan.now }
        requires ready { PairsReady run.now.plan.now run.now.caller.tree.now.nodes self.old }
        requires places { length run.now.caller.tree.now.nodes * length run.now.plan.now.patterns ≤ length self.old.reads.entries }
        ensures refreshed { OnOk result (PatternsRefreshed run.now.plan.now run.now.caller.tree.now.nodes (length run.now.plan.now.patterns)
            self.old self.new steps.old steps.new) }
        ensures cut { OnErr result (PatternsCut run.now.plan.now run.now.caller.tree.now.nodes self.old self.new steps.old steps.new) }
    {
        refreshes_keep();
        run.caller.tree.laws();
        for p in 0..run.plan.pattern_count() {
            let at = PatternRun {
                run: *run,
                pattern: p,
            };
            self.refresh_pattern(&at, steps)?;
        }
        Ok(())
    }

    /// Evaluates the nodes under an active pattern that are stale, in the order of their numbers.
    fn refresh_pattern<L: Ledger>(
        &mut self,
        at: &PatternRun<'_>,
        steps: &mut Steps<L>,
    ) -> Result<(), AllocError>
        requires sound { IsSound at.now.run.plan.now }
        requires ready { IsReady at.now.run.plan.now at.now.run.caller.tree.now.nodes at.now.pattern self.old }
        requires pairs { PairsReady at.now.run.plan.now at.now.run.caller.tree.now.nodes self.old }
        ensures refreshed { OnOk result (NodesRefreshed at.now.run.plan.now at.now.run.caller.tree.now.nodes at.now.pattern
            (length at.now.run.caller.tree.now.nodes) self.old self.new steps.old steps.new) }
        ensures cut { OnErr result (NodesCut at.now.run.plan.now at.now.run.caller.tree.now.nodes at.now.pattern
            self.old self.new steps.old steps.new) }
    {
        let mut matches = KeptMatches::new(at.run.caller.alloc);
        let ended = self.refresh_nodes(at, &mut matches, steps);
        drop(matches);
        ended
    }

    /// Evaluates the nodes under an active pattern that are stale, with what is kept of the pattern's rules.
    fn refresh_nodes<L: Ledger>(
        &mut self,
        at: &PatternRun<'_>,
        matches: &mut KeptMatches,
        steps: &mut Steps<L>,
    ) -> Result<(), AllocError>
        requires sound { IsSound at.now.run.plan.now }
        requires ready { IsReady at.now.run.plan.now at.now.run.caller.tree.now.nodes at.now.pattern self.old }
        requires pairs { PairsReady at.now.run.plan.now at.now.run.caller.tree.now.nodes self.old }
        requires matches { AreKeptFor at.now.run.plan.now at.now.run.caller.tree.now at.now.pattern self.old.lets matches.old }
        ensures refreshed { OnOk result (NodesRefreshed at.now.run.plan.now at.now.run.caller.tree.now.nodes at.now.pattern
            (length at.now.run.caller.tree.now.nodes) self.old self.new steps.old steps.new) }
        ensures cut { OnErr result (NodesCut at.now.run.plan.now at.now.run.caller.tree.now.nodes at.now.pattern
            self.old self.new steps.old steps.new) }
    {
        refreshes_keep();
        at.run.caller.tree.laws();
        rules_are_typed(at.run.plan, at.pattern);
        let numbers = at.run.caller.tree.numbers_made();
        let mut number = 0;
        while number < numbers {
            let next = self.go_on(at, number, numbers, matches, steps)?;
            number = next;
        }
        Ok(())
    }

    /// Evaluates the node with a number under an active pattern where it is stale, and tells the number to go on with: behind nodes
    /// none of which is stale.
    fn go_on<L: Ledger>(
        &mut self,
        at: &PatternRun<'_>,
        number: u32,
        numbers: u32,
        matches: &mut KeptMatches,
        steps: &mut Steps<L>,
    ) -> Result<u32, AllocError>
        requires ready { IsReady at.now.run.plan.now at.now.run.caller.tree.now.nodes at.now.pattern self.old }
        requires made { numbers ≡ length at.now.run.caller.tree.now.nodes }
        requires within { number < numbers }
        requires matches { AreKeptFor at.now.run.plan.now at.now.run.caller.tree.now at.now.pattern self.old.lets matches.old }
        ensures later { IfOk result (λ next. number < next) }
        ensures at_most { IfOk result (λ next. next ≤ numbers) }
        ensures goes { IfOk result (λ next. StepsOn at.now.run.plan.now at.now.run.caller.tree.now.nodes at.now.pattern number next
            self.old self.new steps.old steps.new) }
        ensures stops { OnErr result (PairStops at.now.run.plan.now at.now.run.caller.tree.now.nodes at.now.pattern number
            self.old self.new steps.old steps.new) }
        ensures alone { PairsAlone self.old self.new }
        ensures matches { AreKeptFor at.now.run.plan.now at.now.run.caller.tree.now at.now.pattern self.old.lets matches.new }
    {
        if !self.reads.may_be_stale(number as usize) {
            return Ok(behind_block(number, numbers));
        }
        self.refresh_node(at, NodeId::from_number(number), matches, steps)?;
        Ok(number + 1)
    }

    /// Evaluates a node under an active pattern where it lives and is stale.
    fn refresh_node<L: Ledger>(
        &mut self,
        at: &PatternRun<'_>,
        n: NodeId,
        matches: &mut KeptMatches,
        steps: &mut Steps<L>,
    ) -> Result<(), AllocError>
        requires ready { IsReady at.now.run.plan.now at.now.run.caller.tree.now.nodes at.now.pattern self.old }
        requires made { n < length at.now.run.caller.tree.now.nodes }
        requires matches { AreKeptFor at.now.run.plan.now at.now.run.caller.tree.now at.now.pattern self.old.lets matches.old }
        ensures refreshes { OnOk result (RefreshesPair at.now.run.plan.now at.now.run.caller.tree.now.nodes at.now.pattern n
            self.old self.new steps.old steps.new) }
        ensures stops { OnErr result (PairStops at.now.run.plan.now at.now.run.caller.tree.now.nodes at.now.pattern n
            self.old self.new steps.old steps.new) }
        ensures alone { PairsAlone self.old self.new }
        ensures matches { AreKeptFor at.now.run.plan.now at.now.run.caller.tree.now at.now.pattern self.old.lets matches.new }
    {
        if !at.run.caller.tree.contains(n) {
            return Ok(());
        }
        if self.is_stale_pair(at, n) {
            return self.evaluate_pair(at, n, matches, steps);
        }
        Ok(())
    }

    /// Whether a node that was made is stale under the pattern.
    fn is_stale_pair(&self, at: &PatternRun<'_>, n: NodeId) -> bool
        requires { IsCounted at.now.run.plan.now }
        ensures { result ≡ pair_runs at.now.run.plan.now at.now.pattern n self.now }
    {
        let place = place_of(at, n);
        self.reads.is_stale(place)
    }

    /// Evaluates a live node that is stale under an active pattern, and keeps its outcome and what it read.
    fn evaluate_pair<L: Ledger>(
        &mut self,
        at: &PatternRun<'_>,
        n: NodeId,
        matches: &mut KeptMatches,
        steps: &mut Steps<L>,
    ) -> Result<(), AllocError>
        requires ready { IsReady at.now.run.plan.now at.now.run.caller.tree.now.nodes at.now.pattern self.old }
        requires live { is_live at.now.run.caller.tree.now.nodes n ≡ true }
        requires made { n < length at.now.run.caller.tree.now.nodes }
        requires stale { pair_runs at.now.run.plan.now at.now.pattern n self.old ≡ true }
        requires matches { AreKeptFor at.now.run.plan.now at.now.run.caller.tree.now at.now.pattern self.old.lets matches.old }
        ensures runs { OnOk result (RunsPair at.now.run.plan.now at.now.run.caller.tree.now.nodes at.now.pattern n
            self.old self.new steps.old steps.new) }
        ensures cuts { OnErr result (CutsPair at.now.run.plan.now at.now.run.caller.tree.now.nodes at.now.pattern n
            self.old self.new steps.old steps.new) }
        ensures alone { PairsAlone self.old self.new }
        ensures matches { AreKeptFor at.now.run.plan.now at.now.run.caller.tree.now at.now.pattern self.old.lets matches.new }
    {
        let kept = run_pair_with(&at.run, at.pattern, n, matches, &mut self.lets, steps)?;
        self.keep_pair(at, n, kept)
    }

    /// Keeps the outcome of a stale node under an active pattern, and what it read but for covered cells. For want of memory the node is
    /// still stale.
    fn keep_pair(&mut self, at: &PatternRun<'_>, n: NodeId, kept: Kept) -> Result<(), AllocError>
        requires ready { IsReady at.now.run.plan.now at.now.run.caller.tree.now.nodes at.now.pattern self.old }
        requires made { n < length at.now.run.caller.tree.now.nodes }
        requires stale { pair_runs at.now.run.plan.now at.now.pattern n self.old ≡ true }
        ensures keeps { OnOk result (KeepsPair at.now.run.plan.now at.now.run.caller.tree.now.nodes kept.outcome kept.reads at.now.pattern n
            self.old self.new) }
        ensures cut { OnErr result (PairCut at.now.pattern n self.old self.new) }
        ensures alone { PairsAlone self.old self.new }
    {
        let Kept { outcome, reads } = kept;
        let caller = at.run.caller;
        match without_covered(caller.alloc, caller.tree, reads) {
            Ok(held) => self.put_pair(at, n, outcome, held),
            Err(error) => {
                drop(outcome);
                Err(error)
            }
        }
    }

    /// Puts the outcome of a stale node under an active pattern, and what it read.
    fn put_pair(
        &mut self,
        at: &PatternRun<'_>,
        n: NodeId,
        outcome: Outcome,
        held: Recorder,
    ) -> Result<(), AllocError>
        requires ready { IsReady at.now.run.plan.now at.now.run.caller.tree.now.nodes at.now.pattern self.old }
        requires made { n < length at.now.run.caller.tree.now.nodes }
        requires stale { pair_runs at.now.run.plan.now at.now.pattern n self.old ≡ true }
        ensures puts { OnOk result (PutsPair at.now.run.plan.now outcome held at.now.pattern n self.old self.new) }
        ensures cut { OnErr result (PairCut at.now.pattern n self.old self.new) }
        ensures alone { PairsAlone self.old self.new }
    {
        let place = self.place(at, n);
        match self.found.put(at.pattern, n, outcome) {
            Ok(()) => self.reads.put(at.run.caller.alloc, place, held),
            Err(error) => {
                drop(held);
                Err(error)
            }
        }
    }

    /// Where what a node read under the pattern stands, of a node that was made.
    fn place(&self, at: &PatternRun<'_>, n: NodeId) -> usize
        requires ready { IsReady at.now.run.plan.now at.now.run.caller.tree.now.nodes at.now.pattern self.now }
        requires made { n < length at.now.run.caller.tree.now.nodes }
        ensures value { result ≡ place_of at.now.run.plan.now at.now.pattern n }
        ensures within { result < length self.now.reads.entries }
    {
        place_of(at, n)
    }
}

/// Where what a node read under the pattern stands.
fn place_of(at: &PatternRun<'_>, n: NodeId) -> usize
    requires counted { IsCounted at.now.run.plan.now }
    ensures { result ≡ place_of at.now.run.plan.now at.now.pattern n }
{
    place_in_row(n, at.run.plan.pattern_count(), at.pattern)
}

/// The number behind the block of nodes in which a number stands, or the end of all numbers.
fn behind_block(number: u32, numbers: u32) -> u32
    requires { number < numbers }
    ensures later { number < result }
    ensures at_most { result ≤ numbers }
    ensures block { (m : ℕ) → number ≤ m → m < result → m / 64 ≡ number / 64 }
{
    number + (64 - number % 64).min(numbers - number)
}
