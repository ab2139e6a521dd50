//! The session of an editor.

ghost use Rattle.std.specs.Prelude.{◌≡◌, ℕ, ◌+◌, ◌<◌, ◌≤◌, true, false, filter, length, IfErr, IfOk, OnErr, OnOk};
ghost use Rattle.doc_tree.specs.Kinds.{is_document};
ghost use Rattle.doc_tree.specs.Laws.{WellFormed};
ghost use Rattle.doc_tree.specs.Walks.{order};
ghost use Rattle.doc_edit_laws.specs.Along.{Edit};
ghost use Rattle.name_scopes.specs.Scoping.{InScope};
ghost use Rattle.edit_script.specs.WellFormed.{WellFormedCommand};
ghost use Rattle.edit_commands.specs.Commands.{IsEdited, RefusesCommand, command_refusal};
ghost use Rattle.edit_commands.specs.Touched.{touched_by};
ghost use Rattle.sch_compiled.specs.Soundness.{IsCounted, IsSound};
ghost use Rattle.kept_units.specs.Locality.{RulesTyped};
ghost use Rattle.kept_units.specs.Costs.{Raised, cost_of};
ghost use Rattle.kept_units.specs.Dirty.{dirty_units};
ghost use Rattle.kept_units.specs.Units.{units_of};
ghost use Rattle.kept_units.specs.Kept.{Keeps};
ghost use Rattle.kept_units.specs.Running.{GoesOn, IsFresh, is_stale, to_run};
ghost use Rattle.kept_units.specs.Steps.{Marks};
ghost use Rattle.edit_session.specs.Counts.{counts_of};
ghost use Rattle.edit_session.specs.Pairs.{has_too_many_pairs, pair_cap_for};
ghost use Rattle.edit_session.specs.Standing.{RefusesOpening, seen_by};
ghost use Rattle.edit_session.specs.Wrote.{RoseBy, UnlessMemory, WroteState};

use crate::counting::{Counts, count_outcomes};
use crate::laws::pair_cap_is_for_pairs;
use crate::pairs::{has_too_many_pairs, pair_cap_for};
use crate::refusal::OpenRefusal;
use crate::state::{ReportError, write_outcomes};
use cover_laws::names_are_touched_alike;
use doc_tree::Tree;
use edit_cap_laws::edits_stay_within;
use edit_commands::{ApplyError, apply_to};
use edit_script::Command;
use kept_units::{KeptUnits, dirty_are_run, edits_keep, evaluate, rules_are_typed};
use sch_compiled::Plan;
use sch_io::Sink;
use std::alloc::{AllocError, Global};
use std::marker::Model;
use std::sync::ledger::Ledger;
use svrl_out::Shown;
use xp_outcome::Steps;

/// A document under a plan, which commands edit and whose state is written at any time.
///
/// Its units are the lets in force, and the live nodes under each active pattern. What each gave and read is kept, so that after an
/// edit those alone are evaluated anew that read what it touched. Contracts see the plan, the tree, and what is kept.
pub struct Session {
    alloc: Global,
    plan: Plan,
    tree: Tree,
    /// What the units gave and read.
    kept: KeptUnits,
}

impl Model for Session {
    ghost use Rattle.std.specs.Coded.{codes};
    ghost use Rattle.xp_typed_tree.specs.contracts.typed.Typed as typed;
    ghost use Rattle.xp_typed_tree.specs.contracts.typed.TypedPattern as typed_pattern;
    ghost use Rattle.sch_compiled.specs.contracts.findings.Findings as findings;
    ghost use Rattle.xp_outcome.specs.contracts.recorder.Recorder as recorder;
    ghost use Rattle.edit_session.specs.Standing.{Standing};

    ghost Value = { Standing };

    ghost coded = { Prim.hlevel (codes, typed.the_row.coded, typed_pattern.the_row.coded, findings.the_row.coded, recorder.the_row.coded) };

    ghost use Rattle.edit_session.specs.inner.Kept.{Stands, standing};

    ghost view = { standing };

    ghost invariant = { Stands };
}

impl Session {
    /// Opens a document under a plan. Nothing is evaluated yet; the tree gets the plan's pair cap, beyond which no edit adds live
    /// nodes. Costs a look at each rule of the plan.
    pub fn open(alloc: Global, plan: Plan, tree: Tree) -> Result<Session, OpenRefusal>
        requires document { is_document tree.nodes ≡ true }
        requires sound { IsSound plan }
        ensures plan { IfOk result (λ session. session.plan ≡ plan) }
        ensures tree { IfOk result (λ session. session.tree ≡ record tree { pair_cap = pair_cap_for plan }) }
        ensures unrun { IfOk result (λ session. to_run plan tree.nodes (seen_by session) ≡ units_of plan tree.nodes) }
        ensures within { OnOk result (has_too_many_pairs plan tree.nodes ≡ false) }
        ensures refused { IfErr result (RefusesOpening plan tree.nodes) }
    {
        if has_too_many_pairs(&plan, &tree) {
            return Err(OpenRefusal::TooManyPairs);
        }
        pair_cap_is_for_pairs();
        tree.laws();
        patterns_are_typed(&plan);
        let kept = match KeptUnits::new(alloc, &plan) {
            Ok(kept) => kept,
            Err(_) => return Err(OpenRefusal::Memory),
        };
        let mut tree = tree;
        tree.set_pair_cap(pair_cap_for(&plan));
        Ok(Session {
            alloc,
            plan,
            tree,
            kept,
        })
    }

    /// The document.
    pub fn tree(&self) -> &Tree
        ensures { result.now ≡ self.now.tree }
    {
        &self.tree
    }

    /// What holds of each session: its tree is a document, its plan is sound with well typed rules, the tree's pair cap is the plan's,
    /// no more nodes live, and what is kept of its units is the state.
    pub fn laws(&self)
        ensures document { is_document self.now.tree.nodes ≡ true }
        ensures well_formed { WellFormed self.now.tree.nodes }
        ensures sound { IsSound self.now.plan }
        ensures typed { (p : ℕ) → p < length self.now.plan.patterns → RulesTyped self.now.plan p }
        ensures cap { self.now.tree.pair_cap ≡ pair_cap_for self.now.plan }
        ensures within { length (order self.now.tree.nodes) ≤ self.now.tree.pair_cap }
        ensures keeps { Keeps self.now.plan self.now.tree.nodes (seen_by self.now) }
    {
        self.tree.laws();
    }

    /// How many units are stale: those that were not evaluated yet, and those that read what an edit has touched since.
    ///
    /// Looks at each of them.
    pub fn stale_count(&self) -> u64
        ensures { result ≡ length (filter (is_stale (seen_by self.now)) (units_of self.now.plan self.now.tree.nodes)) }
    {
        self.kept.stale_count(&self.plan, &self.tree)
    }

    /// Does a command of an edit script on the document, and marks the units that it touches as stale.
    ///
    /// A refused command changes nothing, nor does one that finds no memory; marking takes none. Costs what the edit of the tree
    /// costs, and a look at what those units read that read something touched. Another name also costs a look at the siblings, and
    /// at each node that was made where a unit read names along `following` or `preceding`.
    pub fn apply(&mut self, command: &Command) -> Result<(), ApplyError>
        requires formed { WellFormedCommand command.now }
        ensures within { OnOk result (command_refusal self.old.tree command.now ≡ None) }
        ensures edited { OnOk result (IsEdited self.old.tree.nodes command.now self.new.tree.nodes) }
        ensures edit { OnOk result (Edit self.old.tree.nodes self.new.tree.nodes (touched_by self.old.tree.nodes command.now)) }
        ensures dirty { OnOk result (IsFresh self.old.plan self.old.tree.nodes (seen_by self.old) →
            to_run self.old.plan self.new.tree.nodes (seen_by self.new) ≡
            dirty_units self.old.plan self.old.tree.nodes self.new.tree.nodes (touched_by self.old.tree.nodes command.now)) }
        ensures marked { OnOk result (Marks self.old.tree.nodes (touched_by self.old.tree.nodes command.now) (seen_by self.old) (seen_by self.new)) }
        ensures scope { InScope self.old.tree.nodes → InScope self.new.tree.nodes }
        ensures document { is_document self.new.tree.nodes ≡ true }
        ensures refused { IfErr result (RefusesCommand self.old.tree command.now) }
        ensures unchanged { OnErr result (self.new ≡ self.old) }
        ensures plan { self.new.plan ≡ self.old.plan }
        ensures cap { self.new.tree.pair_cap ≡ self.old.tree.pair_cap }
    {
        edits_keep();
        edits_stay_within();
        dirty_are_run();
        names_are_touched_alike();
        self.tree.laws();
        match apply_to(self.alloc, &mut self.tree, command) {
            Ok(touched) => {
                self.kept.mark(&self.tree, &touched);
                Ok(())
            }
            Err(error) => Err(error),
        }
    }

    /// Evaluates the stale units, and those that read a let whose outcome has changed; all units, where they were not evaluated yet.
    ///
    /// Costs the visits of these units, and a look at the nodes beside the stale ones; at all where a let has another outcome. The
    /// memory grows with the active patterns times the nodes. After want of memory the units that were evaluated are kept, and a later
    /// call goes on.
    pub fn refresh<L: Ledger>(&mut self, steps: &mut Steps<L>) -> Result<(), AllocError>
        ensures plan { self.new.plan ≡ self.old.plan }
        ensures tree { self.new.tree ≡ self.old.tree }
        ensures fresh { OnOk result (IsFresh self.old.plan self.old.tree.nodes (seen_by self.new)) }
        ensures raised { OnOk result (Raised self.old.plan self.old.tree.nodes
            (to_run self.old.plan self.old.tree.nodes (seen_by self.old)) steps.old steps.new) }
        ensures goes_on { GoesOn self.old.plan self.old.tree.nodes (seen_by self.old) (seen_by self.new) }
        ensures at_most { steps.new ≤ steps.old + cost_of self.old.plan self.old.tree.nodes (to_run self.old.plan self.old.tree.nodes (seen_by self.old)) }
        ensures steps { steps.old ≤ steps.new }
    {
        self.kept.refresh(self.alloc, &self.plan, &self.tree, steps)
    }

    /// Evaluates what `refresh` does, and writes the state: the report, or the line of the first fault; answers what it shows.
    ///
    /// After an error a front of it was written; the units that were evaluated are kept.
    pub fn report<O: Sink, L: Ledger>(
        &mut self,
        sink: &mut O,
        steps: &mut Steps<L>,
    ) -> Result<Shown, ReportError>
        ensures wrote { WroteState (O.log sink.old) (O.log sink.new) self.old.plan self.old.tree.nodes result }
        ensures tree { self.new.tree ≡ self.old.tree }
        ensures plan { self.new.plan ≡ self.old.plan }
        ensures fresh { UnlessMemory result (IsFresh self.old.plan self.old.tree.nodes (seen_by self.new)) }
        ensures raised { UnlessMemory result (Raised self.old.plan self.old.tree.nodes
            (to_run self.old.plan self.old.tree.nodes (seen_by self.old)) steps.old steps.new) }
        ensures exactly { RoseBy (cost_of self.old.plan self.old.tree.nodes
            (to_run self.old.plan self.old.tree.nodes (seen_by self.old))) steps.old steps.new result }
        ensures goes_on { GoesOn self.old.plan self.old.tree.nodes (seen_by self.old) (seen_by self.new) }
        ensures at_most { steps.new ≤ steps.old + cost_of self.old.plan self.old.tree.nodes (to_run self.old.plan self.old.tree.nodes (seen_by self.old)) }
        ensures steps { steps.old ≤ steps.new }
    {
        self.tree.laws();
        self.refresh(steps)?;
        self.write_kept(sink)
    }

    /// Evaluates all units, and writes the state as `report` does; what they gave and read is let go. For a document that no command
    /// is to edit: takes far less memory than what `report` keeps.
    ///
    /// After an error a front of it was written.
    pub fn report_once<O: Sink, L: Ledger>(
        &self,
        sink: &mut O,
        steps: &mut Steps<L>,
    ) -> Result<Shown, ReportError>
        ensures wrote { WroteState (O.log sink.old) (O.log sink.new) self.now.plan self.now.tree.nodes result }
        ensures raised { UnlessMemory result (Raised self.now.plan self.now.tree.nodes (units_of self.now.plan self.now.tree.nodes) steps.old steps.new) }
        ensures exactly { RoseBy (cost_of self.now.plan self.now.tree.nodes (units_of self.now.plan self.now.tree.nodes)) steps.old steps.new result }
        ensures at_most { steps.new ≤ steps.old + cost_of self.now.plan self.now.tree.nodes (units_of self.now.plan self.now.tree.nodes) }
        ensures steps { steps.old ≤ steps.new }
    {
        self.tree.laws();
        let all = evaluate(self.alloc, &self.plan, &self.tree, steps)?;
        let written = write_outcomes(
            self.alloc, &self.plan, &self.tree, &all.lets, &all.found, sink,
        );
        drop(all);
        written
    }

    /// Evaluates what `refresh` does, and counts: the rules that fire, the assertions that fail and the reports that succeed, over all
    /// nodes under all active patterns, and whether the state is a fault.
    ///
    /// Looks at the outcomes of the nodes at which a rule fires or a fault was met.
    pub fn counts<L: Ledger>(&mut self, steps: &mut Steps<L>) -> Result<Counts, AllocError>
        ensures counted { IfOk result (λ counts. counts ≡ counts_of self.old.plan self.old.tree.nodes) }
        ensures tree { self.new.tree ≡ self.old.tree }
        ensures plan { self.new.plan ≡ self.old.plan }
        ensures fresh { OnOk result (IsFresh self.old.plan self.old.tree.nodes (seen_by self.new)) }
        ensures raised { OnOk result (Raised self.old.plan self.old.tree.nodes
            (to_run self.old.plan self.old.tree.nodes (seen_by self.old)) steps.old steps.new) }
        ensures exactly { IfOk result (λ counts. counts.faulted ≡ false → steps.new ≡ steps.old + cost_of self.old.plan self.old.tree.nodes
            (to_run self.old.plan self.old.tree.nodes (seen_by self.old))) }
        ensures goes_on { GoesOn self.old.plan self.old.tree.nodes (seen_by self.old) (seen_by self.new) }
        ensures at_most { steps.new ≤ steps.old + cost_of self.old.plan self.old.tree.nodes (to_run self.old.plan self.old.tree.nodes (seen_by self.old)) }
        ensures steps { steps.old ≤ steps.new }
    {
        self.tree.laws();
        match self.refresh(steps) {
            Ok(()) => self.count_kept(),
            Err(refused) => Err(refused),
        }
    }

    /// What is counted of the document, whose units were evaluated.
    fn count_kept(&self) -> Result<Counts, AllocError>
        requires { IsFresh self.now.plan self.now.tree.nodes (seen_by self.now) }
        ensures { IfOk result (λ counts. counts ≡ counts_of self.now.plan self.now.tree.nodes) }
    {
        self.tree.laws();
        let (lets, found) = (self.kept.lets(), self.kept.found());
        count_outcomes(self.alloc, &self.plan, &self.tree, lets, found)
    }

    /// Writes the state of the document, whose units were evaluated; answers what it shows.
    fn write_kept<O: Sink>(&self, sink: &mut O) -> Result<Shown, ReportError>
        requires { IsFresh self.now.plan self.now.tree.nodes (seen_by self.now) }
        ensures { WroteState (O.log sink.old) (O.log sink.new) self.now.plan self.now.tree.nodes result }
    {
        self.tree.laws();
        let (lets, found) = (self.kept.lets(), self.kept.found());
        write_outcomes(self.alloc, &self.plan, &self.tree, lets, found, sink)
    }
}

/// The contexts of the rules of all active patterns are well typed. Costs a look at each rule.
fn patterns_are_typed(plan: &Plan)
    requires { IsCounted plan.now }
    ensures { (p : ℕ) → p < length plan.now.patterns → RulesTyped plan.now p }
{
    for p in 0..plan.pattern_count() {
        rules_are_typed(plan, p);
    }
}

impl Drop for Session {
    fn drop(self) {
        let Session {
            alloc: _,
            plan,
            tree,
            kept,
        } = self;
        drop(plan);
        drop(tree);
        drop(kept);
    }
}
