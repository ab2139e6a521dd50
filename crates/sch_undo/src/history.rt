//! A session and its newest edits, each of which can be undone.

ghost use Rattle.std.specs.Prelude.{◌≡◌, ◌+◌, ◌≤◌, true, List, [], ◌∷◌, length, take, None, All, IfErr, IfOk, OnErr, OnOk, option_map, slice_get};
ghost use Rattle.doc_tree.specs.Kinds.{is_document};
ghost use Rattle.doc_tree.specs.SameTree.{SameTree};
ghost use Rattle.doc_tree.specs.Table.{Contents};
ghost use Rattle.doc_edit_laws.specs.Along.{Edit};
ghost use Rattle.name_scopes.specs.Scoping.{InScope};
ghost use Rattle.edit_script.specs.WellFormed.{WellFormedCommand};
ghost use Rattle.edit_commands.specs.Commands.{IsEdited, command_refusal};
ghost use Rattle.edit_commands.specs.Touched.{touched_by};
ghost use Rattle.edit_paths.specs.Entries.{undoing, undoing_numbers};
ghost use Rattle.edit_iso_laws.specs.CommandsMove.{DoneInTurn};
ghost use Rattle.edit_session.specs.Costs.{Raised, cost_of};
ghost use Rattle.edit_session.specs.Dirty.{dirty_units};
ghost use Rattle.edit_session.specs.Running.{GoesOn, IsFresh, to_run};
ghost use Rattle.edit_session.specs.Steps.{Marks};
ghost use Rattle.edit_session.specs.Standing.{seen_by};
ghost use Rattle.edit_session.specs.Wrote.{RoseBy, UnlessMemory, WroteState};
ghost use Rattle.state_iso_laws.specs.States.{ShowTheSame};
ghost use Rattle.sch_undo.specs.declared.history.TheConstants.{MAX_UNDO_DEPTH};
ghost use Rattle.sch_undo.specs.Remembered.{GoesBackTo, LeavesUndo, RefusesEdit, RefusesUndo, Remembers, RunsDirty, Undone};
ghost use Rattle.sch_undo.specs.inner.Doing.{Did, NamesFirst, Stopped};

use crate::error::UndoError;
use circular_buffer::HeapCircularBuffer;
use doc_edit_laws::edits_leave_the_rest;
use edit_command_laws::one_edit;
use edit_commands::ApplyError;
use edit_script::Command;
use edit_session::{ReportError, Session, Shown, dirty_are_run};
use edit_undo_laws::{commands_are_undone, undoings_are_formed};
use history_laws::histories_stand;
use sch_io::Sink;
use state_iso_laws::same_trees_show_the_same;
use std::alloc::{AllocError, Global};
use std::marker::Model;
use std::sync::ledger::Ledger;
use undo_entries::{Entry, entry_for};
use xp_outcome::Steps;

/// The most edits that a history keeps.
pub const MAX_UNDO_DEPTH: usize = 1_000;

/// A session and the newest edits, up to a depth, each of which can be undone.
///
/// A history stands for a list of trees, told up to the numbers of their nodes: those from before the edits that it keeps, the newest
/// first. Contracts see the session, what takes each kept edit back, and the depth.
pub struct History {
    alloc: Global,
    session: Session,
    /// What takes each kept edit back, the newest first.
    entries: HeapCircularBuffer<Entry>,
}

impl Model for History {
    ghost use Rattle.edit_session.specs.contracts.session.Session as session_type;
    ghost use Rattle.undo_entries.specs.contracts.entry.Entry as entry_type;
    ghost use Rattle.sch_undo.specs.Coding.{remembered_code};
    ghost use Rattle.sch_undo.specs.Remembered.{Remembered};

    ghost Value = { Remembered };

    ghost coded = { remembered_code session_type.the_row.coded entry_type.the_row.coded };

    ghost use Rattle.sch_undo.specs.inner.Held.{Stands, remembered};

    ghost view = { remembered };

    ghost invariant = { Stands };
}

impl History {
    /// A history of a session, of which no edit can be undone yet; it keeps up to `depth` edits.
    pub fn open(alloc: Global, session: Session, depth: usize) -> Result<History, AllocError>
        requires some { 1 ≤ depth }
        requires few { depth ≤ MAX_UNDO_DEPTH }
        requires scoped { InScope session.tree.nodes }
        ensures { IfOk result (λ history. history ≡ record { session = session; entries = []; depth = depth }) }
    {
        match HeapCircularBuffer::with_capacity(alloc, depth) {
            Ok(entries) => Ok(History {
                alloc,
                session,
                entries,
            }),
            Err(error) => {
                drop(session);
                Err(error)
            }
        }
    }

    /// What holds of each history: its entries stand for some trees, its document is in scope, and it keeps from one edit to 1,000.
    pub fn laws(&self)
        ensures stands { (trees : List Contents) × GoesBackTo self.now trees }
        ensures scoped { InScope self.now.session.tree.nodes }
        ensures some { 1 ≤ self.now.depth }
        ensures few { self.now.depth ≤ MAX_UNDO_DEPTH }
    {
        self.session.laws();
    }

    /// The session.
    pub fn session(&self) -> &Session
        ensures { result.now ≡ self.now.session }
    {
        &self.session
    }

    /// How many edits can be undone.
    pub fn kept(&self) -> usize
        ensures kept { result ≡ length self.now.entries }
        ensures within { result ≤ self.now.depth }
    {
        self.entries.len()
    }

    /// Does a command as the session does, and keeps what takes it back; the oldest edit is given up where as many are kept as may be.
    ///
    /// A refused command changes nothing, nor does one that finds no memory. Costs what the session's edit costs, and what it takes to
    /// tell what takes the command back.
    pub fn apply(&mut self, command: &Command) -> Result<(), ApplyError>
        requires formed { WellFormedCommand command.now }
        ensures within { OnOk result (command_refusal self.old.session.tree command.now ≡ None) }
        ensures edited { OnOk result (IsEdited self.old.session.tree.nodes command.now self.new.session.tree.nodes) }
        ensures edit { OnOk result (Edit self.old.session.tree.nodes self.new.session.tree.nodes
            (touched_by self.old.session.tree.nodes command.now)) }
        ensures dirty { OnOk result (IsFresh self.old.session.plan self.old.session.tree.nodes (seen_by self.old.session) →
            to_run self.old.session.plan self.new.session.tree.nodes (seen_by self.new.session) ≡
            dirty_units self.old.session.plan self.old.session.tree.nodes self.new.session.tree.nodes
            (touched_by self.old.session.tree.nodes command.now)) }
        ensures marked { OnOk result (Marks self.old.session.tree.nodes (touched_by self.old.session.tree.nodes command.now)
            (seen_by self.old.session) (seen_by self.new.session)) }
        ensures remembered { OnOk result (Remembers self.old command.now self.new) }
        ensures kept { OnOk result ((trees : List Contents) → GoesBackTo self.old trees →
            GoesBackTo self.new (take self.old.depth (self.old.session.tree ∷ trees))) }
        ensures document { is_document self.new.session.tree.nodes ≡ true }
        ensures refused { IfErr result (RefusesEdit self.old command.now) }
        ensures unchanged { OnErr result (self.new ≡ self.old) }
        ensures plan { self.new.session.plan ≡ self.old.session.plan }
        ensures cap { self.new.session.tree.pair_cap ≡ self.old.session.tree.pair_cap }
        ensures depth { self.new.depth ≡ self.old.depth }
    {
        commands_are_undone();
        undoings_are_formed();
        edits_leave_the_rest();
        histories_stand();
        self.session.laws();
        let entry = entry_of(self.alloc, &self.session, command)?;
        match self.session.apply(command) {
            Ok(()) => {
                drop(self.entries.push_front(entry));
                Ok(())
            }
            Err(error) => {
                drop(entry);
                Err(error)
            }
        }
    }

    /// Undoes the newest edit that is kept: the tree is then the same as before it, but for the numbers of its nodes.
    ///
    /// After want of memory the tree stands after the first commands that take the edit back, fewer than all, and no edit is kept;
    /// after another error nothing has changed. Costs what these commands cost the session.
    pub fn undo(&mut self) -> Result<(), UndoError>
        ensures undone { OnOk result (Undone self.old self.new) }
        ensures back { OnOk result ((tree : Contents) (trees : List Contents) → GoesBackTo self.old (tree ∷ trees) →
            SameTree tree.nodes self.new.session.tree.nodes × GoesBackTo self.new trees) }
        ensures shows { OnOk result ((tree : Contents) (trees : List Contents) → GoesBackTo self.old (tree ∷ trees) →
            ShowTheSame self.old.session.plan tree.nodes self.new.session.tree.nodes) }
        ensures dirty { OnOk result (RunsDirty self.old self.new) }
        ensures document { is_document self.new.session.tree.nodes ≡ true }
        ensures refused { IfErr result (RefusesUndo self.old) }
        ensures left { IfErr result (LeavesUndo self.old self.new) }
        ensures plan { self.new.session.plan ≡ self.old.session.plan }
        ensures cap { self.new.session.tree.pair_cap ≡ self.old.session.tree.pair_cap }
        ensures depth { self.new.depth ≡ self.old.depth }
    {
        histories_stand();
        one_edit();
        dirty_are_run();
        edits_leave_the_rest();
        same_trees_show_the_same();
        self.session.laws();
        let Some(numbers) = newest_numbers(&self.entries) else {
            return Err(UndoError::NoHistory);
        };
        if numbers > self.session.tree().numbers_left() {
            return Err(UndoError::IdsSpent);
        }
        let Some(newest) = self.entries.pop_front() else {
            unreachable!()
        };
        let done = do_all(&mut self.session, newest.commands.as_slice());
        drop(newest);
        self.session.laws();
        match done {
            Ok(()) => Ok(()),
            Err(_) => {
                self.entries.clear();
                Err(UndoError::Memory)
            }
        }
    }

    /// Writes the state of the document, as the session does; what can be undone stays.
    pub fn report<O: Sink, L: Ledger>(
        &mut self,
        sink: &mut O,
        steps: &mut Steps<L>,
    ) -> Result<Shown, ReportError>
        ensures wrote { WroteState (O.log sink.old) (O.log sink.new) self.old.session.plan self.old.session.tree.nodes result }
        ensures tree { self.new.session.tree ≡ self.old.session.tree }
        ensures plan { self.new.session.plan ≡ self.old.session.plan }
        ensures fresh { UnlessMemory result (IsFresh self.old.session.plan self.old.session.tree.nodes (seen_by self.new.session)) }
        ensures raised { UnlessMemory result (Raised self.old.session.plan self.old.session.tree.nodes
            (to_run self.old.session.plan self.old.session.tree.nodes (seen_by self.old.session)) steps.old steps.new) }
        ensures exactly { RoseBy (cost_of self.old.session.plan self.old.session.tree.nodes
            (to_run self.old.session.plan self.old.session.tree.nodes (seen_by self.old.session))) steps.old steps.new result }
        ensures goes_on { GoesOn self.old.session.plan self.old.session.tree.nodes (seen_by self.old.session) (seen_by self.new.session) }
        ensures at_most { steps.new ≤ steps.old + cost_of self.old.session.plan self.old.session.tree.nodes
            (to_run self.old.session.plan self.old.session.tree.nodes (seen_by self.old.session)) }
        ensures steps { steps.old ≤ steps.new }
        ensures entries { self.new.entries ≡ self.old.entries }
        ensures depth { self.new.depth ≡ self.old.depth }
    {
        self.session.report(sink, steps)
    }
}

/// What takes a command back once it was done.
fn entry_of(alloc: Global, session: &Session, command: &Command) -> Result<Entry, ApplyError>
    requires formed { WellFormedCommand command.now }
    ensures commands { IfOk result (λ entry. entry.commands ≡ undoing session.now.tree.nodes command.now) }
    ensures numbers { IfOk result (λ entry. entry.numbers ≡ undoing_numbers session.now.tree.nodes command.now) }
    ensures memory { IfErr result (λ error. error ≡ ApplyError.Memory) }
{
    match entry_for(alloc, session.tree(), command) {
        Ok(entry) => Ok(entry),
        Err(_) => Err(ApplyError::Memory),
    }
}

/// How many new numbers the undoing of the newest edit makes; None where no edit is kept.
fn newest_numbers(entries: &HeapCircularBuffer<Entry>) -> Option<u32>
    ensures { result ≡ option_map (λ entry. entry.numbers) (slice_get entries.now.items 0) }
{
    match entries.front() {
        Some(entry) => Some(entry.numbers),
        None => None,
    }
}

/// Does commands one after another, against none of which a reason speaks; stops where one wants memory.
fn do_all(session: &mut Session, commands: &[Command]) -> Result<(), AllocError>
    requires formed { All WellFormedCommand commands.now }
    requires free { (end : Contents) × DoneInTurn session.old.tree commands.now end }
    requires names { NamesFirst commands.now }
    ensures done { OnOk result (Did session.old commands.now session.new) }
    ensures stopped { OnErr result (Stopped session.old commands.now session.new) }
{
    one_edit();
    for command in commands {
        match session.apply(command) {
            Ok(()) => {}
            Err(ApplyError::Memory) => return Err(AllocError),
            Err(ApplyError::Refused(_)) => unreachable!(),
        }
    }
    Ok(())
}

impl Drop for History {
    fn drop(self) {
        let History {
            alloc: _,
            session,
            entries,
        } = self;
        drop(session);
        drop(entries);
    }
}
