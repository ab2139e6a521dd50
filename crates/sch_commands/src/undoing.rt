//! A script in which edits can be undone: the first state, and what comes of each command and each undo.

ghost use Rattle.std.specs.Prelude.{◌≡◌, ◌≤◌, ◌+◌, ◌++◌, List, [], true, false, IfErr, IfNone, IfOk, IfSome, OnOk, length};
ghost use Rattle.sch_io.specs.Wrote.{Appends, Wrote};
ghost use Rattle.doc_tree.specs.Kinds.{is_document};
ghost use Rattle.doc_tree.specs.Walks.{order};
ghost use Rattle.name_scopes.specs.Scoping.{InScope};
ghost use Rattle.edit_script.specs.Faults.{IfFault};
ghost use Rattle.edit_script.specs.Undos.{breaks, ends, items_left};
ghost use Rattle.edit_script.specs.WellFormed.{WellFormedCommand};
ghost use Rattle.edit_script.specs.declared.limits.TheConstants.{MAX_SCRIPT_BYTES};
ghost use Rattle.sch_undo.specs.Pairs.{pair_cap_for};
ghost use Rattle.sch_undo.specs.State.{shows, state_text};
ghost use Rattle.sch_words.specs.declared.count.TheConstants.{MAX_UNDO_DEPTH};
ghost use Rattle.sch_words.specs.declared.status.Status.TheVariants as statuses;
ghost use Rattle.sch_stops.specs.EditLines.{no_history_line};
ghost use Rattle.sch_stops.specs.Stops.{counted_if, ends_with};
ghost use Rattle.sch_commands.specs.Behaviours.{BeginsStates, States, StatesCost};
ghost use Rattle.sch_commands.specs.Following.{Earlier, items_of, then_shown};
ghost use Rattle.sch_commands.specs.Telling.{Telling, by_plan};
ghost use Rattle.sch_commands.specs.declared.undoing.Item.TheVariants as items;
ghost use Rattle.sch_commands.specs.Carried.{Concludes};
ghost use Rattle.sch_commands.specs.inner.Counts.{CountsAlong, RoseFor};
ghost use Rattle.sch_commands.specs.inner.Sessions.{IsEvaluated, IsUnevaluated, document_of, next_cost};
ghost use Rattle.sch_commands.specs.inner.Undoing.{Does, Goes, IsFormed, IsNotUndone, IsReady, Keeps, Rests, ahead_of, done_line, place_at};
ghost use Rattle.sch_commands.specs.inner.Ways.{Way};
ghost use Rattle.sch_commands.specs.inner.Writing.{IsOfWriting, WroteText};

use crate::following::{then_shown, write_refused, write_undone};
use crate::validation::stop_of;
use doc_tree::{EditRefusal, Tree};
use edit_cap_laws::edits_stay_within;
use edit_command_laws::{edits_keep_trees, edits_make_trees, one_edit, scripts_are_well_formed};
use edit_script::{Command, ScriptError, ScriptReader, items_in_turn};
use edit_way_laws::{edits_stay_in_scope, items_are_well_formed, numbers_grow};
use sch_io::{Failed, Sink};
use sch_stops::{Stop, write_edit_line, write_no_history_line, write_undo_line};
use sch_undo::{
    History, Session, Shown, UndoError, commands_are_undone, histories_stand, undoings_are_formed,
};
use std::alloc::Global;
use std::sync::ledger::Ledger;
use xp_outcome::Steps;

/// Writes the state of a document, and what comes of each command and undo of a script, in which so many edits can be undone; answers
/// what the states show.
pub(crate) fn follow_undoing<O: Sink, L: Ledger>(
    alloc: Global,
    session: Session,
    undos: u32,
    script: &[u8],
    out: &mut O,
    steps: &mut Steps<L>,
) -> Result<Shown, Stop>
    requires cap { session.tree.pair_cap ≡ pair_cap_for session.plan }
    requires scoped { InScope session.tree.nodes }
    requires some { 1 ≤ undos }
    requires few { undos ≤ MAX_UNDO_DEPTH }
    requires short { length script.now ≤ MAX_SCRIPT_BYTES }
    requires unevaluated { IsUnevaluated (document_of session) }
    ensures told { Concludes (States (by_plan session.plan) undos session.tree.nodes script.now) (λ _. ⊥)
        (BeginsStates (by_plan session.plan) undos session.tree.nodes script.now) (Appends (O.log out.old).written (O.log out.new).written) result }
    ensures writing { IfErr result IsOfWriting }
    ensures write_faults { (O.log out.new).faults ≡ counted_if (ends_with statuses.WriteFault result) (O.log out.old).faults }
    ensures counted { CountsAlong (StatesCost (by_plan session.plan) undos session.tree.nodes script.now) steps.old steps.new result }
    ensures steps { steps.old ≤ steps.new }
{
    session.laws();
    script_has_way(session.tree(), undos, script);
    let mut history = History::open(alloc, session, undos as usize)?;
    let seen = write_history(&mut history, out, steps)?;
    let script = ScriptReader::new(alloc, script);
    let mut undoer = Undoer {
        history,
        script,
        number: 1,
        seen,
    };
    undoer.follow_rest(out, steps)
}

/// There is a way through a script that is not too long, whatever is told of the document, which may have so many live nodes: an accepted
/// command makes a document, and so does an undo where enough numbers are left. Costs nothing.
fn script_has_way(tree: &Tree, undos: u32, script: &[u8])
    requires document { is_document tree.now.nodes ≡ true }
    requires scoped { InScope tree.now.nodes }
    requires within { length (order tree.now.nodes) ≤ tree.now.pair_cap }
    requires short { length script.now ≤ MAX_SCRIPT_BYTES }
    ensures { (telling : Telling) → tree.now.pair_cap ≡ telling.pair_cap → Way telling undos tree.now.nodes [] (items_of undos script.now) }
{
    tree.laws();
    edits_make_trees();
    edits_keep_trees();
    edits_stay_within();
    edits_stay_in_scope();
    numbers_grow();
    commands_are_undone();
    undoings_are_formed();
    histories_stand();
    scripts_are_well_formed();
    items_are_well_formed();
}

/// Writes the state of a document whose edits can be undone, and keeps what its units gave; answers what it shows.
fn write_history<O: Sink, L: Ledger>(
    history: &mut History,
    out: &mut O,
    steps: &mut Steps<L>,
) -> Result<Shown, Stop>
    ensures wrote { WroteText (O.log out.old) (O.log out.new) (state_text history.old.session.plan history.old.session.tree.nodes) result }
    ensures shown { IfOk result (λ last. last ≡ shows history.old.session.plan history.old.session.tree.nodes) }
    ensures tree { history.new.session.tree ≡ history.old.session.tree }
    ensures plan { history.new.session.plan ≡ history.old.session.plan }
    ensures entries { history.new.entries ≡ history.old.entries }
    ensures depth { history.new.depth ≡ history.old.depth }
    ensures fresh { OnOk result (IsEvaluated history.new.session) }
    ensures rose { IfOk result (RoseFor (next_cost history.old.session) steps.old steps.new) }
    ensures at_most { steps.new ≤ steps.old + next_cost history.old.session }
    ensures steps { steps.old ≤ steps.new }
{
    match history.report(out, steps) {
        Ok(last) => Ok(last),
        Err(error) => Err(stop_of(error)),
    }
}

/// What comes next in a script in which edits can be undone.
#[derive(Drop)]
enum Item {
    Edit(Command),
    Undo,
}

/// The next command or undo; None at the end of the script.
fn next_item(script: &mut ScriptReader<'_>) -> Result<Option<Item>, ScriptError>
    requires unfaulted { script.old.faulted ≡ false }
    ensures item { IfOk result (λ next. IfSome next (λ item. items_left script.old ≡ ahead_of item (items_left script.new))) }
    ensures formed { IfOk result (λ next. IfSome next IsFormed) }
    ensures end { IfOk result (λ next. IfNone next (items_left script.old ≡ ends)) }
    ensures fault { IfErr result (IfFault (λ found. items_left script.old ≡ breaks found)) }
    ensures unfaulted { OnOk result (script.new.faulted ≡ false) }
{
    items_in_turn();
    if script.take_undo() {
        return Ok(Some(Item::Undo));
    }
    match script.next()? {
        Some(command) => Ok(Some(Item::Edit(command))),
        None => Ok(None),
    }
}

/// What was done in front of a state.
#[derive(Clone, Copy)]
enum Done {
    Edited,
    Undone,
}

/// Where the following of a script stands in which edits can be undone.
#[derive(Drop)]
struct Undoer<'a> {
    history: History,
    /// The lines of the script that are left.
    script: ScriptReader<'a>,
    /// The number of the next command or undo, counted from 1.
    number: u64,
    /// What the states so far show: a fault where one is, and else what the last one shows.
    seen: Shown,
}

impl Undoer<'_> {
    /// Does each command and undo that is to come, and writes what comes of it; answers what the states show.
    fn follow_rest<O: Sink, L: Ledger>(
        &mut self,
        out: &mut O,
        steps: &mut Steps<L>,
    ) -> Result<Shown, Stop>
        requires ready { IsReady self.old (items_left self.old.script) }
        ensures rests { (backs : List Earlier) → Keeps self.old.history backs → Goes (place_at self.old backs) →
            Rests (place_at self.old backs) (O.log out.old) (O.log out.new) steps.old steps.new result }
        ensures writing { IfErr result IsOfWriting }
        ensures write_faults { (O.log out.new).faults ≡ counted_if (ends_with statuses.WriteFault result) (O.log out.old).faults }
        ensures steps { steps.old ≤ steps.new }
    {
        while let Some(item) = next_item(&mut self.script)? {
            let done = self.follow_item(&item, out, steps);
            drop(item);
            done?;
        }
        Ok(self.seen)
    }

    /// Does a command or an undo, and writes what comes of it.
    fn follow_item<O: Sink, L: Ledger>(
        &mut self,
        item: &Item,
        out: &mut O,
        steps: &mut Steps<L>,
    ) -> Result<(), Stop>
        requires formed { IsFormed item.now }
        requires ready { IsReady self.old (ahead_of item.now (items_left self.old.script)) }
        ensures does { Does item.now self.old self.new (O.log out.old) (O.log out.new) steps.old steps.new result }
        ensures ready { OnOk result (IsReady self.new (items_left self.new.script)) }
        ensures script { self.new.script ≡ self.old.script }
        ensures writing { IfErr result IsOfWriting }
        ensures write_faults { (O.log out.new).faults ≡ counted_if (ends_with statuses.WriteFault result) (O.log out.old).faults }
        ensures steps { steps.old ≤ steps.new }
    {
        match item {
            Item::Edit(command) => self.do_command(command, out, steps),
            Item::Undo => self.do_undo(out, steps),
        }
    }

    /// Does a command, and writes what comes of it.
    fn do_command<O: Sink, L: Ledger>(
        &mut self,
        command: &Command,
        out: &mut O,
        steps: &mut Steps<L>,
    ) -> Result<(), Stop>
        requires formed { WellFormedCommand command.now }
        requires ready { IsReady self.old (ahead_of (items.Edit command.now) (items_left self.old.script)) }
        ensures does { Does (items.Edit command.now) self.old self.new (O.log out.old) (O.log out.new) steps.old steps.new result }
        ensures ready { OnOk result (IsReady self.new (items_left self.new.script)) }
        ensures script { self.new.script ≡ self.old.script }
        ensures writing { IfErr result IsOfWriting }
        ensures write_faults { (O.log out.new).faults ≡ counted_if (ends_with statuses.WriteFault result) (O.log out.old).faults }
        ensures steps { steps.old ≤ steps.new }
    {
        one_edit();
        let number = self.number;
        self.number += 1;
        match self.history.apply(command) {
            Ok(()) => self.write_next(Done::Edited, number, out, steps),
            Err(error) => write_undone(number, error, out),
        }
    }

    /// Undoes the newest edit that can be undone, and writes what comes of it.
    fn do_undo<O: Sink, L: Ledger>(&mut self, out: &mut O, steps: &mut Steps<L>) -> Result<(), Stop>
        requires ready { IsReady self.old (ahead_of items.Undo (items_left self.old.script)) }
        ensures does { Does items.Undo self.old self.new (O.log out.old) (O.log out.new) steps.old steps.new result }
        ensures ready { OnOk result (IsReady self.new (items_left self.new.script)) }
        ensures script { self.new.script ≡ self.old.script }
        ensures writing { IfErr result IsOfWriting }
        ensures write_faults { (O.log out.new).faults ≡ counted_if (ends_with statuses.WriteFault result) (O.log out.old).faults }
        ensures steps { steps.old ≤ steps.new }
    {
        one_edit();
        let number = self.number;
        self.number += 1;
        match self.history.undo() {
            Ok(()) => self.write_next(Done::Undone, number, out, steps),
            Err(error) => write_not_undone(number, error, out),
        }
    }

    /// Writes the line of what was done with the number, and the state behind it.
    fn write_next<O: Sink, L: Ledger>(
        &mut self,
        done: Done,
        number: u64,
        out: &mut O,
        steps: &mut Steps<L>,
    ) -> Result<(), Stop>
        ensures wrote { WroteText (O.log out.old) (O.log out.new)
            (done_line done number ++ state_text self.old.history.session.plan self.old.history.session.tree.nodes) result }
        ensures seen { OnOk result (self.new.seen ≡ then_shown self.old.seen (shows self.old.history.session.plan self.old.history.session.tree.nodes)) }
        ensures tree { self.new.history.session.tree ≡ self.old.history.session.tree }
        ensures plan { self.new.history.session.plan ≡ self.old.history.session.plan }
        ensures entries { self.new.history.entries ≡ self.old.history.entries }
        ensures depth { self.new.history.depth ≡ self.old.history.depth }
        ensures script { self.new.script ≡ self.old.script }
        ensures number { self.new.number ≡ self.old.number }
        ensures fresh { OnOk result (IsEvaluated self.new.history.session) }
        ensures rose { OnOk result (RoseFor (next_cost self.old.history.session) steps.old steps.new
            (shows self.old.history.session.plan self.old.history.session.tree.nodes)) }
        ensures at_most { steps.new ≤ steps.old + next_cost self.old.history.session }
        ensures steps { steps.old ≤ steps.new }
    {
        write_done_line(done, number, out)?;
        let last = write_history(&mut self.history, out, steps)?;
        self.seen = then_shown(self.seen, last);
        Ok(())
    }
}

/// Writes the line in front of the state behind what was done with the number.
fn write_done_line<O: Sink>(done: Done, number: u64, out: &mut O) -> Result<(), Failed>
    ensures { Wrote (O.log out.old) (O.log out.new) (done_line done number) result }
{
    match done {
        Done::Edited => write_edit_line(number, out),
        Done::Undone => write_undo_line(number, out),
    }
}

/// Writes the line of an undo that is not done; one that finds no memory ends the run.
fn write_not_undone<O: Sink>(number: u64, error: UndoError, out: &mut O) -> Result<(), Stop>
    ensures { IsNotUndone number error (O.log out.old) (O.log out.new) result }
{
    match error {
        UndoError::NoHistory => write_no_history(number, out),
        UndoError::IdsSpent => write_refused(number, EditRefusal::IdsSpent, out),
        UndoError::Memory => Err(Stop::Memory),
    }
}

/// Writes the line of an undo where no edit can be undone.
fn write_no_history<O: Sink>(number: u64, out: &mut O) -> Result<(), Stop>
    ensures wrote { WroteText (O.log out.old) (O.log out.new) (no_history_line number) result }
    ensures memory { ends_with statuses.Memory result ≡ false }
{
    match write_no_history_line(number, out) {
        Ok(()) => Ok(()),
        Err(Failed) => Err(Stop::WriteFault),
    }
}
