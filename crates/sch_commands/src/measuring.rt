//! A measure: a document and a script that are made for a number of items, and what is counted of the first state and of the last one.

ghost use Rattle.std.specs.Prelude.{◌≡◌, ◌≤◌, ◌+◌, ◌||◌, ℕ, List, false, [], Some, is_some, IfErr, IfOk, OnOk, length, string_bytes};
ghost use Rattle.sch_io.specs.ShelfState.{ShelfState};
ghost use Rattle.sch_io.specs.Wrote.{Appends};
ghost use Rattle.edit_script.specs.Script.{onto, script_left};
ghost use Rattle.edit_script.specs.WellFormed.{WellFormedCommand};
ghost use Rattle.edit_script.specs.declared.limits.TheConstants.{MAX_SCRIPT_BYTES};
ghost use Rattle.sch_units.specs.Validity.{first_fault};
ghost use Rattle.sch_undo.specs.Pairs.{pair_cap_for};
ghost use Rattle.sch_undo.specs.State.{shows};
ghost use Rattle.sch_undo.specs.shown.Shown.{Shown};
ghost use Rattle.sch_undo.specs.shown.Shown.TheVariants as states;
ghost use Rattle.sch_words.specs.Commands.{measure};
ghost use Rattle.sch_words.specs.declared.status.Status.TheVariants as statuses;
ghost use Rattle.sch_stops.specs.Stops.{counted_if, ends_with};
ghost use Rattle.sch_stops.specs.declared.stop.Stop.TheVariants as stops;
ghost use Rattle.sch_loading.specs.Reads.{Reads};
ghost use Rattle.sch_loading.specs.Stages.{goes};
ghost use Rattle.sch_commands.specs.Behaviours.{OpeningAll, Making, Measures, MeasuresText, StatesCost, behaviour};
ghost use Rattle.sch_commands.specs.Carried.{Carried, Concludes};
ghost use Rattle.sch_commands.specs.Steps.{CountsAtMost};
ghost use Rattle.sch_commands.specs.Telling.{by_plan};
ghost use Rattle.sch_commands.specs.inner.Counts.{CountsAlong, RoseFor};
ghost use Rattle.sch_commands.specs.inner.Followers.{in_front_of, scripted_by};
ghost use Rattle.sch_commands.specs.inner.Measurers.{ConcludesMeasure, IsUnderWay, MovesTo, RestMeasured, is_fault, measured_of, place_at, text_of_both};
ghost use Rattle.sch_commands.specs.inner.Sessions.{HasCost, IsEvaluated, IsUnevaluated, ScriptCost, document_of, next_cost};
ghost use Rattle.sch_commands.specs.inner.Writing.{IsOfWriting, WroteText};

use crate::following::{Scripted, load_scripted, script_has_cost};
use edit_command_laws::one_edit;
use edit_commands::ApplyError;
use edit_script::{Command, ScriptReader};
use sch_base::Text;
use sch_io::{Failed, MemoryShelf, Sink, write_all};
use sch_measure::{DOCUMENT_NAME, SCHEMA_NAME, SCRIPT_NAME, measure_shelf};
use sch_stops::Stop;
use sch_undo::{Counts, Session, Shown};
use sch_words::{DEFAULT_PHASE, ScriptedValidation, Validation};
use std::alloc::{AllocError, Global};
use std::fmt::Write;
use std::sync::ledger::Ledger;
use xp_outcome::Steps;

/// Follows the script that is made for so many items, and writes what is counted of the first state and of the last one; answers
/// whether a state is a fault, in which case nothing is written.
pub(crate) fn measure<O: Sink, L: Ledger>(
    alloc: Global,
    items: u32,
    out: &mut O,
    steps: &mut Steps<L>,
) -> Result<Shown, Stop>
    // whatever the shelf is: no file of it is opened
    ensures carried { (state : ShelfState) → Carried (behaviour (Some (measure items))) state state (O.log out.old) (O.log out.new) steps.old steps.new result }
    ensures accepted { ends_with statuses.Usage result ≡ false }
{
    let Scripted { session, script } = load_made(alloc, items)?;
    measure_states(alloc, session, script.as_slice(), out, steps)
}

/// The document and the script that are made for so many items. What would stop their reading never comes up, and counts as want of
/// memory.
fn load_made(alloc: Global, items: u32) -> Result<Scripted, Stop>
    ensures reads { (state : ShelfState) → Reads state state [] (λ files. Making items) scripted_by result }
    ensures cap { IfOk result (λ scripted. scripted.session.tree.pair_cap ≡ pair_cap_for scripted.session.plan) }
    ensures unevaluated { IfOk result (λ scripted. IsUnevaluated (document_of scripted.session)) }
    ensures short { IfOk result (λ scripted. length scripted.script ≤ MAX_SCRIPT_BYTES) }
{
    let shelf = measure_shelf(alloc, items)?;
    let schema = Text::copy(alloc, SCHEMA_NAME)?;
    let document = Text::copy(alloc, DOCUMENT_NAME)?;
    let script = Text::copy(alloc, SCRIPT_NAME)?;
    let validation = Validation {
        phase: DEFAULT_PHASE,
        schema: &schema,
        document: &document,
    };
    let asked = ScriptedValidation {
        validation,
        script: &script,
        undos: 0,
    };
    load_from(alloc, asked, shelf)
}

/// The document and the script that are asked for, of a shelf in memory.
fn load_from(
    alloc: Global,
    asked: ScriptedValidation<'_>,
    shelf: MemoryShelf,
) -> Result<Scripted, Stop>
    ensures loaded { IfOk result (λ scripted. (opened : List (List ℕ)) × OpeningAll shelf.files asked.entry.validation.phase.now
        asked.entry.validation.schema.now asked.entry.validation.document.now asked.entry.script.now opened (goes (scripted_by scripted))) }
    ensures cap { IfOk result (λ scripted. scripted.session.tree.pair_cap ≡ pair_cap_for scripted.session.plan) }
    ensures unevaluated { IfOk result (λ scripted. IsUnevaluated (document_of scripted.session)) }
    ensures short { IfOk result (λ scripted. length scripted.script ≤ MAX_SCRIPT_BYTES) }
    ensures memory { IfErr result (λ stop. stop ≡ stops.Memory) }
{
    let mut shelf = shelf;
    match load_scripted(alloc, asked, &mut shelf) {
        Ok(scripted) => Ok(scripted),
        Err(stop) => {
            drop(stop);
            Err(Stop::Memory)
        }
    }
}

/// Counts the state of a document, and the state behind each command of a script; writes the counts of the first and the last one
/// where none is a fault.
fn measure_states<O: Sink, L: Ledger>(
    alloc: Global,
    session: Session,
    script: &[u8],
    out: &mut O,
    steps: &mut Steps<L>,
) -> Result<Shown, Stop>
    requires cap { session.tree.pair_cap ≡ pair_cap_for session.plan }
    requires short { length script.now ≤ MAX_SCRIPT_BYTES }
    requires unevaluated { IsUnevaluated (document_of session) }
    ensures told { Concludes (Measures session.plan session.tree.nodes script.now) (λ _. ⊥) (MeasuresText session.plan session.tree.nodes script.now)
        (Appends (O.log out.old).written (O.log out.new).written) result }
    ensures writing { IfErr result IsOfWriting }
    ensures write_faults { (O.log out.new).faults ≡ counted_if (ends_with statuses.WriteFault result) (O.log out.old).faults }
    ensures counted { CountsAlong (StatesCost (by_plan session.plan) 0 session.tree.nodes script.now) steps.old steps.new result }
    ensures steps { steps.old ≤ steps.new }
{
    session.laws();
    script_has_cost(session.tree(), script);
    let mut session = session;
    let first = measure_state(&mut session, steps)?;
    let script = ScriptReader::new(alloc, script);
    let mut measurer = Measurer {
        session,
        script,
        last: first,
        faulted: first.counts.faulted,
    };
    measurer.measure_rest(steps)?;
    conclude_measure(alloc, measurer.faulted, &first, &measurer.last, out)
}

/// What is measured of a document.
#[derive(Clone, Copy)]
struct Measured {
    /// How many nodes live.
    nodes: u32,
    counts: Counts,
}

/// What is measured of the document of a session, whose stale units are evaluated.
fn measure_state<L: Ledger>(session: &mut Session, steps: &mut Steps<L>) -> Result<Measured, Stop>
    ensures measured { IfOk result (λ measured. measured ≡ measured_of session.old.plan session.old.tree.nodes) }
    ensures tree { session.new.tree ≡ session.old.tree }
    ensures plan { session.new.plan ≡ session.old.plan }
    ensures fresh { OnOk result (IsEvaluated session.new) }
    ensures rose { OnOk result (RoseFor (next_cost session.old) steps.old steps.new (shows session.old.plan session.old.tree.nodes)) }
    ensures at_most { steps.new ≤ steps.old + next_cost session.old }
    ensures memory { IfErr result (λ stop. stop ≡ stops.Memory) }
    ensures steps { steps.old ≤ steps.new }
{
    let nodes = session.tree().live_nodes();
    let counts = session.counts(steps)?;
    Ok(Measured { nodes, counts })
}

/// Where the measuring of a script stands.
#[derive(Drop)]
struct Measurer<'a> {
    session: Session,
    /// The lines of the script that are left.
    script: ScriptReader<'a>,
    /// What is measured of the document as it stands.
    last: Measured,
    /// Whether a state so far is a fault.
    faulted: bool,
}

impl Measurer<'_> {
    /// Does each command that is to come, and measures the document behind it.
    fn measure_rest<L: Ledger>(&mut self, steps: &mut Steps<L>) -> Result<(), Stop>
        requires ready { IsUnderWay self.old }
        requires costs { HasCost (document_of self.old.session) (script_left self.old.script) }
        ensures ends { (number : ℕ) (seen : Shown) → self.old.faulted ≡ is_fault seen →
            RestMeasured (place_at self.old number seen) self.new steps.old steps.new result }
        ensures ready { OnOk result (IsUnderWay self.new) }
        ensures plan { self.new.session.plan ≡ self.old.session.plan }
        ensures steps { steps.old ≤ steps.new }
    {
        while let Some(command) = self.script.next()? {
            let done = self.measure_command(&command, steps);
            drop(command);
            done?;
        }
        Ok(())
    }

    /// Does a command, and measures the document behind it. One that is refused changes nothing.
    fn measure_command<L: Ledger>(
        &mut self,
        command: &Command,
        steps: &mut Steps<L>,
    ) -> Result<(), Stop>
        requires formed { WellFormedCommand command.now }
        requires ready { IsUnderWay self.old }
        requires costs { HasCost (document_of self.old.session) (onto command.now (script_left self.old.script)) }
        ensures moves { OnOk result ((number : ℕ) (seen : Shown) → self.old.faulted ≡ is_fault seen →
            MovesTo (in_front_of command.now (place_at self.old number seen)) self.new steps.old steps.new) }
        ensures ready { OnOk result (IsUnderWay self.new) }
        ensures costs { OnOk result (HasCost (document_of self.new.session) (script_left self.new.script)) }
        ensures at_most { CountsAtMost (ScriptCost (document_of self.old.session) (onto command.now (script_left self.old.script))) steps.old steps.new }
        ensures plan { self.new.session.plan ≡ self.old.session.plan }
        ensures script { self.new.script ≡ self.old.script }
        ensures memory { IfErr result (λ stop. stop ≡ stops.Memory) }
        ensures steps { steps.old ≤ steps.new }
    {
        one_edit();
        match self.session.apply(command) {
            Ok(()) => self.measure_edited(steps),
            Err(ApplyError::Refused(_)) => Ok(()),
            Err(ApplyError::Memory) => Err(Stop::Memory),
        }
    }

    /// Measures the document behind a command that was done.
    fn measure_edited<L: Ledger>(&mut self, steps: &mut Steps<L>) -> Result<(), Stop>
        ensures last { OnOk result (self.new.last ≡ measured_of self.old.session.plan self.old.session.tree.nodes) }
        ensures faulted { OnOk result (self.new.faulted ≡ (self.old.faulted || is_some (first_fault self.old.session.plan self.old.session.tree.nodes))) }
        ensures tree { self.new.session.tree ≡ self.old.session.tree }
        ensures plan { self.new.session.plan ≡ self.old.session.plan }
        ensures script { self.new.script ≡ self.old.script }
        ensures fresh { OnOk result (IsEvaluated self.new.session) }
        ensures rose { OnOk result (RoseFor (next_cost self.old.session) steps.old steps.new
            (shows self.old.session.plan self.old.session.tree.nodes)) }
        ensures at_most { steps.new ≤ steps.old + next_cost self.old.session }
        ensures memory { IfErr result (λ stop. stop ≡ stops.Memory) }
        ensures steps { steps.old ≤ steps.new }
    {
        let last = measure_state(&mut self.session, steps)?;
        self.last = last;
        self.faulted = either(self.faulted, last.counts.faulted);
        Ok(())
    }
}

/// Whether one of two tests passes.
fn either(one: bool, other: bool) -> bool
    ensures { result ≡ (one || other) }
{
    one || other
}

/// Writes what was measured first and last, where no state is a fault.
fn conclude_measure<O: Sink>(
    alloc: Global,
    faulted: bool,
    first: &Measured,
    last: &Measured,
    out: &mut O,
) -> Result<Shown, Stop>
    ensures { ConcludesMeasure faulted (O.log out.old) (O.log out.new) (text_of_both first.now last.now) result }
{
    if faulted {
        return Ok(Shown::Fault);
    }
    write_measured(alloc, first, last, out)
}

/// Writes what was measured first and last.
fn write_measured<O: Sink>(
    alloc: Global,
    first: &Measured,
    last: &Measured,
    out: &mut O,
) -> Result<Shown, Stop>
    ensures wrote { WroteText (O.log out.old) (O.log out.new) (text_of_both first.now last.now) result }
    ensures shown { IfOk result (λ last. last ≡ states.Clean) }
{
    let text = text_of_both(alloc, first, last)?;
    match write_all(out, text.as_bytes()) {
        Ok(()) => Ok(Shown::Clean),
        Err(Failed) => Err(Stop::WriteFault),
    }
}

/// The text of what was measured first and last.
fn text_of_both(alloc: Global, first: &Measured, last: &Measured) -> Result<String, AllocError>
    ensures { IfOk result (λ text. string_bytes text ≡ text_of_both first.now last.now) }
{
    let (a, b) = (first.nodes, last.nodes);
    let (first, last) = (&first.counts, &last.counts);
    let (c, d) = (first.fired, last.fired);
    let (e, f) = (first.failed, last.failed);
    let (g, h) = (first.reports, last.reports);
    let mut text = String::new(alloc);
    write!(
        text,
        "nodes {a} {b}\nfired {c} {d}\nfailed {e} {f}\nreports {g} {h}\n"
    )?;
    Ok(text)
}
