//! A script that is followed: the schema, the document and the script read, then the first state, and what comes of each command.

ghost use Rattle.std.specs.Prelude.{◌≡◌, ◌≤◌, ◌+◌, ◌++◌, ℕ, true, [], ◌∷◌, false, Some, IfErr, IfOk, OnOk, length};
ghost use Rattle.sch_io.specs.Wrote.{Appends};
ghost use Rattle.doc_tree.specs.Kinds.{is_document};
ghost use Rattle.edit_script.specs.Script.{script_of};
ghost use Rattle.edit_script.specs.WellFormed.{WellFormedCommand};
ghost use Rattle.edit_script.specs.declared.limits.TheConstants.{MAX_SCRIPT_BYTES};
ghost use Rattle.sch_undo.specs.Pairs.{pair_cap_for};
ghost use Rattle.sch_words.specs.declared.status.Status.TheVariants as statuses;
ghost use Rattle.name_scopes.specs.Scoping.{InScope};
ghost use Rattle.sch_words.specs.declared.count.TheConstants.{MAX_UNDO_DEPTH};
ghost use Rattle.sch_commands.specs.Behaviours.{BeginsStates, OpeningAll, States, StatesCost, behaviour};
ghost use Rattle.sch_loading.specs.Reads.{Reads, file, schema_file};
ghost use Rattle.sch_words.specs.Commands.{follow};
ghost use Rattle.sch_stops.specs.EditLines.{edit_line, refused_line};
ghost use Rattle.sch_commands.specs.Following.{then_shown};
ghost use Rattle.sch_commands.specs.Telling.{Telling, by_plan};
ghost use Rattle.sch_stops.specs.Stops.{counted_if, ends_with};
ghost use Rattle.sch_commands.specs.Carried.{Carried, Concludes};
ghost use Rattle.sch_commands.specs.inner.Counts.{CountsAhead, CountsAlong, CountsOn, IsCosted, RoseFor};
ghost use Rattle.sch_commands.specs.inner.Followers.{Beginning, Ending, Goes, IsReady, IsUndone, in_front_of, place_of, scripted_by};
ghost use Rattle.sch_commands.specs.inner.Scripts.{EditsCost};
ghost use Rattle.sch_commands.specs.inner.Sessions.{HasCost, IsUnevaluated, document_of};
ghost use Rattle.sch_commands.specs.inner.Writing.{IsOfWriting, WroteText};

use crate::followed::Followed;
use crate::undoing::follow_undoing;
use crate::validation::load_asked;
use doc_tree::{EditRefusal, Tree};
use edit_command_laws::{edits_keep_trees, edits_make_trees, one_edit, scripts_are_well_formed};
use edit_commands::ApplyError;
use edit_script::{Command, ScriptReader};
use sch_base::Text;
use sch_io::{Bytes, Failed, Shelf, Sink};
use sch_loading::read_script;
use sch_stops::{Stop, write_edit_line, write_refused_line};
use sch_undo::{Session, Shown};
use sch_words::ScriptedValidation;
use std::alloc::Global;
use std::sync::ledger::Ledger;
use xp_outcome::Steps;

/// Follows the script that is asked for: writes the first state of the document, and what comes of each command; answers what the
/// states show.
pub(crate) fn follow<S: Shelf, O: Sink, L: Ledger>(
    alloc: Global,
    asked: ScriptedValidation<'_>,
    shelf: &mut S,
    out: &mut O,
    steps: &mut Steps<L>,
) -> Result<Shown, Stop>
    ensures carried { Carried (behaviour (Some (follow asked.entry.undos asked.entry.validation.phase.now asked.entry.validation.schema.now asked.entry.validation.document.now asked.entry.script.now)))
        (S.state shelf.old) (S.state shelf.new) (O.log out.old) (O.log out.new) steps.old steps.new result }
    ensures accepted { ends_with statuses.Usage result ≡ false }
{
    let Scripted { session, script } = load_scripted(alloc, asked, shelf)?;
    follow_session(alloc, session, asked.undos, script.as_slice(), out, steps)
}

/// Writes the state of a document, and what comes of each command of a script, in which so many edits can be undone; answers what the
/// states show.
fn follow_session<O: Sink, L: Ledger>(
    alloc: Global,
    session: Session,
    undos: u32,
    script: &[u8],
    out: &mut O,
    steps: &mut Steps<L>,
) -> Result<Shown, Stop>
    requires cap { session.tree.pair_cap ≡ pair_cap_for session.plan }
    requires scoped { InScope session.tree.nodes }
    requires few { undos ≤ MAX_UNDO_DEPTH }
    requires short { length script.now ≤ MAX_SCRIPT_BYTES }
    requires unevaluated { IsUnevaluated (document_of session) }
    ensures told { Concludes (States (by_plan session.plan) undos session.tree.nodes script.now) (λ _. ⊥)
        (BeginsStates (by_plan session.plan) undos session.tree.nodes script.now) (Appends (O.log out.old).written (O.log out.new).written) result }
    ensures writing { IfErr result IsOfWriting }
    ensures write_faults { (O.log out.new).faults ≡ counted_if (ends_with statuses.WriteFault result) (O.log out.old).faults }
    ensures counted { CountsAlong (StatesCost (by_plan session.plan) undos session.tree.nodes script.now) steps.old steps.new result }
    ensures steps { steps.old ≤ steps.new }
{
    if undos != 0 {
        return follow_undoing(alloc, session, undos, script, out, steps);
    }
    session.laws();
    script_has_cost(session.tree(), script);
    let mut session = session;
    write_states(alloc, &mut session, script, out, steps)
}

/// A document under a plan, and the bytes of a script for it.
#[derive(Drop)]
pub(crate) struct Scripted {
    pub(crate) session: Session,
    pub(crate) script: Bytes,
}

/// The document and the script that are asked for.
pub(crate) fn load_scripted<S: Shelf>(
    alloc: Global,
    asked: ScriptedValidation<'_>,
    shelf: &mut S,
) -> Result<Scripted, Stop>
    ensures reads { Reads (S.state shelf.old) (S.state shelf.new)
        (schema_file asked.entry.validation.schema.now ∷ file asked.entry.validation.document.now ∷ file asked.entry.script.now ∷ [])
        (λ files. OpeningAll files asked.entry.validation.phase.now asked.entry.validation.schema.now asked.entry.validation.document.now asked.entry.script.now)
        scripted_by result }
    ensures cap { IfOk result (λ scripted. scripted.session.tree.pair_cap ≡ pair_cap_for scripted.session.plan) }
    ensures scoped { IfOk result (λ scripted. InScope scripted.session.tree.nodes) }
    ensures unevaluated { IfOk result (λ scripted. IsUnevaluated (document_of scripted.session)) }
    ensures short { IfOk result (λ scripted. length scripted.script ≤ MAX_SCRIPT_BYTES) }
{
    let name = Text::copy(alloc, asked.script.as_str())?;
    let session = load_asked(alloc, asked.validation, shelf)?;
    match read_script(alloc, name, shelf) {
        Ok(script) => Ok(Scripted { session, script }),
        Err(stop) => {
            drop(session);
            Err(stop)
        }
    }
}

/// The commands of a script that is not too long have their visits, whatever is told of the document: an accepted one makes a document.
/// Costs nothing.
pub(crate) fn script_has_cost(tree: &Tree, script: &[u8])
    requires document { is_document tree.now.nodes ≡ true }
    requires short { length script.now ≤ MAX_SCRIPT_BYTES }
    ensures { (telling : Telling) → (cost : ℕ) × EditsCost telling tree.now.nodes (script_of script.now) cost }
{
    tree.laws();
    edits_make_trees();
    edits_keep_trees();
    scripts_are_well_formed();
}

/// Writes the state of a document, and what comes of each command of a script; answers what the states show.
pub(crate) fn write_states<F: Followed, O: Sink, L: Ledger>(
    alloc: Global,
    followed: &mut F,
    script: &[u8],
    out: &mut O,
    steps: &mut Steps<L>,
) -> Result<Shown, Stop>
    requires cap { (F.document followed.old).tree.pair_cap ≡ (F.document followed.old).telling.pair_cap }
    requires short { length script.now ≤ MAX_SCRIPT_BYTES }
    requires costs { HasCost (F.document followed.old) (script_of script.now) }
    requires unevaluated { IsUnevaluated (F.document followed.old) }
    ensures told { Concludes (States (F.document followed.old).telling 0 (F.document followed.old).tree.nodes script.now) (λ _. ⊥)
        (BeginsStates (F.document followed.old).telling 0 (F.document followed.old).tree.nodes script.now) (Appends (O.log out.old).written (O.log out.new).written) result }
    ensures writing { IfErr result IsOfWriting }
    ensures write_faults { (O.log out.new).faults ≡ counted_if (ends_with statuses.WriteFault result) (O.log out.old).faults }
    ensures counted { CountsAlong (StatesCost (F.document followed.old).telling 0 (F.document followed.old).tree.nodes script.now) steps.old steps.new result }
    ensures steps { steps.old ≤ steps.new }
{
    let seen = followed.write_state(out, steps)?;
    let script = ScriptReader::new(alloc, script);
    let mut follower = Follower {
        script,
        number: 1,
        seen,
    };
    follower.follow_rest(followed, out, steps)
}

/// Where the following of a script stands.
#[derive(Drop)]
struct Follower<'a> {
    /// The lines of the script that are left.
    script: ScriptReader<'a>,
    /// The number of the next command, counted from 1.
    number: u64,
    /// What the states so far show: a fault where one is, and else what the last one shows.
    seen: Shown,
}

impl Follower<'_> {
    /// Does each command that is to come, and writes what comes of it; answers what the states show.
    fn follow_rest<F: Followed, O: Sink, L: Ledger>(
        &mut self,
        followed: &mut F,
        out: &mut O,
        steps: &mut Steps<L>,
    ) -> Result<Shown, Stop>
        requires ready { IsReady (place_of (F.document followed.old) self.old) }
        requires fresh { F.is_evaluated followed.old }
        ensures told { Concludes (Ending (place_of (F.document followed.old) self.old)) (λ _. ⊥) (Beginning (place_of (F.document followed.old) self.old))
            (Appends (O.log out.old).written (O.log out.new).written) result }
        ensures writing { IfErr result IsOfWriting }
        ensures write_faults { (O.log out.new).faults ≡ counted_if (ends_with statuses.WriteFault result) (O.log out.old).faults }
        ensures counted { CountsOn (place_of (F.document followed.old) self.old) steps.old steps.new result }
        ensures steps { steps.old ≤ steps.new }
    {
        while let Some(command) = self.script.next()? {
            let done = self.follow_command(followed, &command, out, steps);
            drop(command);
            done?;
        }
        Ok(self.seen)
    }

    /// Does a command, and writes what comes of it.
    fn follow_command<F: Followed, O: Sink, L: Ledger>(
        &mut self,
        followed: &mut F,
        command: &Command,
        out: &mut O,
        steps: &mut Steps<L>,
    ) -> Result<(), Stop>
        requires formed { WellFormedCommand command.now }
        requires ready { IsReady (in_front_of command.now (place_of (F.document followed.old) self.old)) }
        requires fresh { F.is_evaluated followed.old }
        ensures goes { Goes (in_front_of command.now (place_of (F.document followed.old) self.old)) (place_of (F.document followed.new) self.new)
            (O.log out.old) (O.log out.new) result }
        ensures ready { OnOk result (IsReady (place_of (F.document followed.new) self.new)) }
        ensures fresh { OnOk result (F.is_evaluated followed.new) }
        ensures script { self.new.script ≡ self.old.script }
        ensures costed { OnOk result (IsCosted (in_front_of command.now (place_of (F.document followed.old) self.old)) (place_of (F.document followed.new) self.new)
            steps.old steps.new) }
        ensures at_most { CountsAhead (in_front_of command.now (place_of (F.document followed.old) self.old)) steps.old steps.new }
        ensures steps { steps.old ≤ steps.new }
    {
        one_edit();
        let number = self.number;
        self.number += 1;
        match followed.edit(command) {
            Ok(()) => self.write_edited(followed, number, out, steps),
            Err(error) => write_undone(number, error, out),
        }
    }

    /// Writes the line of an accepted command with the number, and the state behind it.
    fn write_edited<F: Followed, O: Sink, L: Ledger>(
        &mut self,
        followed: &mut F,
        number: u64,
        out: &mut O,
        steps: &mut Steps<L>,
    ) -> Result<(), Stop>
        ensures wrote { WroteText (O.log out.old) (O.log out.new)
            (edit_line number ++ (F.document followed.old).telling.text (F.document followed.old).tree.nodes) result }
        ensures seen { OnOk result (self.new.seen ≡ then_shown self.old.seen ((F.document followed.old).telling.shows (F.document followed.old).tree.nodes)) }
        ensures tree { (F.document followed.new).tree ≡ (F.document followed.old).tree }
        ensures telling { (F.document followed.new).telling ≡ (F.document followed.old).telling }
        ensures script { self.new.script ≡ self.old.script }
        ensures number { self.new.number ≡ self.old.number }
        ensures fresh { OnOk result (F.is_evaluated followed.new) }
        ensures rose { OnOk result (RoseFor (F.document followed.old).next steps.old steps.new
            ((F.document followed.old).telling.shows (F.document followed.old).tree.nodes)) }
        ensures at_most { steps.new ≤ steps.old + (F.document followed.old).next }
        ensures steps { steps.old ≤ steps.new }
    {
        write_edit_line(number, out)?;
        let last = followed.write_state(out, steps)?;
        self.seen = then_shown(self.seen, last);
        Ok(())
    }
}

/// Writes the line of a command that is refused; one that finds no memory ends the run.
pub(crate) fn write_undone<O: Sink>(number: u64, error: ApplyError, out: &mut O) -> Result<(), Stop>
    ensures { IsUndone number error (O.log out.old) (O.log out.new) result }
{
    match error {
        ApplyError::Refused(reason) => write_refused(number, reason, out),
        ApplyError::Memory => Err(Stop::Memory),
    }
}

/// Writes the line of a refused command.
pub(crate) fn write_refused<O: Sink>(
    number: u64,
    reason: EditRefusal,
    out: &mut O,
) -> Result<(), Stop>
    ensures wrote { WroteText (O.log out.old) (O.log out.new) (refused_line number reason) result }
    ensures memory { ends_with statuses.Memory result ≡ false }
{
    match write_refused_line(number, reason, out) {
        Ok(()) => Ok(()),
        Err(Failed) => Err(Stop::WriteFault),
    }
}

/// What the states so far show, with one more.
pub(crate) fn then_shown(seen: Shown, next: Shown) -> Shown
    ensures { result ≡ then_shown seen next }
{
    match seen {
        Shown::Fault => Shown::Fault,
        Shown::Clean | Shown::Findings => next,
    }
}
