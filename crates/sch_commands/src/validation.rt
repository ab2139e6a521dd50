//! A validation: the schema and the document read, then the state of the document by the schema.

ghost use Rattle.std.specs.Prelude.{◌≡◌, ◌≤◌, ◌+◌, false, [], ◌∷◌, Some, IfOk, OnOk};
ghost use Rattle.name_scopes.specs.Scoping.{InScope};
ghost use Rattle.sch_compiled.specs.Soundness.{IsSound};
ghost use Rattle.sch_undo.specs.Pairs.{pair_cap_for};
ghost use Rattle.sch_undo.specs.State.{shows, state_text};
ghost use Rattle.sch_words.specs.declared.status.Status.TheVariants as statuses;
ghost use Rattle.sch_commands.specs.Behaviours.{Opening, Treeing, behaviour};
ghost use Rattle.sch_commands.specs.Telling.{by_plan};
ghost use Rattle.sch_loading.specs.Reads.{Reads, file, schema_file};
ghost use Rattle.sch_words.specs.Commands.{validate};
ghost use Rattle.sch_commands.specs.Carried.{Carried};
ghost use Rattle.sch_commands.specs.inner.Counts.{RoseFor};
ghost use Rattle.sch_commands.specs.inner.Followers.{treed_by};
ghost use Rattle.sch_commands.specs.inner.Sessions.{IsEvaluated, IsUnevaluated, document_of, next_cost};
ghost use Rattle.sch_commands.specs.inner.Writing.{WroteText, of_report};
ghost use Rattle.sch_stops.specs.Stops.{ends_with};

use sch_base::Text;
use sch_compiled::Plan;
use sch_io::{Shelf, Sink};
use sch_loading::{load_document, load_plan};
use sch_stops::{DocumentRefusal, Stop};
use sch_undo::{OpenRefusal, ReportError, Session, Shown};
use sch_words::Validation;
use std::alloc::Global;
use std::sync::ledger::Ledger;
use xp_outcome::Steps;

/// The named document, opened under the plan.
fn load_under<S: Shelf>(
    alloc: Global,
    plan: Plan,
    name: Text,
    shelf: &mut S,
) -> Result<Session, Stop>
    requires { IsSound plan }
    ensures reads { Reads (S.state shelf.old) (S.state shelf.new) (file name ∷ []) (λ files. Treeing files plan name) treed_by result }
    ensures cap { IfOk result (λ session. session.tree.pair_cap ≡ pair_cap_for session.plan) }
    ensures scoped { IfOk result (λ session. InScope session.tree.nodes) }
    ensures unevaluated { IfOk result (λ session. IsUnevaluated (document_of session)) }
{
    let tree = load_document(alloc, name, shelf)?;
    match Session::open(alloc, plan, tree) {
        Ok(session) => Ok(session),
        Err(OpenRefusal::TooManyPairs) => {
            Err(Stop::DocumentRefused(DocumentRefusal::TooManyPairs))
        }
        Err(OpenRefusal::Memory) => Err(Stop::Memory),
    }
}

/// The document that is asked for, opened under the plan of the schema's phase.
pub(crate) fn load_asked<S: Shelf>(
    alloc: Global,
    asked: Validation<'_>,
    shelf: &mut S,
) -> Result<Session, Stop>
    ensures reads { Reads (S.state shelf.old) (S.state shelf.new) (schema_file asked.entry.schema.now ∷ file asked.entry.document.now ∷ [])
        (λ files. Opening files asked.entry.phase.now asked.entry.schema.now asked.entry.document.now) treed_by result }
    ensures cap { IfOk result (λ session. session.tree.pair_cap ≡ pair_cap_for session.plan) }
    ensures scoped { IfOk result (λ session. InScope session.tree.nodes) }
    ensures unevaluated { IfOk result (λ session. IsUnevaluated (document_of session)) }
{
    let document = Text::copy(alloc, asked.document.as_str())?;
    let plan = load_plan(alloc, asked.schema, asked.phase, shelf)?;
    load_under(alloc, plan, document, shelf)
}

/// Writes the state of a document as it stands, and keeps what its units gave; answers what it shows.
pub(crate) fn write_session<O: Sink, L: Ledger>(
    session: &mut Session,
    out: &mut O,
    steps: &mut Steps<L>,
) -> Result<Shown, Stop>
    ensures wrote { WroteText (O.log out.old) (O.log out.new) (state_text session.old.plan session.old.tree.nodes) result }
    ensures shown { IfOk result (λ last. last ≡ shows session.old.plan session.old.tree.nodes) }
    ensures tree { session.new.tree ≡ session.old.tree }
    ensures plan { session.new.plan ≡ session.old.plan }
    ensures fresh { OnOk result (IsEvaluated session.new) }
    ensures rose { IfOk result (RoseFor (next_cost session.old) steps.old steps.new) }
    ensures at_most { steps.new ≤ steps.old + next_cost session.old }
    ensures steps { steps.old ≤ steps.new }
{
    match session.report(out, steps) {
        Ok(last) => Ok(last),
        Err(error) => Err(stop_of(error)),
    }
}

/// Writes the state of a document that is not edited, and keeps nothing; answers what it shows.
fn write_once<O: Sink, L: Ledger>(
    session: &Session,
    out: &mut O,
    steps: &mut Steps<L>,
) -> Result<Shown, Stop>
    ensures wrote { WroteText (O.log out.old) (O.log out.new) (state_text session.now.plan session.now.tree.nodes) result }
    ensures shown { IfOk result (λ last. last ≡ shows session.now.plan session.now.tree.nodes) }
    ensures rose { IfOk result (RoseFor ((by_plan session.now.plan).first_cost session.now.tree.nodes) steps.old steps.new) }
    ensures at_most { steps.new ≤ steps.old + (by_plan session.now.plan).first_cost session.now.tree.nodes }
    ensures steps { steps.old ≤ steps.new }
{
    match session.report_once(out, steps) {
        Ok(last) => Ok(last),
        Err(error) => Err(stop_of(error)),
    }
}

/// What stops a run whose state is not written whole.
pub(crate) fn stop_of(error: ReportError) -> Stop
    ensures { result ≡ of_report error }
{
    match error {
        ReportError::Failed => Stop::WriteFault,
        ReportError::Memory => Stop::Memory,
    }
}

/// Validates the document that is asked for, and writes its state; answers what the state shows.
pub(crate) fn validate<S: Shelf, O: Sink, L: Ledger>(
    alloc: Global,
    asked: Validation<'_>,
    shelf: &mut S,
    out: &mut O,
    steps: &mut Steps<L>,
) -> Result<Shown, Stop>
    ensures carried { Carried (behaviour (Some (validate asked.entry.phase.now asked.entry.schema.now asked.entry.document.now)))
        (S.state shelf.old) (S.state shelf.new) (O.log out.old) (O.log out.new) steps.old steps.new result }
    ensures accepted { ends_with statuses.Usage result ≡ false }
{
    let session = load_asked(alloc, asked, shelf)?;
    let written = write_once(&session, out, steps);
    drop(session);
    written
}
