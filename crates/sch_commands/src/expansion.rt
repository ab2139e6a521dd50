//! An expansion: the schema read, and written without includes and abstract parts.

ghost use Rattle.std.specs.Prelude.{◌≡◌, ℕ, false, Some, IfOk};
ghost use Rattle.sch_io.specs.Wrote.{Wrote};
ghost use Rattle.pyx_core.specs.Written.{text_of};
ghost use Rattle.sch_flat.specs.FlatDocument.{flat_events};
ghost use Rattle.sch_undo.specs.shown.Shown.TheVariants as states;
ghost use Rattle.sch_words.specs.declared.status.Status.TheVariants as statuses;
ghost use Rattle.sch_commands.specs.Behaviours.{behaviour};
ghost use Rattle.sch_words.specs.Commands.{expand};
ghost use Rattle.sch_commands.specs.Carried.{Carried};
ghost use Rattle.sch_commands.specs.inner.Writing.{WroteText};
ghost use Rattle.sch_stops.specs.Stops.{ends_with};

use pyx_core::Event;
use pyx_write::write_event;
use sch_base::Text;
use sch_flat::flat_events;
use sch_io::{Failed, Shelf, Sink};
use sch_loading::load_flat;
use sch_model::FlatSchema;
use sch_stops::Stop;
use sch_undo::Shown;
use std::alloc::Global;

/// Expands the named schema, and writes it.
pub(crate) fn expand_schema<S: Shelf, O: Sink>(
    alloc: Global,
    name: &Text,
    shelf: &mut S,
    out: &mut O,
) -> Result<Shown, Stop>
    // whatever was counted stays: an expansion evaluates nothing
    ensures carried { (count : ℕ) → Carried (behaviour (Some (expand name.now))) (S.state shelf.old) (S.state shelf.new) (O.log out.old) (O.log out.new) count count result }
    ensures accepted { ends_with statuses.Usage result ≡ false }
{
    let flat = load_flat(alloc, name, shelf)?;
    let written = write_expanded(alloc, &flat, out);
    drop(flat);
    written
}

/// Writes a schema without abstract parts, which shows nothing to be found.
fn write_expanded<O: Sink>(alloc: Global, flat: &FlatSchema, out: &mut O) -> Result<Shown, Stop>
    ensures wrote { WroteText (O.log out.old) (O.log out.new) (text_of (flat_events flat.now)) result }
    ensures shown { IfOk result (λ last. last ≡ states.Clean) }
{
    let events = flat_events(alloc, flat)?;
    match write_events(events.as_slice(), out) {
        Ok(()) => Ok(Shown::Clean),
        Err(Failed) => Err(Stop::WriteFault),
    }
}

/// Writes events one after another.
fn write_events<O: Sink>(events: &[Event], out: &mut O) -> Result<(), Failed>
    ensures { Wrote (O.log out.old) (O.log out.new) (text_of events.now) result }
{
    for event in events {
        write_event(out, event)?;
    }
    Ok(())
}
