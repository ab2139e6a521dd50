//! A summary: a report read, and what is counted of it written.

ghost use Rattle.std.specs.Prelude.{◌≡◌, ℕ, false, Some, IfOk};
ghost use Rattle.svrl_summary.specs.Lines.{summary_lines};
ghost use Rattle.sch_undo.specs.shown.Shown.TheVariants as states;
ghost use Rattle.sch_words.specs.declared.status.Status.TheVariants as statuses;
ghost use Rattle.sch_words.specs.Commands.{summarize};
ghost use Rattle.sch_commands.specs.Behaviours.{behaviour};
ghost use Rattle.sch_commands.specs.Carried.{Carried};
ghost use Rattle.sch_commands.specs.inner.Writing.{WroteText};
ghost use Rattle.sch_stops.specs.Stops.{ends_with};

use sch_base::Text;
use sch_io::{Failed, Shelf, Sink};
use sch_loading::load_report;
use sch_stops::Stop;
use sch_undo::Shown;
use std::alloc::Global;
use svrl_read::SvrlReport;
use svrl_summary::{summary_of, write_summary};

/// Reads the named report, and writes its summary.
pub(crate) fn sum_up<S: Shelf, O: Sink>(
    alloc: Global,
    name: &Text,
    shelf: &mut S,
    out: &mut O,
) -> Result<Shown, Stop>
    // whatever was counted stays: a summary evaluates nothing
    ensures carried { (count : ℕ) → Carried (behaviour (Some (summarize name.now))) (S.state shelf.old) (S.state shelf.new) (O.log out.old) (O.log out.new) count count result }
    ensures accepted { ends_with statuses.Usage result ≡ false }
{
    let name = Text::copy(alloc, name.as_str())?;
    let report = load_report(alloc, name, shelf)?;
    let written = write_summed_up(alloc, &report, out);
    drop(report);
    written
}

/// Writes the summary of a report, which shows nothing to be found.
fn write_summed_up<O: Sink>(alloc: Global, report: &SvrlReport, out: &mut O) -> Result<Shown, Stop>
    ensures wrote { WroteText (O.log out.old) (O.log out.new) (summary_lines report.now) result }
    ensures shown { IfOk result (λ last. last ≡ states.Clean) }
{
    let summary = summary_of(alloc, report)?;
    let written = write_summary(&summary, out);
    drop(summary);
    match written {
        Ok(()) => Ok(Shown::Clean),
        Err(Failed) => Err(Stop::WriteFault),
    }
}
