//! The program's one call.

ghost use Rattle.std.specs.Prelude.{◌≡◌, ◌≤◌, ◌++◌, ℕ, List, ◌↔◌, None, false};
ghost use Rattle.sch_io.specs.ReadThrough.{ReadsThrough};
ghost use Rattle.sch_io.specs.Wrote.{Appends};
ghost use Rattle.sch_words.specs.declared.status.Status.TheVariants as statuses;
ghost use Rattle.sch_commands.specs.Behaviours.{asked_by};
ghost use Rattle.sch_words.specs.Commands.{command_of};
ghost use Rattle.sch_cli.specs.Headline.{Headline};
ghost use Rattle.sch_commands.specs.Output.{line_shown};
ghost use Rattle.sch_cli.specs.Runs.{Tells, IsLineOf, OpensFiles, extent_of_status, may_evaluate};
ghost use Rattle.sch_stops.specs.Stops.{counted_if, is_status};
ghost use Rattle.sch_commands.specs.Carried.{line_of_end, status_of_end};
ghost use Rattle.sch_commands.specs.Written.{may_write};
ghost use Rattle.sch_cli.specs.inner.Ended.{HasStatus};

use sch_commands::{Shown, carry_out};
use sch_io::{Shelf, Sink, write_all};
use sch_stops::Stop;
use sch_words::{Status, Words};
use std::alloc::Global;
use std::sync::ledger::Ledger;
use xp_outcome::Steps;

/// Carries out what the words ask for, over the files of the shelf: the reports, what watched expressions give, the expanded schema, a summary
/// or a notice go to `out`, and where the run was stopped or a state of it is a fault its one line goes to `err`, whose failure changes no status.
#[tactic(auto, using(crate::proofs::RunLemmas::run_ends, crate::proofs::RunLemmas::line_named))]
pub fn run<S: Shelf, O: Sink, E: Sink, L: Ledger>(
    alloc: Global,
    words: &Words,
    shelf: &mut S,
    out: &mut O,
    err: &mut E,
    steps: &mut Steps<L>,
) -> Status
    ensures headline { Headline (S.state shelf.old).files words.now (λ opened. (S.state shelf.new).opened ≡ (S.state shelf.old).opened ++ opened)
        (Appends (O.log out.old).written (O.log out.new).written) (Tells (E.log err.old) (E.log err.new)) result steps.old steps.new }
    ensures line { (line : List ℕ) × IsLineOf (S.state shelf.old).opened (S.state shelf.new).opened result line
        × Tells (E.log err.old) (E.log err.new) line }
    ensures usage { (result ≡ statuses.Usage) ↔ (command_of words.now ≡ None) }
    // whatever the shelf tells, the files that the words name are opened in their order, up to some one
    ensures opened { OpensFiles (asked_by words.now).named (S.state shelf.old).opened (S.state shelf.new).opened }
    // and each is read to its end and no further, but for the last one where the run is stopped at it
    ensures through { ReadsThrough (extent_of_status result) (S.state shelf.old) (S.state shelf.new) }
    // what the shelf holds stays
    ensures held { (S.state shelf.new).files ≡ (S.state shelf.old).files }
    // a fault of the outside is counted exactly where it is told
    ensures misses { (S.state shelf.new).misses ≡ counted_if (is_status statuses.Missing result) (S.state shelf.old).misses }
    ensures read_faults { (S.state shelf.new).faults ≡ counted_if (is_status statuses.ReadFault result) (S.state shelf.old).faults }
    ensures write_faults { (O.log out.new).faults ≡ counted_if (is_status statuses.WriteFault result) (O.log out.old).faults }
    // a run that stops before it writes leaves the output as it was, and one that does not evaluate the count of steps
    ensures untouched { may_write result ≡ false → O.log out.new ≡ O.log out.old }
    ensures unevaluated { may_evaluate words.now result ≡ false → steps.new ≡ steps.old }
    ensures steps { steps.old ≤ steps.new }
{
    conclude(carry_out(alloc, words, shelf, out, steps), err)
}

/// Tells the line of how a run ended, and says the status.
#[tactic(auto, using(crate::proofs::RunLemmas::ends_by))]
pub(crate) fn conclude<E: Sink>(ended: Result<Shown, Stop>, err: &mut E) -> Status
    ensures ends { HasStatus result ended }
    ensures told { Tells (E.log err.old) (E.log err.new) (line_of_end ended) }
{
    tell(&ended, err);
    status_of(&ended)
}

/// Writes the line of how a run ended, where it has one; its failure changes nothing.
#[tactic(auto, using(crate::proofs::RunLemmas::told_stop))]
fn tell<E: Sink>(ended: &Result<Shown, Stop>, err: &mut E)
    ensures { Tells (E.log err.old) (E.log err.new) (line_of_end ended.now) }
{
    match ended {
        Ok(last) => tell_shown(*last, err),
        Err(stop) => {
            let _ = stop.tell(err);
        }
    }
}

/// Writes the line of a run that comes to its end, where a state is a fault; its failure changes nothing.
fn tell_shown<E: Sink>(last: Shown, err: &mut E)
    ensures { Tells (E.log err.old) (E.log err.new) (line_shown last) }
{
    match last {
        Shown::Fault => {
            let _ = write_all(err, b"sch: faulted\n");
        }
        Shown::Clean | Shown::Findings => {}
    }
}

/// The status of a run that ended so.
fn status_of(ended: &Result<Shown, Stop>) -> Status
    ensures { result ≡ status_of_end ended.now }
{
    match ended {
        Ok(Shown::Clean) => Status::Clean,
        Ok(Shown::Findings) => Status::Findings,
        Ok(Shown::Fault) => Status::Faulted,
        Err(stop) => stop.status(),
    }
}
