//! The end of a process by a run: the exit status is the code of its status.

ghost use Rattle.std.specs.Prelude.{◌≡◌, ℕ, ◌<◌, IfOk, OnErr};
ghost use Rattle.std.specs.Process.{exit_status};
ghost use Rattle.sch_stops.specs.Output.{memory_line};
ghost use Rattle.sch_words.specs.Status.{code_of};
ghost use Rattle.sch_words.specs.declared.status.Status.{Status as Ends};
ghost use Rattle.sch_words.specs.declared.status.Status.TheVariants as statuses;
ghost use Rattle.sch_cli.specs.Ran.{Ran};
ghost use Rattle.sch_cli.specs.Runs.{Tells};

use crate::program::{conclude, run};
use sch_io::{Shelf, Sink};
use sch_stops::Stop;
use sch_words::{Status, Words, WordsError};
use std::alloc::Global;
use std::process::ExitCode;
use std::sync::ledger::{Blank, Ledger};
use xp_outcome::Steps;

/// Runs the words where they were read, and else ends the program as one without memory; the ledger of the count of steps is that of the
/// blank.
pub fn run_if_read<S: Shelf, O: Sink, E: Sink, L: Ledger>(
    alloc: Global,
    words: Result<Words, WordsError>,
    shelf: &mut S,
    out: &mut O,
    err: &mut E,
    blank: Blank,
) -> ExitCode
    requires name { blank.name ≡ L.name }
    requires parts { blank.parts ≡ L.parts }
    requires some { 0 < L.parts }
    // all that `run` promises holds with the status whose code is the exit status
    ensures ran { IfOk words (λ given. (status : Ends) × (exit_status result ≡ code_of status) × (counted : ℕ)
        × Ran given (S.state shelf.old) (S.state shelf.new) (O.log out.old) (O.log out.new) (E.log err.old) (E.log err.new) status 0 counted) }
    // without words the exit status is that of want of memory, its line is told, and nothing else is done
    ensures memory { OnErr words (exit_status result ≡ code_of statuses.Memory) }
    ensures line { OnErr words (Tells (E.log err.old) (E.log err.new) memory_line) }
    ensures unread { OnErr words (S.state shelf.new ≡ S.state shelf.old) }
    ensures unwritten { OnErr words (O.log out.new ≡ O.log out.old) }
{
    match words {
        Ok(words) => run_counted::<_, _, _, L>(alloc, words, shelf, out, err, blank),
        Err(_) => end_unread(err),
    }
}

/// Runs the words, with a count of steps over the ledger of the blank; the exit status is the code of the status.
fn run_counted<S: Shelf, O: Sink, E: Sink, L: Ledger>(
    alloc: Global,
    words: Words,
    shelf: &mut S,
    out: &mut O,
    err: &mut E,
    blank: Blank,
) -> ExitCode
    requires name { blank.name ≡ L.name }
    requires parts { blank.parts ≡ L.parts }
    requires some { 0 < L.parts }
    ensures { (status : Ends) × (exit_status result ≡ code_of status) × (counted : ℕ)
        × Ran words (S.state shelf.old) (S.state shelf.new) (O.log out.old) (O.log out.new) (E.log err.old) (E.log err.new) status 0 counted }
{
    let mut steps: Steps<L> = Steps::start(blank);
    let status = run(alloc, &words, shelf, out, err, &mut steps);
    drop(words);
    exit_of(status)
}

/// Ends the program as a run that has no memory for its words.
fn end_unread<E: Sink>(err: &mut E) -> ExitCode
    ensures memory { exit_status result ≡ code_of statuses.Memory }
    ensures line { Tells (E.log err.old) (E.log err.new) memory_line }
{
    exit_of(conclude(Err(Stop::Memory), err))
}

/// The exit status of the program after a run with the status.
fn exit_of(status: Status) -> ExitCode
    ensures { exit_status result ≡ code_of status }
{
    ExitCode::from(status.code())
}
