//! What words ask for, done.

ghost use Rattle.std.specs.Prelude.{◌≡◌, ◌↔◌, None};
ghost use Rattle.sch_words.specs.declared.status.Status.TheVariants as statuses;
ghost use Rattle.sch_words.specs.Commands.{command_of};
ghost use Rattle.sch_commands.specs.Behaviours.{asked_by};
ghost use Rattle.sch_commands.specs.Carried.{Carried, status_of_end};

use crate::expansion::expand_schema;
use crate::following::follow;
use crate::measuring::measure;
use crate::notice::write_notice;
use crate::summing::sum_up;
use crate::validation::validate;
use crate::watching::watch;
use sch_io::{Shelf, Sink};
use sch_stops::Stop;
use sch_undo::Shown;
use sch_words::{Command, Words, command_of};
use std::alloc::Global;
use std::sync::ledger::Ledger;
use xp_outcome::Steps;

/// Does what the words ask for; answers what was written.
#[tactic(auto, using(crate::proofs::AskLemmas::not_usage))]
pub fn carry_out<S: Shelf, O: Sink, L: Ledger>(
    alloc: Global,
    words: &Words,
    shelf: &mut S,
    out: &mut O,
    steps: &mut Steps<L>,
) -> Result<Shown, Stop>
    ensures carried { Carried (asked_by words.now) (S.state shelf.old) (S.state shelf.new) (O.log out.old) (O.log out.new) steps.old steps.new result }
    ensures usage { (status_of_end result ≡ statuses.Usage) ↔ (command_of words.now ≡ None) }
{
    match command_of(words.as_slice()) {
        None => Err(Stop::Usage),
        Some(Command::Tell(notice)) => write_notice(notice, out),
        Some(Command::Expand { schema }) => expand_schema(alloc, schema, shelf, out),
        Some(Command::Validate(asked)) => validate(alloc, asked, shelf, out, steps),
        Some(Command::Follow(asked)) => follow(alloc, asked, shelf, out, steps),
        Some(Command::Watch(asked)) => watch(alloc, asked, shelf, out, steps),
        Some(Command::Measure { items }) => measure(alloc, items, out, steps),
        Some(Command::Summarize { report }) => sum_up(alloc, report, shelf, out),
    }
}
