//! A run over a shelf into sinks in memory, and what is told of it.

ghost use Rattle.std.specs.Prelude.{◌≡◌, ◌<◌};

use crate::settings::{ROOM, Setting};
use sch_cli::{Words, run};
use sch_io::{MemoryShelf, MemorySink};
use std::alloc::{AllocError, Global};
use std::str;
use std::sync::ledger::{Blank, Ledger};
use std::test::Fail;
use xp_outcome::Steps;

/// The output and the error output of a run.
#[derive(Drop)]
struct Sinks {
    out: MemorySink,
    err: MemorySink,
}

impl Sinks {
    /// Sinks to which nothing was written.
    fn new(alloc: Global, setting: Setting) -> Result<Sinks, AllocError> {
        let out = sink_of(
            alloc,
            setting.room,
            setting.most_written,
            setting.failing_write,
        )?;
        match sink_of(alloc, ROOM, setting.most_written, setting.failing_line) {
            Ok(err) => Ok(Sinks { out, err }),
            Err(error) => {
                drop(out);
                Err(error)
            }
        }
    }

    /// The line on the error output, and the output, after a status.
    fn told(&self, alloc: Global, status: u8) -> Result<String, Fail> {
        let line = str::from_utf8(self.err.written())?;
        let text = str::from_utf8(self.out.written())?;
        Ok(format!(in alloc; "{status} {line}{text}")?)
    }
}

/// A sink with so much room to which nothing was written: how many bytes a write takes at most, and which write fails.
fn sink_of(
    alloc: Global,
    room: usize,
    most: usize,
    failing: u64,
) -> Result<MemorySink, AllocError> {
    let mut sink = MemorySink::with_room(alloc, room)?;
    if most > 0 {
        sink.take_at_most(most);
    }
    match sink.fail_at(failing) {
        Ok(()) => Ok(sink),
        Err(error) => {
            drop(sink);
            Err(error)
        }
    }
}

/// How words end over a shelf by a count over the ledger of the blank: the status, and the outputs or the steps.
pub fn tell<L: Ledger>(
    alloc: Global,
    words: &Words,
    shelf: &mut MemoryShelf,
    setting: Setting,
    blank: Blank,
) -> Result<String, Fail>
    requires name { blank.name ≡ L.name }
    requires parts { blank.parts ≡ L.parts }
    requires some { 0 < L.parts }
{
    let mut sinks = Sinks::new(alloc, setting)?;
    let mut steps: Steps<L> = Steps::start(blank);
    let ends = run(
        alloc,
        words,
        shelf,
        &mut sinks.out,
        &mut sinks.err,
        &mut steps,
    );
    let told = if setting.are_steps {
        told_steps(alloc, ends.code(), steps.taken())
    } else {
        sinks.told(alloc, ends.code())
    };
    drop(sinks);
    told
}

/// A status and the steps.
fn told_steps(alloc: Global, status: u8, steps: u64) -> Result<String, Fail> {
    Ok(format!(in alloc; "{status} {steps}")?)
}
