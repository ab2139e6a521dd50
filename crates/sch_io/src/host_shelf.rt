//! A shelf over the files and the standard input of the host.

ghost use Rattle.std.specs.Prelude.{◌≡◌, [], None, Some};
ghost use Rattle.std.specs.Io.{ReadsAtMost};
ghost use Rattle.std.specs.Io.KnownBytes.{ReadConsumes};
ghost use Rattle.sch_io.specs.inner.Sources.{rest_of_source};

use crate::counts::one_more;
use crate::error::{Failed, OpenError};
use crate::history::History;
use crate::shelf::Shelf;
use std::io::{ErrorKind, Input, Read};
use std::marker::Model;
use std::rt::Files;
use std::{fs, io};

/// The name under which standard input is opened.
pub const STANDARD_INPUT: &str = ":in";

/// What is open.
enum Source<F, I> {
    Nothing,
    File(F),
    StandardInput(I),
}

/// One call closes what is open, wherever its owner ends.
impl<F: Drop, I: Drop> Drop for Source<F, I> {
    fn drop(self) {
        match self {
            Source::Nothing => {}
            Source::File(file) => drop(file),
            Source::StandardInput(reader) => drop(reader),
        }
    }
}

/// A shelf that opens the files of the host by their paths, and standard input under the name `:in`.
///
/// It tells no files, and of the open one what is left to read only where the host tells it. It counts each failure of
/// the host, whatever its cause: as a miss where the host answers that there is no such file, and else as a fault.
#[derive(Drop)]
pub struct HostShelf<'a, R: Files + Input> {
    rt: &'a R,
    source: Source<R::File, R::Reader>,
    history: History,
    taken: u64,
    faults: u64,
    misses: u64,
}

impl<'a, R: Files + Input> Model for HostShelf<'a, R> {
    ghost use Rattle.sch_io.specs.HostShelf.{HostState};

    ghost Value = { HostState };

    ghost use Rattle.sch_io.specs.inner.Sources.{rest_of_source};

    ghost view = { λ s. record { rest = rest_of_source R.File.remaining R.Reader.remaining s.source; taken = s.taken; opened = s.history.opened; ends = s.history.ends; faults = s.faults; misses = s.misses } };
}

impl<'a, R: Files + Input> HostShelf<'a, R> {
    /// A shelf over the host, with nothing open, no name opened, no fault and no miss so far.
    pub fn new(rt: &'a R) -> HostShelf<'a, R>
        ensures { result ≡ record { rest = Some []; taken = 0; opened = []; ends = []; faults = 0; misses = 0 } }
    {
        HostShelf {
            rt,
            source: Source::Nothing,
            history: History::new(),
            taken: 0,
            faults: 0,
            misses: 0,
        }
    }
}

impl<'a, R: Files + Input> Shelf for HostShelf<'a, R> {
    ghost state = { λ s. record { files = None; rest = s.rest; taken = s.taken; opened = s.opened; ends = s.ends; faults = s.faults; misses = s.misses } };

    fn open(&mut self, name: &str) -> Result<(), OpenError> {
        self.history.open(name.as_bytes());
        self.taken = 0;
        self.source = Source::Nothing;
        match open_source(self.rt, name) {
            Ok(source) => {
                self.source = source;
                Ok(())
            }
            Err(OpenError::Missing) => {
                self.misses = one_more(self.misses);
                Err(OpenError::Missing)
            }
            Err(OpenError::Failed) => {
                self.faults = one_more(self.faults);
                Err(OpenError::Failed)
            }
        }
    }

    fn read(&mut self, buf: &mut [u8]) -> Result<usize, Failed> {
        match read_source(&mut self.source, buf) {
            Ok(n) => {
                self.taken = self.taken.saturating_add(n as u64);
                if n == 0 {
                    self.history.end();
                }
                Ok(n)
            }
            Err(_) => {
                self.faults = one_more(self.faults);
                Err(Failed)
            }
        }
    }
}

/// Opens the file of that path, or standard input under its name.
fn open_source<R: Files + Input>(
    rt: &R,
    name: &str,
) -> Result<Source<R::File, R::Reader>, OpenError> {
    if name == STANDARD_INPUT {
        return Ok(Source::StandardInput(rt.reader()));
    }
    match fs::open(rt, name) {
        Ok(file) => Ok(Source::File(file)),
        Err(error) if error.kind() == ErrorKind::NotFound => Err(OpenError::Missing),
        Err(_) => Err(OpenError::Failed),
    }
}

/// Reads from what is open; nothing is at its end.
fn read_source<F: Read, I: Read>(source: &mut Source<F, I>, buf: &mut [u8]) -> io::Result<usize>
    ensures bound { ReadsAtMost result buf.new }
    ensures bytes { ReadConsumes (rest_of_source F.remaining I.remaining source.old)
        (rest_of_source F.remaining I.remaining source.new) result buf.new }
{
    match source {
        Source::Nothing => Ok(0),
        Source::File(file) => file.read(buf),
        Source::StandardInput(reader) => reader.read(buf),
    }
}
