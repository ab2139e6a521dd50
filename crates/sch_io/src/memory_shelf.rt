//! A shelf that keeps its files in memory.

ghost use Rattle.std.specs.Prelude.{◌≡◌, ◌+◌, ◌<◌, ◌≤◌, [], ◌∷◌, ◌++◌, length, take, min, map, ◌↔◌, IsTrue, None, Some, OnOk, OnErr, IfOk, IsErrOf, MatchOption, is_err};
ghost use Rattle.std.specs.FinMap as maps;
ghost use Rattle.std.specs.Ordering.{nat_cmp};
ghost use Rattle.std.specs.Cmp.Lexicographic.{slice_cmp};
ghost use Rattle.std.specs.Io.{ReadsAtMost};
ghost use Rattle.std.specs.Io.KnownBytes.{ReadConsumes};
ghost use Rattle.sch_io.specs.Counts.{CountsTaken, faults_after, faults_of_open, misses_of_open};
ghost use Rattle.sch_io.specs.Ends.{ends_after};
ghost use Rattle.sch_io.specs.Files.{Opens};
ghost use Rattle.sch_io.specs.Calls.{fails_next, made_next};
ghost use Rattle.sch_io.specs.Pieces.{at_most};
ghost use Rattle.sch_io.specs.inner.NamedFiles.{IsWithin, content_at, entry_of, rest_of, taken_of};

use crate::calls::Calls;
use crate::counts::one_more;
use crate::error::{Failed, OpenError};
use crate::history::History;
use crate::pieces::at_most;
use crate::shelf::Shelf;
use std::alloc::{AllocError, Global};
use std::marker::Model;

/// A file and its name.
#[derive(Drop)]
struct NamedFile {
    name: String,
    content: Vec<u8>,
}

/// The place of the open file and how many of its bytes were read.
#[derive(Clone, Copy)]
struct OpenFile {
    place: usize,
    at: usize,
}

/// A shelf in memory, of whose calls of `open` and `read` chosen ones fail, and whose reads may be held short.
///
/// It keeps the files newest first, and an old content of a name after the new one, so that `open` looks through
/// all that were put.
#[derive(Drop)]
pub struct MemoryShelf {
    alloc: Global,
    files: Vec<NamedFile>,
    open_file: Option<OpenFile>,
    history: History,
    most: Option<usize>,
    calls: Calls,
    faults: u64,
    misses: u64,
}

impl Model for MemoryShelf {
    ghost use Rattle.sch_io.specs.MemoryShelf.{Shelved, shelved_code};

    ghost Value = { Shelved };

    ghost coded = { shelved_code };

    ghost use Rattle.sch_io.specs.Pieces.{IsPiece};
    ghost use Rattle.sch_io.specs.inner.NamedFiles.{files_of, rest_of, taken_of, IsWithin};

    ghost view = { λ s. record { files = files_of s.files.items; rest = rest_of s.files.items s.open_file; taken = taken_of s.open_file; opened = s.history.opened; ends = s.history.ends; most = s.most; calls = s.calls; faults = s.faults; misses = s.misses } };

    ghost invariant = { λ s. IsWithin s.files.items s.open_file × IsPiece s.most };
}

impl MemoryShelf {
    /// A shelf without files.
    pub fn new(alloc: Global) -> MemoryShelf
        ensures { result ≡ record { files = maps.empty; rest = []; taken = 0; opened = []; ends = []; most = None; calls = record { made = 0; failing = [] }; faults = 0; misses = 0 } }
    {
        MemoryShelf {
            alloc,
            files: Vec::new(alloc),
            open_file: None,
            history: History::new(),
            most: None,
            calls: Calls::new(alloc),
            faults: 0,
            misses: 0,
        }
    }

    /// Sets the content of the name, in place of an old one; afterwards no file is open.
    pub fn put(&mut self, name: &str, bytes: &[u8]) -> Result<(), AllocError>
        ensures put { OnOk result (self.new ≡ record self.old { files = maps.insert self.old.files name.now bytes.now; rest = []; taken = 0 }) }
        ensures unchanged { OnErr result (self.new ≡ self.old) }
    {
        let name = String::from_str(self.alloc, name)?;
        let content = Vec::from_slice(self.alloc, bytes)?;
        self.files.insert(0, NamedFile { name, content })?;
        self.open_file = None;
        Ok(())
    }

    /// Lets the call of `open` or `read` of that number fail, the first being 1.
    pub fn fail_at(&mut self, call: u64) -> Result<(), AllocError>
        ensures planned { OnOk result (self.new ≡ record self.old { calls = record self.old.calls { failing = self.old.calls.failing ++ call ∷ [] } }) }
        ensures unchanged { OnErr result (self.new ≡ self.old) }
    {
        self.calls.fail_at(call)
    }

    /// Lets each read from now on give at most that many bytes, which are 1 or more.
    pub fn read_at_most(&mut self, n: usize)
        requires { 1 ≤ n }
        ensures { self.new ≡ record self.old { most = Some n } }
    {
        self.most = Some(n);
    }
}

impl Shelf for MemoryShelf {
    ghost state = { λ s. record { files = Some s.files; rest = Some s.rest; taken = s.taken; opened = s.opened; ends = s.ends; faults = s.faults; misses = s.misses } };

    /// Fails exactly at the calls given to `fail_at`.
    fn open(&mut self, name: &str) -> Result<(), OpenError>
        ensures opened { Opens (Some self.new.files) (Some self.new.rest) name.now result }
        ensures fresh { self.new.taken ≡ 0 }
        ensures held { self.new.files ≡ self.old.files }
        ensures noted { self.new.opened ≡ self.old.opened ++ name.now ∷ [] }
        ensures ends { self.new.ends ≡ self.old.ends }
        ensures faults { self.new.faults ≡ faults_of_open result self.old.faults }
        ensures misses { self.new.misses ≡ misses_of_open result self.old.misses }
        ensures chosen { IsErrOf result OpenError.Failed ↔ IsTrue (fails_next self.old.calls) }
        ensures counted { self.new.calls ≡ made_next self.old.calls }
        ensures same_most { self.new.most ≡ self.old.most }
    {
        self.history.open(name.as_bytes());
        self.open_file = None;
        if self.calls.next() {
            self.faults = one_more(self.faults);
            return Err(OpenError::Failed);
        }
        match place_of(self.files.as_slice(), name) {
            Some(place) => {
                self.open_file = Some(OpenFile { place, at: 0 });
                Ok(())
            }
            None => {
                self.misses = one_more(self.misses);
                Err(OpenError::Missing)
            }
        }
    }

    /// Fails exactly at the calls given to `fail_at`; otherwise gives what is left, as far as `buf` and the set number go.
    fn read(&mut self, buf: &mut [u8]) -> Result<usize, Failed>
        requires { 0 < length buf.old }
        ensures bound { ReadsAtMost result buf.new }
        ensures bytes { ReadConsumes (Some self.old.rest) (Some self.new.rest) result buf.new }
        ensures taken { CountsTaken self.old.taken self.new.taken result }
        ensures ends { self.new.ends ≡ ends_after result self.old.opened self.old.ends }
        ensures held { self.new.files ≡ self.old.files }
        ensures noted { self.new.opened ≡ self.old.opened }
        ensures faults { self.new.faults ≡ faults_after result self.old.faults }
        ensures misses { self.new.misses ≡ self.old.misses }
        ensures chosen { is_err result ≡ fails_next self.old.calls }
        ensures fills { IfOk result (λ n. n ≡ min (length self.old.rest) (at_most self.old.most (length buf.old))) }
        ensures counted { self.new.calls ≡ made_next self.old.calls }
        ensures same_most { self.new.most ≡ self.old.most }
    {
        if self.calls.next() {
            self.faults = one_more(self.faults);
            return Err(Failed);
        }
        let room = at_most(self.most, buf.len());
        let n = read_open(self.files.as_slice(), &mut self.open_file, room, buf);
        if n == 0 {
            self.history.end();
        }
        Ok(n)
    }
}

/// Moves what is left of the open file into `buf`, as far as so much room of it goes, and answers how many bytes.
fn read_open(
    files: &[NamedFile],
    open_file: &mut Option<OpenFile>,
    room: usize,
    buf: &mut [u8],
) -> usize
    requires room { room ≤ length buf.old }
    requires within { IsWithin files.now open_file.old }
    ensures bound { result ≤ length buf.new }
    ensures fills { result ≡ min (length (rest_of files.now open_file.old)) room }
    ensures bytes { rest_of files.now open_file.old ≡ take result buf.new ++ rest_of files.now open_file.new }
    ensures taken { taken_of open_file.new ≡ taken_of open_file.old + result }
    ensures still_within { IsWithin files.now open_file.new }
{
    let Some(open) = *open_file else {
        return 0;
    };
    let Some(file) = files.get(open.place) else {
        return 0;
    };
    let n = copy_front(&file.content.as_slice()[open.at..], room, buf);
    *open_file = Some(OpenFile {
        place: open.place,
        at: open.at + n,
    });
    n
}

/// The place of the first file of that name.
fn place_of(files: &[NamedFile], name: &str) -> Option<usize>
    ensures { MatchOption result
        (maps.find (slice_cmp nat_cmp) name.now (map entry_of files.now) ≡ None)
        (λ place. maps.find (slice_cmp nat_cmp) name.now (map entry_of files.now) ≡ Some (content_at files.now place)) }
{
    for (place, file) in files.iter().enumerate() {
        if name == file.name.as_str() {
            return Some(place);
        }
    }
    None
}

/// Copies the front of `rest` that fits into so much room of `buf`, and answers its length.
fn copy_front(rest: &[u8], room: usize, buf: &mut [u8]) -> usize
    requires { room ≤ length buf.old }
    ensures fits { result ≡ min (length rest.now) room }
    ensures copied { take result buf.new ≡ take result rest.now }
    ensures same_len { length buf.new ≡ length buf.old }
{
    let n = rest.len().min(room);
    buf[..n].copy_from_slice(&rest[..n]);
    n
}
