//! Examples of shelves and sinks, in memory and over the host.

use crate::hosts::host_call;
use crate::whole::{all_written, content, opened, pieces_written};
use sch_io::{MemoryShelf, MemorySink, Shelf, Sink};
use std::alloc::Global;
use std::test::Fail;
use test_rows::{Answers, copy, first_word, named, number, repeated, shown, text, told};

/// What answers the rows; those of a table call one shelf or sink.
#[derive(Drop)]
pub struct Files<'r> {
    rt: &'r HostRuntime,
    shelf: MemoryShelf,
    sink: MemorySink,
}

/// What a row asks for: another shelf or sink in memory, or a call of those that are there.
#[derive(Clone, Copy)]
enum Question {
    NewShelf,
    NewSink,
    Shelf,
    Sink,
    Host,
}

/// The questions by the kinds of rows.
const QUESTIONS: [(&str, Question); 5] = [
    ("new shelf", Question::NewShelf),
    ("new sink", Question::NewSink),
    ("shelf", Question::Shelf),
    ("sink", Question::Sink),
    ("host", Question::Host),
];

/// A call, which the first word of a row's input names: `all` reads a file whole, or writes a text whole.
#[derive(Clone, Copy)]
pub enum Call {
    All,
    Fail,
    File,
    Full,
    /// How many bytes are moved at once.
    Most,
    Open,
    Pieces,
    Put,
    Read,
    Stderr,
    Stdout,
    Write,
    Written,
}

/// The calls by their words.
const CALLS: [(&str, Call); 13] = [
    ("all", Call::All),
    ("fail", Call::Fail),
    ("file", Call::File),
    ("full", Call::Full),
    ("most", Call::Most),
    ("open", Call::Open),
    ("pieces", Call::Pieces),
    ("put", Call::Put),
    ("read", Call::Read),
    ("stderr", Call::Stderr),
    ("stdout", Call::Stdout),
    ("write", Call::Write),
    ("written", Call::Written),
];

impl Answers for Files<'_> {
    fn answer(&mut self, kind: &str, input: &str) -> Result<String, Fail> {
        match named(&QUESTIONS, kind)? {
            Question::NewShelf => self.clear_shelf(),
            Question::NewSink => self.set_room(input),
            Question::Shelf => self.shelf_call(input),
            Question::Sink => self.sink_call(input),
            Question::Host => self.host_call(input),
        }
    }
}

impl<'r> Files<'r> {
    /// An empty shelf, and a sink with room for seven bytes.
    pub fn new(rt: &'r HostRuntime) -> Result<Files<'r>, Fail> {
        let sink = MemorySink::with_room(rt.alloc(), 7)?;
        Ok(Files {
            rt,
            shelf: MemoryShelf::new(rt.alloc()),
            sink,
        })
    }
}

impl Files<'_> {
    /// Takes an empty shelf.
    fn clear_shelf(&mut self) -> Result<String, Fail> {
        self.shelf = MemoryShelf::new(self.rt.alloc());
        copy(self.rt.alloc(), "done")
    }

    /// Takes a sink with so much room.
    fn set_room(&mut self, room: &str) -> Result<String, Fail> {
        self.sink = MemorySink::with_room(self.rt.alloc(), number(room)?)?;
        copy(self.rt.alloc(), "done")
    }

    /// What a call of the shelf comes to.
    fn shelf_call(&mut self, call: &str) -> Result<String, Fail> {
        let alloc = self.rt.alloc();
        let (word, rest) = first_word(call);
        match named(&CALLS, word)? {
            Call::Put => put(alloc, &mut self.shelf, rest),
            Call::Fail => fail_shelf(alloc, &mut self.shelf, rest),
            Call::Most => shorten_reads(alloc, &mut self.shelf, rest),
            Call::Open => opened(alloc, &mut self.shelf, rest),
            Call::Read => piece(alloc, &mut self.shelf),
            Call::All => content(alloc, &mut self.shelf, rest),
            _ => Err("a shelf has no such call".into()),
        }
    }

    /// What a call of the sink comes to; `pieces` writes a text twice with nothing between, and `write` answers how many bytes were
    /// taken.
    fn sink_call(&mut self, call: &str) -> Result<String, Fail> {
        let alloc = self.rt.alloc();
        let (word, rest) = first_word(call);
        match named(&CALLS, word)? {
            Call::Fail => fail_sink(alloc, &mut self.sink, rest),
            Call::Most => shorten_writes(alloc, &mut self.sink, rest),
            Call::All => all_written(alloc, &mut self.sink, rest.as_bytes()),
            Call::Pieces => pieces_written(alloc, &mut self.sink, &[rest, "", rest]),
            Call::Write => taken(alloc, &mut self.sink, rest.as_bytes()),
            Call::Written => text(alloc, self.sink.written()),
            _ => Err("a sink has no such call".into()),
        }
    }

    /// What a call of the host comes to.
    fn host_call(&self, call: &str) -> Result<String, Fail> {
        let (word, rest) = first_word(call);
        host_call(self.rt, named(&CALLS, word)?, rest)
    }
}

/// What putting a file comes to, whose name is the first word.
fn put(alloc: Global, shelf: &mut MemoryShelf, file: &str) -> Result<String, Fail> {
    let (name, text) = first_word(file);
    let text = repeated(alloc, text)?;
    told(alloc, shelf.put(name, text.as_bytes()))
}

/// What planning a fault of a shelf comes to.
fn fail_shelf(alloc: Global, shelf: &mut MemoryShelf, call: &str) -> Result<String, Fail> {
    told(alloc, shelf.fail_at(number(call)? as u64))
}

/// What planning a fault of a sink comes to.
fn fail_sink(alloc: Global, sink: &mut MemorySink, call: &str) -> Result<String, Fail> {
    told(alloc, sink.fail_at(number(call)? as u64))
}

/// Lets reads of a shelf give at most so many bytes.
fn shorten_reads(alloc: Global, shelf: &mut MemoryShelf, most: &str) -> Result<String, Fail> {
    let most = number(most)?;
    if most == 0 {
        return Err("no read gives nothing".into());
    }
    shelf.read_at_most(most);
    copy(alloc, "done")
}

/// Lets writes to a sink take at most so many bytes.
fn shorten_writes(alloc: Global, sink: &mut MemorySink, most: &str) -> Result<String, Fail> {
    let most = number(most)?;
    if most == 0 {
        return Err("no write takes nothing".into());
    }
    sink.take_at_most(most);
    copy(alloc, "done")
}

/// The next two bytes of the open file.
fn piece(alloc: Global, shelf: &mut MemoryShelf) -> Result<String, Fail> {
    let mut piece = [0u8; 2];
    match shelf.read(&mut piece) {
        Ok(count) => text(alloc, &piece[..count]),
        Err(error) => shown(alloc, &error),
    }
}

/// How many bytes a sink takes at once.
fn taken(alloc: Global, sink: &mut MemorySink, bytes: &[u8]) -> Result<String, Fail> {
    shown(alloc, &sink.write(bytes)?)
}
