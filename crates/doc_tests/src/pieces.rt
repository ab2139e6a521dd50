//! Examples of readers of PYX: documents that come in pieces, and calls of a reader.

ghost use Rattle.std.specs.Prelude.{◌<◌};

use pyx_core::{LocatedList, Mode, Reader};
use std::alloc::Global;
use std::test::Fail;
use test_rows::{Answers, first_word, named, number, parts, told};

/// What answers the rows; those of calls are about one reader.
#[derive(Drop)]
pub struct Pieces {
    alloc: Global,
    reader: Reader,
}

/// What a row asks.
#[derive(Clone, Copy)]
enum Question {
    Reader,
    EachCut,
    EachByte,
    Cut,
}

/// The questions by the kinds of rows.
const QUESTIONS: [(&str, Question); 4] = [
    ("reader", Question::Reader),
    ("each cut", Question::EachCut),
    ("each byte", Question::EachByte),
    ("cut", Question::Cut),
];

/// A call of a reader.
#[derive(Clone, Copy)]
enum Call {
    Feed,
    Finish,
    Next,
}

/// The calls by their words.
const CALLS: [(&str, Call); 3] = [
    ("feed", Call::Feed),
    ("finish", Call::Finish),
    ("next", Call::Next),
];

impl Answers for Pieces {
    fn answer(&mut self, kind: &str, input: &str) -> Result<String, Fail> {
        match named(&QUESTIONS, kind)? {
            Question::Reader => self.called(input),
            Question::EachCut => each_cut(self.alloc, input.as_bytes()),
            Question::EachByte => in_pieces(self.alloc, b"", input.as_bytes(), 1),
            Question::Cut => cut_at_place(self.alloc, input),
        }
    }
}

impl Pieces {
    /// A reader of a document that is still to come.
    pub fn new(alloc: Global) -> Pieces {
        Pieces {
            alloc,
            reader: Reader::new(alloc, Mode::Document),
        }
    }

    /// What a call of the reader comes to.
    fn called(&mut self, call: &str) -> Result<String, Fail> {
        let (word, text) = first_word(call);
        match named(&CALLS, word)? {
            Call::Feed => self.fed(text),
            Call::Finish => self.finished(),
            Call::Next => self.next(),
        }
    }

    /// What reading a piece comes to.
    fn fed(&mut self, text: &str) -> Result<String, Fail> {
        told(self.alloc, self.reader.feed(text.as_bytes()))
    }

    /// What ending the text comes to.
    fn finished(&mut self) -> Result<String, Fail> {
        told(self.alloc, self.reader.finish())
    }

    /// The next event, where one waits.
    fn next(&mut self) -> Result<String, Fail> {
        parts(self.alloc, &self.reader.next_event())
    }
}

/// A reader, and the events that it gave.
#[derive(Drop)]
struct Reading {
    reader: Reader,
    events: LocatedList,
}

impl Reading {
    /// Reads some bytes, nothing, and the later ones, at most so many at a time.
    fn read(&mut self, first: &[u8], rest: &[u8], size: usize) -> Result<(), Fail>
        requires { 0 < size }
    {
        self.feed(first)?;
        self.feed(b"")?;
        for piece in rest.chunks(size) {
            self.feed(piece)?;
        }
        self.finish()
    }

    /// Reads a piece, and takes what waits then.
    fn feed(&mut self, piece: &[u8]) -> Result<(), Fail> {
        self.reader.feed(piece)?;
        self.take()
    }

    /// Ends the text, and takes what waits then.
    fn finish(&mut self) -> Result<(), Fail> {
        self.reader.finish()?;
        self.take()
    }

    /// Takes the events that wait, of which there are fewer than 20.
    fn take(&mut self) -> Result<(), Fail> {
        for _ in 0..20 {
            if let Some(event) = self.reader.next_event() {
                self.events.push(event)?;
            }
        }
        Ok(())
    }
}

/// The events of a document that comes in pieces: some bytes, nothing, and the later ones, at most so many at a time.
fn in_pieces(alloc: Global, first: &[u8], rest: &[u8], size: usize) -> Result<String, Fail>
    requires { 0 < size }
{
    let mut reading = Reading {
        reader: Reader::new(alloc, Mode::Document),
        events: LocatedList::new(alloc),
    };
    let events = match reading.read(first, rest, size) {
        Ok(()) => parts(alloc, &reading.events),
        Err(fail) => Err(fail),
    };
    drop(reading);
    events
}

/// The events of a document that is cut after as many bytes as the word before it says.
fn cut_at_place(alloc: Global, input: &str) -> Result<String, Fail> {
    let (at, text) = first_word(input);
    cut_at(alloc, text.as_bytes(), number(at)?)
}

/// The events of a document that is cut after so many bytes.
fn cut_at(alloc: Global, bytes: &[u8], at: usize) -> Result<String, Fail> {
    if at > bytes.len() {
        return Err("a cut past the end".into());
    }
    let (first, second) = bytes.split_at(at);
    in_pieces(alloc, first, second, 1000)
}

/// The events of a document, the same for each cut of it.
fn each_cut(alloc: Global, bytes: &[u8]) -> Result<String, Fail> {
    let whole = cut_at(alloc, bytes, bytes.len())?;
    match other_cut(alloc, bytes, whole.as_str()) {
        Ok(None) => Ok(whole),
        Ok(Some(at)) => {
            drop(whole);
            Ok(format!(in alloc; "other events after a cut at {at}")?)
        }
        Err(fail) => {
            drop(whole);
            Err(fail)
        }
    }
}

/// The first place where a document that is cut there gives other events.
fn other_cut(alloc: Global, bytes: &[u8], whole: &str) -> Result<Option<usize>, Fail> {
    for at in 0..bytes.len() {
        if !is_cut_like(alloc, bytes, at, whole)? {
            return Ok(Some(at));
        }
    }
    Ok(None)
}

/// Whether a document that is cut after so many bytes gives these events.
fn is_cut_like(alloc: Global, bytes: &[u8], at: usize, whole: &str) -> Result<bool, Fail> {
    let events = cut_at(alloc, bytes, at)?;
    let is_same = events.as_str() == whole;
    drop(events);
    Ok(is_same)
}
