//! Examples of texts of PYX: their events, their first faults, and the lines and escapes that are written.

use crate::writings::line_of;
use pyx_core::{FeedError, Located, Mode, PyxFault, read_events, read_front, unescape};
use pyx_write::write_event;
use sch_io::{MemorySink, write_all};
use std::alloc::Global;
use std::test::Fail;
use test_rows::{Answers, copy, named, shown, text};

/// What answers the rows.
#[derive(Drop)]
pub struct Lines {
    pub alloc: Global,
}

/// What a row asks.
#[derive(Clone, Copy)]
enum Question {
    /// What a call writes to a sink with so much room.
    Line { room: usize },
    Unescaped,
    BytesFault,
    Front,
    Fault { mode: Mode },
    /// The events, each with its line before it where that is wanted.
    Events { mode: Mode, are_numbered: bool },
}

use Question::{BytesFault, Events, Fault, Front, Line, Unescaped};

/// The questions by the kinds of rows.
const QUESTIONS: [(&str, Question); 11] = [
    ("line", Line { room: 200 }),
    ("narrow line", Line { room: 5 }),
    ("unescaped", Unescaped),
    ("bytes fault", BytesFault),
    ("front", Front),
    (
        "document fault",
        Fault {
            mode: Mode::Document,
        },
    ),
    (
        "fragment fault",
        Fault {
            mode: Mode::Fragment,
        },
    ),
    (
        "fragment",
        Events {
            mode: Mode::Fragment,
            are_numbered: true,
        },
    ),
    (
        "written fragment",
        Events {
            mode: Mode::Fragment,
            are_numbered: false,
        },
    ),
    (
        "document",
        Events {
            mode: Mode::Document,
            are_numbered: true,
        },
    ),
    (
        "written document",
        Events {
            mode: Mode::Document,
            are_numbered: false,
        },
    ),
];

impl Answers for Lines {
    fn answer(&mut self, kind: &str, input: &str) -> Result<String, Fail> {
        let alloc = self.alloc;
        match named(&QUESTIONS, kind)? {
            Line { room } => line_of(alloc, room, input),
            Unescaped => unescaped(alloc, input),
            BytesFault => bytes_fault(alloc, input),
            Front => front_of(alloc, input),
            Fault { mode } => fault_of(alloc, mode, input.as_bytes()),
            Events { mode, are_numbered } => events_of(alloc, mode, input, are_numbered),
        }
    }
}

/// The events of a text as they are written, each with its line before it where that is wanted.
fn events_of(alloc: Global, mode: Mode, text: &str, are_numbered: bool) -> Result<String, Fail> {
    let events = read_events(alloc, mode, text.as_bytes())?;
    let lines = lines_of(alloc, events.as_slice(), are_numbered);
    drop(events);
    lines
}

/// The events as they are written, each with its line before it where that is wanted.
fn lines_of(alloc: Global, events: &[Located], are_numbered: bool) -> Result<String, Fail> {
    let mut sink = MemorySink::with_room(alloc, 200)?;
    let lines = match write_events(alloc, &mut sink, events, are_numbered) {
        Ok(()) => text(alloc, sink.written()),
        Err(fail) => Err(fail),
    };
    drop(sink);
    lines
}

/// Writes events, each with its line before it where that is wanted.
fn write_events(
    alloc: Global,
    sink: &mut MemorySink,
    events: &[Located],
    are_numbered: bool,
) -> Result<(), Fail> {
    for found in events {
        if are_numbered {
            write_number(alloc, sink, found.line)?;
        }
        write_event(sink, &found.event)?;
    }
    Ok(())
}

/// Writes a number.
fn write_number(alloc: Global, sink: &mut MemorySink, number: u64) -> Result<(), Fail> {
    let number = shown(alloc, &number)?;
    let done = write_all(sink, number.as_bytes());
    drop(number);
    Ok(done?)
}

/// The events before the first fault of a document, with their lines.
fn front_of(alloc: Global, text: &str) -> Result<String, Fail> {
    let front = read_front(alloc, Mode::Document, text.as_bytes())?;
    let lines = match front.fault {
        Some(_) => lines_of(alloc, front.events.as_slice(), true),
        None => Err("a document without a fault".into()),
    };
    drop(front);
    lines
}

/// The first fault of a text, which both calls tell alike.
fn fault_of(alloc: Global, mode: Mode, bytes: &[u8]) -> Result<String, Fail> {
    let fault = FeedError::Fault(first_fault(alloc, mode, bytes)?);
    if read_events(alloc, mode, bytes).err() != Some(fault) {
        return Err("the calls tell different faults".into());
    }
    shown(alloc, &fault)
}

/// The first fault of a text, after the events before it.
fn first_fault(alloc: Global, mode: Mode, bytes: &[u8]) -> Result<PyxFault, Fail> {
    let front = read_front(alloc, mode, bytes)?;
    let fault = front.fault;
    drop(front);
    Ok(fault.ok_or("a text without a fault")?)
}

/// The first fault of the bytes whose numbers are those of a text's characters, so that a row can hold bytes that are no text.
fn bytes_fault(alloc: Global, text: &str) -> Result<String, Fail> {
    let mut bytes = Vec::new(alloc);
    let told = match append_numbered(&mut bytes, text) {
        Ok(()) => fault_of(alloc, Mode::Document, bytes.as_slice()),
        Err(fail) => Err(fail),
    };
    drop(bytes);
    told
}

/// Appends the bytes whose numbers are those of a text's characters.
fn append_numbered(bytes: &mut Vec<u8>, text: &str) -> Result<(), Fail> {
    for c in text.chars() {
        bytes.push(u8::try_from(u32::from(c))?)?;
    }
    Ok(())
}

/// A text of lines with its escapes undone.
fn unescaped(alloc: Global, text: &str) -> Result<String, Fail> {
    let text = unescape(alloc, text)?;
    copy(alloc, text.as_str())
}
