//! Examples of calls that write a line or an escaped text of PYX.

use pyx_write::{
    write_attr, write_chars, write_comment, write_end, write_escaped, write_pi, write_start,
};
use sch_io::{Failed, MemorySink};
use std::alloc::Global;
use std::str;
use std::test::Fail;
use test_rows::{copy, first_word, named};

/// What a call writes to a sink with so much room, and the fault that came after it.
pub fn line_of(alloc: Global, room: usize, call: &str) -> Result<String, Fail> {
    let (word, text) = first_word(call);
    let writing = named(&WRITINGS, word)?;
    let mut sink = MemorySink::with_room(alloc, room)?;
    let done = write(&mut sink, writing, text);
    let line = ended(alloc, sink.written(), done);
    drop(sink);
    line
}

/// What was written, and the fault that came after it.
pub fn ended(alloc: Global, written: &[u8], done: Result<(), Failed>) -> Result<String, Fail> {
    let written = str::from_utf8(written)?;
    match done {
        Ok(()) => copy(alloc, written),
        Err(error) => Ok(format!(in alloc; "{written}; {error}")?),
    }
}

/// A call that writes, by its word.
#[derive(Clone, Copy)]
enum Writing {
    Start,
    Attr,
    Chars,
    Pi,
    Comment,
    End,
    Escaped,
}

/// The calls that write, by their words.
const WRITINGS: [(&str, Writing); 7] = [
    ("start", Writing::Start),
    ("attr", Writing::Attr),
    ("chars", Writing::Chars),
    ("pi", Writing::Pi),
    ("comment", Writing::Comment),
    ("end", Writing::End),
    ("escaped", Writing::Escaped),
];

/// Writes a text, or a name and a value that stand in it.
fn write(sink: &mut MemorySink, writing: Writing, text: &str) -> Result<(), Failed> {
    let (name, value) = first_word(text);
    match writing {
        Writing::Start => write_start(sink, text),
        Writing::Attr => write_attr(sink, name, value),
        Writing::Chars => write_chars(sink, text),
        Writing::Pi => write_pi(sink, name, value),
        Writing::Comment => write_comment(sink, text),
        Writing::End => write_end(sink, text),
        Writing::Escaped => write_escaped(sink, text),
    }
}
