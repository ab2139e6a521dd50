//! Examples of schemas: what they are without abstract parts, and the first rules that they break.

ghost use Rattle.std.specs.Prelude.{◌≡◌, true};
ghost use Rattle.doc_tree.specs.Kinds.{is_document};

use crate::plans::{flat_of, tree_of};
use doc_locations::location;
use doc_tree::Tree;
use pyx_write::write_event;
use sch_flat::{EventList, flat_events, flat_size};
use sch_io::{Failed, MemorySink};
use sch_model::{FlatSchema, SchemaError, SchemaFault};
use std::alloc::Global;
use std::str;
use std::test::Fail;
use test_rows::{Answers, copy, named, parted, repeated};

/// What answers the rows.
#[derive(Drop)]
pub struct Schemas {
    pub alloc: Global,
}

/// What a row holds: a document, the lines in a schema's element, or such lines with repeated parts, whose schema is measured.
#[derive(Clone, Copy)]
enum Question {
    Document,
    Lines,
    Repeated,
}

/// The questions by the kinds of rows.
const QUESTIONS: [(&str, Question); 3] = [
    ("document", Question::Document),
    ("schema", Question::Lines),
    ("repeated", Question::Repeated),
];

impl Answers for Schemas {
    fn answer(&mut self, kind: &str, input: &str) -> Result<String, Fail> {
        match named(&QUESTIONS, kind)? {
            Question::Document => told(self.alloc, input, false),
            Question::Lines => told_of_lines(self.alloc, input, false),
            Question::Repeated => told_of_repeated(self.alloc, input),
        }
    }
}

/// How large the schema is that holds these lines, with their parts repeated.
fn told_of_repeated(alloc: Global, lines: &str) -> Result<String, Fail> {
    let lines = repeated(alloc, lines)?;
    let told = told_of_lines(alloc, lines.as_str(), true);
    drop(lines);
    told
}

/// What is told of the schema that holds these lines.
fn told_of_lines(alloc: Global, lines: &str, is_measured: bool) -> Result<String, Fail> {
    let text = format!(in alloc;
        "(schema\nAxmlns http://purl.oclc.org/dsdl/schematron\n{lines})schema\n"
    )?;
    let told = told(alloc, text.as_str(), is_measured);
    drop(text);
    told
}

/// What a document's schema is without abstract parts, or how large that is, or the first rule that it breaks.
fn told(alloc: Global, text: &str, is_measured: bool) -> Result<String, Fail> {
    let tree = tree_of(alloc, text)?;
    let told = told_of_tree(alloc, &tree, is_measured);
    drop(tree);
    told
}

/// The same of the tree of a document.
fn told_of_tree(alloc: Global, tree: &Tree, is_measured: bool) -> Result<String, Fail>
    requires { is_document tree.now.nodes ≡ true }
{
    match flat_of(alloc, tree) {
        Ok(flat) => {
            let told = told_of_flat(alloc, &flat, is_measured);
            drop(flat);
            told
        }
        Err(error) => broken(alloc, tree, error),
    }
}

/// A broken rule: its number, the place and the name.
fn broken(alloc: Global, tree: &Tree, error: SchemaError) -> Result<String, Fail> {
    match error {
        SchemaError::Fault(fault) => {
            let told = broken_at(alloc, tree, &fault);
            drop(fault);
            told
        }
        SchemaError::Memory => Err("out of memory".into()),
    }
}

/// The same, whose place is an element's.
fn broken_at(alloc: Global, tree: &Tree, fault: &SchemaFault) -> Result<String, Fail> {
    if !tree.contains(fault.node) {
        return Err("no broken rule at a node".into());
    }
    if !tree.is_element(fault.node) {
        return Err("no broken rule at an element".into());
    }
    let place = location(alloc, tree, fault.node)?;
    Ok(format!(in alloc; "{} {} {}", fault.rule, place.as_str(), fault.name.as_str())?)
}

/// What a schema's document holds, or its size.
fn told_of_flat(alloc: Global, flat: &FlatSchema, is_measured: bool) -> Result<String, Fail> {
    if is_measured {
        size(alloc, flat)
    } else {
        held(alloc, flat)
    }
}

/// The lines of what a schema's document holds.
fn held(alloc: Global, flat: &FlatSchema) -> Result<String, Fail> {
    let mut sink = MemorySink::with_room(alloc, 2_000)?;
    let held = match write_flat(alloc, &mut sink, flat) {
        Ok(()) => between(
            alloc,
            sink.written(),
            "AqueryBinding xslt\n",
            ")sch:schema\n",
        ),
        Err(fail) => Err(fail),
    };
    drop(sink);
    held
}

/// Writes a schema's document.
fn write_flat(alloc: Global, sink: &mut MemorySink, flat: &FlatSchema) -> Result<(), Fail> {
    let events = flat_events(alloc, flat)?;
    let done = write_events(sink, &events);
    drop(events);
    Ok(done?)
}

/// Writes events.
fn write_events(sink: &mut MemorySink, events: &EventList) -> Result<(), Failed> {
    for event in events.as_slice() {
        write_event(sink, event)?;
    }
    Ok(())
}

/// The lines of a document between two of them: the last that its element begins with, and the one that ends it.
pub(crate) fn between(
    alloc: Global,
    document: &[u8],
    first: &str,
    last: &str,
) -> Result<String, Fail> {
    let (_, lines) = parted(str::from_utf8(document)?, first)?;
    let (held, _) = parted(lines, last)?;
    copy(alloc, held)
}

/// The bytes and the nodes of a schema's document, the root left out.
fn size(alloc: Global, flat: &FlatSchema) -> Result<String, Fail> {
    let size = flat_size(flat);
    Ok(format!(in alloc; "{} bytes, {} nodes", size.bytes, size.nodes)?)
}
