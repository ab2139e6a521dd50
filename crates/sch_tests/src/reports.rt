//! Examples of reports that are read back: what each says, written again, and the first faults.

ghost use Rattle.std.specs.Prelude.{◌≡◌, true};
ghost use Rattle.doc_tree.specs.Kinds.{is_document};

use crate::plans::tree_of;
use crate::schemas::between;
use doc_locations::location;
use doc_tree::Tree;
use sch_io::MemorySink;
use std::alloc::Global;
use std::test::Fail;
use svrl_read::{SvrlError, SvrlFault, SvrlReport, read_svrl, write_svrl};
use test_rows::{Answers, named};

/// What answers the rows.
#[derive(Drop)]
pub struct Reports {
    pub alloc: Global,
}

/// What a row holds: a document, or the lines in a report's element.
#[derive(Clone, Copy)]
enum Question {
    Document,
    Lines,
}

/// The questions by the kinds of rows.
const QUESTIONS: [(&str, Question); 2] = [
    ("document", Question::Document),
    ("report", Question::Lines),
];

impl Answers for Reports {
    fn answer(&mut self, kind: &str, input: &str) -> Result<String, Fail> {
        match named(&QUESTIONS, kind)? {
            Question::Document => told(self.alloc, input),
            Question::Lines => told_of_lines(self.alloc, input),
        }
    }
}

/// What is told of the report that holds these lines.
fn told_of_lines(alloc: Global, lines: &str) -> Result<String, Fail> {
    let text = format!(in alloc;
        "(svrl:schematron-output\nAxmlns:svrl http://purl.oclc.org/dsdl/svrl\n{lines})svrl:schematron-output\n"
    )?;
    let told = told(alloc, text.as_str());
    drop(text);
    told
}

/// What a document says as a report, written again, or its first fault.
fn told(alloc: Global, text: &str) -> Result<String, Fail> {
    let tree = tree_of(alloc, text)?;
    let told = told_of_tree(alloc, &tree);
    drop(tree);
    told
}

/// The same of the tree of a document.
fn told_of_tree(alloc: Global, tree: &Tree) -> Result<String, Fail>
    requires { is_document tree.now.nodes ≡ true }
{
    match read_svrl(alloc, tree) {
        Ok(report) => {
            let told = written(alloc, &report);
            drop(report);
            told
        }
        Err(error) => faulted(alloc, tree, error),
    }
}

/// A fault and its place.
fn faulted(alloc: Global, tree: &Tree, error: SvrlError) -> Result<String, Fail> {
    match error {
        SvrlError::Fault(fault) => {
            let told = faulted_at(alloc, tree, &fault);
            drop(fault);
            told
        }
        SvrlError::Memory => Err("out of memory".into()),
    }
}

/// The same, whose place is a node's.
fn faulted_at(alloc: Global, tree: &Tree, fault: &SvrlFault) -> Result<String, Fail> {
    if !tree.contains(fault.node) {
        return Err("no fault at a node".into());
    }
    let place = location(alloc, tree, fault.node)?;
    Ok(format!(in alloc; "{} {}", fault.kind, place.as_str())?)
}

/// The lines between those of a report's element.
fn written(alloc: Global, report: &SvrlReport) -> Result<String, Fail> {
    let mut sink = MemorySink::with_room(alloc, 2_000)?;
    let written = match write_svrl(report, &mut sink) {
        Ok(()) => between(
            alloc,
            sink.written(),
            "Axmlns:svrl http://purl.oclc.org/dsdl/svrl\n",
            ")svrl:schematron-output\n",
        ),
        Err(failed) => Err(failed.into()),
    };
    drop(sink);
    written
}
