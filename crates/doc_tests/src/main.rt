//! Outside examples of the ground, of lines and of trees: names and characters, files, texts of PYX whole and in pieces, and
//! documents with their axes. The rows that do not hold are written.
#![tactic(auto)]

mod axes;
mod files;
mod hosts;
mod lines;
mod names;
mod pieces;
mod tree_texts;
mod trees;
mod whole;
mod writings;

use axes::Axes;
use files::Files;
use lines::Lines;
use names::Names;
use pieces::Pieces;
use std::process::ExitCode;
use std::test::Fail;
use test_rows::{Answers, first_word, hold_rows, named};
use trees::Trees;

fn main(rt: HostRuntime) -> Result<ExitCode, Fail> {
    let mut tables = Tables::new(&rt)?;
    let held = hold_rows(&rt, '|', &mut tables);
    drop(tables);
    held
}

/// What answers the rows of each subject.
#[derive(Drop)]
struct Tables<'r> {
    names: Names,
    files: Files<'r>,
    lines: Lines,
    pieces: Pieces,
    trees: Trees,
    axes: Axes,
}

/// What a row is about, which is the first word of its kind.
#[derive(Clone, Copy)]
enum Subject {
    Names,
    Files,
    Lines,
    Pieces,
    Trees,
    Axes,
}

/// The subjects by their words.
const SUBJECTS: [(&str, Subject); 6] = [
    ("names", Subject::Names),
    ("files", Subject::Files),
    ("lines", Subject::Lines),
    ("pieces", Subject::Pieces),
    ("trees", Subject::Trees),
    ("axes", Subject::Axes),
];

impl Tables<'_> {
    /// Tables whose rows are still to come.
    fn new(rt: &HostRuntime) -> Result<Tables<'_>, Fail> {
        let alloc = rt.alloc();
        let trees = Trees::new(alloc)?;
        match Files::new(rt) {
            Ok(files) => Ok(Tables {
                names: Names::new(alloc),
                files,
                lines: Lines { alloc },
                pieces: Pieces::new(alloc),
                trees,
                axes: Axes { alloc },
            }),
            Err(fail) => {
                drop(trees);
                Err(fail)
            }
        }
    }
}

impl Answers for Tables<'_> {
    fn answer(&mut self, kind: &str, input: &str) -> Result<String, Fail> {
        let (subject, kind) = first_word(kind);
        match named(&SUBJECTS, subject)? {
            Subject::Names => self.names.answer(kind, input),
            Subject::Files => self.files.answer(kind, input),
            Subject::Lines => self.lines.answer(kind, input),
            Subject::Pieces => self.pieces.answer(kind, input),
            Subject::Trees => self.trees.answer(kind, input),
            Subject::Axes => self.axes.answer(kind, input),
        }
    }
}
