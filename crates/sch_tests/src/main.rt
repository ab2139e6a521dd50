//! Outside examples of schemas, of single nodes under a schema's patterns, of reports that are read back, and of whole runs. The rows
//! that do not hold are written.
#![tactic(auto)]

mod pairs;
mod plans;
mod reports;
mod runs;
mod schemas;
mod settings;
mod sinks;
mod turns;

use pairs::Pairs;
use reports::Reports;
use runs::Runs;
use schemas::Schemas;
use std::alloc::Global;
use std::process::ExitCode;
use std::test::Fail;
use test_rows::{Answers, first_word, hold_rows, named};

fn main(rt: HostRuntime) -> Result<ExitCode, Fail> {
    let mut tables = Tables::new(rt.alloc());
    let held = hold_rows(&rt, '¶', &mut tables);
    drop(tables);
    held
}

/// What answers the rows of each subject.
#[derive(Drop)]
struct Tables {
    schemas: Schemas,
    pairs: Pairs,
    reports: Reports,
    runs: Runs,
}

/// What a row is about, which is the first word of its kind.
#[derive(Clone, Copy)]
enum Subject {
    Schemas,
    Pairs,
    Reports,
    Runs,
}

/// The subjects by their words.
const SUBJECTS: [(&str, Subject); 4] = [
    ("schemas", Subject::Schemas),
    ("pairs", Subject::Pairs),
    ("reports", Subject::Reports),
    ("runs", Subject::Runs),
];

impl Tables {
    /// Tables whose rows are still to come.
    fn new(alloc: Global) -> Tables {
        Tables {
            schemas: Schemas { alloc },
            pairs: Pairs::new(alloc),
            reports: Reports { alloc },
            runs: Runs::new(alloc),
        }
    }
}

impl Answers for Tables {
    fn answer(&mut self, kind: &str, input: &str) -> Result<String, Fail> {
        let (subject, kind) = first_word(kind);
        match named(&SUBJECTS, subject)? {
            Subject::Schemas => self.schemas.answer(kind, input),
            Subject::Pairs => self.pairs.answer(kind, input),
            Subject::Reports => self.reports.answer(kind, input),
            Subject::Runs => self.runs.answer(kind, input),
        }
    }
}
