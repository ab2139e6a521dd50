//! The program's one call, over files in memory.

use crate::texts::{DOCUMENT, SCHEMA};
use anyhow::Error;
use sch_cli::{Status, Words, run};
use sch_io::{MemoryShelf, MemorySink};
use std::alloc::Global;
use std::sync::ledger::Ledger;
use xp_eval::Steps;

/// What stands for the outside: the files, the output and the error output.
#[derive(Drop)]
pub struct Files {
    pub shelf: MemoryShelf,
    pub out: MemorySink,
    pub err: MemorySink,
}

impl Files {
    /// Validates the document by the schema: the report goes to `out`, the line of a run that stops to `err`.
    pub fn validate<L: Ledger>(
        &mut self,
        alloc: Global,
        steps: &mut Steps<L>,
    ) -> Result<Status, Error> {
        self.shelf.put("s.pyx", SCHEMA)?;
        self.shelf.put("d.pyx", DOCUMENT)?;
        let mut words = Words::new(alloc);
        for word in ["validate", "s.pyx", "d.pyx"] {
            words.push(word)?;
        }
        Ok(run(
            alloc,
            &words,
            &mut self.shelf,
            &mut self.out,
            &mut self.err,
            steps,
        ))
    }

    /// No files, and outputs to which nothing was written.
    pub fn new(alloc: Global) -> Result<Files, Error> {
        let out = MemorySink::with_room(alloc, 4_096)?;
        match MemorySink::with_room(alloc, 4_096) {
            Ok(err) => Ok(Files {
                shelf: MemoryShelf::new(alloc),
                out,
                err,
            }),
            Err(error) => {
                drop(out);
                Err(error.into())
            }
        }
    }
}
