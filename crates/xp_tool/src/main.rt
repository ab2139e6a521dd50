//! `xp_tool` answers questions about expressions of XPath 1.0 and patterns of XSLT 1.0: the rows of outside examples on standard
//! input, or, as `xp_tool KIND TEXT`, a question about the document on standard input. Developers measure by it.
#![tactic(auto)]

mod asking;
mod records;
mod sample;
mod scene;
mod slots;
mod text_asking;
mod values;

use records::Records;
use sample::Sample;
use std::alloc::Global;
use std::io::Read;
use std::process::ExitCode;
use std::test::Fail;
use std::{env, mem};
use test_rows::{Answers, first_word, hold_rows};

fn main(rt: HostRuntime) -> Result<ExitCode, Fail> {
    let words: Vec<String> = env::args(&rt)?.collect(rt.alloc())?;
    let status = match words.as_slice() {
        [_, kind, text] => tell(&rt, kind.as_str(), text.as_str()),
        _ => hold_all(&rt),
    };
    drop(words);
    status
}

/// Writes the answer to a question about the document on standard input, whose nodes have no names. With it the program ends, so no
/// memory is given back.
fn tell(rt: &HostRuntime, kind: &str, text: &str) -> Result<ExitCode, Fail> {
    let mut document = Vec::new(rt.alloc());
    rt.reader().read_to_end(&mut document)?;
    let mut sample = Sample::of(rt.alloc(), "", document.as_slice())?;
    let answer = sample.answer(kind, text);
    mem::forget(sample);
    println!(rt; "{}", answer?.as_str())?;
    Ok(ExitCode::SUCCESS)
}

/// Tries the rows on standard input.
fn hold_all(rt: &HostRuntime) -> Result<ExitCode, Fail> {
    let mut tables = Tables::new(rt.alloc())?;
    let status = hold_rows(rt, '␊', &mut tables);
    drop(tables);
    status
}

/// What answers the rows.
#[derive(Drop)]
struct Tables {
    records: Records,
    sample: Sample,
}

impl Tables {
    /// No records, and a document of one element.
    fn new(alloc: Global) -> Result<Tables, Fail> {
        let sample = Sample::of(alloc, "", b"(a\n)a\n")?;
        Ok(Tables {
            records: Records::new(alloc, sample.root()),
            sample,
        })
    }
}

impl Answers for Tables {
    /// Kinds whose first word is `records` are about records; all others are the tool's.
    fn answer(&mut self, kind: &str, input: &str) -> Result<String, Fail> {
        let (subject, rest) = first_word(kind);
        if subject == "records" {
            self.records.answer(rest, input)
        } else {
            self.sample.answer(kind, input)
        }
    }
}
