//! `sch` validates XML documents against Schematron schemas (ISO/IEC 19757-3:2016); the library's `run_if_read` does the work.
#![tactic(auto)]

use sch_cli::{HostArguments, read_words, run_if_read};
use sch_io::{HostShelf, HostSink};
use std::marker::Brand;
use std::process::ExitCode;
use std::sync::ledger::Blank;

fn main(rt: HostRuntime) -> ExitCode {
    let arguments = HostArguments::new(&rt);
    let words = read_words(rt.alloc(), &arguments);
    let mut shelf = HostShelf::new(&rt);
    let mut out = HostSink::new(rt.stdout());
    let mut err = HostSink::new(rt.stderr());
    run_if_read::<_, _, _, Brand>(
        rt.alloc(),
        words,
        &mut shelf,
        &mut out,
        &mut err,
        Blank::new(1),
    )
}
