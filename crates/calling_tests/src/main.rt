//! How the library is called: an expression's value at a node, the reports of a document that is edited, and the program's one call
//! over files in memory. docs/CALLING.md shows the three.
#![tactic(auto)]

ghost use Rattle.std.specs.Prelude.{◌≡◌, ◌<◌};

mod expression;
mod loading;
mod program;
mod session;
mod texts;

use anyhow::Error;
use edit_script::ScriptReader;
use expression::value_at;
use loading::open_session;
use name_scopes::load_tree;
use program::Files;
use sch_io::HostSink;
use session::report_twice;
use std::marker::Brand;
use std::str;
use std::sync::ledger::{Blank, Ledger};
use texts::{DOCUMENT, SCRIPT};
use xp_eval::Steps;

fn main(rt: HostRuntime) -> Result<(), Error> {
    call_all::<Brand>(&rt, Blank::new(1))
}

/// Makes the three calls, with a count of steps over the ledger of the blank.
fn call_all<L: Ledger>(rt: &HostRuntime, blank: Blank) -> Result<(), Error>
    requires name { blank.name ≡ L.name }
    requires parts { blank.parts ≡ L.parts }
    requires some { 0 < L.parts }
{
    let mut steps: Steps<L> = Steps::start(blank);
    call_expression(rt, &mut steps)?;
    call_session(rt, &mut steps)?;
    call_program(rt, &mut steps)
}

/// Writes how many items of the document have an id.
fn call_expression<L: Ledger>(rt: &HostRuntime, steps: &mut Steps<L>) -> Result<(), Error> {
    let tree = load_tree(rt.alloc(), DOCUMENT)?;
    let value = value_at(rt.alloc(), &tree, tree.root(), "count(//item[@id])", steps);
    drop(tree);
    println!(rt; "{:?}", value?)?;
    Ok(())
}

/// Writes the document's reports before and after the script.
fn call_session<L: Ledger>(rt: &HostRuntime, steps: &mut Steps<L>) -> Result<(), Error> {
    let mut session = open_session(rt.alloc())?;
    let mut script = ScriptReader::new(rt.alloc(), SCRIPT);
    let mut out = HostSink::new(rt.stdout());
    let done = report_twice(&mut session, &mut script, &mut out, steps);
    drop(session);
    done
}

/// Writes the status of a validation, and what came of it.
fn call_program<L: Ledger>(rt: &HostRuntime, steps: &mut Steps<L>) -> Result<(), Error> {
    let mut files = Files::new(rt.alloc())?;
    let status = files.validate(rt.alloc(), steps);
    let told = match status {
        Ok(status) => tell(rt, status.code(), files.out.written()),
        Err(error) => Err(error),
    };
    drop(files);
    told
}

/// Writes a status and an output.
fn tell(rt: &HostRuntime, status: u8, out: &[u8]) -> Result<(), Error> {
    println!(rt; "status {status}\n{}", str::from_utf8(out)?)?;
    Ok(())
}
