//! Examples of the files and the streams of the host.

use crate::files::Call;
use crate::whole::{all_written, content, opened, pieces_written};
use sch_io::{HostShelf, HostSink};
use std::test::Fail;
use std::{fs, process};

/// What is written to the streams of the host.
const LINE: &str = "a line of a test\n";

/// What a call of the host's shelf or of one of its sinks comes to.
pub fn host_call(rt: &HostRuntime, call: Call, rest: &str) -> Result<String, Fail> {
    match call {
        Call::Open => opened_by_host(rt, rest),
        Call::All => host_content(rt, rest),
        Call::Stdout => to_stdout(rt),
        Call::Stderr => to_stderr(rt),
        Call::Full => file_written(rt, rest, &[LINE]),
        Call::File => host_file(rt, rest),
        _ => Err("the host has no such call".into()),
    }
}

/// What opening a file of the host comes to.
fn opened_by_host(rt: &HostRuntime, name: &str) -> Result<String, Fail> {
    let mut shelf = HostShelf::new(rt);
    let told = opened(rt.alloc(), &mut shelf, name);
    drop(shelf);
    told
}

/// What reading a file of the host whole gives.
fn host_content(rt: &HostRuntime, name: &str) -> Result<String, Fail> {
    let mut shelf = HostShelf::new(rt);
    let told = content(rt.alloc(), &mut shelf, name);
    drop(shelf);
    told
}

/// What writing a line to the output comes to.
fn to_stdout(rt: &HostRuntime) -> Result<String, Fail> {
    all_written(rt.alloc(), &mut HostSink::new(rt.stdout()), LINE.as_bytes())
}

/// What writing a line to the error output comes to.
fn to_stderr(rt: &HostRuntime) -> Result<String, Fail> {
    all_written(rt.alloc(), &mut HostSink::new(rt.stderr()), LINE.as_bytes())
}

/// What writing texts to a file comes to.
fn file_written(rt: &HostRuntime, path: &str, texts: &[&str]) -> Result<String, Fail> {
    let mut sink = HostSink::new(fs::create(rt, path)?);
    pieces_written(rt.alloc(), &mut sink, texts)
}

/// What is read of a file into which a text was written twice, and then when it was removed.
fn host_file(rt: &HostRuntime, text: &str) -> Result<String, Fail> {
    let path = format!(in rt.alloc(); "/tmp/sch_io_{}", process::id(rt.process()))?;
    let told = told_of_file(rt, path.as_str(), text);
    drop(path);
    told
}

/// The same of the file of that name.
fn told_of_file(rt: &HostRuntime, path: &str, text: &str) -> Result<String, Fail> {
    drop(file_written(rt, path, &[text, text])?);
    let read = host_content(rt, path)?;
    let told = told_when_removed(rt, path, read.as_str());
    drop(read);
    told
}

/// What was read of a file, and what is read when it was removed.
fn told_when_removed(rt: &HostRuntime, path: &str, read: &str) -> Result<String, Fail> {
    fs::remove_file(rt, path)?;
    let missing = host_content(rt, path)?;
    let told = format!(in rt.alloc(); "{read}; {}", missing.as_str());
    drop(missing);
    Ok(told?)
}
