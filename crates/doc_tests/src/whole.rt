//! What calls of any shelf, and of any sink, come to.

use sch_io::{Shelf, Sink, read_all, write_all, write_pieces};
use std::alloc::Global;
use std::test::Fail;
use test_rows::{shown, text, told};

/// What opening a file comes to.
pub fn opened<S: Shelf>(alloc: Global, shelf: &mut S, name: &str) -> Result<String, Fail> {
    told(alloc, shelf.open(name))
}

/// What reading a file whole gives: its text, or how many bytes where these are many.
pub fn content<S: Shelf>(alloc: Global, shelf: &mut S, name: &str) -> Result<String, Fail> {
    match read_all(alloc, shelf, name) {
        Ok(bytes) => {
            let told = content_of(alloc, bytes.as_slice());
            drop(bytes);
            told
        }
        Err(error) => shown(alloc, &error),
    }
}

/// The text of bytes, or how many they are where they are many.
fn content_of(alloc: Global, bytes: &[u8]) -> Result<String, Fail> {
    if bytes.len() > 1000 {
        shown(alloc, &bytes.len())
    } else {
        text(alloc, bytes)
    }
}

/// What writing bytes whole comes to.
pub fn all_written<S: Sink>(alloc: Global, sink: &mut S, bytes: &[u8]) -> Result<String, Fail> {
    told(alloc, write_all(sink, bytes))
}

/// What writing texts one after another comes to.
pub fn pieces_written<S: Sink>(
    alloc: Global,
    sink: &mut S,
    texts: &[&str],
) -> Result<String, Fail> {
    told(alloc, write_pieces(sink, texts))
}
