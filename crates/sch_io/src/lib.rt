//! The outside: shelves that files are read from, sinks that bytes are written to, and the calls that move whole
//! files and whole texts.
#![tactic(auto)]

mod bytes;
mod calls;
mod counts;
mod error;
mod history;
mod host_shelf;
mod host_sink;
mod laws;
mod memory_shelf;
mod memory_sink;
mod pieces;
mod reading;
mod shelf;
mod sink;
mod writing;

pub use bytes::Bytes;
pub use error::{Failed, OpenError, ReadError};
pub use host_shelf::{HostShelf, STANDARD_INPUT};
pub use host_sink::HostSink;
pub use laws::numbers_of_limits;
pub use memory_shelf::MemoryShelf;
pub use memory_sink::MemorySink;
pub use reading::{MAX_FILE_BYTES, read_all};
pub use shelf::Shelf;
pub use sink::Sink;
pub use writing::{write_all, write_pieces};
