//! Files of watched expressions: from their lines to expressions that are well typed.
#![tactic(auto)]

mod cutting;
mod fault;
mod reading;

pub use fault::{WatchError, WatchFault, WatchKind};
pub use reading::{LineWord, MAX_WATCHES, read_watches};
pub use watch_list::WatchList;
