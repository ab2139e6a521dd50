//! Lists of expressions that are to be watched.
#![tactic(auto)]

mod list;

pub use list::WatchList;
