//! The program as a library: `run` carries out the words of a command line over a shelf and two sinks, and `run_if_read` makes a process of it.
#![tactic(auto)]

mod process;
mod program;

pub use process::run_if_read;
pub use program::run;
pub use sch_commands::pair_cap_is_for_pairs;
pub use sch_words::{HostArguments, Status, Words, WordsError, read_words};
