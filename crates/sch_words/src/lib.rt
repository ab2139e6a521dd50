//! The words of a command line: what they ask for, what the program says of itself, and how a run ends.
#![tactic(auto)]

mod asked;
mod command;
mod count;
mod host_words;
mod notice;
mod status;
mod words;

pub use asked::{ScriptedValidation, Validation, Watching};
pub use command::{Command, DEFAULT_PHASE, command_of};
pub use count::{MAX_MEASURED_ITEMS, MAX_UNDO_DEPTH};
pub use host_words::{Arguments, HostArguments, WordsError, read_words};
pub use notice::Notice;
pub use status::Status;
pub use words::Words;
