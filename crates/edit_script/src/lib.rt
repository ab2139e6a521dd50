//! Edit scripts: from the bytes of a script to its commands.
#![tactic(auto)]

mod command;
mod command_line;
mod fault;
mod fields;
mod laws;
mod limits;
mod lines;
mod paths;
mod payload;
mod reader;

pub use command::{Command, Path, PathStep};
pub use fault::{ScriptError, ScriptFault, ScriptKind};
pub use laws::items_in_turn;
pub use limits::{MAX_PLACE, MAX_SCRIPT_BYTES, numbers_of_limits};
pub use reader::ScriptReader;
