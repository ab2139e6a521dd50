//! What stops a run before its output is whole, and the lines that tell of it and of the edits of a script.
#![tactic(auto)]

mod edit_lines;
mod refusal;
mod stop;
mod watches;

pub use edit_lines::{write_edit_line, write_no_history_line, write_refused_line, write_undo_line};
pub use refusal::{DocumentRefusal, FileRefusal, SchemaRefusal, ScriptRefusal};
pub use stop::Stop;
pub use watches::WatchesRefusal;
