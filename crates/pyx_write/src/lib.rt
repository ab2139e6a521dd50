//! Writing PYX: the lines of a document, and the escapes in their texts.
#![tactic(auto)]

mod elements;
mod escapes;
mod event;
mod lines;

pub use elements::{Given, write_empty, write_opening, write_text};
pub use escapes::write_escaped;
pub use event::write_event;
pub use lines::{
    write_attr, write_chars, write_comment, write_end, write_joined_attr, write_joined_end,
    write_joined_start, write_line_rest, write_pi, write_start,
};
