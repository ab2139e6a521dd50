//! PYX text: the lines in which documents, schemas and reports come and go, and the events that they give.
#![tactic(auto)]

mod begun;
mod cutting;
mod escapes;
mod event;
mod fault;
mod laws;
mod line_table;
mod mode;
mod plain;
mod reader;
mod reading;
mod standing;

pub use escapes::unescape;
pub use event::{Attr, AttrList, Event, EventList, Located, LocatedList};
pub use fault::{FeedError, PyxFault, PyxKind};
pub use laws::{
    completed_events_stay, escaped_holds_no_line_end, events_are_few, events_nest, faults_stay,
    unescaped_undoes_escaped, written_is_read_back,
};
pub use mode::Mode;
pub use reader::Reader;
pub use reading::{Front, read_events, read_front};
