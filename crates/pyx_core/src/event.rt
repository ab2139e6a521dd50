//! The events of a document, in the order of its text.

use sch_base::{ItemList, Text};

/// An attribute as it is written: a name and a value.
#[derive(Debug, Drop)]
pub struct Attr {
    pub name: Text,
    pub value: Text,
}

/// The attributes of a start tag, in the order in which they are written.
pub type AttrList = ItemList<Attr>;

/// What stands at one place of a document.
#[derive(Debug, Drop)]
pub enum Event {
    /// An element begins; the attributes that declare namespaces are among its attributes.
    Start { name: Text, attrs: AttrList },
    /// The innermost open element ends.
    End { name: Text },
    /// Characters, of which there is at least one.
    Chars { text: Text },
    /// A processing instruction.
    Pi { target: Text, body: Text },
    /// A comment.
    Comment { text: Text },
}

/// The events of a document, in the order of its text.
pub type EventList = ItemList<Event>;

/// An event and its place.
#[derive(Debug, Drop)]
pub struct Located {
    /// The line where the event begins, counted from 1; for characters that of the first character line that isn't
    /// empty.
    pub line: u64,
    pub event: Event,
}

/// Events and their places, in the order of the text.
pub type LocatedList = ItemList<Located>;
