//! The commands of a script.

use doc_tree::{Kind, Text};
use pyx_core::EventList;
use sch_base::ItemList;

/// A step of a path: from a node to one of its kids.
#[derive(Clone, Copy, PartialEq, Eq)]
pub struct PathStep {
    /// Element, text, comment or processing instruction.
    pub kind: Kind,
    /// The place among the kids of this kind, counted from 1.
    pub index: u32,
}

/// The steps from the root to a node; none for the root.
pub type Path = ItemList<PathStep>;

/// A command of a script.
#[derive(Drop)]
pub enum Command {
    /// The piece becomes kid `at` of the node, counted from 1.
    Insert {
        path: Path,
        at: u32,
        piece: EventList,
    },
    /// The node goes, with all below it.
    Delete {
        path: Path,
    },
    /// The text becomes the content of the node.
    SetText {
        path: Path,
        text: Text,
    },
    /// The attribute with the QName gets the value.
    SetAttr {
        path: Path,
        name: Text,
        value: Text,
    },
    /// The attribute with the QName goes.
    UnsetAttr {
        path: Path,
        name: Text,
    },
    /// The element gets the QName as its name.
    Rename {
        path: Path,
        name: Text,
    },
    /// The attribute with the QName `old` gets `name` as its name.
    RenameAttr {
        path: Path,
        old: Text,
        name: Text,
    },
}

/// The first word of a command line.
#[derive(Clone, Copy, PartialEq, Eq)]
pub enum Verb {
    Insert,
    Delete,
    SetText,
    SetAttr,
    UnsetAttr,
    Rename,
    RenameAttr,
}

/// What a command line says.
#[derive(Drop)]
pub enum Said {
    /// A command.
    Whole { command: Command },
    /// The beginning of an insert, whose fragment stands in the lines behind it.
    Opening { path: Path, at: u32 },
}
