//! What evaluation reads of a node and an edit touches: its cells.

use crate::ids::NodeId;

/// A cell of a node. The root and elements have Kids, Shape and Text, elements also Attrs; the other kinds have Value.
/// Elements and attributes have Name; the target of a processing instruction is no cell.
#[derive(Clone, Copy, Debug, PartialEq, Eq, PartialOrd, Ord)]
pub enum Cell {
    /// The list of kids.
    Kids(NodeId),
    /// The list of descendants in document order, attributes left out.
    Shape(NodeId),
    /// The list of attributes.
    Attrs(NodeId),
    /// The value, the characters or the data.
    Value(NodeId),
    /// The string-value.
    Text(NodeId),
    /// The name: prefix, local part and namespace.
    Name(NodeId),
}
