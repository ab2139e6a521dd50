//! What an accepted command touched.

ghost use Rattle.std.specs.Prelude.{◌≡◌, Some};
ghost use Rattle.doc_tree.specs.Lists.{mem};
ghost use Rattle.doc_tree.specs.Table.{parent_of};
ghost use Rattle.doc_tree.specs.Walks.{above, ancestors};
ghost use Rattle.doc_edit_laws.specs.Touching.{touched_attributes, touched_kids, touched_name};
ghost use Rattle.edit_commands.specs.Touched.{holds_cell, left_cell, said_cell};

use doc_tree::{Cell, NodeId, Tree};

/// What an accepted command touched, as few numbers from which each touched cell is found.
#[derive(Clone, Copy, Debug, PartialEq, Eq)]
pub enum Touched {
    /// A node says another text.
    Said {
        node: NodeId,
        /// Whether it is a text, which counts to the string-values above it.
        is_text: bool,
    },
    /// An attribute of an element came or went.
    Attributes {
        element: NodeId,
    },
    /// Kids of a node came or went.
    Below {
        parent: NodeId,
        /// Of two texts that met the left one, which says both.
        left: Option<NodeId>,
    },
    /// An element or an attribute has another name.
    Named {
        node: NodeId,
    },
}

impl Touched {
    /// Whether the command touched the cell. The tree is the one that the command left; the cell may be of any number, also
    /// of one that isn't live.
    ///
    /// Takes no memory. Costs the way up from the node.
    pub fn holds(&self, tree: &Tree, cell: Cell) -> bool
        ensures { result ≡ holds_cell tree.now.nodes self.now cell }
    {
        match self {
            Touched::Said { node, is_text } => said_holds(tree, *node, *is_text, cell),
            Touched::Attributes { element } => attributes_hold(*element, cell),
            Touched::Below { parent, left } => {
                kids_hold(tree, *parent, &cell) || left_holds(left, &cell)
            }
            Touched::Named { node } => name_holds(*node, cell),
        }
    }
}

/// Whether a node that says another text touches the cell.
fn said_holds(tree: &Tree, node: NodeId, is_text: bool, cell: Cell) -> bool
    ensures { result ≡ said_cell tree.now.nodes node is_text cell }
{
    match cell {
        Cell::Value(n) => n == node,
        Cell::Text(n) => is_text && is_ancestor(tree, n, node),
        Cell::Kids(_) | Cell::Shape(_) | Cell::Attrs(_) | Cell::Name(_) => false,
    }
}

/// Whether an attribute that comes or goes touches the cell.
fn attributes_hold(element: NodeId, cell: Cell) -> bool
    ensures { result ≡ touched_attributes element cell }
{
    match cell {
        Cell::Attrs(n) => n == element,
        Cell::Kids(_) | Cell::Shape(_) | Cell::Value(_) => false,
        Cell::Text(_) | Cell::Name(_) => false,
    }
}

/// Whether a node that has another name touches the cell.
fn name_holds(node: NodeId, cell: Cell) -> bool
    ensures { result ≡ touched_name node cell }
{
    match cell {
        Cell::Name(n) => n == node,
        Cell::Kids(_) | Cell::Shape(_) | Cell::Attrs(_) => false,
        Cell::Value(_) | Cell::Text(_) => false,
    }
}

/// Whether kids that come or go touch the cell.
fn kids_hold(tree: &Tree, parent: NodeId, cell: &Cell) -> bool
    ensures { result ≡ touched_kids tree.now.nodes parent cell.now }
{
    match cell {
        Cell::Kids(n) => *n == parent,
        Cell::Shape(n) | Cell::Text(n) => is_above(tree, *n, parent),
        Cell::Attrs(_) | Cell::Value(_) | Cell::Name(_) => false,
    }
}

/// Whether the left one of two texts that met touches the cell.
fn left_holds(left: &Option<NodeId>, cell: &Cell) -> bool
    ensures { result ≡ left_cell left.now cell.now }
{
    match left {
        Some(text) => is_value(cell, *text),
        None => false,
    }
}

/// Whether the cell is the value of a node.
fn is_value(cell: &Cell, node: NodeId) -> bool
    ensures { result ≡ left_cell (Some node) cell.now }
{
    match cell {
        Cell::Value(n) => *n == node,
        Cell::Kids(_) | Cell::Shape(_) | Cell::Attrs(_) => false,
        Cell::Text(_) | Cell::Name(_) => false,
    }
}

/// Whether a number is that of a node or of one of its ancestors.
fn is_above(tree: &Tree, upper: NodeId, node: NodeId) -> bool
    ensures { result ≡ mem upper (above tree.now.nodes node) }
{
    upper == node || is_ancestor(tree, upper, node)
}

/// Whether a number is that of an ancestor of a node.
fn is_ancestor(tree: &Tree, upper: NodeId, node: NodeId) -> bool
    ensures { result ≡ mem upper (ancestors tree.now.nodes node) }
{
    tree.laws();
    match tree.parent(node) {
        Some(parent) => upper == parent || is_ancestor(tree, upper, parent),
        None => false,
    }
}
