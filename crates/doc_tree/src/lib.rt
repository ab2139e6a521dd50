//! The tree of a document by the data model of XPath 1.0, section 5: nodes by number, names by number, document order.
#![tactic(auto)]

mod alike;
mod append;
mod attributes;
mod axes;
mod before;
mod declarations;
mod edits;
mod inserting;
mod laws;
mod refusal;
mod renaming;
mod room;
mod string_values;
mod tree;
mod walk;

pub use axes::{Axis, NodeTest};
pub use declarations::{is_xml, is_xmlns, undeclared_namespace, xml_namespace};
pub use doc_names::{NameId, NameTable, WordTable};
pub use doc_table::{
    AppendError, Cell, Kind, MAX_DEPTH, MAX_LIVE_NODES, MAX_LIVE_TEXT_BYTES, MAX_NODE_NUMBERS,
    NewNode, NodeId, NodeList, one_table, order_is_by_number, same_lines_same_tree,
    same_tree_same_lines, unlimited, well_formed_is_enough,
};
pub use refusal::{EditError, EditRefusal};
pub use sch_base::Text;
pub use tree::Tree;
