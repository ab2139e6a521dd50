//! The bare table of a tree: numbered nodes with their links and names, and the calls that make it grow.
//!
//! A bare table promises nothing by itself. Each call that changes it asks that it is a tree's, and leaves it so.
#![tactic(auto)]

mod append;
mod bare;
mod cell;
mod declare;
mod ids;
mod kind;
mod laws;
mod limits;
mod new_node;
mod node;
mod node_list;
mod ranks;
mod walk;

pub use append::unlimited;
pub use bare::{Bare, node_at};
pub use cell::Cell;
pub use ids::NodeId;
pub use kind::Kind;
pub use laws::{
    one_table, order_is_by_number, same_lines_same_tree, same_tree_same_lines,
    well_formed_is_enough,
};
pub use limits::{
    MAX_DEPTH, MAX_LIVE_NODES, MAX_LIVE_TEXT_BYTES, MAX_NODE_NUMBERS, numbers_of_limits,
};
pub use new_node::{AppendError, NewNode};
pub use node::{Decl, Label, Node, NodeContent};
pub use node_list::NodeList;
pub use ranks::RANK_STEP;
