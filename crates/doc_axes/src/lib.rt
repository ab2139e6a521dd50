//! Axes of XPath 1.0 (section 2.2) from a node of a tree, node tests (section 2.3), and node-sets in document order.
#![tactic(auto)]

mod axes;
mod judged;
mod laws;
mod lent;
mod node_test;
mod passing;
mod placed;
mod sets;
mod siblings;
mod walks;

pub use axes::axis_nodes;
pub use judged::{Judged, passes_by};
pub use laws::{axes_by_cells, axes_partition};
pub use node_test::{is_principal, passes, principal_kind};
pub use passing::push_passing;
pub use placed::{Placed, passing_at};
pub use sets::{into_document_order, union_in_order};
