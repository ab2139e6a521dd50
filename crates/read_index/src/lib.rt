//! An index from what is read of a document, a cell or the names along an axis from a node, to the units that have read it. A unit is
//! a number that the caller gives it.
#![tactic(auto)]

mod filing;
mod parting;
mod read_index;

pub use filing::is_far;
pub use read_index::ReadIndex;
