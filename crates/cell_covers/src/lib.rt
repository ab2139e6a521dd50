//! What is held of what a unit read: the cells that no other covers, since an edit that touches those touches what covers them, and names
//! along upward axes one by one.
#![tactic(auto)]

mod covering;
mod dropping;
mod names;
mod node_set;

pub use dropping::without_covered;
