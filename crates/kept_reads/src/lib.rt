//! What the units of a plan read when they were last evaluated, kept by the place of each. Of an edit those that read a touched cell
//! are marked as stale, by an index from cells to units.
#![tactic(auto)]

mod counting;
mod entries;
mod forgetting;
mod kept_reads;
mod lets_read;
mod marking;
mod naming;

pub use counting::place_in_row;
pub use kept_reads::KeptReads;
pub use marking::Marking;
