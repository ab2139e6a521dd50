//! An index from cells of a document to the units that have them. A unit is a number that the caller gives it.
#![tactic(auto)]

mod cell_index;
mod cell_list;
mod cell_numbers;
mod cell_sets;
mod chains;
mod finding;
mod gathering;
mod links;
mod sharing;
mod unit_sets;

pub use cell_index::{CellIndex, UnitList};
