//! How large a Schematron schema is without its abstract parts, counted before it is made.
#![tactic(auto)]

mod amount;
mod counting;
mod filled_len;
mod origin;
mod pattern;
mod sizes;
mod sizing;
mod sum;
mod table;

pub use sizes::check_sizes;
