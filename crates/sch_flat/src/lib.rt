//! The document that a schema without abstract parts is: its events, and how large it is.
#![tactic(auto)]

mod given;
mod known_sizes;
mod lines;
mod measured;
mod notes;
mod part_sizes;
mod parts;
mod schema;
mod schema_size;
mod size;
mod writer;

pub use known_sizes::{
    RuleLabels, assertion_size, let_size, name_size, pattern_size, rule_size, value_of_size,
};
pub use lines::{characters_size, escaped_len};
pub use pyx_core::EventList;
pub use sch_model::FlatSchema;
pub use schema::flat_events;
pub use schema_size::{SchemaParts, fits, flat_size, size_with_patterns};
pub use size::FlatSize;
