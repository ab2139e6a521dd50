//! Laws of the program: what holds of every run.
#![tactic(auto)]

mod laws;

pub use laws::{
    begun_is_front, one_cost, one_output, some_cost, some_output, undone_edits_show_the_same,
    whole_schemas_stay,
};
