//! The types of expressions and of match patterns: names are resolved against a schema's prefixes and variables, or
//! the first fault is found.
#![tactic(auto)]

mod checks;
mod env;
mod faults;
mod function_names;
mod laws;
mod operators;
mod patterns;
mod terms;
mod typing;

pub use checks::{check, check_pattern};
pub use env::Env;
pub use faults::{CheckError, TypeFault, TypeKind};
pub use laws::{
    expressions_are_typed_or_refused, patterns_are_typed_or_refused, slots_are_in_scope,
};
