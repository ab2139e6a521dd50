//! Which nodes stand above others, and from where the steps of a path pattern, behind `/` or `//`, look for their candidates
//! (XSLT 1.0, section 5.2).
#![tactic(auto)]

mod above;
mod looking;

pub use looking::{ends_of, looking_at, some_looks_at};
