//! The texts of expressions.
#![tactic(auto)]

mod print;
mod terms;

pub use print::print_expr;
