//! Expressions of XPath 1.0 and match patterns of XSLT 1.0 whose parts have types: names are resolved, calls name
//! functions, variables have slots.
#![tactic(auto)]

mod build;
mod expr;
mod function;
mod pattern;
mod typed;
mod value_type;

pub use doc_tree::{Axis, NodeTest};
pub use expr::{Combined, Compared, TypedExpr, TypedStart, TypedStep};
pub use function::Function;
pub use pattern::{TypedPath, TypedPatternStep};
pub use typed::{Typed, TypedPattern};
pub use value_type::ValueType;
pub use xp_tree::{ArithOp, Comparison, Join};
