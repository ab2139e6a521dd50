//! The trees of XPath 1.0 expressions and of XSLT 1.0 match patterns, as they are written: each part with the place
//! where it begins.
#![tactic(auto)]

mod axis_names;
mod build;
mod expr;
mod numbers;
mod operators;
mod pattern;
mod terms;

pub use expr::{Chain, Expr, Operand, Start, Step};
pub use numbers::{MAX_WHOLE, numbers_of_limits};
pub use operators::{ArithOp, Comparison};
pub use pattern::{Join, PathPattern, Pattern, PatternStart, PatternStep};
pub use terms::{AxisName, Level, Operator, StepTest};
