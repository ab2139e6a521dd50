//! The values of XPath 1.0 expressions: conversions (section 4), comparisons (section 3.4), arithmetic on whole numbers
//! (section 3.5) and the functions on texts (section 4.2).
#![tactic(auto)]

mod comparisons;
mod conversions;
mod lent;
mod numbers;
mod numerals;
mod replacing;
mod sameness;
mod spaces;
mod text_comparisons;
mod texts;
mod values;

pub use comparisons::{compare, compare_nodes, compare_text};
pub use conversions::{to_number, to_text, to_truth};
pub use numbers::{Num, arith};
pub use numerals::text_to_number;
pub use replacing::translate;
pub use sameness::same_value;
pub use spaces::normalize_space;
pub use texts::{
    concat, contains, starts_with, string_length, substring, substring_after, substring_before,
};
pub use values::{EvalError, EvalFault, Value};
pub use xp_tree::{ArithOp, Comparison, MAX_WHOLE};
