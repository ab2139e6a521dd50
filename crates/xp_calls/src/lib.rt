//! The functions and operators of XPath 1.0 on values that are evaluated already (sections 3.4, 3.5 and 4), and the
//! conversions and steps along axes under them: these record the cells and names that they look at and the string-values
//! that they take, and count a step for each string-value.
#![tactic(auto)]

mod applying;
mod arguments;
mod caller;
mod comparisons;
mod converting;
mod joining;
mod language;
mod names;
mod operators;
mod reading;
mod text_functions;

pub use arguments::wanted;
pub use caller::Caller;
pub use converting::nodes_of;
pub use operators::negate;
pub use reading::{is_by_name, read_axis, read_name, read_names};
