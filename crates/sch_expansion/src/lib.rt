//! A Schematron schema without its abstract parts: what `extends` and instances of abstract patterns stand for (ISO/IEC
//! 19757-3:2016, section 5.4).
#![tactic(auto)]

mod copies;
mod expansion;
mod filling;
mod flat;
mod laws;
mod nothing;
mod origins;
mod places;

pub use filling::{Filling, Piece};
pub use flat::flat_patterns;
pub use laws::extends_are_replaced;
pub use origins::Origins;
