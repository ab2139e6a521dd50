//! Laws of tokens: what holds of every text.
#![tactic(auto)]

mod laws;

pub use laws::each_text_is_read;
