//! The laws of printing: the printed text of an expression that some text spells, spells the same expression, but for
//! offsets, and nothing else; it needs no deeper nesting than that text (XPath 1.0, section 3).
#![tactic(auto)]

mod laws;

pub use laws::{
    printed_spells_nothing_else, printed_spells_the_same_tree, printed_text_has_the_printed_tokens,
    printed_tokens_derive_the_same,
};
