//! The tokens of XPath 1.0 expressions, read from their texts.
#![tactic(auto)]

mod laws;
mod lexeme;
mod lexer;
mod name;
mod number;
mod run;
mod symbol;
mod token;
mod words;

pub use laws::{no_text_is_unread, texts_read_once, whole_texts_end};
pub use lexeme::Lexeme;
pub use lexer::{Lexed, tokenize};
