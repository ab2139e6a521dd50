//! Tables of outside examples as data: a leaf is a program that reads rows from standard input, and writes those that do
//! not hold.
//!
//! A row is a line `KIND: INPUT => WANTED`. In its sides one character, which the leaf chooses, stands for a line end, and
//! the picture of a control character (U+2400 to U+241F, as `␍`) for that character. An empty line and one that
//! begins with `#` is no row.
#![tactic(auto)]

mod rows;
mod texts;

pub use rows::{Answers, hold_rows, named, parted};
pub use texts::{
    copy, first_word, number, parts, place_of, put_words, repeated, shown, text, text_of, told,
};
