//! Characters, names, texts and lists that every layer speaks of.
#![tactic(auto)]

mod characters;
mod item_list;
mod laws;
mod limits;
mod names;
mod numbers;
mod text;

pub use characters::{is_name_char, is_name_start, is_whitespace, is_xml_char};
pub use item_list::ItemList;
pub use laws::{
    characters_spell_the_text, numbers_of_limits, qnames_split, text_has_its_characters,
};
pub use limits::{
    MAX_ACTIVE_PATTERNS, MAX_ASSERTIONS, MAX_EXPRESSION_BYTES, MAX_INCLUDE_DEPTH, MAX_INCLUDES,
    MAX_LETS, MAX_NESTING, MAX_PAIRS, MAX_RULES, MAX_TEXT_BYTES,
};
pub use names::{is_ncname, split_qname};
pub use numbers::number_up_to;
pub use text::Text;
