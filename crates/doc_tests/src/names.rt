//! Examples of lists, texts, characters, the forms of names, and numbered words and names.

use doc_names::{NameTable, WordTable};
use sch_base::{
    ItemList, Text, is_name_char, is_name_start, is_ncname, is_whitespace, is_xml_char, split_qname,
};
use std::alloc::Global;
use std::test::Fail;
use test_rows::{Answers, copy, named, parted, parts, shown};

/// What answers the rows: words and names keep their numbers for the rows after them.
#[derive(Drop)]
pub struct Names {
    alloc: Global,
    words: WordTable,
    names: NameTable,
}

/// What a row asks.
#[derive(Clone, Copy)]
enum Question {
    Items,
    Classes,
    Parts,
    Copied,
    Found,
    SecondWord,
    Word,
    Name,
}

/// The questions by the kinds of rows.
const QUESTIONS: [(&str, Question); 8] = [
    ("items", Question::Items),
    ("characters", Question::Classes),
    ("name parts", Question::Parts),
    ("copied", Question::Copied),
    ("found", Question::Found),
    ("second word", Question::SecondWord),
    ("word", Question::Word),
    ("name", Question::Name),
];

impl Answers for Names {
    fn answer(&mut self, kind: &str, input: &str) -> Result<String, Fail> {
        match named(&QUESTIONS, kind)? {
            Question::Items => items(self.alloc),
            Question::Classes => classes(self.alloc, input),
            Question::Parts => name_parts(self.alloc, input),
            Question::Copied => copied(self.alloc, input),
            Question::Found => self.found(input),
            Question::SecondWord => self.second_word(),
            Question::Word => self.word(input),
            Question::Name => self.name(input),
        }
    }
}

impl Names {
    /// Tables without words and names.
    pub fn new(alloc: Global) -> Names {
        Names {
            alloc,
            words: WordTable::new(alloc),
            names: NameTable::new(alloc),
        }
    }

    /// The number of a word that has one.
    fn found(&self, word: &str) -> Result<String, Fail> {
        parts(self.alloc, &self.words.find(word))
    }

    /// The word with the second number.
    fn second_word(&self) -> Result<String, Fail> {
        copy(self.alloc, self.words.word(1))
    }

    /// The number of a word.
    fn word(&mut self, word: &str) -> Result<String, Fail> {
        shown(self.alloc, &self.words.number(self.alloc, word)?)
    }

    /// The number of a name, whose prefix stands before a colon.
    fn name(&mut self, name: &str) -> Result<String, Fail> {
        let (prefix, local) = parted(name, ":")?;
        let name = self.names.number(self.alloc, prefix, local, "u")?;
        shown(self.alloc, &name.index())
    }
}

/// A text that was copied.
fn copied(alloc: Global, text: &str) -> Result<String, Fail> {
    let text = Text::copy(alloc, text)?;
    copy(alloc, text.as_str())
}

/// Whether a character, which a word numbers in hexadecimal, is of Char, of S, of NameChar and of NameStartChar.
fn classes_of(word: &str) -> Result<[bool; 4], Fail> {
    match char::from_u32(u32::from_str_radix(word, 16)?) {
        Some(c) => Ok([
            is_xml_char(c),
            is_whitespace(c),
            is_name_char(c),
            is_name_start(c),
        ]),
        None => Err("no character has that number".into()),
    }
}

/// The classes of each of the characters that the words number, where they are the same.
fn classes(alloc: Global, words: &str) -> Result<String, Fail> {
    let mut common = [false; 4];
    for (place, word) in words.split(' ').enumerate() {
        let found = classes_of(word)?;
        if place > 0 && found != common {
            return Err("the characters are of different classes".into());
        }
        common = found;
    }
    parts(alloc, &common)
}

/// The length of a name's prefix and the place of its local part; a name without a prefix is an NCName.
fn name_parts(alloc: Global, name: &str) -> Result<String, Fail> {
    let found = split_qname(name);
    if is_ncname(name) != (found == Some((0, 0))) {
        return Err("a name is an NCName and no QName, or the reverse".into());
    }
    parts(alloc, &found)
}

/// A list of two items, what it holds, and what stands at a place in it and past its end.
fn items(alloc: Global) -> Result<String, Fail> {
    let mut list: ItemList<u8> = ItemList::new(alloc);
    let empty = list.is_empty();
    list.push(7)?;
    list.push(9)?;
    parts(
        alloc,
        &(empty, list.len(), list.as_slice(), list.get(1), list.get(2)),
    )
}
