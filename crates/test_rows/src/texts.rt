//! The texts of rows: what stands for a text or a number, and how an answer is told.

use std::alloc::Global;
use std::fmt::{Debug, Display};
use std::str;
use std::test::Fail;

/// The first word of a text, and what follows the space after it.
pub fn first_word(text: &str) -> (&str, &str) {
    match text.split_once(' ') {
        Some(parts) => parts,
        None => (text, ""),
    }
}

/// The number that a word writes.
pub fn number(word: &str) -> Result<usize, Fail> {
    Ok(word.parse()?)
}

/// The text of a side of a row, in which a character stands for a line end.
pub fn text_of(alloc: Global, side: &str, line_end: char) -> Result<String, Fail> {
    let mut text = String::new(alloc);
    for c in side.chars() {
        text.push(if c == line_end { '\n' } else { meant(c) })?;
    }
    Ok(text)
}

/// The control character that a picture stands for; each other character stands for itself.
fn meant(c: char) -> char {
    match c {
        '\u{2400}'..='\u{241f}' => char::from_u32(u32::from(c) - 0x2400).unwrap_or(c),
        _ => c,
    }
}

/// A text in which each second part between crosses is a count and what is repeated: `a×3 b×c` is `abbbc`.
pub fn repeated(alloc: Global, text: &str) -> Result<String, Fail> {
    let mut whole = String::new(alloc);
    let mut is_repeated = false;
    for part in text.split('×') {
        append(&mut whole, part, is_repeated)?;
        is_repeated = !is_repeated;
    }
    Ok(whole)
}

/// Appends a part, once or as often as its first word says.
fn append(whole: &mut String, part: &str, is_repeated: bool) -> Result<(), Fail> {
    if is_repeated {
        append_repeated(whole, part)
    } else {
        Ok(whole.push_str(part)?)
    }
}

/// Appends a part as often as its first word says.
fn append_repeated(whole: &mut String, part: &str) -> Result<(), Fail> {
    let (count, part) = first_word(part);
    for _ in 0..number(count)? {
        whole.push_str(part)?;
    }
    Ok(())
}

/// A text once more.
pub fn copy(alloc: Global, text: &str) -> Result<String, Fail> {
    Ok(String::from_str(alloc, text)?)
}

/// The text of bytes.
pub fn text(alloc: Global, bytes: &[u8]) -> Result<String, Fail> {
    copy(alloc, str::from_utf8(bytes)?)
}

/// A value as it shows itself.
pub fn shown<T: Display>(alloc: Global, value: &T) -> Result<String, Fail> {
    Ok(format!(in alloc; "{value}")?)
}

/// A value with all its parts.
pub fn parts<T: Debug>(alloc: Global, value: &T) -> Result<String, Fail> {
    Ok(format!(in alloc; "{value:?}")?)
}

/// What a call without a value answers: `done`, or why it failed.
pub fn told<E: Display + Drop>(alloc: Global, answer: Result<(), E>) -> Result<String, Fail> {
    match answer {
        Ok(()) => copy(alloc, "done"),
        Err(error) => shown(alloc, &error),
    }
}

/// The place of a word among words that stand apart by spaces.
pub fn place_of(word: &str, words: &str) -> Result<usize, Fail> {
    match words.split(' ').position(|found| found == word) {
        Some(place) => Ok(place),
        None => Err("there is no such word".into()),
    }
}

/// Puts the words, where there are any, in place of things in a text.
pub fn put_words<T: Debug>(
    alloc: Global,
    text: &mut String,
    things: &[T],
    words: &str,
) -> Result<(), Fail> {
    if words.is_empty() {
        Ok(())
    } else {
        put_each(alloc, text, things, words)
    }
}

/// Puts each of the words in place of a thing in a text.
fn put_each<T: Debug>(
    alloc: Global,
    text: &mut String,
    things: &[T],
    words: &str,
) -> Result<(), Fail> {
    for (thing, word) in things.iter().zip(words.split(' ')) {
        replace_word(alloc, text, thing, word)?;
    }
    Ok(())
}

/// Puts a word in place of a thing in a text.
fn replace_word<T: Debug>(
    alloc: Global,
    text: &mut String,
    thing: &T,
    word: &str,
) -> Result<(), Fail> {
    let shown = parts(alloc, thing)?;
    *text = text.replace(alloc, shown.as_str(), word)?;
    Ok(())
}
