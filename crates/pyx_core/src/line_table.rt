//! What a line is by itself: the table of lines by their first character.

ghost use Rattle.std.specs.Prelude.{◌≡◌, true, false, IfOk, IfSome, MatchOption};
ghost use Rattle.std.specs.List.{list_all, after_first};
ghost use Rattle.std.specs.Str.{chars, is_utf8};
ghost use Rattle.sch_base.specs.Characters.{is_xml_char};
ghost use Rattle.pyx_core.specs.inner.Plain.{is_literal, AreLiteral, IsMarked};
ghost use Rattle.pyx_core.specs.LineTable.{is_space, is_qname, is_target, name_part, read_start, read_end, read_chars, read_comment, read_attribute, read_pi, read_marked, read_text, line_of};

use crate::escapes::unescape_line;
use crate::plain::{is_plain_name, is_plain_text, literal_text};
use crate::{Attr, PyxKind};
use sch_base::{Text, is_ncname, is_xml_char, split_qname};
use std::alloc::{AllocError, Global};

/// A good line by itself, with its escapes undone.
#[derive(Drop)]
pub enum Line {
    /// An empty line, or one that begins with `D`, `N` or `U`.
    Skipped,
    Start { name: Text },
    Attribute { attr: Attr },
    End { name: Text },
    Chars { text: Text },
    Pi { target: Text, body: Text },
    Comment { text: Text },
}

/// What the line with these bytes is by itself, or the first rule that it breaks.
///
/// The time grows with its length. Bytes that are known to be literal are a text of Chars, and are not tested.
pub fn line_of(
    alloc: Global,
    bytes: &[u8],
    is_literal: bool,
) -> Result<Result<Line, PyxKind>, AllocError>
    requires literal { AreLiteral is_literal bytes.now }
    ensures { IfOk result (λ found. found ≡ line_of bytes.now) }
{
    if is_literal {
        return read_literal(alloc, bytes);
    }
    let Some(text) = utf8_text(bytes) else {
        return Ok(Err(PyxKind::NotUtf8));
    };
    if !is_of_chars(text) {
        return Ok(Err(PyxKind::BadChar));
    }
    read_text(alloc, text)
}

/// A line of literal bytes.
#[tactic(auto, using(crate::proofs::PlainLemmas::literal_line))]
fn read_literal(alloc: Global, bytes: &[u8]) -> Result<Result<Line, PyxKind>, AllocError>
    requires literal { list_all is_literal bytes.now ≡ true }
    ensures { IfOk result (λ found. found ≡ line_of bytes.now) }
{
    match bytes.split_first() {
        Some((mark, body)) => read_marked(alloc, char::from(*mark), literal_text(body), true),
        None => Ok(Ok(Line::Skipped)),
    }
}

/// What is after the mark in a line of bytes that are known to be literal and begin with it.
pub fn literal_body(bytes: &[u8], mark: u8, is_literal: bool) -> Option<&str>
    requires literal { AreLiteral is_literal bytes.now }
    ensures { IfSome result (λ body. IsMarked mark body.now bytes.now) }
{
    if !is_literal {
        return None;
    }
    match bytes.split_first() {
        Some((first, body)) => {
            if *first == mark {
                return Some(literal_text(body));
            }
            None
        }
        None => None,
    }
}

/// The bytes as a text, where they are UTF-8.
#[tactic(auto, using(crate::proofs::LineTableLemmas::not_utf8, crate::proofs::LineTableLemmas::is_utf8_text))]
fn utf8_text(bytes: &[u8]) -> Option<&str>
    ensures { MatchOption result (is_utf8 bytes.now ≡ false) (λ text. (is_utf8 bytes.now ≡ true) × (text.now ≡ bytes.now)) }
{
    match simdutf8::basic::from_utf8(bytes) {
        Ok(text) => Some(text),
        Err(_) => None,
    }
}

/// Whether each character is a Char (XML 1.0, section 2.2).
///
/// The characters are decoded only where the bytes are not all of ASCII.
#[tactic(auto, using(crate::proofs::PlainLemmas::plain_text))]
fn is_of_chars(text: &str) -> bool
    ensures { result ≡ list_all is_xml_char (chars text.now) }
{
    is_plain_text(text.as_bytes()) || are_chars(text)
}

/// Whether each character is a Char, one decoded after the other.
fn are_chars(text: &str) -> bool
    ensures { result ≡ list_all is_xml_char (chars text.now) }
{
    text.chars().all(|c| is_xml_char(c))
}

#[tactic(auto, using(crate::proofs::LineTableLemmas::read_text_by_char))]
fn read_text(alloc: Global, text: &str) -> Result<Result<Line, PyxKind>, AllocError>
    ensures { IfOk result (λ found. found ≡ read_text text.now) }
{
    let mut chars = text.chars();
    match chars.next() {
        Some(mark) => read_marked(alloc, mark, chars.as_str(), false),
        None => Ok(Ok(Line::Skipped)),
    }
}

/// A line after its mark, which may be known to be literal there.
fn read_marked(
    alloc: Global,
    mark: char,
    body: &str,
    is_literal: bool,
) -> Result<Result<Line, PyxKind>, AllocError>
    requires literal { AreLiteral is_literal body.now }
    ensures { IfOk result (λ found. found ≡ read_marked mark body.now) }
{
    match mark {
        '(' => read_start(alloc, body),
        'A' => read_attribute(alloc, body, is_literal),
        ')' => read_end(alloc, body),
        '-' | '[' => read_chars(alloc, body, is_literal),
        '?' => read_pi(alloc, body, is_literal),
        'C' => read_comment(alloc, body, is_literal),
        'D' | 'N' | 'U' => Ok(Ok(Line::Skipped)),
        '&' => Ok(Err(PyxKind::EntityLine)),
        _ => Ok(Err(PyxKind::UnknownLine)),
    }
}

/// Whether the text is a QName (Namespaces in XML 1.0, section 4).
///
/// The characters are decoded only where the name has a colon or bytes that are not of ASCII.
#[tactic(auto, using(crate::proofs::PlainLemmas::plain_name))]
pub fn is_qname(text: &str) -> bool
    ensures { result ≡ is_qname text.now }
{
    is_plain_name(text.as_bytes()) || split_qname(text).is_some()
}

/// Whether the text is the target of a processing instruction (XML 1.0, section 2.6).
fn is_target(text: &str) -> bool
    ensures { result ≡ is_target text.now }
{
    is_ncname(text) && !text.eq_ignore_ascii_case("xml")
}

fn read_start(alloc: Global, body: &str) -> Result<Result<Line, PyxKind>, AllocError>
    ensures { IfOk result (λ found. found ≡ read_start body.now) }
{
    if !is_qname(body) {
        return Ok(Err(PyxKind::BadName));
    }
    let name = Text::copy(alloc, body)?;
    Ok(Ok(Line::Start { name }))
}

fn read_end(alloc: Global, body: &str) -> Result<Result<Line, PyxKind>, AllocError>
    ensures { IfOk result (λ found. found ≡ read_end body.now) }
{
    if !is_qname(body) {
        return Ok(Err(PyxKind::BadName));
    }
    let name = Text::copy(alloc, body)?;
    Ok(Ok(Line::End { name }))
}

fn read_chars(
    alloc: Global,
    body: &str,
    is_literal: bool,
) -> Result<Result<Line, PyxKind>, AllocError>
    requires literal { AreLiteral is_literal body.now }
    ensures { IfOk result (λ found. found ≡ read_chars body.now) }
{
    let text = unescape_line(alloc, body, is_literal)?;
    Ok(Ok(Line::Chars { text }))
}

fn read_comment(
    alloc: Global,
    body: &str,
    is_literal: bool,
) -> Result<Result<Line, PyxKind>, AllocError>
    requires literal { AreLiteral is_literal body.now }
    ensures { IfOk result (λ found. found ≡ read_comment body.now) }
{
    let text = unescape_line(alloc, body, is_literal)?;
    Ok(Ok(Line::Comment { text }))
}

/// A name and what is after the space that ends it, still escaped; without a space there is nothing after it.
pub fn parts(body: &str) -> (&str, &str)
    ensures name { result.0.now ≡ name_part body.now }
    ensures text { result.1.now ≡ after_first is_space body.now }
{
    match memchr::memchr(b' ', body.as_bytes()) {
        Some(at) => (&body[..at], &body[at + 1..]),
        None => (body, ""),
    }
}

fn read_attribute(
    alloc: Global,
    body: &str,
    is_literal: bool,
) -> Result<Result<Line, PyxKind>, AllocError>
    requires literal { AreLiteral is_literal body.now }
    ensures { IfOk result (λ found. found ≡ read_attribute body.now) }
{
    let (name, value) = parts(body);
    if !is_qname(name) {
        return Ok(Err(PyxKind::BadName));
    }
    let name = Text::copy(alloc, name)?;
    let value = unescape_line(alloc, value, is_literal)?;
    Ok(Ok(Line::Attribute {
        attr: Attr { name, value },
    }))
}

fn read_pi(alloc: Global, body: &str, is_literal: bool) -> Result<Result<Line, PyxKind>, AllocError>
    requires literal { AreLiteral is_literal body.now }
    ensures { IfOk result (λ found. found ≡ read_pi body.now) }
{
    let (target, text) = parts(body);
    if !is_target(target) {
        return Ok(Err(PyxKind::BadName));
    }
    let target = Text::copy(alloc, target)?;
    let body = unescape_line(alloc, text, is_literal)?;
    Ok(Ok(Line::Pi { target, body }))
}
