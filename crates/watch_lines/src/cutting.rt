//! Where lines and words are cut.

ghost use Rattle.std.specs.Prelude.{◌≡◌, ◌+◌, ◌<◌, [], take, drop, length, true, false, MatchOption};
ghost use Rattle.std.specs.List.{list_all};
ghost use Rattle.std.specs.Str.{chars, is_utf8};
ghost use Rattle.sch_base.specs.Characters.{is_xml_char};
ghost use Rattle.pyx_core.specs.LineTable.{is_space};
ghost use Rattle.pyx_core.specs.Nesting.{of_chars};
ghost use Rattle.edit_script.specs.Script.{lines_of};
ghost use Rattle.edit_script.specs.inner.Lines.{Cuts};
ghost use Rattle.edit_script.specs.inner.Parts.{Parted, Whole};

use sch_base::is_xml_char;

/// The first of some lines, without its line end, and what follows it; None where no line is left.
pub(crate) fn first_line(rest: &[u8]) -> Option<(&[u8], &[u8])>
    ensures { MatchOption result (lines_of rest.now ≡ []) (λ cut. Cuts rest.now cut.0.now cut.1.now) }
{
    match memchr::memchr(b'\n', rest) {
        Some(end) => Some(split_line(rest, end)),
        None if rest.is_empty() => None,
        None => Some((rest, &[])),
    }
}

/// The bytes before a place and those after it.
fn split_line(bytes: &[u8], end: usize) -> (&[u8], &[u8])
    requires { end < length bytes.now }
    ensures line { result.0.now ≡ take end bytes.now }
    ensures rest { result.1.now ≡ drop (end + 1) bytes.now }
{
    (&bytes[..end], &bytes[end + 1..])
}

/// The bytes as a text, where they are UTF-8 and each character is a Char (XML 1.0, section 2.2).
pub(crate) fn text_of_chars(bytes: &[u8]) -> Option<&str>
    ensures { MatchOption result (of_chars bytes.now ≡ false) (λ text. (of_chars bytes.now ≡ true) × (text.now ≡ bytes.now)) }
{
    let text = utf8_text(bytes)?;
    if is_of_chars(text) { Some(text) } else { None }
}

/// The bytes as a text, where they are UTF-8.
#[tactic(auto, using(pyx_core::proofs::LineTableLemmas::not_utf8, pyx_core::proofs::LineTableLemmas::is_utf8_text))]
fn utf8_text(bytes: &[u8]) -> Option<&str>
    ensures { MatchOption result (is_utf8 bytes.now ≡ false) (λ text. (is_utf8 bytes.now ≡ true) × (text.now ≡ bytes.now)) }
{
    match std::str::from_utf8(bytes) {
        Ok(text) => Some(text),
        Err(_) => None,
    }
}

/// Whether each character is a Char (XML 1.0, section 2.2).
fn is_of_chars(text: &str) -> bool
    ensures { result ≡ list_all is_xml_char (chars text.now) }
{
    text.chars().all(|c| is_xml_char(c))
}

/// What stands in front of the first space and behind it; None where there is no space.
#[tactic(auto, using(edit_script::proofs::PartLemmas::whole_at, edit_script::proofs::PartLemmas::parted_at))]
pub(crate) fn split_space(text: &str) -> Option<(&str, &str)>
    ensures { MatchOption result (Whole is_space text.now) (λ parts. Parted is_space text.now parts.0.now parts.1.now) }
{
    text.split_once(' ')
}
