//! The lines of a script.

ghost use Rattle.std.specs.Prelude.{◌≡◌, ◌+◌, ◌<◌, ◌^◌, [], take, drop, length, MatchOption};
ghost use Rattle.edit_script.specs.Script.{is_dot, lines_of};
ghost use Rattle.edit_script.specs.Undos.{is_undo};
ghost use Rattle.edit_script.specs.inner.Lines.{Cuts, IsSpent, Reaches};

/// The first of some lines, without its line end, and what follows it; None where no line is left.
///
/// Each byte of the line is looked at once, by a search for the line end.
pub(crate) fn first_line(rest: &[u8]) -> Option<(&[u8], &[u8])>
    ensures { MatchOption result (lines_of rest.now ≡ []) (λ cut. Cuts rest.now cut.0.now cut.1.now) }
{
    match memchr::memchr(b'\n', rest) {
        Some(end) => Some(split_line(rest, end)),
        None if rest.is_empty() => None,
        None => Some((rest, &[])),
    }
}

/// The bytes before a place and those after it.
fn split_line(bytes: &[u8], end: usize) -> (&[u8], &[u8])
    requires { end < length bytes.now }
    ensures line { result.0.now ≡ take end bytes.now }
    ensures rest { result.1.now ≡ drop (end + 1) bytes.now }
{
    (&bytes[..end], &bytes[end + 1..])
}

/// Whether the line is `.`, which ends a fragment.
pub(crate) fn is_dot(line: &[u8]) -> bool
    ensures { result ≡ is_dot line.now }
{
    line == b".".as_slice()
}

/// Whether the line is `undo`, which takes an edit back.
pub(crate) fn is_undo(line: &[u8]) -> bool
    ensures { result ≡ is_undo line.now }
{
    line == b"undo".as_slice()
}

/// A line that isn't empty, its number, and what follows it.
#[derive(Clone, Copy)]
pub(crate) struct Numbered<'a> {
    pub(crate) number: u64,
    pub(crate) line: &'a [u8],
    pub(crate) rest: &'a [u8],
}

/// The first line that isn't empty, where the first line has the number; None where there is none.
pub(crate) fn next_line(from: u64, bytes: &[u8]) -> Option<Numbered>
    requires { from + length bytes.now < 2 ^ 64 }
    ensures { MatchOption result (IsSpent from bytes.now)
        (λ next. Reaches from bytes.now next.number next.line.now next.rest.now) }
{
    let mut number = from;
    let mut rest = bytes;
    while let Some((line, after)) = first_line(rest) {
        if !line.is_empty() {
            return Some(Numbered {
                number,
                line,
                rest: after,
            });
        }
        number += 1;
        rest = after;
    }
    None
}
