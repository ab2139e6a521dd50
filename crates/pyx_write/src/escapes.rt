//! The escapes in the texts of PYX lines.

ghost use Rattle.std.specs.Prelude.{◌≡◌, ◌∷◌, [], MatchOption};
ghost use Rattle.sch_io.specs.Wrote.{Wrote};
ghost use Rattle.pyx_core.specs.Escapes.{escaped, escape_of};

use sch_io::{Failed, Sink, write_all};

/// Writes the text with its escapes and nothing else, so that a line can be written in pieces.
///
/// Each run of bytes that stand for themselves is written at once; the time grows with the text's length.
pub fn write_escaped<O: Sink>(sink: &mut O, text: &str) -> Result<(), Failed>
    ensures { Wrote (O.log sink.old) (O.log sink.new) (escaped text.now) result }
{
    let bytes = text.as_bytes();
    let mut start = 0;
    for (at, byte) in bytes.iter().enumerate() {
        if let Some(escape) = escape(*byte) {
            write_all(sink, &bytes[start..at])?;
            write_all(sink, escape.as_bytes())?;
            start = at + 1;
        }
    }
    write_all(sink, &bytes[start..])
}

/// How a byte is written that can't stand for itself.
fn escape(byte: u8) -> Option<&'static str>
    ensures { MatchOption result (escape_of byte ≡ byte ∷ []) (λ escape. escape.now ≡ escape_of byte) }
{
    match byte {
        b'\n' => Some("\\n"),
        b'\t' => Some("\\t"),
        b'\r' => Some("\\r"),
        b'\\' => Some("\\\\"),
        _ => None,
    }
}
