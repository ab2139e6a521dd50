//! The lines of PYX.

ghost use Rattle.std.specs.Prelude.{◌++◌, codes};
ghost use Rattle.sch_io.specs.Wrote.{Wrote, joined};
ghost use Rattle.pyx_core.specs.Escapes.{escaped};
ghost use Rattle.pyx_core.specs.Written.{start_line, attr_line, end_line, chars_line, pi_line, comment_line};

use crate::escapes::write_escaped;
use sch_io::{Failed, Sink, write_all, write_pieces};

/// Writes the start of an element.
#[tactic(auto, unfolding(pyx_core::specs::Written::start_line))]
pub fn write_start<O: Sink>(sink: &mut O, name: &str) -> Result<(), Failed>
    ensures { Wrote (O.log sink.old) (O.log sink.new) (start_line name.now) result }
{
    write_pieces(sink, &["(", name, "\n"])
}

/// Writes the start of an element whose name comes in pieces, as a prefix, a colon and a local part.
#[tactic(auto, unfolding(pyx_core::specs::Written::start_line))]
pub fn write_joined_start<O: Sink>(sink: &mut O, name: &[&str]) -> Result<(), Failed>
    ensures { Wrote (O.log sink.old) (O.log sink.new) (start_line (joined name.now)) result }
{
    write_tag(sink, b"(", name)
}

/// Writes an attribute of the element that was started.
#[tactic(auto, unfolding(pyx_core::specs::Written::attr_line))]
pub fn write_attr<O: Sink>(sink: &mut O, name: &str, value: &str) -> Result<(), Failed>
    ensures { Wrote (O.log sink.old) (O.log sink.new) (attr_line name.now value.now) result }
{
    write_line(sink, &["A", name, " "], value)
}

/// Writes an attribute whose name comes in pieces.
#[tactic(auto, unfolding(pyx_core::specs::Written::attr_line))]
pub fn write_joined_attr<O: Sink>(sink: &mut O, name: &[&str], value: &str) -> Result<(), Failed>
    ensures { Wrote (O.log sink.old) (O.log sink.new) (attr_line (joined name.now) value.now) result }
{
    write_named_line(sink, b"A", name, value)
}

/// Writes the end of an element.
#[tactic(auto, unfolding(pyx_core::specs::Written::end_line))]
pub fn write_end<O: Sink>(sink: &mut O, name: &str) -> Result<(), Failed>
    ensures { Wrote (O.log sink.old) (O.log sink.new) (end_line name.now) result }
{
    write_pieces(sink, &[")", name, "\n"])
}

/// Writes the end of an element whose name comes in pieces.
#[tactic(auto, unfolding(pyx_core::specs::Written::end_line))]
pub fn write_joined_end<O: Sink>(sink: &mut O, name: &[&str]) -> Result<(), Failed>
    ensures { Wrote (O.log sink.old) (O.log sink.new) (end_line (joined name.now)) result }
{
    write_tag(sink, b")", name)
}

/// Writes characters in one line, and nothing for an empty text.
#[tactic(auto, unfolding(pyx_core::specs::Written::chars_line))]
pub fn write_chars<O: Sink>(sink: &mut O, text: &str) -> Result<(), Failed>
    ensures { Wrote (O.log sink.old) (O.log sink.new) (chars_line text.now) result }
{
    if text.is_empty() {
        return Ok(());
    }
    write_line(sink, &["-"], text)
}

/// Writes a processing instruction.
#[tactic(auto, unfolding(pyx_core::specs::Written::pi_line))]
pub fn write_pi<O: Sink>(sink: &mut O, target: &str, body: &str) -> Result<(), Failed>
    ensures { Wrote (O.log sink.old) (O.log sink.new) (pi_line target.now body.now) result }
{
    write_line(sink, &["?", target, " "], body)
}

/// Writes a comment.
#[tactic(auto, unfolding(pyx_core::specs::Written::comment_line))]
pub fn write_comment<O: Sink>(sink: &mut O, text: &str) -> Result<(), Failed>
    ensures { Wrote (O.log sink.old) (O.log sink.new) (comment_line text.now) result }
{
    write_line(sink, &["C"], text)
}

/// Writes a line that has a mark and a name in pieces.
#[tactic(auto, using(sch_io::proofs::Writes::writes))]
fn write_tag<O: Sink>(sink: &mut O, mark: &[u8], name: &[&str]) -> Result<(), Failed>
    ensures { Wrote (O.log sink.old) (O.log sink.new) (mark.now ++ (joined name.now ++ codes "\n")) result }
{
    write_all(sink, mark)?;
    write_pieces(sink, name)?;
    write_all(sink, b"\n")
}

/// Writes a line that has a mark, a name in pieces, a space and a text.
#[tactic(auto, using(sch_io::proofs::Writes::writes))]
fn write_named_line<O: Sink>(
    sink: &mut O,
    mark: &[u8],
    name: &[&str],
    text: &str,
) -> Result<(), Failed>
    ensures { Wrote (O.log sink.old) (O.log sink.new)
        (mark.now ++ (joined name.now ++ (codes " " ++ (escaped text.now ++ codes "\n")))) result }
{
    write_all(sink, mark)?;
    write_pieces(sink, name)?;
    write_line(sink, &[" "], text)
}

/// Writes the rest of a line: the text with its escapes, and the line end.
#[tactic(auto, using(sch_io::proofs::Writes::writes))]
pub fn write_line_rest<O: Sink>(sink: &mut O, text: &str) -> Result<(), Failed>
    ensures { Wrote (O.log sink.old) (O.log sink.new) (escaped text.now ++ codes "\n") result }
{
    write_escaped(sink, text)?;
    write_all(sink, b"\n")
}

/// Writes the pieces of a line's head, and the rest of the line.
#[tactic(auto, using(sch_io::proofs::Writes::writes))]
fn write_line<O: Sink>(sink: &mut O, head: &[&str], text: &str) -> Result<(), Failed>
    ensures { Wrote (O.log sink.old) (O.log sink.new) (joined head.now ++ (escaped text.now ++ codes "\n")) result }
{
    write_pieces(sink, head)?;
    write_line_rest(sink, text)
}
