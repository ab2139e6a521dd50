//! The lines of an event.

ghost use Rattle.std.specs.Prelude.{◌++◌};
ghost use Rattle.sch_io.specs.Wrote.{Wrote};
ghost use Rattle.pyx_core.specs.Written.{attr_line, attr_lines, event_lines, start_line};

use crate::lines::{write_attr, write_chars, write_comment, write_end, write_pi, write_start};
use pyx_core::{Attr, Event};
use sch_io::{Failed, Sink};

/// Writes the lines of an event: a start with a line for each attribute, any other in one line.
///
/// The text of events that a reader gave is read back as these events: `pyx_core::written_is_read_back`.
pub fn write_event<O: Sink>(sink: &mut O, event: &Event) -> Result<(), Failed>
    ensures { Wrote (O.log sink.old) (O.log sink.new) (event_lines event.now) result }
{
    match event {
        Event::Start { name, attrs } => write_whole_start(sink, name.as_str(), attrs.as_slice()),
        Event::End { name } => write_end(sink, name.as_str()),
        Event::Chars { text } => write_chars(sink, text.as_str()),
        Event::Pi { target, body } => write_pi(sink, target.as_str(), body.as_str()),
        Event::Comment { text } => write_comment(sink, text.as_str()),
    }
}

/// Writes the start of an element and its attributes.
#[tactic(auto, using(sch_io::proofs::Writes::writes))]
fn write_whole_start<O: Sink>(sink: &mut O, name: &str, attrs: &[Attr]) -> Result<(), Failed>
    ensures { Wrote (O.log sink.old) (O.log sink.new) (start_line name.now ++ attr_lines attrs.now) result }
{
    write_start(sink, name)?;
    write_attrs(sink, attrs)
}

/// Writes an attribute.
fn write_one_attr<O: Sink>(sink: &mut O, attr: &Attr) -> Result<(), Failed>
    ensures { Wrote (O.log sink.old) (O.log sink.new) (attr_line attr.now.name attr.now.value) result }
{
    write_attr(sink, attr.name.as_str(), attr.value.as_str())
}

/// Writes attributes.
fn write_attrs<O: Sink>(sink: &mut O, attrs: &[Attr]) -> Result<(), Failed>
    ensures { Wrote (O.log sink.old) (O.log sink.new) (attr_lines attrs.now) result }
{
    for attr in attrs {
        write_one_attr(sink, attr)?;
    }
    Ok(())
}
