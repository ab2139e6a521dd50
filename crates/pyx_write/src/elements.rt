//! Elements, written in lines of PYX.

ghost use Rattle.std.specs.Prelude.{[], map};
ghost use Rattle.std.specs.List.{flat_map};
ghost use Rattle.sch_io.specs.Wrote.{Wrote};
ghost use Rattle.pyx_write.specs.Written.{chars_line};
ghost use Rattle.pyx_write.specs.Elements.{attributes, element, opening};
ghost use Rattle.pyx_write.specs.inner.Given.{seen, given_line};

use crate::lines::{write_attr, write_chars, write_end, write_start};
use sch_base::Text;
use sch_io::{Failed, Sink};

/// An attribute of an element that is to be written.
#[derive(Clone, Copy)]
pub enum Given<'a> {
    /// Its name and a value that is the same in each report.
    Fixed(&'a str, &'a str),
    /// Its name and value.
    Always(&'a str, &'a Text),
    /// Its name and value; no attribute where there is no value.
    IfAny(&'a str, &'a Option<Text>),
}

/// Writes how an element begins: its name, and the attributes that are given.
#[tactic(auto, using(sch_io::proofs::Writes::writes))]
pub fn write_opening<O: Sink>(sink: &mut O, name: &str, given: &[Given<'_>]) -> Result<(), Failed>
    ensures { Wrote (O.log sink.old) (O.log sink.new) (opening name.now (map seen given.now)) result }
{
    write_start(sink, name)?;
    write_attributes(sink, given)
}

/// Writes an element that holds nothing.
#[tactic(auto, using(sch_io::proofs::Writes::writes))]
pub fn write_empty<O: Sink>(sink: &mut O, name: &str, given: &[Given<'_>]) -> Result<(), Failed>
    ensures { Wrote (O.log sink.old) (O.log sink.new) (element name.now (map seen given.now) []) result }
{
    write_opening(sink, name, given)?;
    write_end(sink, name)
}

/// Writes an element that holds a text.
#[tactic(auto, using(sch_io::proofs::Writes::writes))]
pub fn write_text<O: Sink>(
    sink: &mut O,
    name: &str,
    given: &[Given<'_>],
    text: &Text,
) -> Result<(), Failed>
    ensures { Wrote (O.log sink.old) (O.log sink.new) (element name.now (map seen given.now) (chars_line text.now)) result }
{
    write_opening(sink, name, given)?;
    write_chars(sink, text.as_str())?;
    write_end(sink, name)
}

/// Writes the attributes that are given.
fn write_attributes<O: Sink>(sink: &mut O, given: &[Given<'_>]) -> Result<(), Failed>
    ensures { Wrote (O.log sink.old) (O.log sink.new) (attributes (map seen given.now)) result }
{
    for attribute in given {
        write_attribute(sink, *attribute)?;
    }
    Ok(())
}

/// Writes an attribute, if it is given.
fn write_attribute<O: Sink>(sink: &mut O, given: Given<'_>) -> Result<(), Failed>
    ensures { Wrote (O.log sink.old) (O.log sink.new) (given_line given.entry) result }
{
    match given {
        Given::Fixed(name, value) => write_attr(sink, name, value),
        Given::Always(name, value) => write_attr(sink, name, value.as_str()),
        Given::IfAny(name, Some(value)) => write_attr(sink, name, value.as_str()),
        Given::IfAny(_, None) => Ok(()),
    }
}
