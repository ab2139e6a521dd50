//! Lines of PYX with a name of two parts, a prefix and a local part: the prefix, where it is not empty, and a colon
//! before the local part (Namespaces in XML 1.0, section 4).

ghost use Rattle.sch_io.specs.Wrote.{Wrote};
ghost use Rattle.pyx_core.specs.Written.{attr_line, end_line, start_line};
ghost use Rattle.doc_tree.specs.QNames.{spelled_name};
ghost use Rattle.doc_write.specs.TreeText.{declaring_name};

use pyx_write::{
    write_attr, write_end, write_joined_attr, write_joined_end, write_joined_start, write_start,
};
use sch_io::{Failed, Sink};

/// Writes the start of an element.
pub(crate) fn write_start_tag<O: Sink>(
    sink: &mut O,
    prefix: &str,
    local: &str,
) -> Result<(), Failed>
    ensures { Wrote (O.log sink.old) (O.log sink.new) (start_line (spelled_name prefix.now local.now)) result }
{
    if prefix.is_empty() {
        write_start(sink, local)
    } else {
        write_joined_start(sink, &[prefix, ":", local])
    }
}

/// Writes the end of an element.
pub(crate) fn write_end_tag<O: Sink>(sink: &mut O, prefix: &str, local: &str) -> Result<(), Failed>
    ensures { Wrote (O.log sink.old) (O.log sink.new) (end_line (spelled_name prefix.now local.now)) result }
{
    if prefix.is_empty() {
        write_end(sink, local)
    } else {
        write_joined_end(sink, &[prefix, ":", local])
    }
}

/// Writes an attribute.
pub(crate) fn write_attribute<O: Sink>(
    sink: &mut O,
    prefix: &str,
    local: &str,
    value: &str,
) -> Result<(), Failed>
    ensures { Wrote (O.log sink.old) (O.log sink.new) (attr_line (spelled_name prefix.now local.now) value.now) result }
{
    if prefix.is_empty() {
        write_attr(sink, local, value)
    } else {
        write_joined_attr(sink, &[prefix, ":", local], value)
    }
}

/// Writes the declaration of a prefix, which is empty for the default namespace.
#[tactic(auto, unfolding(doc_tree::specs::Scope::xmlns_prefix))]
pub(crate) fn write_declaration<O: Sink>(
    sink: &mut O,
    prefix: &str,
    uri: &str,
) -> Result<(), Failed>
    ensures { Wrote (O.log sink.old) (O.log sink.new) (attr_line (declaring_name prefix.now) uri.now) result }
{
    if prefix.is_empty() {
        write_attr(sink, "xmlns", uri)
    } else {
        write_joined_attr(sink, &["xmlns", ":", prefix], uri)
    }
}
