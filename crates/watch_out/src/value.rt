//! The lines of one watched expression.

ghost use Rattle.std.specs.Prelude.{◌≡◌, ℕ, true, codes, IfOk};
ghost use Rattle.std.specs.List.{flat_map};
ghost use Rattle.doc_tree.specs.Lists.{mem};
ghost use Rattle.doc_tree.specs.Table.{is_live};
ghost use Rattle.doc_axes.specs.Sets.{IsNodeSet};
ghost use Rattle.svrl_out.specs.Report.{Reported};
ghost use Rattle.xp_meaning.specs.Laws.{IsProper};
ghost use Rattle.xp_values.specs.Conversions.{number_text, truth_text};
ghost use Rattle.watch_out.specs.Lines.{at_line, count_line, node_lines, value_lines, watch_line};

use doc_locations::Locator;
use doc_tree::{NodeId, Tree};
use pyx_write::write_pi;
use sch_io::Sink;
use std::alloc::Global;
use std::fmt::Write;
use svrl_out::OutError;
use xp_values::{EvalFault, Num, Value, to_text};

/// Writes what the watched expression with a number gave: its value, or the fault that it met.
pub(crate) fn write_value<O: Sink>(
    alloc: Global,
    tree: &Tree,
    number: usize,
    given: &Result<Value, EvalFault>,
    sink: &mut O,
) -> Result<(), OutError>
    requires { IfOk given.now (IsProper tree.now.nodes) }
    ensures { Reported (O.log sink.old) (O.log sink.new) (value_lines tree.now.nodes number given.now) result }
{
    match given {
        Ok(Value::NodeSet(nodes)) => write_nodes(alloc, tree, number, nodes.as_slice(), sink),
        Ok(Value::Truth(truth)) => write_said(alloc, number, "truth", truth_text(*truth), sink),
        Ok(Value::Number(value)) => write_number(alloc, tree, number, *value, sink),
        Ok(Value::Chars(text)) => write_said(alloc, number, "text", text.as_str(), sink),
        Err(fault) => write_said(alloc, number, "fault", fault.name(), sink),
    }
}

/// Writes the line of a watched expression: what kind of thing it gave, and the text of that.
fn write_said<O: Sink>(
    alloc: Global,
    number: usize,
    kind: &str,
    text: &str,
    sink: &mut O,
) -> Result<(), OutError>
    ensures { Reported (O.log sink.old) (O.log sink.new) (watch_line number kind.now text.now) result }
{
    let mut said = String::new(alloc);
    write!(said, "{number} {kind} {text}")?;
    write_pi(sink, "watch", said.as_str())?;
    Ok(())
}

/// A truth as text.
fn truth_text(truth: bool) -> &'static str
    ensures { result.now ≡ truth_text truth }
{
    if truth { "true" } else { "false" }
}

/// Writes the line of a watched expression that gave a number.
fn write_number<O: Sink>(
    alloc: Global,
    tree: &Tree,
    number: usize,
    value: Num,
    sink: &mut O,
) -> Result<(), OutError>
    ensures { Reported (O.log sink.old) (O.log sink.new) (watch_line number (codes "number") (number_text value)) result }
{
    let text = to_text(alloc, tree, &Value::Number(value))?;
    write_said(alloc, number, "number", text.as_str(), sink)
}

/// Writes the lines of a watched expression that gave a node-set: how many nodes it has, and the location of each.
fn write_nodes<O: Sink>(
    alloc: Global,
    tree: &Tree,
    number: usize,
    nodes: &[NodeId],
    sink: &mut O,
) -> Result<(), OutError>
    requires { IsNodeSet tree.now.nodes nodes.now }
    ensures { Reported (O.log sink.old) (O.log sink.new) (node_lines tree.now.nodes number nodes.now) result }
{
    tree.laws();
    write_count(alloc, number, nodes.len(), sink)?;
    let locator = Locator::new(alloc, tree, nodes)?;
    write_places(alloc, &locator, nodes, sink)
}

/// Writes the line that says how many nodes there are.
fn write_count<O: Sink>(
    alloc: Global,
    number: usize,
    count: usize,
    sink: &mut O,
) -> Result<(), OutError>
    ensures { Reported (O.log sink.old) (O.log sink.new) (count_line number count) result }
{
    let mut said = String::new(alloc);
    write!(said, "{number} nodes {count}")?;
    write_pi(sink, "watch", said.as_str())?;
    Ok(())
}

/// Writes the locations of nodes, one after another.
fn write_places<O: Sink>(
    alloc: Global,
    locator: &Locator<'_>,
    nodes: &[NodeId],
    sink: &mut O,
) -> Result<(), OutError>
    requires { (n : ℕ) → mem n nodes.now ≡ true → is_live locator.now n ≡ true }
    ensures { Reported (O.log sink.old) (O.log sink.new) (flat_map (at_line locator.now) nodes.now) result }
{
    for n in nodes {
        write_place(alloc, locator, *n, sink)?;
    }
    Ok(())
}

/// Writes the location of a node.
fn write_place<O: Sink>(
    alloc: Global,
    locator: &Locator<'_>,
    n: NodeId,
    sink: &mut O,
) -> Result<(), OutError>
    requires { is_live locator.now n ≡ true }
    ensures { Reported (O.log sink.old) (O.log sink.new) (at_line locator.now n) result }
{
    let location = locator.location(alloc, n)?;
    write_pi(sink, "at", location.as_str())?;
    Ok(())
}
