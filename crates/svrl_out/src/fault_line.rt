//! The line that stands in the place of a report where an evaluation faulted.

ghost use Rattle.std.specs.Prelude.{◌≡◌, ◌+◌, ◌++◌, true, IfOk, OnOk, string_bytes};
ghost use Rattle.xp_values.specs.FaultNames.{fault_name};
ghost use Rattle.svrl_out.specs.FaultLine.{IsFaultOf, fault_line, fault_text, let_fault, node_fault};
ghost use Rattle.svrl_out.specs.Report.{Reported};

use crate::report::OutError;
use doc_locations::location;
use doc_tree::{NodeId, Tree};
use pyx_write::write_pi;
use sch_base::Text;
use sch_compiled::{LetInForce, Plan, StateFault};
use sch_io::Sink;
use std::alloc::{AllocError, Global};
use std::fmt::Write;
use xp_values::EvalFault;

/// Writes the line of a fault: its kind, and the let or the node at which it came.
///
/// After an error a front of the line was written. For a fault at a node the time grows with the number of nodes.
pub fn write_fault<O: Sink>(
    alloc: Global,
    plan: &Plan,
    tree: &Tree,
    fault: &StateFault,
    sink: &mut O,
) -> Result<(), OutError>
    requires { IsFaultOf plan.now tree.now.nodes fault.now }
    ensures { Reported (O.log sink.old) (O.log sink.new) (fault_line plan.now tree.now.nodes fault.now) result }
{
    let text = fault_text(alloc, plan, tree, *fault)?;
    write_pi(sink, "fault", text.as_str())?;
    Ok(())
}

/// Which fault it is, and where.
fn fault_text(
    alloc: Global,
    plan: &Plan,
    tree: &Tree,
    fault: StateFault,
) -> Result<Text, AllocError>
    requires { IsFaultOf plan.now tree.now.nodes fault }
    ensures { IfOk result (λ text. text ≡ fault_text plan.now tree.now.nodes fault) }
{
    match fault {
        StateFault::InLet { slot, kind } => {
            let_text(alloc, kind, &plan.lets.as_slice()[slot as usize])
        }
        StateFault::AtNode {
            pattern,
            node,
            kind,
        } => {
            let location = location(alloc, tree, node)?;
            node_text(alloc, kind, pattern, location.as_str())
        }
    }
}

/// A fault in a let.
fn let_text(alloc: Global, kind: EvalFault, held: &LetInForce) -> Result<Text, AllocError>
    ensures { IfOk result (λ text. text ≡ let_fault (fault_name kind) held.now.name held.now.pattern) }
{
    let mut text = String::new(alloc);
    push_let(&mut text, kind.name(), held.name.as_str(), held.pattern)?;
    Ok(Text::from(text))
}

/// Puts what is said of a let of that name at the end of the text.
fn push_let(
    text: &mut String,
    kind: &str,
    name: &str,
    pattern: Option<u32>,
) -> Result<(), AllocError>
    ensures { OnOk result (string_bytes text.new ≡ string_bytes text.old ++ let_fault kind.now name.now pattern) }
{
    match pattern {
        None => write!(text, "{kind} let {name}")?,
        Some(p) => {
            let number = number_of(p);
            write!(text, "{kind} pattern {number} let {name}")?
        }
    }
    Ok(())
}

/// A fault under a pattern, counted from 0, at a location.
fn node_text(alloc: Global, kind: EvalFault, p: u32, location: &str) -> Result<Text, AllocError>
    ensures { IfOk result (λ text. text ≡ node_fault (fault_name kind) p location.now) }
{
    let mut text = String::new(alloc);
    push_node(&mut text, kind.name(), p, location)?;
    Ok(Text::from(text))
}

/// Puts what is said of a pattern, counted from 0, and a location at the end of the text.
fn push_node(text: &mut String, kind: &str, p: u32, location: &str) -> Result<(), AllocError>
    ensures { OnOk result (string_bytes text.new ≡ string_bytes text.old ++ node_fault kind.now p location.now) }
{
    let number = number_of(p);
    write!(text, "{kind} pattern {number} at {location}")?;
    Ok(())
}

/// The number of a pattern that is counted from 0, counted from 1.
fn number_of(p: u32) -> u64
    ensures { result ≡ p + 1 }
{
    u64::from(p) + 1
}
