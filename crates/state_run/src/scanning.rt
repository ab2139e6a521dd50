//! What all units came to.

ghost use Rattle.std.specs.Prelude.{◌≡◌, ◌<◌, ◌≤◌, IfOk, Some, length};
ghost use Rattle.sch_compiled.specs.Findings.{ToldInOrder};
ghost use Rattle.sch_compiled.specs.Soundness.{IsCounted};
ghost use Rattle.sch_units.specs.Validity.{first_let_fault, has_finding, let_fault, pair_fault};
ghost use Rattle.xp_outcome.specs.Slots.{in_slot};
ghost use Rattle.state_run.specs.Evaluated.{Evaluates};
ghost use Rattle.state_run.specs.Outcomes.{Holds, LetsHold};
ghost use Rattle.state_run.specs.inner.Scanning.{came_to, fault_of_node, node_finds, nodes_came_to, patterns_came_to};

use doc_tree::{NodeId, Tree};
use rule_run::Lets;
use sch_compiled::{Findings, Outcome, Plan, StateFault};
use sch_units::lets_stand_in_order;
use std::alloc::{AllocError, Global};
use xp_values::{EvalFault, Value};

/// What all units came to.
#[derive(Clone, Copy)]
pub enum Evaluated {
    /// No unit has a fault; whether one has a finding.
    Whole { finds: bool },
    /// The first fault.
    Faulted(StateFault),
}

/// What all units came to: lets in force by slot, then nodes pattern by pattern in document order.
///
/// Looks at the outcomes of the nodes at which a rule fired or a fault was met, up to the first fault; the memory grows with these
/// nodes.
pub fn came_to(
    alloc: Global,
    plan: &Plan,
    tree: &Tree,
    lets: &Lets,
    found: &Findings,
) -> Result<Evaluated, AllocError>
    requires counted { IsCounted plan.now }
    requires lets { LetsHold plan.now tree.now.nodes lets.now }
    requires found { Holds plan.now tree.now.nodes found.now }
    ensures { IfOk result (Evaluates plan.now tree.now.nodes) }
{
    let nodes = found.told_in_order(alloc, tree)?;
    Ok(came_to_among(plan, tree, lets, found, nodes.as_slice()))
}

/// The same for a caller who has the nodes of which something is told. Takes no memory.
pub fn came_to_among(
    plan: &Plan,
    tree: &Tree,
    lets: &Lets,
    found: &Findings,
    nodes: &[NodeId],
) -> Evaluated
    requires counted { IsCounted plan.now }
    requires lets { LetsHold plan.now tree.now.nodes lets.now }
    requires found { Holds plan.now tree.now.nodes found.now }
    requires told { ToldInOrder tree.now.nodes found.now nodes.now }
    ensures { Evaluates plan.now tree.now.nodes result }
{
    tree.laws();
    lets_stand_in_order();
    if let Some(fault) = first_let_fault(lets, plan.let_count()) {
        return Evaluated::Faulted(fault);
    }
    scan_all(found, nodes)
}

/// The first fault among the first lets, by slot; behind them no let is set.
fn first_let_fault(lets: &Lets, count: u32) -> Option<StateFault>
    requires { length lets.now ≤ count }
    ensures { result ≡ first_let_fault 0 lets.now }
{
    for slot in 0..count {
        if let Some(fault) = fault_in_slot(lets, slot) {
            return Some(fault);
        }
    }
    None
}

/// The fault of the let in a slot.
fn fault_in_slot(lets: &Lets, slot: u32) -> Option<StateFault>
    ensures { result ≡ let_fault slot (in_slot lets.now slot) }
{
    match lets.get(slot) {
        Some(value) => let_fault(slot, value),
        None => None,
    }
}

/// The fault of a let.
fn let_fault(slot: u32, value: &Result<Value, EvalFault>) -> Option<StateFault>
    ensures { result ≡ let_fault slot (Some value.now) }
{
    match value {
        Ok(_) => None,
        Err(kind) => Some(StateFault::InLet { slot, kind: *kind }),
    }
}

/// What nodes came to under all patterns.
fn scan_all(found: &Findings, nodes: &[NodeId]) -> Evaluated
    ensures { result ≡ patterns_came_to found.now nodes.now found.now.patterns }
{
    scan_patterns(found, nodes, found.patterns())
}

/// What nodes came to under the first patterns.
fn scan_patterns(found: &Findings, nodes: &[NodeId], patterns: u32) -> Evaluated
    requires { patterns ≤ found.now.patterns }
    ensures { result ≡ patterns_came_to found.now nodes.now patterns }
{
    let mut any = false;
    for p in 0..patterns {
        match scan_nodes(found, nodes, p) {
            Evaluated::Whole { finds } => any = any || finds,
            Evaluated::Faulted(fault) => return Evaluated::Faulted(fault),
        }
    }
    Evaluated::Whole { finds: any }
}

/// What nodes came to under a pattern.
fn scan_nodes(found: &Findings, nodes: &[NodeId], p: u32) -> Evaluated
    requires { p < found.now.patterns }
    ensures { result ≡ nodes_came_to found.now nodes.now p }
{
    let mut any = false;
    for n in nodes {
        match scan_node(found, p, *n) {
            Evaluated::Whole { finds } => any = any || finds,
            Evaluated::Faulted(fault) => return Evaluated::Faulted(fault),
        }
    }
    Evaluated::Whole { finds: any }
}

/// What a node came to under a pattern.
fn scan_node(found: &Findings, p: u32, n: NodeId) -> Evaluated
    requires { p < found.now.patterns }
    ensures { result ≡ came_to (fault_of_node found.now p n) (node_finds found.now p n) }
{
    match found.get(p, n) {
        Some(outcome) => of_outcome(p, n, outcome),
        None => Evaluated::Whole { finds: false },
    }
}

/// What a node with an outcome came to under a pattern.
fn of_outcome(p: u32, n: NodeId, outcome: &Outcome) -> Evaluated
    ensures { result ≡ came_to (pair_fault p n outcome.now) (has_finding outcome.now) }
{
    match outcome {
        Outcome::NoRule => Evaluated::Whole { finds: false },
        Outcome::Fired { findings, .. } => Evaluated::Whole {
            finds: !findings.is_empty(),
        },
        Outcome::Fault { kind } => Evaluated::Faulted(StateFault::AtNode {
            pattern: p,
            node: n,
            kind: *kind,
        }),
    }
}
