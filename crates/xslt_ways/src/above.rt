//! Which nodes stand above others, themselves included: on the way from the root to them.

ghost use Rattle.std.specs.Prelude.{◌≡◌, ◌||◌, ℕ, List, true, false, IfOk, IfSome};
ghost use Rattle.std.specs.List.{list_any};
ghost use Rattle.doc_tree.specs.Lists.{mem};
ghost use Rattle.doc_tree.specs.Walks.{above};
ghost use Rattle.xslt_ways.specs.Ways.{looks_there, OnOneWay};

use doc_tree::{NodeId, NodeList, Tree};
use std::alloc::{AllocError, Global};

/// Whether m is p or an ancestor of it. Costs the way up from p to m, or to the root.
pub(crate) fn is_above(tree: &Tree, m: NodeId, p: NodeId) -> bool
    ensures { result ≡ mem m (above tree.now.nodes p) }
{
    tree.laws();
    if m == p {
        return true;
    }
    match tree.parent(p) {
        Some(parent) => is_above(tree, m, parent),
        None => false,
    }
}

/// Whether some of the nodes is p or an ancestor of it. Costs the depth and the number of nodes where they come from
/// the root downwards on one way.
pub(crate) fn some_above(tree: &Tree, nodes: &[NodeId], p: NodeId) -> bool
    ensures { result ≡ list_any (λ m. mem m (above tree.now.nodes p)) nodes.now }
{
    let mut passed = None;
    for m in nodes {
        if is_above_past(tree, passed, *m, p) {
            return true;
        }
        passed = Some(*m);
    }
    false
}

/// `is_above` of m, where it is known of a node that it isn't above p: then no node below that one is.
fn is_above_past(tree: &Tree, passed: Option<NodeId>, m: NodeId, p: NodeId) -> bool
    requires { IfSome passed (λ a. mem a (above tree.now.nodes p) ≡ false) }
    ensures { result ≡ mem m (above tree.now.nodes p) }
{
    tree.laws();
    if let Some(a) = passed {
        if is_above(tree, a, m) {
            return false;
        }
    }
    is_above(tree, m, p)
}

/// The deepest of some nodes on one way, as a list of one node, or of none for none.
pub(crate) fn deepest_alone(
    alloc: Global,
    tree: &Tree,
    nodes: &[NodeId],
) -> Result<NodeList, AllocError>
    requires { OnOneWay tree.now.nodes nodes.now }
    ensures { IfOk result (λ v. (m : ℕ) →
        list_any (λ p. mem m (above tree.now.nodes p)) v ≡ list_any (λ p. mem m (above tree.now.nodes p)) nodes.now) }
{
    let mut list = NodeList::new(alloc);
    if let Some(node) = deepest(tree, nodes) {
        list.push(node)?;
    }
    Ok(list)
}

/// The deepest of some nodes on one way. Costs the depth where they come from the root downwards.
fn deepest(tree: &Tree, nodes: &[NodeId]) -> Option<NodeId>
    requires { OnOneWay tree.now.nodes nodes.now }
    ensures { (m : ℕ) →
        looks_there tree.now.nodes true m result ≡ list_any (λ p. mem m (above tree.now.nodes p)) nodes.now }
{
    let mut end = None;
    for p in nodes {
        end = Some(deeper(tree, end, *p));
    }
    end
}

/// The deeper of two nodes on one way, or the second where there is no first.
fn deeper(tree: &Tree, end: Option<NodeId>, p: NodeId) -> NodeId
    requires { IfSome end (λ a. (mem a (above tree.now.nodes p) || mem p (above tree.now.nodes a)) ≡ true) }
    ensures one { (nodes : List ℕ) →
        IfSome end (λ a. mem a nodes ≡ true) → mem p nodes ≡ true → mem result nodes ≡ true }
    ensures below { (m : ℕ) →
        mem m (above tree.now.nodes result) ≡ (looks_there tree.now.nodes true m end || mem m (above tree.now.nodes p)) }
{
    tree.laws();
    match end {
        Some(a) => { if is_above(tree, a, p) { p } else { a } }
        None => p,
    }
}
