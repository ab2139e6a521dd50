//! From where a step of a path pattern looks for its candidates.

ghost use Rattle.std.specs.Prelude.{◌≡◌, ℕ, filter, IfOk};
ghost use Rattle.std.specs.List.{list_any};
ghost use Rattle.xslt_ways.specs.Ways.{looks_at, OnOneWay};

use crate::above::{deepest_alone, is_above, some_above};
use doc_tree::{NodeId, NodeList, Tree};
use std::alloc::{AllocError, Global};
use xp_tree::Join;

/// Whether a step looks for candidates at p from some of the nodes.
pub fn some_looks_at(tree: &Tree, join: Join, nodes: &[NodeId], p: NodeId) -> bool
    ensures { result ≡ list_any (λ m. looks_at tree.now.nodes join m p) nodes.now }
{
    match join {
        Join::DoubleSlash => some_above(tree, nodes, p),
        _ => nodes.contains(&p),
    }
}

/// Those of some nodes on one way that tell from where a step looks for candidates at one of them: after `//` the
/// deepest, else all.
pub fn ends_of(
    alloc: Global,
    tree: &Tree,
    join: Join,
    nodes: NodeList,
) -> Result<NodeList, AllocError>
    requires { OnOneWay tree.now.nodes nodes }
    ensures { IfOk result (λ v. (m : ℕ) →
        list_any (looks_at tree.now.nodes join m) v ≡ list_any (looks_at tree.now.nodes join m) nodes) }
{
    match join {
        Join::DoubleSlash => deepest_alone(alloc, tree, nodes.as_slice()),
        _ => Ok(nodes),
    }
}

/// Those nodes of the way from which a step looks for candidates at some of the nodes.
pub fn looking_at(
    alloc: Global,
    tree: &Tree,
    join: Join,
    way: &[NodeId],
    nodes: &[NodeId],
) -> Result<NodeList, AllocError>
    ensures { IfOk result (λ v. v ≡ filter (λ m. list_any (looks_at tree.now.nodes join m) nodes.now) way.now) }
{
    let mut found = NodeList::new(alloc);
    for m in way {
        let looks = looks_at_some(tree, join, *m, nodes);
        found.push_if(*m, looks)?;
    }
    Ok(found)
}

/// Whether a step from m looks for candidates at some of the nodes.
fn looks_at_some(tree: &Tree, join: Join, m: NodeId, nodes: &[NodeId]) -> bool
    ensures { result ≡ list_any (looks_at tree.now.nodes join m) nodes.now }
{
    for p in nodes {
        if looks_at(tree, join, m, *p) {
            return true;
        }
    }
    false
}
/// Whether a step from m looks for candidates at p.
fn looks_at(tree: &Tree, join: Join, m: NodeId, p: NodeId) -> bool
    ensures { result ≡ looks_at tree.now.nodes join m p }
{
    match join {
        Join::DoubleSlash => is_above(tree, m, p),
        _ => m == p,
    }
}
