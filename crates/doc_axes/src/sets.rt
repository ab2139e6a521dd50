//! Node-sets in document order.

ghost use Rattle.std.specs.Prelude.{◌≡◌, ◌∷◌, ◌++◌, ◌+◌, ◌<◌, true, length, IfOk, IfSome, MatchOption, OnOk};
ghost use Rattle.doc_tree.specs.Table.{is_live};
ghost use Rattle.doc_axes.specs.Sets.{in_order, IsNodeSet, union};

use doc_tree::{NodeId, NodeList, Tree};
use std::alloc::{AllocError, Global};

/// The live ones of some nodes in any order, put in document order and each once.
///
/// Where they come in order, the list itself is handed back: it costs a comparison for each node and takes no memory.
/// Otherwise it costs about k log k comparisons at most for k nodes, and at most k log k numbers are copied; a comparison
/// costs constant time.
pub fn into_document_order(
    alloc: Global,
    tree: &Tree,
    nodes: NodeList,
) -> Result<NodeList, AllocError>
    ensures { IfOk result (λ v. v ≡ in_order tree.now.nodes nodes) }
{
    if stand_in_order(tree, nodes.as_slice()) {
        return Ok(nodes);
    }
    ordered(alloc, tree, nodes.as_slice())
}

/// The union of two node-sets in document order, each node once (XPath 1.0, section 3.3).
///
/// Costs as much as `into_document_order` of both.
#[tactic(auto, using(crate::proofs::NodeSets::union_of_both))]
pub fn union_in_order(
    alloc: Global,
    tree: &Tree,
    a: &NodeList,
    b: &NodeList,
) -> Result<NodeList, AllocError>
    ensures { IfOk result (λ v. v ≡ union tree.now.nodes a.now b.now) }
{
    let mut both = NodeList::new(alloc);
    both.push_all(a.as_slice())?;
    both.push_all(b.as_slice())?;
    into_document_order(alloc, tree, both)
}

/// The live ones of some nodes in document order, each once: where they don't come in order, the two halves are ordered
/// apart, then joined.
#[tactic(auto, using(crate::proofs::NodeSets::in_order_set, crate::proofs::NodeSets::halves))]
fn ordered(alloc: Global, tree: &Tree, nodes: &[NodeId]) -> Result<NodeList, AllocError>
    ensures { IfOk result (λ v. v ≡ in_order tree.now.nodes nodes.now) }
{
    if nodes.len() < 2 {
        return few_ordered(alloc, tree, nodes);
    }
    if stand_in_order(tree, nodes) {
        return NodeList::copy_of(alloc, nodes);
    }
    tree.laws();
    let (front, back) = nodes.split_at(nodes.len() / 2);
    let a = ordered(alloc, tree, front)?;
    let b = ordered(alloc, tree, back)?;
    joined(alloc, tree, a, b)
}

/// Whether the nodes are a node-set: they live, and each stands before the next.
///
/// Costs a comparison for each node.
fn stand_in_order(tree: &Tree, nodes: &[NodeId]) -> bool
    ensures { result ≡ true → IsNodeSet tree.now.nodes nodes.now }
{
    tree.laws();
    match nodes.split_first() {
        Some((first, rest)) => tree.contains(*first) && follow_in_order(tree, *first, rest),
        None => true,
    }
}

/// Whether a live node stands before the first of some nodes, each of these lives, and stands before the next.
fn follow_in_order(tree: &Tree, first: NodeId, rest: &[NodeId]) -> bool
    requires { is_live tree.now.nodes first ≡ true }
    ensures { result ≡ true → IsNodeSet tree.now.nodes (first ∷ rest.now) }
{
    tree.laws();
    let mut last = first;
    for n in rest {
        if !tree.contains(*n) || !tree.is_before(last, *n) {
            return false;
        }
        last = *n;
    }
    true
}

/// `ordered` of at most one node.
fn few_ordered(alloc: Global, tree: &Tree, nodes: &[NodeId]) -> Result<NodeList, AllocError>
    requires { length nodes.now < 2 }
    ensures { IfOk result (λ v. v ≡ in_order tree.now.nodes nodes.now) }
{
    tree.laws();
    let mut list = NodeList::new(alloc);
    if let Some((n, _)) = nodes.split_first() {
        if tree.contains(*n) {
            list.push(*n)?;
        }
    }
    Ok(list)
}

/// The union of two node-sets: where all of one stands before all of the other, the one and then the other.
///
/// Costs two comparisons at most, and where the sets overlap those of `merged` besides.
fn joined(alloc: Global, tree: &Tree, a: NodeList, b: NodeList) -> Result<NodeList, AllocError>
    requires a_set { IsNodeSet tree.now.nodes a }
    requires b_set { IsNodeSet tree.now.nodes b }
    ensures { IfOk result (λ v. v ≡ union tree.now.nodes a b) }
{
    if all_before(tree, a.as_slice(), b.as_slice()) {
        appended(a, b)
    } else if all_before(tree, b.as_slice(), a.as_slice()) {
        appended(b, a)
    } else {
        merged(alloc, tree, a.as_slice(), b.as_slice())
    }
}

/// The first list and then the second.
fn appended(mut list: NodeList, more: NodeList) -> Result<NodeList, AllocError>
    ensures { IfOk result (λ v. v ≡ list ++ more) }
{
    list.push_all(more.as_slice())?;
    Ok(list)
}

/// Whether all of a node-set stands before all of another, as it does where one of them is empty. Costs one comparison.
fn all_before(tree: &Tree, a: &[NodeId], b: &[NodeId]) -> bool
    requires a_set { IsNodeSet tree.now.nodes a.now }
    requires b_set { IsNodeSet tree.now.nodes b.now }
    ensures { result ≡ true → union tree.now.nodes a.now b.now ≡ a.now ++ b.now }
{
    tree.laws();
    let Some((last, _)) = a.split_last() else {
        return true;
    };
    let Some((first, _)) = b.split_first() else {
        return true;
    };
    tree.is_before(*last, *first)
}

/// The union of two node-sets, joined node by node.
fn merged(alloc: Global, tree: &Tree, a: &[NodeId], b: &[NodeId]) -> Result<NodeList, AllocError>
    requires a_set { IsNodeSet tree.now.nodes a.now }
    requires b_set { IsNodeSet tree.now.nodes b.now }
    ensures { IfOk result (λ v. v ≡ union tree.now.nodes a.now b.now) }
{
    let mut list = NodeList::new(alloc);
    push_merged(tree, &mut list, a, b)?;
    Ok(list)
}

/// Puts the union of two node-sets at the end of the list: the earlier of their first nodes is taken, once where both are
/// one node, until one of the sets is used up.
///
/// Costs a comparison for each node that is taken until then.
fn push_merged(
    tree: &Tree,
    list: &mut NodeList,
    a: &[NodeId],
    b: &[NodeId],
) -> Result<(), AllocError>
    requires a_set { IsNodeSet tree.now.nodes a.now }
    requires b_set { IsNodeSet tree.now.nodes b.now }
    ensures { OnOk result (list.new ≡ list.old ++ union tree.now.nodes a.now b.now) }
{
    let mut rest_a = a;
    let mut rest_b = b;
    while let Some(next) = first_of_both(tree, rest_a, rest_b) {
        list.push(next.node)?;
        rest_a = next.behind_a;
        rest_b = next.behind_b;
    }
    list.push_all(rest_a)?;
    list.push_all(rest_b)?;
    Ok(())
}

/// The first node of the union of two node-sets, and what is left of each set behind it.
#[derive(Clone, Copy)]
struct FirstOfBoth<'n> {
    node: NodeId,
    behind_a: &'n [NodeId],
    behind_b: &'n [NodeId],
}

/// The first node of the union of two node-sets, None where one of them is used up. Costs a comparison.
fn first_of_both<'n>(tree: &Tree, a: &'n [NodeId], b: &'n [NodeId]) -> Option<FirstOfBoth<'n>>
    requires a_set { IsNodeSet tree.now.nodes a.now }
    requires b_set { IsNodeSet tree.now.nodes b.now }
    ensures first { MatchOption result (union tree.now.nodes a.now b.now ≡ a.now ++ b.now)
        (λ next. union tree.now.nodes a.now b.now ≡ next.node ∷ union tree.now.nodes next.behind_a.now next.behind_b.now) }
    ensures sets { IfSome result (λ next. IsNodeSet tree.now.nodes next.behind_a.now × IsNodeSet tree.now.nodes next.behind_b.now) }
    ensures fewer { IfSome result (λ next. length next.behind_a.now + length next.behind_b.now < length a.now + length b.now) }
{
    tree.laws();
    let (x, behind_x) = a.split_first()?;
    let (y, behind_y) = b.split_first()?;
    if *x == *y {
        Some(FirstOfBoth {
            node: *x,
            behind_a: behind_x,
            behind_b: behind_y,
        })
    } else if tree.is_before(*x, *y) {
        Some(FirstOfBoth {
            node: *x,
            behind_a: behind_x,
            behind_b: b,
        })
    } else {
        Some(FirstOfBoth {
            node: *y,
            behind_a: a,
            behind_b: behind_y,
        })
    }
}
