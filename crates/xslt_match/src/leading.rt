//! Where the steps of a path pattern lead, their predicates left out.
//!
//! A step leads downwards, so that the nodes of a chain to a node stand on the way from the root to it: only these are
//! looked at.

ghost use Rattle.std.specs.Prelude.{◌≡◌, ◌++◌, ◌∷◌, [], ℕ, true, false, Some};
ghost use Rattle.std.specs.Prelude.{filter, map, IfOk, OnOk};
ghost use Rattle.std.specs.List.{filter_map, list_any};
ghost use Rattle.doc_tree.specs.Lists.{mem};
ghost use Rattle.doc_tree.specs.Table.{is_live};
ghost use Rattle.doc_tree.specs.Walks.{above, order};
ghost use Rattle.doc_axes.specs.Axes.{backwards, is_attribute_kind};
ghost use Rattle.xp_typed_tree.specs.TypedView.{pattern_step_seen};
ghost use Rattle.xp_typed_tree.specs.WellTyped.{is_pattern_axis, PatternStepsTyped};
ghost use Rattle.xslt_match.specs.inner.Leading.{is_beside, fits, holder, leading_to};
ghost use Rattle.xslt_match.specs.Matching.{leads, reaches, standing, starts};
ghost use Rattle.xslt_ways.specs.Ways.{OnOneWay};

use crate::matching::Matcher;
use doc_axes::passes;
use doc_tree::{Axis, Kind, NodeId, NodeList, Tree};
use std::alloc::{AllocError, Global};
use xp_eval::Caller;
use xp_typed_tree::TypedPatternStep;
use xslt_ways::{ends_of, looking_at, some_looks_at};

/// The way from the root to a live node: its ancestors and itself, the root first. Costs the depth.
#[tactic(auto, using(crate::proofs::StepsAlong::way_is))]
pub(crate) fn way_to(alloc: Global, tree: &Tree, n: NodeId) -> Result<NodeList, AllocError>
    requires { is_live tree.now.nodes n ≡ true }
    ensures { IfOk result (λ way. way ≡ starts tree.now.nodes false n) }
{
    tree.laws();
    let mut way = NodeList::new(alloc);
    push_way(tree, &mut way, n)?;
    Ok(way)
}

/// Puts the node's ancestors, the farthest first, and the node at the end of the list.
#[tactic(auto, using(crate::proofs::StepsAlong::up_way, crate::proofs::StepsAlong::root_way))]
fn push_way(tree: &Tree, way: &mut NodeList, n: NodeId) -> Result<(), AllocError>
    ensures { OnOk result (way.new ≡ way.old ++ backwards (above tree.now.nodes n)) }
{
    tree.laws();
    if let Some(parent) = tree.parent(n) {
        push_way(tree, way, parent)?;
    }
    way.push(n)?;
    Ok(())
}

/// Where chains of a path to a live node begin: at the root, which the way begins with, or anywhere on the way.
pub(crate) fn starts<'a>(tree: &Tree, from_root: bool, way: &'a [NodeId], n: NodeId) -> &'a [NodeId]
    requires lives { is_live tree.now.nodes n ≡ true }
    requires way { way.now ≡ starts tree.now.nodes false n }
    ensures { result.now ≡ starts tree.now.nodes from_root n }
{
    tree.laws();
    if from_root && way.len() > 0 {
        way.split_at(1).0
    } else {
        way
    }
}

/// Those of some nodes that a step leads to from some other nodes.
///
/// Costs for each node that passes the node test as much as there are nodes to be led from, and after `//` the depth
/// besides, where these come from the root downwards on one way.
pub(crate) fn led_to(
    alloc: Global,
    tree: &Tree,
    step: &TypedPatternStep,
    nodes: &[NodeId],
    among: &[NodeId],
) -> Result<NodeList, AllocError>
    requires { is_pattern_axis (pattern_step_seen step.now).axis ≡ true }
    ensures { IfOk result (λ v.
        v ≡ filter (λ k. list_any (λ m. leads tree.now.nodes (pattern_step_seen step.now) m k) nodes.now) among.now) }
{
    let mut found = NodeList::new(alloc);
    for k in among {
        let leads = is_led_to(tree, step, nodes, *k);
        found.push_if(*k, leads)?;
    }
    Ok(found)
}

/// Whether a step leads to the node from some of the nodes.
pub(crate) fn is_led_to(tree: &Tree, step: &TypedPatternStep, nodes: &[NodeId], k: NodeId) -> bool
    requires { is_pattern_axis (pattern_step_seen step.now).axis ≡ true }
    ensures { result ≡ list_any (λ m. leads tree.now.nodes (pattern_step_seen step.now) m k) nodes.now }
{
    tree.laws();
    match holder(tree, step, k) {
        Some(parent) => some_looks_at(tree, step.join, nodes, parent),
        None => false,
    }
}

/// The node at which a node is a candidate of the step.
pub(crate) fn holder(tree: &Tree, step: &TypedPatternStep, k: NodeId) -> Option<NodeId>
    ensures { result ≡ holder tree.now.nodes (pattern_step_seen step.now) k }
{
    tree.laws();
    let parent = tree.parent(k)?;
    if fits(tree, step, k) {
        Some(parent)
    } else {
        None
    }
}

/// Whether a live node is a candidate of the step at its parent.
fn fits(tree: &Tree, step: &TypedPatternStep, k: NodeId) -> bool
    requires { is_live tree.now.nodes k ≡ true }
    ensures { result ≡ fits tree.now.nodes (pattern_step_seen step.now) k }
{
    let axis = step.step.axis;
    is_beside(axis, tree.kind(k)) && passes(tree, k, axis, &step.step.test)
}

/// Whether nodes of the kind stand on the axis, attributes on the attribute axis and the others on the child axis.
fn is_beside(axis: Axis, kind: Kind) -> bool
    ensures { result ≡ is_beside axis (is_attribute_kind (Some kind)) }
{
    match axis {
        Axis::Attribute => kind == Kind::Attribute,
        _ => kind != Kind::Attribute,
    }
}

impl Matcher<'_> {
    /// The nodes that stand at a step in some chain to the node, by those that stand before it: the step leads to them, and the
    /// later steps lead on to it. Costs for each of the steps the square of the way's length at most.
    pub(crate) fn standing(
        &self,
        step: &TypedPatternStep,
        later: &[TypedPatternStep],
        nodes: &[NodeId],
        way: &[NodeId],
    ) -> Result<NodeList, AllocError>
        requires axis { is_pattern_axis (pattern_step_seen step.now).axis ≡ true }
        requires later { PatternStepsTyped (map pattern_step_seen later.now) }
        requires lives { is_live self.now.evaluator.caller.tree.now.nodes self.now.node ≡ true }
        requires way { way.now ≡ starts self.now.evaluator.caller.tree.now.nodes false self.now.node }
        ensures is { IfOk result (λ v.
            v ≡ standing self.now.evaluator.caller.tree.now.nodes (pattern_step_seen step.now) (map pattern_step_seen later.now) nodes.now self.now.node) }
        ensures live { IfOk result (λ v. (k : ℕ) → mem k v ≡ true → is_live self.now.evaluator.caller.tree.now.nodes k ≡ true) }
    {
        let Caller { alloc, tree } = self.evaluator.caller;
        tree.laws();
        let among = origins(alloc, tree, later, way, self.node)?;
        led_to(alloc, tree, step, nodes, among.as_slice())
    }
}

/// The nodes from which steps lead on to a live node, found from the last step backwards. Costs for each step the
/// square of the way's length at most.
fn origins(
    alloc: Global,
    tree: &Tree,
    steps: &[TypedPatternStep],
    way: &[NodeId],
    n: NodeId,
) -> Result<NodeList, AllocError>
    requires typed { PatternStepsTyped (map pattern_step_seen steps.now) }
    requires lives { is_live tree.now.nodes n ≡ true }
    requires way { way.now ≡ starts tree.now.nodes false n }
    ensures { IfOk result (λ v.
        v ≡ filter (λ k. reaches tree.now.nodes (map pattern_step_seen steps.now) (k ∷ []) n) (order tree.now.nodes)) }
{
    tree.laws();
    let mut nodes = NodeList::of_one(alloc, n)?;
    let mut rest = steps;
    while let Some((last, earlier)) = rest.split_last() {
        nodes = leading_to(alloc, tree, last, nodes.as_slice(), way)?;
        rest = earlier;
    }
    Ok(nodes)
}

/// The nodes of the way from which a step leads to some nodes.
fn leading_to(
    alloc: Global,
    tree: &Tree,
    step: &TypedPatternStep,
    nodes: &[NodeId],
    way: &[NodeId],
) -> Result<NodeList, AllocError>
    requires { OnOneWay tree.now.nodes (filter_map (holder tree.now.nodes (pattern_step_seen step.now)) nodes.now) }
    ensures { IfOk result (λ v. v ≡ leading_to tree.now.nodes (pattern_step_seen step.now) nodes.now way.now) }
{
    let parents = holders(alloc, tree, step, nodes)?;
    let ends = ends_of(alloc, tree, step.join, parents)?;
    looking_at(alloc, tree, step.join, way, ends.as_slice())
}

/// The nodes at which some of the nodes are candidates of the step.
fn holders(
    alloc: Global,
    tree: &Tree,
    step: &TypedPatternStep,
    nodes: &[NodeId],
) -> Result<NodeList, AllocError>
    ensures { IfOk result (λ v. v ≡ filter_map (holder tree.now.nodes (pattern_step_seen step.now)) nodes.now) }
{
    let mut found = NodeList::new(alloc);
    for k in nodes {
        if let Some(parent) = holder(tree, step, *k) {
            found.push(parent)?;
        }
    }
    Ok(found)
}
