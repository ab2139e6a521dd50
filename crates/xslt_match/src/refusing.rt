//! Which nodes a pattern refuses by their kinds and names alone (XSLT 1.0, section 5.2).

ghost use Rattle.std.specs.Prelude.{◌≡◌, ℕ, Some, true, IfSome, option_map};
ghost use Rattle.doc_tree.specs.Table.{is_live, name_of, numbered};
ghost use Rattle.xp_meaning.specs.Evaluation.{Lets};
ghost use Rattle.xp_typed_tree.specs.declared.expr.TypedStep.{out-TypedStep};
ghost use Rattle.xp_typed_tree.specs.TypedView.{path_seen, paths_seen};
ghost use Rattle.xslt_match.specs.Refusing.{IsOfClass, Refuses};
ghost use Rattle.xslt_match.specs.inner.Refused.{PathRefuses, PathsRefuse, looks_at_kind};

use crate::names::all_named;
use doc_axes::{is_principal, passes};
use doc_tree::{Kind, NodeId, NodeTest, Tree};
use xp_eval::is_by_name;
use xp_typed_tree::{TypedPath, TypedPattern, TypedStep};

/// A class of a tree's nodes: the elements of one name, or all nodes of another kind.
#[derive(Clone, Copy)]
pub struct NodeClass {
    pub kind: Kind,
    /// The number of the name in its tree, of elements.
    pub name: Option<usize>,
}

impl NodeClass {
    /// The class of a live node.
    pub fn of(tree: &Tree, n: NodeId) -> NodeClass
        requires { is_live tree.now.nodes n ≡ true }
        ensures { IsOfClass tree.now result n }
    {
        let kind = tree.kind(n);
        let name = match kind {
            Kind::Element => number_of(tree, n),
            _ => None,
        };
        NodeClass { kind, name }
    }

    /// Whether the other class is this one.
    pub fn is(&self, other: NodeClass) -> bool
        ensures { result ≡ true → self.now ≡ other }
    {
        self.kind == other.kind && self.name == other.name
    }
}

/// The number of a node's name, where it has one.
fn number_of(tree: &Tree, n: NodeId) -> Option<usize>
    ensures { option_map (numbered tree.now.names) result ≡ name_of tree.now.nodes n }
{
    Some(tree.name(n)?.index())
}

/// Where a pattern refuses a live node by its kind and name alone, and so all nodes of its class: the names of how many nodes are read for that, from
/// each of these upwards.
///
/// Costs the number of the pattern's steps.
pub fn refused_levels(tree: &Tree, pattern: &TypedPattern, n: NodeId) -> Option<usize>
    requires { is_live tree.now.nodes n ≡ true }
    ensures { IfSome result (λ levels. (L : Lets) (class : NodeClass) (m : ℕ) → IsOfClass tree.now class n → IsOfClass tree.now class m →
        Refuses tree.now.nodes L pattern.now levels m) }
{
    levels_of_paths(tree, pattern.paths(), n)
}

/// The same for paths, all of which refuse the node.
fn levels_of_paths(tree: &Tree, paths: &[TypedPath], n: NodeId) -> Option<usize>
    requires { is_live tree.now.nodes n ≡ true }
    ensures { IfSome result (PathsRefuse tree.now (paths_seen paths.now) n) }
{
    let mut levels: usize = 0;
    let mut left = paths.len();
    while left > 0 {
        left -= 1;
        let here = levels_of_path(tree, &paths[left], n)?;
        levels = levels.max(here);
    }
    Some(levels)
}

/// The same for one path, which ends at a test that refuses the node. Either that is its only step, and looks at the node's kind alone; or each of its
/// steps looks at the name of an element, at one place.
fn levels_of_path(tree: &Tree, path: &TypedPath, n: NodeId) -> Option<usize>
    requires { is_live tree.now.nodes n ≡ true }
    ensures { IfSome result (PathRefuses tree.now (path_seen path.now) n) }
{
    let (last, before) = path.steps.split_last()?;
    let step = &last.step;
    if passes(tree, n, step.axis, &step.test) {
        return None;
    }
    if before.is_empty() && looks_at_kind(step, tree.kind(n)) {
        return Some(0);
    }
    if all_named(&path.steps) {
        Some(path.steps.len())
    } else {
        None
    }
}

/// Whether a step's test looks at nothing but the kind of nodes of a kind.
fn looks_at_kind(step: &TypedStep, kind: Kind) -> bool
    ensures { result ≡ looks_at_kind (out-TypedStep step.now).axis (out-TypedStep step.now).test (Some kind) }
{
    if is_by_name(&step.test) {
        !is_principal(step.axis, kind)
    } else {
        !matches!(step.test, NodeTest::PiNamed { .. })
    }
}
