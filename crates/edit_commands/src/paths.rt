//! The node that a path names.

ghost use Rattle.std.specs.Prelude.{◌≡◌, ◌-◌, ◌≤◌, slice_get};
ghost use Rattle.edit_script.specs.WellFormed.{IsPath};
ghost use Rattle.edit_commands.specs.Paths.{kids_of_kind, node_named};

use doc_tree::{NodeId, Tree};
use edit_script::PathStep;

/// The node that a path names; None where it names none.
///
/// Costs the kids of the nodes along the path.
pub fn node_named(tree: &Tree, path: &[PathStep]) -> Option<NodeId>
    requires { IsPath path.now }
    ensures { result ≡ node_named tree.now.nodes path.now }
{
    let mut node = tree.root();
    for step in path {
        match kid_at(tree, node, *step) {
            Some(kid) => node = kid,
            None => return None,
        }
    }
    Some(node)
}

/// The kid of a node to which a step leads.
fn kid_at(tree: &Tree, node: NodeId, step: PathStep) -> Option<NodeId>
    requires { 1 ≤ step.index }
    ensures { result ≡ slice_get (kids_of_kind tree.now.nodes node step.kind) (step.index - 1) }
{
    let mut left = step.index - 1;
    for kid in tree.kids(node) {
        if tree.is_kind(*kid, step.kind) {
            if left == 0 {
                return Some(*kid);
            }
            left -= 1;
        }
    }
    None
}
