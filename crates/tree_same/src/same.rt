//! Whether two trees are the same but for the numbers of their nodes.

ghost use Rattle.std.specs.Prelude.{◌≡◌, ◌↔◌, true};
ghost use Rattle.doc_tree.specs.SameTree.{SameTree};
ghost use Rattle.tree_same.specs.Alike.{AlikeAttributes, AlikeBelow};

use crate::nodes::same_content;
use doc_tree::{NodeId, Tree, same_lines_same_tree};
use tree_iso::{renumbered_trees_hang, same_trees_are_renumbered};

/// Whether two trees are the same but for the numbers of their nodes: their nodes are as many and agree one by one in
/// document order, in kind, name with prefix, declarations and text, and in the positions of parent, kids and attributes.
///
/// It takes no memory, and costs the comparison of the texts up to the first difference.
pub fn same_tree(a: &Tree, b: &Tree) -> bool
    ensures { (result ≡ true) ↔ SameTree a.now.nodes b.now.nodes }
{
    a.laws();
    b.laws();
    same_lines_same_tree();
    same_trees_are_renumbered();
    renumbered_trees_hang();
    same_below(a, a.root(), b, b.root())
}

/// Whether two nodes and all below them are the same but for their numbers.
fn same_below(a: &Tree, n: NodeId, b: &Tree, m: NodeId) -> bool
    ensures { AlikeBelow a.now.nodes b.now.nodes n m result }
{
    a.laws();
    b.laws();
    if !same_content(a, n, b, m) || !same_attributes(a, n, b, m) {
        return false;
    }
    let kids = a.kids(n);
    let others = b.kids(m);
    if kids.len() != others.len() {
        return false;
    }
    for i in 0..kids.len() {
        if !same_below(a, kids[i], b, others[i]) {
            return false;
        }
    }
    true
}

/// Whether two nodes have the same attributes but for their numbers, in the same order.
fn same_attributes(a: &Tree, n: NodeId, b: &Tree, m: NodeId) -> bool
    ensures { AlikeAttributes a.now.nodes b.now.nodes n m result }
{
    let attributes = a.attrs(n);
    let others = b.attrs(m);
    if attributes.len() != others.len() {
        return false;
    }
    for i in 0..attributes.len() {
        if !same_content(a, attributes[i], b, others[i]) {
            return false;
        }
    }
    true
}
