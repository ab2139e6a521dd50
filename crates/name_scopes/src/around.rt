//! What stands around a node that comes under another.

ghost use Rattle.std.specs.Prelude.{◌≡◌, ◌++◌, OnOk};
ghost use Rattle.doc_tree.specs.Table.{decls_of};
ghost use Rattle.doc_tree.specs.Scope.{scope_at};

use crate::scope::Scope;
use doc_tree::{NodeId, Tree};
use std::alloc::AllocError;

/// Puts what is declared at a node and above it in scope.
///
/// Costs the declarations at the node and above it.
pub(crate) fn declare_above(scope: &mut Scope, tree: &Tree, n: NodeId) -> Result<(), AllocError>
    ensures { OnOk result (scope.new ≡ scope_at tree.now.nodes n ++ scope.old) }
{
    tree.laws();
    if let Some(parent) = tree.parent(n) {
        declare_above(scope, tree, parent)?;
    }
    declare_at(scope, tree, n)
}

/// Puts what a node declares in scope.
fn declare_at(scope: &mut Scope, tree: &Tree, n: NodeId) -> Result<(), AllocError>
    ensures { OnOk result (scope.new ≡ decls_of tree.now.nodes n ++ scope.old) }
{
    let mut left = tree.decl_count(n);
    while left > 0 {
        left -= 1;
        scope.declare(tree.decl_prefix(n, left), tree.decl_uri(n, left))?;
    }
    Ok(())
}
