//! The nodes of which something is told, in document order.

ghost use Rattle.std.specs.Prelude.{IfOk};
ghost use Rattle.sch_compiled.specs.Findings.{ToldInOrder};

use doc_axes::into_document_order;
use doc_tree::{NodeList, Tree};
use sch_compiled::Findings;
use std::alloc::{AllocError, Global};

/// The nodes at which a rule fired or a fault was met, in document order.
///
/// Costs a look at a byte for each node and pattern. The numbers of the nodes of a document that was loaded are in document order:
/// to see that costs a comparison for each node that is told of; where edits put nodes between others, an ordering by comparisons.
pub(crate) fn told_in_order(
    alloc: Global,
    tree: &Tree,
    found: &Findings,
) -> Result<NodeList, AllocError>
    ensures { IfOk result (ToldInOrder tree.now.nodes found.now) }
{
    let told = found.told_nodes(alloc)?;
    into_document_order(alloc, tree, told)
}
