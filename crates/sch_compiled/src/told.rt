//! The nodes of a tree of which something is told, in document order.

ghost use Rattle.std.specs.Prelude.{IfOk};
ghost use Rattle.sch_compiled.specs.Findings.{ToldInOrder};

use crate::findings::Findings;
use doc_axes::into_document_order;
use doc_tree::{NodeList, Tree};
use std::alloc::{AllocError, Global};

/// One node in so many is few enough to be put in order by comparisons; for more the tree is walked.
const FEW: usize = 8;

impl Findings {
    /// Nodes of the tree in document order, among them all at which a rule fired or a fault was met.
    ///
    /// Costs a look at a byte for each node and pattern, and an ordering of the nodes that are told of; at most it costs a
    /// walk through the tree.
    pub fn told_in_order(&self, alloc: Global, tree: &Tree) -> Result<NodeList, AllocError>
        ensures { IfOk result (ToldInOrder tree.now.nodes self.now) }
    {
        let told = self.told_nodes(alloc)?;
        if told.len() > tree.live_nodes() as usize / FEW {
            return tree.nodes_in_order(alloc);
        }
        into_document_order(alloc, tree, told)
    }
}
