//! Nodes that are looked up.

ghost use Rattle.std.specs.Prelude.{◌≡◌, ℕ, IfOk};
ghost use Rattle.doc_tree.specs.Lists.{mem};

use doc_tree::NodeId;
use indexmap::IndexSet;
use std::alloc::{AllocError, Global};
use std::marker::Model;

/// Some nodes, seen by contracts as a list. A look-up takes time that doesn't depend on how many there are.
#[derive(Drop)]
pub(crate) struct NodeIndex {
    numbers: IndexSet<usize>,
}

impl Model for NodeIndex {
    ghost use Rattle.std.specs.Prelude.{List, ℕ};

    ghost Value = { List ℕ };

    ghost view = { λ index. index.numbers.keys };
}

impl NodeIndex {
    /// The nodes of a list.
    pub(crate) fn of(alloc: Global, nodes: &[NodeId]) -> Result<NodeIndex, AllocError>
        ensures { IfOk result (λ index. (k : ℕ) → mem k index ≡ mem k nodes.now) }
    {
        let mut numbers = IndexSet::new(alloc);
        for n in nodes {
            numbers.insert(n.index())?;
        }
        Ok(NodeIndex { numbers })
    }

    /// Whether a node is among them.
    pub(crate) fn has(&self, n: NodeId) -> bool
        ensures { result ≡ mem n self.now }
    {
        self.numbers.contains(&n.index())
    }
}
