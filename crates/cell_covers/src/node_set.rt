//! Sets of nodes, and whether a way up meets them.

ghost use Rattle.std.specs.Prelude.{◌≡◌, ℕ};
ghost use Rattle.std.specs.List.Sorted.{IsNonDecreasing};
ghost use Rattle.doc_tree.specs.Lists.{mem};
ghost use Rattle.doc_tree.specs.Walks.{above, ancestors};
ghost use Rattle.cell_covers.specs.inner.Dropping.{meets};

use doc_tree::{NodeId, Tree};

/// Nodes by their numbers, of which none is less than the one before.
#[derive(Drop)]
pub(crate) struct NodeSet {
    numbers: Vec<usize>,
    ghost rising: { IsNonDecreasing numbers.items },
}

impl NodeSet {
    /// The set of the nodes with these numbers. Sorts them.
    pub(crate) fn of(mut numbers: Vec<usize>) -> NodeSet
        ensures { (n : ℕ) → mem n result.numbers.items ≡ mem n numbers.items }
    {
        numbers.sort_unstable();
        NodeSet { numbers }
    }

    /// Whether a node is in the set. Costs a logarithm of its size.
    fn contains(&self, n: NodeId) -> bool
        ensures { result ≡ mem n self.now.numbers.items }
    {
        self.numbers.binary_search(&n.index()).is_ok()
    }

    /// Whether the root is in the set: no number is less than its own.
    fn has_root(&self) -> bool
        ensures { result ≡ mem 0 self.now.numbers.items }
    {
        match self.numbers.first() {
            Some(number) => *number == 0,
            None => false,
        }
    }

    /// Whether the node or one above it is in the set. Where the root is, each live node has one above it.
    pub(crate) fn meets_above(&self, tree: &Tree, n: NodeId) -> bool
        ensures { result ≡ meets (above tree.now.nodes n) self.now.numbers.items }
    {
        tree.laws();
        if self.has_root() && tree.contains(n) {
            return true;
        }
        self.climbs_to(tree, n)
    }

    /// Whether a node above this one is in the set.
    pub(crate) fn meets_ancestors(&self, tree: &Tree, n: NodeId) -> bool
        ensures { result ≡ meets (ancestors tree.now.nodes n) self.now.numbers.items }
    {
        tree.laws();
        match tree.parent(n) {
            Some(parent) => self.meets_above(tree, parent),
            None => false,
        }
    }

    /// Whether the node or one above it is in the set, found on the way up.
    fn climbs_to(&self, tree: &Tree, n: NodeId) -> bool
        ensures { result ≡ meets (above tree.now.nodes n) self.now.numbers.items }
    {
        tree.laws();
        if self.contains(n) {
            return true;
        }
        match tree.parent(n) {
            Some(parent) => self.climbs_to(tree, parent),
            None => false,
        }
    }
}
