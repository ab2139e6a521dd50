//! Which of two nodes comes first in document order, and how deep a node stands.

ghost use Rattle.std.specs.Prelude.{◌≡◌, true, length};
ghost use Rattle.doc_table.specs.Order.{is_before};
ghost use Rattle.doc_table.specs.Table.{is_live};
ghost use Rattle.doc_table.specs.Walks.{ancestors};

use crate::tree::Tree;
use doc_table::NodeId;

impl Tree {
    /// Whether `a` stands before `b` in document order (XPath 1.0, section 5).
    ///
    /// Compares two numbers, and takes no memory.
    pub fn is_before(&self, a: NodeId, b: NodeId) -> bool
        requires a_lives { is_live self.now.nodes a ≡ true }
        requires b_lives { is_live self.now.nodes b ≡ true }
        ensures { result ≡ is_before self.now.nodes a b }
    {
        self.bare.is_before(a, b)
    }

    /// How many ancestors a live node has.
    pub fn depth(&self, n: NodeId) -> u32
        requires { is_live self.now.nodes n ≡ true }
        ensures { result ≡ length (ancestors self.now.nodes n) }
    {
        self.bare.depth(n)
    }
}
