//! Ranks: numbers that rise along document order, so that a comparison of two tells which node comes first.

ghost use Rattle.std.specs.Prelude.{◌≡◌, ◌*◌, None, length, slice_index_or, true};
ghost use Rattle.doc_table.specs.Order.{is_before};
ghost use Rattle.doc_table.specs.Table.{is_live};
ghost use Rattle.doc_table.specs.inner.Kept.{rank_at};
ghost use Rattle.doc_table.specs.inner.Parts.{IsSound, table_of};

use crate::bare::Bare;
use crate::ids::NodeId;

/// The distance of the ranks of nodes put one behind the other. A node's rank is less than this for each number made.
pub const RANK_STEP: u64 = 4_294_967_296;

impl Bare {
    /// The rank of a node, 0 where it was deleted or never made.
    pub fn rank(&self, n: NodeId) -> u64
        ensures { result ≡ rank_at (slice_index_or self.now.nodes n None) }
    {
        match self.node(n) {
            Some(node) => node.rank,
            None => 0,
        }
    }

    /// The rank of a node put last in document order.
    pub fn next_rank(&self) -> u64
        requires { IsSound self.now }
        ensures { result ≡ RANK_STEP * length (table_of self.now) }
    {
        RANK_STEP * u64::from(self.numbers_made())
    }

    /// Whether `a` stands before `b` in document order (XPath 1.0, section 5). Compares two ranks.
    pub fn is_before(&self, a: NodeId, b: NodeId) -> bool
        requires sound { IsSound self.now }
        requires a_lives { is_live (table_of self.now) a ≡ true }
        requires b_lives { is_live (table_of self.now) b ≡ true }
        ensures { result ≡ is_before (table_of self.now) a b }
    {
        self.rank(a) < self.rank(b)
    }
}
