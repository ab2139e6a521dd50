//! How many units are stale.

ghost use Rattle.std.specs.Prelude.{◌≡◌, ◌+◌, ◌*◌, ◌<◌, count_by, is_none, length};
ghost use Rattle.std.specs.List.{range_with_len};
ghost use Rattle.kept_reads.specs.Counting.{is_stale_node};
ghost use Rattle.kept_reads.specs.Reads.{reads_at};

use crate::kept_reads::KeptReads;
use doc_tree::{NodeId, Tree};

impl KeptReads {
    /// How many of the units at the first places are stale.
    ///
    /// Looks at each of them.
    pub fn stale_places(&self, count: u32) -> u32
        ensures { result ≡ count_by (λ place. is_none (reads_at self.now.entries place)) (range_with_len 0 count) }
    {
        let mut stale = 0;
        for place in 0..count {
            if self.is_stale(place as usize) {
                stale += 1;
            }
        }
        stale
    }

    /// How many live nodes are stale under a pattern, where each node has a row, with a place for each of so many patterns.
    ///
    /// Looks at each node that was made.
    pub fn stale_nodes(&self, tree: &Tree, patterns: u32, p: u32) -> u32
        requires { p < patterns }
        ensures { result ≡ count_by (is_stale_node tree.now.nodes self.now.entries patterns p) (range_with_len 0 (length tree.now.nodes)) }
    {
        let numbers = tree.numbers_made();
        let mut count = 0;
        for number in 0..numbers {
            if self.is_stale_node(tree, patterns, p, NodeId::from_number(number)) {
                count += 1;
            }
        }
        count
    }

    /// Whether a node lives and is stale under a pattern.
    fn is_stale_node(&self, tree: &Tree, patterns: u32, p: u32, n: NodeId) -> bool
        requires { p < patterns }
        ensures { result ≡ is_stale_node tree.now.nodes self.now.entries patterns p n }
    {
        tree.contains(n) && self.is_stale(place_in_row(n, patterns, p))
    }
}

/// Where in the row of a node what it read under a pattern stands, where each row has a place for each of so many patterns.
pub fn place_in_row(n: NodeId, patterns: u32, p: u32) -> usize
    ensures { result ≡ n * patterns + p }
{
    n.index() * patterns as usize + p as usize
}
