//! What a tree has room for.

ghost use Rattle.std.specs.Prelude.{◌≡◌, ◌+◌, length, nat_lt};
ghost use Rattle.doc_table.specs.Walks.{order, text_bytes};
ghost use Rattle.doc_table.specs.declared.limits.TheConstants.{MAX_LIVE_NODES, MAX_LIVE_TEXT_BYTES, MAX_NODE_NUMBERS};

use crate::tree::Tree;
use doc_table::{MAX_LIVE_NODES, MAX_LIVE_TEXT_BYTES, MAX_NODE_NUMBERS};

impl Tree {
    /// How many node numbers were ever made, the numbers of deleted nodes among them.
    pub fn numbers_made(&self) -> u32
        ensures { result ≡ length self.now.nodes }
    {
        self.bare.numbers_made()
    }

    /// How many node numbers can still be made; the number of a deleted node is never used again.
    pub fn numbers_left(&self) -> u32
        ensures { result + length self.now.nodes ≡ MAX_NODE_NUMBERS }
    {
        self.laws();
        MAX_NODE_NUMBERS - self.numbers_made()
    }

    /// Whether more nodes than may would live after so many more.
    pub(crate) fn has_too_many_nodes(&self, more: u32) -> bool
        ensures { result ≡ nat_lt MAX_LIVE_NODES (length (order self.now.nodes) + more) }
    {
        self.laws();
        more > MAX_LIVE_NODES - self.live_nodes()
    }

    /// Whether more nodes than the pair cap allows would live after so many more.
    pub(crate) fn has_too_many_pairs(&self, more: u32) -> bool
        ensures { result ≡ nat_lt self.now.pair_cap (length (order self.now.nodes) + more) }
    {
        let live = self.live_nodes();
        live > self.bare.pair_cap || more > self.bare.pair_cap - live
    }

    /// Whether more bytes of text than may would live with a text in the place of another.
    pub(crate) fn is_too_much_text(&self, old: &str, new: &str) -> bool
        ensures { result ≡ nat_lt (MAX_LIVE_TEXT_BYTES + length old.now) (text_bytes self.now.nodes + length new.now) }
    {
        new.len() > MAX_LIVE_TEXT_BYTES - self.bare.live_text() + old.len()
    }
}
