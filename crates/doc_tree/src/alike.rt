//! Elements of one expanded name among their siblings, counted while a tree grows at its end.

ghost use Rattle.std.specs.Prelude.{◌≡◌, ◌≢◌, ◌<◌, ◌&&◌, ℕ, length, filter, IfSome};
ghost use Rattle.doc_table.specs.Table.{kids_of, numbered};
ghost use Rattle.doc_table.specs.inner.Labels.{LabelIsBelow, content_labelled};
ghost use Rattle.doc_tree.specs.Alike.{CountsAlike, is_element_called};
ghost use Rattle.doc_tree.specs.inner.Counted.{CountsBehind, CountsUnder, IsNoted};

use crate::tree::Tree;
use doc_names::NameId;
use doc_table::{Label, NodeId};

/// What is kept of a node where it is not known how many elements like it stand before it.
pub(crate) const UNKNOWN: u32 = u32::MAX;

/// So many siblings are looked at for an element of the same name.
const LOOKED_AT: usize = 8;

impl Tree {
    /// How many elements of its expanded name stand before an element among its siblings, where that is known: in a tree that has only grown at its
    /// end, of elements among few siblings or near one of the same name. One look.
    pub fn alike_before(&self, n: NodeId) -> Option<usize>
        ensures { IfSome result (CountsAlike self.now.nodes n) }
    {
        let count = *self.alike.get(n.index())?;
        if count == UNKNOWN {
            return None;
        }
        Some(count as usize)
    }

    /// How many elements like a new node stand among the kids of its parent.
    pub(crate) fn count_alike(&self, parent: NodeId, label: &Label, text: &str) -> u32
        requires { LabelIsBelow (length self.now.names) label.now }
        ensures { CountsUnder self.now.nodes parent (content_labelled self.now.names label.now text.now) result }
    {
        match label {
            Label::Element(name) => self.count_named(parent, *name),
            _ => UNKNOWN,
        }
    }

    /// How many of a node's kids are elements with the expanded name of a name. A few of the last are looked at.
    fn count_named(&self, parent: NodeId, name: NameId) -> u32
        requires { name < length self.now.names }
        ensures { result ≢ UNKNOWN → result ≡
            length (filter (is_element_called self.now.nodes (numbered self.now.names name).uri (numbered self.now.names name).local) (kids_of self.now.nodes parent)) }
    {
        let kids = self.kids(parent);
        let least = kids.len().saturating_sub(LOOKED_AT);
        let mut left = kids.len();
        while left > least {
            left -= 1;
            let kid = kids[left];
            if self.is_called_as(kid, name) {
                return self.count_behind(kid);
            }
        }
        if least == 0 { 0 } else { UNKNOWN }
    }

    /// Whether a node is an element with the expanded name of a name.
    fn is_called_as(&self, n: NodeId, name: NameId) -> bool
        requires { name < length self.now.names }
        ensures { result ≡ is_element_called self.now.nodes (numbered self.now.names name).uri (numbered self.now.names name).local n }
    {
        match self.name(n) {
            Some(own) => self.is_element(n)
                && (own == name || self.bare.names.are_one_expanded(own, name)),
            None => false,
        }
    }

    /// The count of an element that comes behind one like it.
    fn count_behind(&self, n: NodeId) -> u32
        ensures { CountsBehind self.now.nodes n result }
    {
        match self.alike.get(n.index()) {
            Some(count) => count.saturating_add(1),
            None => UNKNOWN,
        }
    }
}

/// Keeps the count of a new node. Without memory for it no more is counted.
pub(crate) fn note(counts: &mut Vec<u32>, n: NodeId, count: u32)
    ensures { IsNoted counts.old.items n count counts.new.items }
{
    if counts.len() == n.index() {
        let _ = counts.push(count);
    }
}
