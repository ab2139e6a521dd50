//! Inserting a piece.

ghost use Rattle.std.specs.Prelude.{◌≡◌, ◌≤◌, ◌+◌, ◌-◌, ◌&&◌, nat_lt, true, length, take, None, Some, IfOk, OnOk, OnErr, IfErr};
ghost use Rattle.std.specs.List.{list_any};
ghost use Rattle.doc_table.specs.Growth.{ends_in_text};
ghost use Rattle.doc_table.specs.Kinds.{can_be_kid, holds_kids, is_document, is_element, is_text};
ghost use Rattle.doc_table.specs.Table.{kids_of, kind_of};
ghost use Rattle.doc_table.specs.declared.limits.TheConstants.{MAX_DEPTH, MAX_LIVE_TEXT_BYTES};
ghost use Rattle.doc_table.specs.Walks.{ancestors, order, text_bytes};
ghost use Rattle.doc_edits.specs.Changes.{inserted, nodes_in};
ghost use Rattle.doc_tree.specs.Edited.{NamesGrow};
ghost use Rattle.doc_tree.specs.Refusals.{RefusesFor, insertion_refusal, is_beside_text, is_too_deep_at, place_refusal, room_refusal, top_of};

use crate::refusal::{EditError, EditRefusal};
use crate::tree::Tree;
use doc_edits::edits_keep_documents;
use doc_table::{Kind, MAX_DEPTH, MAX_LIVE_TEXT_BYTES, NodeId};

impl Tree {
    /// Finds the first reason against a node of a kind as the kid with a number, counted from 1, of a node; takes no memory.
    pub fn check_place(&self, parent: NodeId, at: u32, top: Kind) -> Result<(), EditRefusal>
        requires from_1 { 1 ≤ at }
        requires kid { can_be_kid (Some top) ≡ true }
        ensures good { OnOk result (place_refusal self.now.nodes parent at (Some top) ≡ None) }
        ensures refused { IfErr result (λ reason. place_refusal self.now.nodes parent at (Some top) ≡ Some reason) }
    {
        if !matches!(self.kind_of(parent), Some(Kind::Root | Kind::Element)) {
            return Err(EditRefusal::WrongKind);
        }
        let kids = self.kids(parent);
        let before = at as usize - 1;
        if before > kids.len() {
            return Err(EditRefusal::NotInRange);
        }
        if parent == self.root() && matches!(top, Kind::Element | Kind::Text) {
            return Err(EditRefusal::RootElement);
        }
        if top == Kind::Text && self.is_beside_text(before, kids) {
            return Err(EditRefusal::TextBeside);
        }
        Ok(())
    }

    /// Whether a text stands just before or just behind a place among kids.
    fn is_beside_text(&self, before: usize, kids: &[NodeId]) -> bool
        requires { before ≤ length kids.now }
        ensures { result ≡ is_beside_text self.now.nodes before kids.now }
    {
        self.ends_in_text(&kids[..before]) || self.begins_with_text(&kids[before..])
    }

    /// Whether the last of the nodes is a text.
    fn ends_in_text(&self, nodes: &[NodeId]) -> bool
        ensures { result ≡ ends_in_text self.now.nodes nodes.now }
    {
        match nodes.last() {
            Some(n) => self.is_kind(*n, Kind::Text),
            None => false,
        }
    }

    /// Whether the first of the nodes is a text.
    fn begins_with_text(&self, nodes: &[NodeId]) -> bool
        ensures { result ≡ list_any (λ n. is_text (kind_of self.now.nodes n)) (take 1 nodes.now) }
    {
        match nodes.first() {
            Some(n) => self.is_kind(*n, Kind::Text),
            None => false,
        }
    }

    /// Puts a copy of a piece, the one kid of its root with all below it, under a node as the kid with a number, counted from
    /// 1. Its nodes take the next numbers in document order; the number of the kid is answered. The names of the piece are
    /// taken as they are.
    ///
    /// A refused edit, and one that finds no memory, changes nothing, names included; memory is wanted only where nothing
    /// speaks against the edit. Costs the nodes and the texts of the piece, and the kids behind it.
    pub fn insert(&mut self, parent: NodeId, at: u32, piece: &Tree) -> Result<NodeId, EditError>
        requires from_1 { 1 ≤ at }
        requires one { length (kids_of piece.now.nodes 0) ≡ 1 }
        requires document { is_document self.old.nodes ≡ true }
        ensures within { OnOk result (insertion_refusal self.old parent at piece.now.nodes ≡ None) }
        ensures edited { OnOk result (self.new.nodes ≡ inserted self.old.nodes parent (at - 1) piece.now.nodes) }
        ensures number { IfOk result (λ n. n ≡ length self.old.nodes) }
        ensures document { is_document self.new.nodes ≡ true }
        ensures names { NamesGrow self.old.names self.new.names }
        ensures cap { self.new.pair_cap ≡ self.old.pair_cap }
        ensures refused { IfErr result (RefusesFor (insertion_refusal self.old parent at piece.now.nodes)) }
        ensures unchanged { OnErr result (self.new ≡ self.old) }
    {
        if let Err(reason) = self.check_place(parent, at, piece.top_kind()) {
            return Err(EditError::Refused(reason));
        }
        if let Some(passed) = self.room_refusal(parent, piece) {
            return Err(EditError::Refused(passed));
        }
        edits_keep_documents();
        self.alike.clear();
        let number = doc_edits::insert(&mut self.bare, parent, at as usize - 1, &piece.bare)?;
        Ok(number)
    }

    /// The kind of the one kid of a piece's root.
    fn top_kind(&self) -> Kind
        requires { length (kids_of self.now.nodes 0) ≡ 1 }
        ensures kind { kind_of self.now.nodes (top_of self.now.nodes) ≡ Some result }
        ensures kid { can_be_kid (Some result) ≡ true }
    {
        self.laws();
        self.kind(self.top())
    }

    /// The one kid of a piece's root.
    fn top(&self) -> NodeId
        requires { length (kids_of self.now.nodes 0) ≡ 1 }
        ensures { result ≡ top_of self.now.nodes }
    {
        self.kids(self.root())[0]
    }

    /// How many nodes a piece brings: all but its root.
    fn nodes_brought(&self) -> u32
        ensures { result ≡ length (nodes_in self.now.nodes) }
    {
        self.laws();
        self.live_nodes() - 1
    }

    /// The first reason against so many and so deep nodes more.
    fn room_refusal(&self, parent: NodeId, piece: &Tree) -> Option<EditRefusal>
        requires { holds_kids (kind_of self.now.nodes parent) ≡ true }
        ensures { result ≡ room_refusal self.now parent piece.now.nodes }
    {
        let more = piece.nodes_brought();
        if self.has_too_many_nodes(more) {
            return Some(EditRefusal::TooManyNodes);
        }
        if self.is_too_deep(parent, piece) {
            return Some(EditRefusal::TooDeep);
        }
        if self.has_too_much_text(piece) {
            return Some(EditRefusal::TooMuchText);
        }
        if more > self.numbers_left() {
            return Some(EditRefusal::IdsSpent);
        }
        if self.has_too_many_pairs(more) {
            return Some(EditRefusal::TooManyPairs);
        }
        None
    }

    /// Whether more bytes of text than may would live with those of a piece.
    fn has_too_much_text(&self, piece: &Tree) -> bool
        ensures { result ≡ nat_lt MAX_LIVE_TEXT_BYTES (text_bytes self.now.nodes + text_bytes piece.now.nodes) }
    {
        piece.bare.live_text() > MAX_LIVE_TEXT_BYTES - self.bare.live_text()
    }

    /// Whether an element of a piece would stand deeper under a node than an element may.
    fn is_too_deep(&self, parent: NodeId, piece: &Tree) -> bool
        requires { holds_kids (kind_of self.now.nodes parent) ≡ true }
        ensures { result ≡ list_any (is_too_deep_at self.now.nodes parent piece.now.nodes) (order piece.now.nodes) }
    {
        self.laws();
        piece.laws();
        let depth = self.bare.depth_under(parent);
        for number in 0..piece.bare.numbers_made() {
            if piece.is_deep_element(NodeId::from_number(number), depth) {
                return true;
            }
        }
        false
    }

    /// Whether a node is an element that has, with so many more ancestors, more than an element may, the root of the piece
    /// counted.
    fn is_deep_element(&self, n: NodeId, more: u32) -> bool
        requires { more ≤ MAX_DEPTH + 2 }
        ensures { result ≡ (is_element (kind_of self.now.nodes n) && nat_lt (MAX_DEPTH + 1) (more + length (ancestors self.now.nodes n))) }
    {
        self.laws();
        self.is_element(n) && more + self.depth(n) > MAX_DEPTH + 1
    }
}
