//! Edits of nodes: another text, and deletion.

ghost use Rattle.std.specs.Prelude.{◌≡◌, true, OnOk, OnErr, IfErr, None, Some, if◌then◌else◌};
ghost use Rattle.doc_table.specs.Kinds.{is_document};
ghost use Rattle.doc_table.specs.Table.{is_root, parent_of};
ghost use Rattle.doc_edits.specs.Changes.{deleted, said};
ghost use Rattle.doc_tree.specs.declared.refusal.EditRefusal.TheVariants.{RootElement};
ghost use Rattle.doc_tree.specs.Refusals.{RefusesDeletion, RefusesFor, deletion_refusal, text_refusal};

use crate::refusal::{EditError, EditRefusal};
use crate::tree::Tree;
use doc_edits::edits_keep_documents;
use doc_table::{Kind, NodeId};

impl Tree {
    /// Sets the pair cap: no edit adds nodes where more would live then. Evaluation keeps a pair for each active pattern and
    /// live node. The pair cap of a new tree is `MAX_LIVE_NODES`.
    pub fn set_pair_cap(&mut self, cap: u32)
        ensures { self.new ≡ record self.old { pair_cap = cap } }
    {
        self.bare.set_pair_cap(cap);
    }

    /// Sets the characters of a text or comment, or the data of a processing instruction. A text must not become empty.
    ///
    /// A refused edit, and one that finds no memory, changes nothing; memory is wanted only where nothing speaks against the
    /// edit. Costs the copying of the text.
    pub fn set_text(&mut self, n: NodeId, text: &str) -> Result<(), EditError>
        requires document { is_document self.old.nodes ≡ true }
        ensures within { OnOk result (text_refusal self.old.nodes n text.now ≡ None) }
        ensures edited { OnOk result (self.new.nodes ≡ said self.old.nodes n text.now) }
        ensures document { is_document self.new.nodes ≡ true }
        ensures names { self.new.names ≡ self.old.names }
        ensures cap { self.new.pair_cap ≡ self.old.pair_cap }
        ensures refused { IfErr result (RefusesFor (text_refusal self.old.nodes n text.now)) }
        ensures unchanged { OnErr result (self.new ≡ self.old) }
    {
        if let Some(reason) = self.text_refusal(n, text) {
            return Err(EditError::Refused(reason));
        }
        edits_keep_documents();
        self.alike.clear();
        doc_edits::say(&mut self.bare, n, text)?;
        Ok(())
    }

    /// Deletes a node with all below it; of two texts that meet then the left one says both, and the right one is gone.
    /// Neither the root nor the document element can be deleted.
    ///
    /// A refused edit, and one that finds no memory, changes nothing; memory is wanted only where two texts meet. Costs the
    /// nodes below, the kids behind, and the copying of two texts that meet.
    pub fn delete(&mut self, n: NodeId) -> Result<(), EditError>
        requires document { is_document self.old.nodes ≡ true }
        ensures within { OnOk result (deletion_refusal self.old.nodes n ≡ None) }
        ensures edited { OnOk result (self.new.nodes ≡ deleted self.old.nodes n) }
        ensures document { is_document self.new.nodes ≡ true }
        ensures names { self.new.names ≡ self.old.names }
        ensures cap { self.new.pair_cap ≡ self.old.pair_cap }
        ensures refused { IfErr result (RefusesDeletion self.old.nodes n) }
        ensures unchanged { OnErr result (self.new ≡ self.old) }
    {
        if let Some(reason) = self.deletion_refusal(n) {
            return Err(EditError::Refused(reason));
        }
        edits_keep_documents();
        self.alike.clear();
        doc_edits::delete(&mut self.bare, n)?;
        Ok(())
    }

    /// The first reason against the deletion of a node.
    fn deletion_refusal(&self, n: NodeId) -> Option<EditRefusal>
        ensures { result ≡ deletion_refusal self.now.nodes n }
    {
        match self.kind_of(n) {
            None | Some(Kind::Root | Kind::Attribute) => Some(EditRefusal::WrongKind),
            Some(Kind::Element) => self.root_kid_refusal(n),
            Some(Kind::Text | Kind::Comment | Kind::Pi) => None,
        }
    }

    /// The reason against the deletion of an element: it is the document element.
    fn root_kid_refusal(&self, n: NodeId) -> Option<EditRefusal>
        ensures { result ≡ (if is_root (parent_of self.now.nodes n) then Some RootElement else None) }
    {
        if self.parent(n) == Some(self.root()) {
            Some(EditRefusal::RootElement)
        } else {
            None
        }
    }

    /// The first reason against another text of a node.
    fn text_refusal(&self, n: NodeId, text: &str) -> Option<EditRefusal>
        ensures { result ≡ text_refusal self.now.nodes n text.now }
    {
        let kind = self.kind_of(n);
        if !matches!(kind, Some(Kind::Text | Kind::Comment | Kind::Pi)) {
            return Some(EditRefusal::WrongKind);
        }
        if kind == Some(Kind::Text) && text.is_empty() {
            return Some(EditRefusal::EmptyText);
        }
        if self.is_too_much_text(self.value(n), text) {
            return Some(EditRefusal::TooMuchText);
        }
        None
    }
}
