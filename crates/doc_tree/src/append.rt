//! Growing a tree at its end.

ghost use Rattle.std.specs.Prelude.{◌≡◌, true, length, None, IfOk, IfErr, OnOk, OnErr};
ghost use Rattle.doc_table.specs.Table.{AllLive, kind_of, value_in};
ghost use Rattle.doc_table.specs.Walks.{is_open};
ghost use Rattle.doc_table.specs.Growth.{Grew, FitsUnder, NameIsKnown, Refuses, content_of_new, passed_limit};
ghost use Rattle.doc_table.specs.Kinds.{holds_kids};
ghost use Rattle.doc_table.specs.inner.Labels.{LabelIsBelow, content_labelled};

use crate::alike::note;
use crate::tree::Tree;
use doc_table::{AppendError, Label, NewNode, NodeId};

impl Tree {
    /// Puts a node under the root or an element, as the last of its kids or attributes and the last one of the tree in
    /// document order. A refused node changes nothing.
    ///
    /// Costs constant time, and the copying of the node's text.
    pub fn append_node(&mut self, parent: NodeId, node: NewNode) -> Result<NodeId, AppendError>
        requires holder { holds_kids (kind_of self.old.nodes parent) ≡ true }
        requires fits { FitsUnder self.old.nodes parent (content_of_new self.old.names node) }
        requires name { NameIsKnown (length self.old.names) node }
        requires last { is_open self.old.nodes parent ≡ true }
        requires all_live { AllLive self.old.nodes }
        ensures grew { IfOk result (λ n. Grew self.old.nodes self.new.nodes parent n (content_of_new self.old.names node.entry)) }
        ensures names { self.new.names ≡ self.old.names }
        ensures cap { self.new.pair_cap ≡ self.old.pair_cap }
        ensures within { OnOk result (passed_limit self.old.nodes parent (content_of_new self.old.names node.entry) ≡ None) }
        ensures refused { IfErr result (Refuses (passed_limit self.old.nodes parent (content_of_new self.old.names node.entry))) }
        ensures unchanged { OnErr result (self.new ≡ self.old) }
    {
        match node {
            NewNode::Element(name) => self.append(parent, &Label::Element(name), ""),
            NewNode::Attribute(name, value) => self.append(parent, &Label::Attribute(name), value),
            NewNode::Text(text) => self.append(parent, &Label::Text, text),
            NewNode::Comment(text) => self.append(parent, &Label::Comment, text),
            NewNode::Pi(name, data) => self.append(parent, &Label::Pi(name), data),
        }
    }

    /// `append_node`, with the new node in parts.
    fn append(&mut self, parent: NodeId, label: &Label, text: &str) -> Result<NodeId, AppendError>
        requires holder { holds_kids (kind_of self.old.nodes parent) ≡ true }
        requires fits { FitsUnder self.old.nodes parent (content_labelled self.old.names label.now text.now) }
        requires name { LabelIsBelow (length self.old.names) label.now }
        requires text { value_in (content_labelled self.old.names label.now text.now) ≡ text.now }
        requires last { is_open self.old.nodes parent ≡ true }
        requires all_live { AllLive self.old.nodes }
        ensures grew { IfOk result (λ n. Grew self.old.nodes self.new.nodes parent n (content_labelled self.old.names label.now text.now)) }
        ensures names { self.new.names ≡ self.old.names }
        ensures cap { self.new.pair_cap ≡ self.old.pair_cap }
        ensures within { OnOk result (passed_limit self.old.nodes parent (content_labelled self.old.names label.now text.now) ≡ None) }
        ensures refused { IfErr result (Refuses (passed_limit self.old.nodes parent (content_labelled self.old.names label.now text.now))) }
        ensures unchanged { OnErr result (self.new ≡ self.old) }
    {
        self.bare.laws();
        let count = self.count_alike(parent, label, text);
        match self.bare.append(parent, label, text) {
            Ok(number) => {
                note(&mut self.alike, number, count);
                Ok(number)
            }
            Err(error) => Err(error),
        }
    }
}
