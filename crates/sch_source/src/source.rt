//! A schema's document, read by its elements and attributes.

ghost use Rattle.std.specs.Prelude.{◌≡◌, ◌<◌, length, find, IfSome};
ghost use Rattle.std.specs.Option.{option_copied, option_map};
ghost use Rattle.doc_tree.specs.Table.{attrs_of, content_of, numbered};
ghost use Rattle.doc_tree.specs.Walks.{characters_in};
ghost use Rattle.sch_rules.specs.Attributes.{is_abstract, is_called, said, said_text};
ghost use Rattle.sch_rules.specs.Elements.{element_name, is_at_top, is_foreign, local_at, word_above, word_at};
ghost use Rattle.sch_rules.specs.RawSchema.{text_at};
ghost use Rattle.sch_rules.specs.Rules.{has_kid};

use crate::words::{holds_text, is_word, word_of};
use doc_tree::{Kind, NameId, NodeId, Tree};
use sch_rules::Word;
use std::alloc::Global;

/// The namespace of Schematron.
const SCHEMATRON: &str = "http://purl.oclc.org/dsdl/schematron";

/// The document of a schema.
#[derive(Clone, Copy)]
pub struct Source<'a> {
    pub alloc: Global,
    pub tree: &'a Tree,
}

impl<'a> Source<'a> {
    /// The characters of a text node; empty for every other node.
    fn characters(&self, n: NodeId) -> &'a str
        ensures { result.now ≡ characters_in (content_of self.now.tree.now.nodes n) }
    {
        if matches!(self.tree.kind_of(n), Some(Kind::Text)) {
            self.tree.value(n)
        } else {
            ""
        }
    }

    /// The name of an element; None for another node.
    fn element_name(&self, n: NodeId) -> Option<NameId>
        ensures name { option_map (numbered self.now.tree.now.names) result ≡ element_name (content_of self.now.tree.now.nodes n) }
        ensures known { IfSome result (λ id. id < length self.now.tree.now.names) }
    {
        if self.tree.is_element(n) {
            self.tree.name(n)
        } else {
            None
        }
    }

    /// The local name of an element, of whatever namespace; None for another node.
    pub fn any_local(&self, n: NodeId) -> Option<&'a str>
        ensures { option_copied result ≡ option_map (λ name. name.local) (element_name (content_of self.now.tree.now.nodes n)) }
    {
        match self.element_name(n) {
            Some(name) => Some(self.tree.local_of(name)),
            None => None,
        }
    }

    /// Whether the node is an element of another namespace.
    pub fn is_foreign(&self, n: NodeId) -> bool
        ensures { result ≡ is_foreign self.now.tree.now.nodes n }
    {
        match self.element_name(n) {
            Some(name) => self.tree.uri_of(name) != SCHEMATRON,
            None => false,
        }
    }

    /// The local name of the node, where it is an element of the namespace.
    pub fn local_at(&self, n: NodeId) -> Option<&'a str>
        ensures { option_copied result ≡ local_at self.now.tree.now.nodes n }
    {
        match self.element_name(n) {
            Some(name) if self.tree.uri_of(name) == SCHEMATRON => Some(self.tree.local_of(name)),
            _ => None,
        }
    }

    /// Which element of a schema the node is.
    pub fn word_at(&self, n: NodeId) -> Option<Word>
        ensures { result ≡ word_at self.now.tree.now.nodes n }
    {
        match self.local_at(n) {
            Some(local) => word_of(local),
            None => None,
        }
    }

    /// Which element of a schema the node's parent is.
    pub fn word_above(&self, n: NodeId) -> Option<Word>
        ensures { result ≡ word_above self.now.tree.now.nodes n }
    {
        match self.tree.parent(n) {
            Some(parent) => self.word_at(parent),
            None => None,
        }
    }

    /// Whether the node is the root's kid.
    pub fn is_at_top(&self, n: NodeId) -> bool
        ensures { result ≡ is_at_top self.now.tree.now.nodes n }
    {
        match self.tree.parent(n) {
            Some(parent) => parent == self.tree.root(),
            None => false,
        }
    }

    /// Whether some kid of the node is this element.
    pub fn has_kid(&self, n: NodeId, word: Word) -> bool
        ensures { result ≡ has_kid self.now.tree.now.nodes n word }
    {
        self.tree
            .kids(n)
            .iter()
            .any(|kid| is_word(word, self.word_at(*kid)))
    }

    /// The element's attribute with this name.
    fn attribute(&self, n: NodeId, name: &str) -> Option<NodeId>
        ensures { result ≡ find (is_called self.now.tree.now.nodes name.now) (attrs_of self.now.tree.now.nodes n) }
    {
        self.tree
            .attrs(n)
            .iter()
            .copied()
            .find(|a| self.tree.has_name(*a, "", name))
    }

    /// The value of the element's attribute with this name.
    pub fn said(&self, n: NodeId, name: &str) -> Option<&'a str>
        ensures { option_copied result ≡ said self.now.tree.now.nodes n name.now }
    {
        match self.attribute(n, name) {
            Some(a) => Some(self.tree.value(a)),
            None => None,
        }
    }

    /// That value, and no text where there is no such attribute.
    pub fn said_text(&self, n: NodeId, name: &str) -> &'a str
        ensures { result.now ≡ said_text self.now.tree.now.nodes n name.now }
    {
        match self.said(n, name) {
            Some(value) => value,
            None => "",
        }
    }

    /// Whether the element is abstract.
    pub fn is_abstract(&self, n: NodeId) -> bool
        ensures { result ≡ is_abstract self.now.tree.now.nodes n }
    {
        match self.said(n, "abstract") {
            Some(value) => value == "true",
            None => false,
        }
    }

    /// The characters of a text that counts.
    pub(crate) fn text_at(&self, n: NodeId) -> &'a str
        ensures { result.now ≡ text_at self.now.tree.now.nodes n }
    {
        if holds_text(self.word_above(n)) {
            self.characters(n)
        } else {
            ""
        }
    }
}
