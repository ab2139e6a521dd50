//! A report's document, read by its elements and attributes.

ghost use Rattle.std.specs.Prelude.{◌≡◌, ◌<◌, length, find, IfOk, IfSome, OnOk};
ghost use Rattle.std.specs.Option.{option_copied, option_map};
ghost use Rattle.doc_tree.specs.Kinds.{is_element};
ghost use Rattle.doc_tree.specs.Table.{content_of, kids_of, kind_of, numbered};
ghost use Rattle.svrl_read.specs.Places.{document_element, element_name, said, said_text, word_at};

use crate::words::{Word, word_of};
use doc_tree::{NameId, NodeId, Tree};
use sch_base::Text;
use std::alloc::{AllocError, Global};

/// The namespace of SVRL.
const SVRL: &str = "http://purl.oclc.org/dsdl/svrl";

/// The document of a report.
#[derive(Clone, Copy)]
pub(crate) struct Source<'a> {
    pub(crate) alloc: Global,
    pub(crate) tree: &'a Tree,
}

impl<'a> Source<'a> {
    /// The document element, and the root where there is none.
    pub(crate) fn document_element(&self) -> NodeId
        ensures { result ≡ document_element self.now.tree.now.nodes }
    {
        match self.first_element(self.tree.root()) {
            Some(kid) => kid,
            None => self.tree.root(),
        }
    }

    /// The first element among a node's kids.
    fn first_element(&self, n: NodeId) -> Option<NodeId>
        ensures { result ≡ find (λ k. is_element (kind_of self.now.tree.now.nodes k)) (kids_of self.now.tree.now.nodes n) }
    {
        self.tree
            .kids(n)
            .iter()
            .copied()
            .find(|kid| self.tree.is_element(*kid))
    }

    /// The name of an element; None for another node.
    fn element_name(&self, n: NodeId) -> Option<NameId>
        ensures name { option_map (numbered self.now.tree.now.names) result ≡ element_name (content_of self.now.tree.now.nodes n) }
        ensures known { IfSome result (λ id. id < length self.now.tree.now.names) }
    {
        if self.tree.is_element(n) {
            self.tree.name(n)
        } else {
            None
        }
    }

    /// Which element of a report the node is.
    pub(crate) fn word_at(&self, n: NodeId) -> Option<Word>
        ensures { result ≡ word_at self.now.tree.now.nodes n }
    {
        match self.element_name(n) {
            Some(name) if self.tree.uri_of(name) == SVRL => word_of(self.tree.local_of(name)),
            _ => None,
        }
    }

    /// The value of the element's attribute with this name and no namespace.
    pub(crate) fn said(&self, n: NodeId, name: &str) -> Option<&'a str>
        ensures { option_copied result ≡ said self.now.tree.now.nodes n name.now }
    {
        match self.tree.attribute_named(n, "", name) {
            Some(a) => Some(self.tree.value(a)),
            None => None,
        }
    }

    /// That value, and no text where there is no such attribute.
    fn said_text(&self, n: NodeId, name: &str) -> &'a str
        ensures { result.now ≡ said_text self.now.tree.now.nodes n name.now }
    {
        match self.said(n, name) {
            Some(value) => value,
            None => "",
        }
    }

    /// That text, copied.
    pub(crate) fn text(&self, n: NodeId, name: &str) -> Result<Text, AllocError>
        ensures { IfOk result (λ text. text ≡ said_text self.now.tree.now.nodes n name.now) }
    {
        Text::copy(self.alloc, self.said_text(n, name))
    }

    /// The value of an attribute, where there is one.
    fn optional(&self, n: NodeId, name: &str) -> Result<Option<Text>, AllocError>
        ensures { IfOk result (λ text. text ≡ said self.now.tree.now.nodes n name.now) }
    {
        match self.said(n, name) {
            Some(value) => Ok(Some(Text::copy(self.alloc, value)?)),
            None => Ok(None),
        }
    }

    /// Reads the value of an attribute into a place.
    pub(crate) fn read_optional(
        &self,
        place: &mut Option<Text>,
        n: NodeId,
        name: &str,
    ) -> Result<(), AllocError>
        ensures { OnOk result (place.new ≡ said self.now.tree.now.nodes n name.now) }
    {
        *place = self.optional(n, name)?;
        Ok(())
    }
}
