//! Edits of attributes.

ghost use Rattle.std.specs.Prelude.{◌≡◌, true, OnOk, OnErr, IfErr, None};
ghost use Rattle.std.specs.Option.{option_copied};
ghost use Rattle.doc_table.specs.Kinds.{is_document};
ghost use Rattle.doc_edits.specs.Changes.{gained};
ghost use Rattle.doc_tree.specs.Edited.{NamesGrow, attribute_name_at, attribute_set, attribute_unset};
ghost use Rattle.doc_tree.specs.NameTests.{attribute_meant, attribute_named};
ghost use Rattle.doc_tree.specs.Refusals.{RefusesFor, RefusesOnlyFor, declares_namespace, is_unbound, name_refusal, setting_refusal, unsetting_refusal, value_refusal};
ghost use Rattle.doc_tree.specs.Scope.{attribute_namespace, namespace_or_none, scope_at};

use crate::declarations::is_xmlns;
use crate::refusal::{EditError, EditRefusal};
use crate::tree::Tree;
use doc_edits::edits_keep_documents;
use doc_table::NodeId;
use sch_base::Text;
use std::alloc::AllocError;

impl Tree {
    /// Sets the attribute with an expanded name: one that is there gets the value and keeps its prefix, and another comes as
    /// the element's last one. A name without a prefix is in no namespace (Namespaces in XML 1.0, section 6.2).
    ///
    /// A refused edit, and one that finds no memory, changes nothing, names included; memory is wanted only where nothing
    /// speaks against the edit. Costs the element's attributes, the declarations in scope, and the copying of the value.
    pub fn set_attr(
        &mut self,
        n: NodeId,
        prefix: &str,
        local: &str,
        value: &str,
    ) -> Result<(), EditError>
        requires document { is_document self.old.nodes ≡ true }
        ensures within { OnOk result (setting_refusal self.old n prefix.now local.now value.now ≡ None) }
        ensures edited { OnOk result (self.new.nodes ≡ attribute_set self.old.nodes n prefix.now local.now value.now) }
        ensures document { is_document self.new.nodes ≡ true }
        ensures names { NamesGrow self.old.names self.new.names }
        ensures cap { self.new.pair_cap ≡ self.old.pair_cap }
        ensures refused { IfErr result (RefusesFor (setting_refusal self.old n prefix.now local.now value.now)) }
        ensures unchanged { OnErr result (self.new ≡ self.old) }
    {
        let found = self.attribute_at(n, prefix, local);
        if let Some(reason) = self.setting_refusal(n, prefix, local, found, value) {
            return Err(EditError::Refused(reason));
        }
        self.laws();
        edits_keep_documents();
        self.put_attribute(n, prefix, local, &found, value)?;
        Ok(())
    }

    /// Removes the attribute with an expanded name, whatever its prefix. Takes no memory.
    ///
    /// A refused edit changes nothing. Costs the element's attributes, and the declarations in scope.
    pub fn unset_attr(&mut self, n: NodeId, prefix: &str, local: &str) -> Result<(), EditError>
        requires document { is_document self.old.nodes ≡ true }
        ensures within { OnOk result (unsetting_refusal self.old.nodes n prefix.now local.now ≡ None) }
        ensures edited { OnOk result (self.new.nodes ≡ attribute_unset self.old.nodes n prefix.now local.now) }
        ensures document { is_document self.new.nodes ≡ true }
        ensures names { self.new.names ≡ self.old.names }
        ensures cap { self.new.pair_cap ≡ self.old.pair_cap }
        ensures refused { IfErr result (RefusesOnlyFor (unsetting_refusal self.old.nodes n prefix.now local.now)) }
        ensures unchanged { OnErr result (self.new ≡ self.old) }
    {
        if let Some(reason) = self.name_refusal(n, prefix, local) {
            return Err(EditError::Refused(reason));
        }
        let found = self.attribute_at(n, prefix, local);
        match &found {
            Some(a) => {
                self.laws();
                edits_keep_documents();
                self.alike.clear();
                doc_edits::remove(&mut self.bare, *a);
                Ok(())
            }
            None => Err(EditError::Refused(EditRefusal::NoAttribute)),
        }
    }

    /// Gives the attribute that a name means the value, or the element one attribute more.
    fn put_attribute(
        &mut self,
        n: NodeId,
        prefix: &str,
        local: &str,
        found: &Option<NodeId>,
        value: &str,
    ) -> Result<(), AllocError>
        requires free { setting_refusal self.old n prefix.now local.now value.now ≡ None }
        requires found { found.now ≡ attribute_meant self.old.nodes n prefix.now local.now }
        ensures put { OnOk result (self.new.nodes ≡ attribute_set self.old.nodes n prefix.now local.now value.now) }
        ensures names { NamesGrow self.old.names self.new.names }
        ensures cap { self.new.pair_cap ≡ self.old.pair_cap }
        ensures unchanged { OnErr result (self.new ≡ self.old) }
    {
        self.laws();
        match found {
            Some(a) => {
                self.alike.clear();
                doc_edits::say(&mut self.bare, *a, value)
            }
            None => self.gain(n, prefix, local, value),
        }
    }

    /// Gives an element one attribute more, the last one.
    fn gain(&mut self, n: NodeId, prefix: &str, local: &str, value: &str) -> Result<(), AllocError>
        requires free { setting_refusal self.old n prefix.now local.now value.now ≡ None }
        requires absent { attribute_meant self.old.nodes n prefix.now local.now ≡ None }
        ensures gained { OnOk result (self.new.nodes ≡ gained self.old.nodes n (attribute_name_at self.old.nodes n prefix.now local.now) value.now) }
        ensures names { NamesGrow self.old.names self.new.names }
        ensures cap { self.new.pair_cap ≡ self.old.pair_cap }
        ensures unchanged { OnErr result (self.new ≡ self.old) }
    {
        let uri = Text::copy(self.bare.alloc, self.attribute_uri(n, prefix))?;
        self.alike.clear();
        doc_edits::gain(&mut self.bare, n, prefix, local, uri.as_str(), value)?;
        Ok(())
    }

    /// The attribute that a QName means at an element, by the declarations in scope there; None where its prefix isn't in
    /// scope, as `xmlns` never is (Namespaces in XML 1.0, section 6).
    ///
    /// Costs the element's attributes, and the declarations in scope.
    pub fn attribute_at(&self, n: NodeId, prefix: &str, local: &str) -> Option<NodeId>
        ensures { result ≡ attribute_meant self.now.nodes n prefix.now local.now }
    {
        match self.attribute_namespace(n, prefix) {
            Some(uri) => self.attribute_named(n, uri, local),
            None => None,
        }
    }

    /// The attribute of an element with this expanded name; the namespace is empty for none.
    ///
    /// Costs the element's attributes.
    pub fn attribute_named(&self, n: NodeId, uri: &str, local: &str) -> Option<NodeId>
        ensures { result ≡ attribute_named self.now.nodes n uri.now local.now }
    {
        for a in self.attrs(n) {
            if self.has_name(*a, uri, local) {
                return Some(*a);
            }
        }
        None
    }

    /// The namespace of an attribute's prefix at an element; empty where it has none, or isn't in scope.
    pub(crate) fn attribute_uri(&self, n: NodeId, prefix: &str) -> &str
        ensures { result.now ≡ namespace_or_none self.now.nodes n prefix.now }
    {
        match self.attribute_namespace(n, prefix) {
            Some(uri) => uri,
            None => "",
        }
    }

    /// The namespace of an attribute's prefix at an element; None where the prefix isn't in scope.
    fn attribute_namespace(&self, n: NodeId, prefix: &str) -> Option<&str>
        ensures { option_copied result ≡ attribute_namespace (scope_at self.now.nodes n) prefix.now }
    {
        if prefix.is_empty() {
            return Some("");
        }
        self.lookup(n, prefix)
    }

    /// The first reason against a value of the attribute that a name means at a node.
    fn setting_refusal(
        &self,
        n: NodeId,
        prefix: &str,
        local: &str,
        found: Option<NodeId>,
        value: &str,
    ) -> Option<EditRefusal>
        requires { found ≡ attribute_meant self.now.nodes n prefix.now local.now }
        ensures { result ≡ setting_refusal self.now n prefix.now local.now value.now }
    {
        match self.name_refusal(n, prefix, local) {
            Some(reason) => Some(reason),
            None => self.value_refusal(found, value),
        }
    }

    /// The first reason against the name of an attribute of a node.
    fn name_refusal(&self, n: NodeId, prefix: &str, local: &str) -> Option<EditRefusal>
        ensures { result ≡ name_refusal self.now.nodes n prefix.now local.now }
    {
        if !self.is_element(n) {
            return Some(EditRefusal::WrongKind);
        }
        if self.is_unbound(n, prefix) {
            return Some(EditRefusal::NoPrefix);
        }
        if declares_namespace(prefix, local) {
            return Some(EditRefusal::XmlnsName);
        }
        None
    }

    /// Whether a prefix other than `xmlns` isn't in scope at a node.
    pub(crate) fn is_unbound(&self, n: NodeId, prefix: &str) -> bool
        ensures { result ≡ is_unbound self.now.nodes n prefix.now }
    {
        !is_xmlns(prefix) && self.attribute_namespace(n, prefix).is_none()
    }

    /// The first reason against a value of an attribute that is there, or of a new one.
    fn value_refusal(&self, found: Option<NodeId>, value: &str) -> Option<EditRefusal>
        ensures { result ≡ value_refusal self.now found value.now }
    {
        match found {
            Some(a) => {
                if self.is_too_much_text(self.value(a), value) {
                    return Some(EditRefusal::TooMuchText);
                }
                None
            }
            None => self.room_for_attribute(value),
        }
    }

    /// The first reason against a new attribute with this value.
    fn room_for_attribute(&self, value: &str) -> Option<EditRefusal>
        ensures { result ≡ value_refusal self.now None value.now }
    {
        if self.has_too_many_nodes(1) {
            return Some(EditRefusal::TooManyNodes);
        }
        if self.is_too_much_text("", value) {
            return Some(EditRefusal::TooMuchText);
        }
        if self.numbers_left() < 1 {
            return Some(EditRefusal::IdsSpent);
        }
        if self.has_too_many_pairs(1) {
            return Some(EditRefusal::TooManyPairs);
        }
        None
    }
}

/// Whether a name is that of a declaration: `xmlns`, or one with the prefix `xmlns`.
#[tactic(auto, unfolding(crate::specs::Scope::xmlns_prefix))]
pub(crate) fn declares_namespace(prefix: &str, local: &str) -> bool
    ensures { result ≡ declares_namespace prefix.now local.now }
{
    is_xmlns(prefix) || (prefix.is_empty() && is_xmlns(local))
}
