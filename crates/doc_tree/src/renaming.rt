//! Edits of names.

ghost use Rattle.std.specs.Prelude.{◌≡◌, true, [], OnOk, OnErr, IfErr, None, unwrap_or};
ghost use Rattle.doc_table.specs.Kinds.{is_document};
ghost use Rattle.doc_edits.specs.Changes.{renamed};
ghost use Rattle.doc_edits.specs.Fitting.{MayRename};
ghost use Rattle.doc_tree.specs.Edited.{NamesGrow, attribute_name_at, attribute_renamed, element_name_at, element_renamed};
ghost use Rattle.doc_tree.specs.Refusals.{RefusesFor, are_two, attribute_renaming_refusal, name_pair_refusal, renaming_refusal};
ghost use Rattle.doc_tree.specs.Scope.{namespace_at};

use crate::attributes::declares_namespace;
use crate::declarations::is_xmlns;
use crate::refusal::{EditError, EditRefusal};
use crate::tree::Tree;
use doc_edits::edits_keep_documents;
use doc_table::NodeId;
use sch_base::Text;
use std::alloc::AllocError;

impl Tree {
    /// Gives an element another name. A name without a prefix takes the default namespace in scope at the element, whose own
    /// declarations count (Namespaces in XML 1.0, section 6.2). It may be `xmlns`, but not have that prefix.
    ///
    /// A refused edit, and one that finds no memory, changes nothing, names included; memory is wanted only where nothing
    /// speaks against the edit. Costs the declarations in scope, and the copying of the name where it is new.
    pub fn rename(&mut self, n: NodeId, prefix: &str, local: &str) -> Result<(), EditError>
        requires document { is_document self.old.nodes ≡ true }
        ensures within { OnOk result (renaming_refusal self.old.nodes n prefix.now ≡ None) }
        ensures edited { OnOk result (self.new.nodes ≡ element_renamed self.old.nodes n prefix.now local.now) }
        ensures document { is_document self.new.nodes ≡ true }
        ensures names { NamesGrow self.old.names self.new.names }
        ensures cap { self.new.pair_cap ≡ self.old.pair_cap }
        ensures refused { IfErr result (RefusesFor (renaming_refusal self.old.nodes n prefix.now)) }
        ensures unchanged { OnErr result (self.new ≡ self.old) }
    {
        if let Some(reason) = self.renaming_refusal(n, prefix) {
            return Err(EditError::Refused(reason));
        }
        self.laws();
        edits_keep_documents();
        self.name_element(n, prefix, local)?;
        Ok(())
    }

    /// Gives the attribute that a QName means at an element the name that another QName is there; it keeps its place, number
    /// and value. A name without a prefix is in no namespace (Namespaces in XML 1.0, section 6.2).
    ///
    /// A refused edit, and one that finds no memory, changes nothing, names included; memory is wanted only where nothing
    /// speaks against the edit. Costs the element's attributes, the declarations in scope, and the copying of the name where
    /// it is new.
    pub fn rename_attr(
        &mut self,
        n: NodeId,
        old_prefix: &str,
        old_local: &str,
        prefix: &str,
        local: &str,
    ) -> Result<(), EditError>
        requires document { is_document self.old.nodes ≡ true }
        ensures within { OnOk result (attribute_renaming_refusal self.old.nodes n old_prefix.now old_local.now prefix.now local.now ≡ None) }
        ensures edited { OnOk result (self.new.nodes ≡ attribute_renamed self.old.nodes n old_prefix.now old_local.now prefix.now local.now) }
        ensures document { is_document self.new.nodes ≡ true }
        ensures names { NamesGrow self.old.names self.new.names }
        ensures cap { self.new.pair_cap ≡ self.old.pair_cap }
        ensures refused { IfErr result (RefusesFor (attribute_renaming_refusal self.old.nodes n old_prefix.now old_local.now prefix.now local.now)) }
        ensures unchanged { OnErr result (self.new ≡ self.old) }
    {
        if let Some(reason) = self.name_pair_refusal(n, old_prefix, old_local, prefix, local) {
            return Err(EditError::Refused(reason));
        }
        let found = self.attribute_at(n, old_prefix, old_local);
        match &found {
            Some(a) => {
                self.laws();
                edits_keep_documents();
                self.name_attribute(n, *a, prefix, local)?;
                Ok(())
            }
            None => Err(EditError::Refused(EditRefusal::NoAttribute)),
        }
    }

    /// Gives an element the name that a QName is at it.
    fn name_element(&mut self, n: NodeId, prefix: &str, local: &str) -> Result<(), AllocError>
        requires { MayRename self.old.nodes n (element_name_at self.old.nodes n prefix.now local.now) }
        ensures renamed { OnOk result (self.new.nodes ≡ element_renamed self.old.nodes n prefix.now local.now) }
        ensures names { NamesGrow self.old.names self.new.names }
        ensures cap { self.new.pair_cap ≡ self.old.pair_cap }
        ensures unchanged { OnErr result (self.new ≡ self.old) }
    {
        let uri = Text::copy(self.bare.alloc, self.element_uri(n, prefix))?;
        self.alike.clear();
        doc_edits::rename(&mut self.bare, n, prefix, local, uri.as_str())?;
        Ok(())
    }

    /// Gives an attribute the name that a QName is at an element.
    fn name_attribute(
        &mut self,
        n: NodeId,
        a: NodeId,
        prefix: &str,
        local: &str,
    ) -> Result<(), AllocError>
        requires { MayRename self.old.nodes a (attribute_name_at self.old.nodes n prefix.now local.now) }
        ensures renamed { OnOk result (self.new.nodes ≡ renamed self.old.nodes a (attribute_name_at self.old.nodes n prefix.now local.now)) }
        ensures names { NamesGrow self.old.names self.new.names }
        ensures cap { self.new.pair_cap ≡ self.old.pair_cap }
        ensures unchanged { OnErr result (self.new ≡ self.old) }
    {
        let uri = Text::copy(self.bare.alloc, self.attribute_uri(n, prefix))?;
        self.alike.clear();
        doc_edits::rename(&mut self.bare, a, prefix, local, uri.as_str())?;
        Ok(())
    }

    /// The namespace of an element's prefix at a node; empty where it has none, or isn't in scope.
    fn element_uri(&self, n: NodeId, prefix: &str) -> &str
        ensures { result.now ≡ unwrap_or (namespace_at self.now.nodes n prefix.now) [] }
    {
        match self.lookup(n, prefix) {
            Some(uri) => uri,
            None => "",
        }
    }

    /// The first reason against another name of a node.
    fn renaming_refusal(&self, n: NodeId, prefix: &str) -> Option<EditRefusal>
        ensures { result ≡ renaming_refusal self.now.nodes n prefix.now }
    {
        if !self.is_element(n) {
            return Some(EditRefusal::WrongKind);
        }
        if self.is_unbound(n, prefix) {
            return Some(EditRefusal::NoPrefix);
        }
        if is_xmlns(prefix) {
            return Some(EditRefusal::XmlnsName);
        }
        None
    }

    /// The first reason against two names of an attribute, the one that it has and the one that it is to have.
    fn name_pair_refusal(
        &self,
        n: NodeId,
        old_prefix: &str,
        old_local: &str,
        prefix: &str,
        local: &str,
    ) -> Option<EditRefusal>
        ensures { result ≡ name_pair_refusal self.now.nodes n old_prefix.now old_local.now prefix.now local.now }
    {
        if !self.is_element(n) {
            return Some(EditRefusal::WrongKind);
        }
        if self.is_unbound(n, old_prefix) || self.is_unbound(n, prefix) {
            return Some(EditRefusal::NoPrefix);
        }
        let found = self.attribute_at(n, old_prefix, old_local);
        let other = self.attribute_at(n, prefix, local);
        if are_two(&found, &other) {
            return Some(EditRefusal::SameAttribute);
        }
        if declares_namespace(old_prefix, old_local) || declares_namespace(prefix, local) {
            return Some(EditRefusal::XmlnsName);
        }
        None
    }
}

/// Whether two nodes were found, and not one.
fn are_two(found: &Option<NodeId>, other: &Option<NodeId>) -> bool
    ensures { result ≡ are_two found.now other.now }
{
    match (found, other) {
        (Some(a), Some(b)) => a != b,
        _ => false,
    }
}
