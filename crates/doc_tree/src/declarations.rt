//! Namespace declarations, and the namespaces of prefixes in scope (Namespaces in XML 1.0).

ghost use Rattle.std.specs.Prelude.{◌≡◌, None, Some, length, OnOk, OnErr};
ghost use Rattle.std.specs.Option.{option_copied};
ghost use Rattle.std.specs.Str.{bytes_eq};
ghost use Rattle.doc_table.specs.declared.kind.Kind.TheVariants.{Element};
ghost use Rattle.doc_table.specs.Table.{kind_of, decls_of};
ghost use Rattle.doc_tree.specs.Scope.{decl_at, first_declared, namespace_at, scope_at, undeclared, xml_namespace, xml_prefix, xmlns_prefix};
ghost use Rattle.doc_table.specs.Declaring.{Declared};

use crate::tree::Tree;
use doc_table::{Decl, NodeId};
use std::alloc::AllocError;

impl Tree {
    /// Declares the namespace of a prefix at an element that doesn't declare it yet; the empty prefix stands for the
    /// default namespace (Namespaces in XML 1.0, sections 3 and 6.2). The declaration becomes the element's last one.
    ///
    /// After want of memory nothing has changed. Costs the copying of the two texts.
    pub fn append_decl(
        &mut self,
        element: NodeId,
        prefix: &str,
        uri: &str,
    ) -> Result<(), AllocError>
        requires under { kind_of self.old.nodes element ≡ Some Element }
        requires is_new { first_declared (decls_of self.old.nodes element) prefix.now ≡ None }
        ensures declared { OnOk result (Declared self.old.nodes self.new.nodes element (prefix.now, uri.now)) }
        ensures names { self.new.names ≡ self.old.names }
        ensures cap { self.new.pair_cap ≡ self.old.pair_cap }
        ensures unchanged { OnErr result (self.new ≡ self.old) }
    {
        self.bare.append_decl(element, prefix, uri)
    }

    /// How many declarations an element has; none where the node is no element.
    pub fn decl_count(&self, n: NodeId) -> usize
        ensures { result ≡ length (decls_of self.now.nodes n) }
    {
        self.decls(n).len()
    }

    /// The prefix of a node's declaration with this number, counted from 0 in their order; empty for the default
    /// namespace, and past the last one.
    pub fn decl_prefix(&self, n: NodeId, i: usize) -> &str
        ensures { result.now ≡ (decl_at (decls_of self.now.nodes n) i).0 }
    {
        match self.decls(n).get(i) {
            Some(decl) => decl.prefix(),
            None => "",
        }
    }

    /// The namespace of a node's declaration with this number, counted from 0 in their order; empty past the last one.
    pub fn decl_uri(&self, n: NodeId, i: usize) -> &str
        ensures { result.now ≡ (decl_at (decls_of self.now.nodes n) i).1 }
    {
        match self.decls(n).get(i) {
            Some(decl) => decl.uri(),
            None => "",
        }
    }

    /// The namespace of a prefix in scope at a node, by the nearest declaration upwards; the empty prefix stands for the
    /// default namespace, which is empty where none is declared. The prefix `xml` is always in scope and `xmlns` never;
    /// None where the prefix isn't in scope (Namespaces in XML 1.0, sections 3 and 6).
    ///
    /// Costs a comparison for each declaration at the node and above it.
    pub fn lookup(&self, n: NodeId, prefix: &str) -> Option<&str>
        ensures { option_copied result ≡ namespace_at self.now.nodes n prefix.now }
    {
        if is_xmlns(prefix) {
            return None;
        }
        if is_xml(prefix) {
            return Some(xml_namespace());
        }
        match self.nearest(n, prefix) {
            Some(uri) => Some(uri),
            None => undeclared_namespace(prefix),
        }
    }

    /// The namespace that the nearest declaration of a prefix gives it.
    fn nearest(&self, n: NodeId, prefix: &str) -> Option<&str>
        ensures { option_copied result ≡ first_declared (scope_at self.now.nodes n) prefix.now }
    {
        self.laws();
        if let Some(uri) = declared(self.decls(n), prefix) {
            return Some(uri);
        }
        match self.parent(n) {
            Some(parent) => self.nearest(parent, prefix),
            None => None,
        }
    }

    /// A node's declarations; none where it is no element.
    fn decls(&self, n: NodeId) -> &[Decl]
        ensures { result.now ≡ decls_of self.now.nodes n }
    {
        self.bare.decls(n)
    }
}

/// The namespace that the first declaration of a prefix gives it.
fn declared<'a>(decls: &'a [Decl], prefix: &str) -> Option<&'a str>
    ensures { option_copied result ≡ first_declared decls.now prefix.now }
{
    for decl in decls {
        if decl.prefix() == prefix {
            return Some(decl.uri());
        }
    }
    None
}

/// The namespace of a prefix without a declaration: none for the empty one, and another isn't in scope.
pub fn undeclared_namespace(prefix: &str) -> Option<&'static str>
    ensures { option_copied result ≡ undeclared prefix.now }
{
    if prefix.is_empty() { Some("") } else { None }
}

/// Whether a prefix is `xmlns`, which is never in scope.
#[tactic(auto, unfolding(crate::specs::Scope::xmlns_prefix))]
pub fn is_xmlns(prefix: &str) -> bool
    ensures { result ≡ bytes_eq prefix.now xmlns_prefix }
{
    prefix == "xmlns"
}

/// Whether a prefix is `xml`, which is always in scope.
#[tactic(auto, unfolding(crate::specs::Scope::xml_prefix))]
pub fn is_xml(prefix: &str) -> bool
    ensures { result ≡ bytes_eq prefix.now xml_prefix }
{
    prefix == "xml"
}

/// The namespace of the prefix `xml`.
#[tactic(auto, unfolding(crate::specs::Scope::xml_namespace))]
pub fn xml_namespace() -> &'static str
    ensures { result.now ≡ xml_namespace }
{
    "http://www.w3.org/XML/1998/namespace"
}
