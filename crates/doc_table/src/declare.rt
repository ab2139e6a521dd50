//! Declaring namespaces at the elements of a table (Namespaces in XML 1.0).

ghost use Rattle.std.specs.Prelude.{◌≡◌, ◌<◌, None, Some, OnOk, OnErr, slice_index_or, slice_set, vec_len};
ghost use Rattle.doc_table.specs.declared.kind.Kind.TheVariants.{Element};
ghost use Rattle.doc_table.specs.Table.{kind_of};
ghost use Rattle.doc_table.specs.Declaring.{Declared};
ghost use Rattle.doc_table.specs.inner.KeptDecls.{kept_declaring, kept_declaring_at};
ghost use Rattle.doc_table.specs.inner.Parts.{IsSound, table_of};

use crate::bare::Bare;
use crate::ids::NodeId;
use crate::node::{Decl, Node, NodeContent};
use sch_base::Text;
use std::alloc::AllocError;

impl Bare {
    /// Declares the namespace of a prefix at an element; the empty prefix stands for the default namespace (Namespaces
    /// in XML 1.0, sections 3 and 6.2). The declaration becomes the element's last one.
    ///
    /// After want of memory nothing has changed. Costs the copying of the two texts.
    pub fn append_decl(
        &mut self,
        element: NodeId,
        prefix: &str,
        uri: &str,
    ) -> Result<(), AllocError>
        requires sound { IsSound self.old }
        requires under { kind_of (table_of self.old) element ≡ Some Element }
        ensures sound { IsSound self.new }
        ensures declared { OnOk result (Declared (table_of self.old) (table_of self.new) element (prefix.now, uri.now)) }
        ensures names { self.new.names ≡ self.old.names }
        ensures cap { self.new.pair_cap ≡ self.old.pair_cap }
        ensures unchanged { OnErr result (self.new ≡ self.old) }
    {
        let decl = Decl {
            prefix: Text::copy(self.alloc, prefix)?,
            uri: Text::copy(self.alloc, uri)?,
        };
        declare(&mut self.nodes, element, decl)
    }
}

impl Node {
    /// Puts a declaration at the end of those of an element.
    fn declare(&mut self, decl: Decl) -> Result<(), AllocError>
        ensures declared { OnOk result (self.new ≡ kept_declaring decl self.old) }
        ensures unchanged { OnErr result (self.new ≡ self.old) }
    {
        match &mut self.content {
            NodeContent::Element(_, decls) => decls.push(decl),
            NodeContent::Root
            | NodeContent::Attribute(_, _)
            | NodeContent::Text(_)
            | NodeContent::Comment(_)
            | NodeContent::Pi(_, _) => Ok(()),
        }
    }
}

/// Puts a declaration at the end of those of an element among the nodes.
fn declare(nodes: &mut Vec<Option<Node>>, n: NodeId, decl: Decl) -> Result<(), AllocError>
    requires { n < vec_len nodes.old }
    ensures declared { OnOk result (nodes.new.items ≡ slice_set nodes.old.items n (kept_declaring_at decl (slice_index_or nodes.old.items n None))) }
    ensures unchanged { OnErr result (nodes.new.items ≡ nodes.old.items) }
    ensures len { vec_len nodes.new ≡ vec_len nodes.old }
{
    let slot = &mut nodes[n.index()];
    match slot {
        Some(node) => node.declare(decl),
        None => Ok(()),
    }
}
