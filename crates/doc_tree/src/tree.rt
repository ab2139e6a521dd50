//! The tree, and its reading calls.

ghost use Rattle.std.specs.Prelude.{◌≡◌, ◌<◌, ◌≤◌, ℕ, true, length, take, Some, IfOk, IfSome, OnErr};
ghost use Rattle.std.specs.Option.{option_map};
ghost use Rattle.doc_table.specs.Table.{root_alone, kind_of, name_of, parent_of, kids_of, attrs_of, value_of, is_live, numbered};
ghost use Rattle.doc_names.specs.Numbering.{Numbered};
ghost use Rattle.doc_table.specs.Kinds.{IsElementNamed, is_document, is_element, is_kind};
ghost use Rattle.doc_table.specs.Lists.{mem};
ghost use Rattle.doc_tree.specs.NameTests.{has_name};
ghost use Rattle.doc_table.specs.Walks.{order};

use crate::alike::UNKNOWN;
use doc_names::NameId;
use doc_table::{Bare, Kind, NodeId};
use std::alloc::{AllocError, Global};
use std::marker::Model;

/// A document as a tree of numbered nodes (XPath 1.0, section 5), with the names that it has numbered.
///
/// Contracts see its table of nodes and its list of names. The calls that ask for a live node say so; the others
/// answer of a number that isn't live as of a node that holds nothing.
pub struct Tree {
    pub(crate) bare: Bare,
    /// How many elements like it stand before each node among its siblings, by number, as far as they are counted; empty after an edit.
    pub(crate) alike: Vec<u32>,
}

/// One call lets a whole tree go, wherever its owner ends.
impl Drop for Tree {
    fn drop(self) {
        let Tree { bare, alike } = self;
        drop(bare);
        drop(alike);
    }
}

impl Model for Tree {
    ghost use Rattle.doc_table.specs.Table.{Contents};

    ghost Value = { Contents };

    ghost use Rattle.doc_table.specs.inner.Parts.{contents, IsSound};

    ghost view = { λ t. contents t.bare };

    ghost use Rattle.doc_table.specs.inner.Parts.{table_of};
    ghost use Rattle.doc_tree.specs.inner.Counted.{AreCounted};

    ghost invariant = { λ t. IsSound t.bare × AreCounted (table_of t.bare) t.alike.items };
}

impl Tree {
    /// A tree of the root alone.
    pub fn new(alloc: Global) -> Result<Tree, AllocError>
        ensures { IfOk result (λ tree. tree ≡ root_alone) }
    {
        let mut alike = Vec::new(alloc);
        alike.push(UNKNOWN)?;
        Ok(Tree {
            bare: Bare::new(alloc)?,
            alike,
        })
    }

    /// The number of a name; a new one takes the next number. Each of its texts is copied where it is new, and
    /// otherwise only looked up.
    pub fn name_id(&mut self, prefix: &str, local: &str, uri: &str) -> Result<NameId, AllocError>
        ensures numbered { IfOk result (λ id. Numbered self.old.names self.new.names (record { prefix = prefix.now; local = local.now; uri = uri.now }) id) }
        ensures nodes { self.new.nodes ≡ self.old.nodes }
        ensures cap { self.new.pair_cap ≡ self.old.pair_cap }
        ensures unchanged { OnErr result (self.new ≡ self.old) }
    {
        self.bare.name_id(prefix, local, uri)
    }

    /// The root.
    pub fn root(&self) -> NodeId
        ensures { result ≡ 0 }
    {
        self.bare.root()
    }

    /// Whether a node with this number lives in the tree.
    pub fn contains(&self, n: NodeId) -> bool
        ensures { result ≡ is_live self.now.nodes n }
    {
        self.bare.contains(n)
    }

    /// How many nodes live, the root and attributes counted.
    pub fn live_nodes(&self) -> u32
        ensures { result ≡ length (order self.now.nodes) }
    {
        self.bare.live_nodes()
    }

    /// The kind of a live node.
    pub fn kind(&self, n: NodeId) -> Kind
        requires { is_live self.now.nodes n ≡ true }
        ensures { kind_of self.now.nodes n ≡ Some result }
    {
        match self.kind_of(n) {
            Some(kind) => kind,
            None => unreachable!(),
        }
    }

    /// The kind of a node, None for a number that isn't live.
    pub fn kind_of(&self, n: NodeId) -> Option<Kind>
        ensures { result ≡ kind_of self.now.nodes n }
    {
        self.bare.kind_of(n)
    }

    /// Whether the node is of a kind; a number that isn't live is of none.
    pub fn is_kind(&self, n: NodeId, kind: Kind) -> bool
        ensures { result ≡ is_kind kind (kind_of self.now.nodes n) }
    {
        match self.kind_of(n) {
            Some(found) => found == kind,
            None => false,
        }
    }

    /// Whether the node is an element; a number that isn't live is none.
    pub fn is_element(&self, n: NodeId) -> bool
        ensures { result ≡ is_element (kind_of self.now.nodes n) }
    {
        self.is_kind(n, Kind::Element)
    }

    /// Whether the root has exactly one element kid and no text kid.
    pub fn is_document(&self) -> bool
        ensures { result ≡ is_document self.now.nodes }
    {
        let mut elements = 0usize;
        let mut texts = 0usize;
        for kid in self.kids(self.root()) {
            match self.kind_of(*kid) {
                Some(Kind::Element) => elements += 1,
                Some(Kind::Text) => texts += 1,
                _ => (),
            }
        }
        elements == 1 && texts == 0
    }

    /// The name of an element, an attribute or a processing instruction.
    pub fn name(&self, n: NodeId) -> Option<NameId>
        ensures name { option_map (numbered self.now.names) result ≡ name_of self.now.nodes n }
        ensures known { IfSome result (λ id. id < length self.now.names) }
    {
        self.bare.name(n)
    }

    /// Whether the node has this expanded name; the namespace is empty for none. A node without a name has no such.
    ///
    /// The local parts are compared first: names differ in them more often than in the namespace.
    pub fn has_name(&self, n: NodeId, uri: &str, local: &str) -> bool
        ensures { result ≡ has_name self.now.nodes n uri.now local.now }
    {
        match self.name(n) {
            Some(name) => self.local_of(name) == local && self.uri_of(name) == uri,
            None => false,
        }
    }

    /// How many of some nodes stand before the first that is no element with the name that has this number. One look at each.
    pub fn elements_named(&self, nodes: &[NodeId], name: NameId) -> usize
        ensures within { result ≤ length nodes.now }
        ensures named { (n : ℕ) → mem n (take result nodes.now) ≡ true → IsElementNamed self.now.nodes (numbered self.now.names name) n }
    {
        self.bare.elements_named(nodes, name)
    }

    /// The prefix of a name, empty where it has none.
    pub fn prefix_of(&self, name: NameId) -> &str
        requires { name < length self.now.names }
        ensures { result.now ≡ (numbered self.now.names name).prefix }
    {
        self.bare.prefix_of(name)
    }

    /// The local part of a name.
    pub fn local_of(&self, name: NameId) -> &str
        requires { name < length self.now.names }
        ensures { result.now ≡ (numbered self.now.names name).local }
    {
        self.bare.local_of(name)
    }

    /// The namespace of a name, empty where it has none.
    pub fn uri_of(&self, name: NameId) -> &str
        requires { name < length self.now.names }
        ensures { result.now ≡ (numbered self.now.names name).uri }
    {
        self.bare.uri_of(name)
    }

    /// The node's parent: of an attribute its element, of the root None.
    pub fn parent(&self, n: NodeId) -> Option<NodeId>
        ensures { result ≡ parent_of self.now.nodes n }
    {
        self.bare.parent(n)
    }

    /// The node's kids, in document order.
    pub fn kids(&self, n: NodeId) -> &[NodeId]
        ensures { result.now ≡ kids_of self.now.nodes n }
    {
        self.bare.kids(n)
    }

    /// The element's attributes, in document order.
    pub fn attrs(&self, n: NodeId) -> &[NodeId]
        ensures { result.now ≡ attrs_of self.now.nodes n }
    {
        self.bare.attrs(n)
    }

    /// The attribute's value, the characters of a text or comment, or a processing instruction's data; empty for the
    /// root and elements.
    pub fn value(&self, n: NodeId) -> &str
        ensures { result.now ≡ value_of self.now.nodes n }
    {
        self.bare.value(n)
    }
}
