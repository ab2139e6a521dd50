//! The bare table, and its reading calls.

ghost use Rattle.std.specs.Prelude.{◌≡◌, ◌<◌, ◌≤◌, ℕ, true, length, take, Some, None, IfOk, IfSome, OnErr, slice_index_or};
ghost use Rattle.std.specs.Bool.{OnTrue};
ghost use Rattle.std.specs.Option.{option_copied, option_map};
ghost use Rattle.doc_names.specs.Numbering.{Numbered};
ghost use Rattle.doc_table.specs.Kinds.{IsElementNamed};
ghost use Rattle.doc_table.specs.Lists.{mem};
ghost use Rattle.doc_table.specs.Table.{root_alone, kind_of, name_of, parent_of, kids_of, attrs_of, content_of, value_of, decls_of, is_live, numbered};
ghost use Rattle.doc_table.specs.Walks.{order, ancestors, characters_in, text_bytes};
ghost use Rattle.doc_table.specs.declared.limits.TheConstants.{MAX_LIVE_TEXT_BYTES};
ghost use Rattle.doc_table.specs.inner.Parts.{IsSound, contents, table_of};

use crate::ids::NodeId;
use crate::kind::Kind;
use crate::limits::MAX_LIVE_NODES;
use crate::node::{Decl, Node, NodeContent};
use crate::node_list::NodeList;
use doc_names::{NameId, NameTable};
use std::alloc::{AllocError, Global};
use std::marker::Model;

/// The nodes of a tree by number, its names, its counts and its pair cap, with no promise that they hang together.
///
/// Contracts see these parts as plain lists and numbers.
pub struct Bare {
    pub alloc: Global,
    pub nodes: Vec<Option<Node>>,
    pub names: NameTable,
    pub live: u32,
    pub text_bytes: usize,
    pub pair_cap: u32,
}

/// One call lets a whole table go, wherever its owner ends.
impl Drop for Bare {
    fn drop(self) {
        let Bare {
            alloc: _,
            nodes,
            names,
            live: _,
            text_bytes: _,
            pair_cap: _,
        } = self;
        drop(nodes);
        drop(names);
    }
}

impl Model for Bare {
    ghost use Rattle.doc_table.specs.inner.Parts.{Parts};

    ghost Value = { Parts };

    ghost view = { λ t. record { nodes = t.nodes.items; names = t.names; live = t.live; text_bytes = t.text_bytes; pair_cap = t.pair_cap } };
}

/// The node with a number, None where it was deleted or never made.
pub fn node_at(nodes: &[Option<Node>], n: NodeId) -> Option<&Node>
    ensures { option_copied result ≡ slice_index_or nodes.now n None }
{
    match nodes.get(n.index()) {
        Some(Some(node)) => Some(node),
        _ => None,
    }
}

impl Bare {
    /// The table of the root alone.
    pub fn new(alloc: Global) -> Result<Bare, AllocError>
        ensures alone { IfOk result (λ bare. contents bare ≡ root_alone) }
        ensures sound { IfOk result IsSound }
    {
        let mut nodes = Vec::new(alloc);
        nodes.push(Some(Node {
            parent: None,
            depth: 0,
            rank: 0,
            kids: NodeList::new(alloc),
            attributes: NodeList::new(alloc),
            content: NodeContent::Root,
        }))?;
        Ok(Bare {
            alloc,
            nodes,
            names: NameTable::new(alloc),
            live: 1,
            text_bytes: 0,
            pair_cap: MAX_LIVE_NODES,
        })
    }

    /// The number of a name; a new one takes the next number. Each of its texts is copied where it is new, and
    /// otherwise only looked up.
    pub fn name_id(&mut self, prefix: &str, local: &str, uri: &str) -> Result<NameId, AllocError>
        requires sound { IsSound self.old }
        ensures sound { IsSound self.new }
        ensures numbered { IfOk result (λ id. Numbered self.old.names self.new.names (record { prefix = prefix.now; local = local.now; uri = uri.now }) id) }
        ensures nodes { table_of self.new ≡ table_of self.old }
        ensures kept { self.new ≡ record self.old { names = self.new.names } }
        ensures cap { self.new.pair_cap ≡ self.old.pair_cap }
        ensures unchanged { OnErr result (self.new ≡ self.old) }
    {
        self.names.number(self.alloc, prefix, local, uri)
    }

    /// Sets the pair cap, beyond which no edit adds live nodes.
    pub fn set_pair_cap(&mut self, cap: u32)
        ensures { self.new ≡ record self.old { pair_cap = cap } }
    {
        self.pair_cap = cap;
    }

    /// The root.
    pub fn root(&self) -> NodeId
        ensures { result ≡ 0 }
    {
        NodeId::from_number(0)
    }

    /// The node with a number, None where it was deleted or never made.
    pub(crate) fn node(&self, n: NodeId) -> Option<&Node>
        ensures { option_copied result ≡ slice_index_or self.now.nodes n None }
    {
        node_at(self.nodes.as_slice(), n)
    }

    /// Whether a node with this number lives.
    pub fn contains(&self, n: NodeId) -> bool
        ensures { result ≡ is_live (table_of self.now) n }
    {
        self.node(n).is_some()
    }

    /// How many node numbers were ever made.
    pub fn numbers_made(&self) -> u32
        requires { IsSound self.now }
        ensures { result ≡ length (table_of self.now) }
    {
        self.laws();
        self.nodes.len() as u32
    }

    /// The number that the next node takes.
    pub fn next_number(&self) -> NodeId
        requires { IsSound self.now }
        ensures { result ≡ length (table_of self.now) }
    {
        NodeId::from_number(self.numbers_made())
    }

    /// How many nodes live, the root and attributes counted.
    pub fn live_nodes(&self) -> u32
        requires { IsSound self.now }
        ensures { result ≡ length (order (table_of self.now)) }
    {
        self.live
    }

    /// How many bytes of text live: attribute values, texts, comments and the data of processing instructions.
    pub fn live_text(&self) -> usize
        requires { IsSound self.now }
        ensures bytes { result ≡ text_bytes (table_of self.now) }
        ensures small { result ≤ MAX_LIVE_TEXT_BYTES }
    {
        self.text_bytes
    }

    /// The kind of a node, None for a number that isn't live.
    pub fn kind_of(&self, n: NodeId) -> Option<Kind>
        ensures { result ≡ kind_of (table_of self.now) n }
    {
        Some(self.node(n)?.content.kind())
    }

    /// The name of an element, an attribute or a processing instruction.
    pub fn name(&self, n: NodeId) -> Option<NameId>
        ensures name { option_map (numbered self.now.names) result ≡ name_of (table_of self.now) n }
        ensures known { IsSound self.now → IfSome result (λ id. id < length self.now.names) }
    {
        self.node(n)?.content.name()
    }

    /// Whether a node is an element with the name that has this number.
    fn is_element_named(&self, n: NodeId, name: NameId) -> bool
        ensures { OnTrue result (IsElementNamed (table_of self.now) (numbered self.now.names name) n) }
    {
        match self.node(n) {
            Some(node) => node.content.is_element_named(name),
            None => false,
        }
    }

    /// How many of some nodes stand before the first that is no element with the name that has this number. One look at each.
    pub fn elements_named(&self, nodes: &[NodeId], name: NameId) -> usize
        ensures within { result ≤ length nodes.now }
        ensures named { (n : ℕ) → mem n (take result nodes.now) ≡ true → IsElementNamed (table_of self.now) (numbered self.now.names name) n }
    {
        let mut count = 0;
        while count < nodes.len() && self.is_element_named(nodes[count], name) {
            count += 1;
        }
        count
    }

    /// The prefix of a name, empty where it has none.
    pub fn prefix_of(&self, name: NameId) -> &str
        ensures { result.now ≡ (numbered self.now.names name).prefix }
    {
        self.names.prefix(name)
    }

    /// The local part of a name.
    pub fn local_of(&self, name: NameId) -> &str
        ensures { result.now ≡ (numbered self.now.names name).local }
    {
        self.names.local(name)
    }

    /// The namespace of a name, empty where it has none.
    pub fn uri_of(&self, name: NameId) -> &str
        ensures { result.now ≡ (numbered self.now.names name).uri }
    {
        self.names.uri(name)
    }

    /// The node's parent: of an attribute its element, of the root None.
    pub fn parent(&self, n: NodeId) -> Option<NodeId>
        ensures { result ≡ parent_of (table_of self.now) n }
    {
        self.node(n)?.parent
    }

    /// The node's kids, in document order.
    pub fn kids(&self, n: NodeId) -> &[NodeId]
        ensures { result.now ≡ kids_of (table_of self.now) n }
    {
        match self.node(n) {
            Some(node) => node.kids.as_slice(),
            None => &[],
        }
    }

    /// The element's attributes, in document order.
    pub fn attrs(&self, n: NodeId) -> &[NodeId]
        ensures { result.now ≡ attrs_of (table_of self.now) n }
    {
        match self.node(n) {
            Some(node) => node.attributes.as_slice(),
            None => &[],
        }
    }

    /// The attribute's value, the characters of a text or comment, or a processing instruction's data; empty for the
    /// root and elements.
    pub fn value(&self, n: NodeId) -> &str
        ensures { result.now ≡ value_of (table_of self.now) n }
    {
        match self.node(n) {
            Some(node) => node.content.value(),
            None => "",
        }
    }

    /// The characters of a text node; empty for every other node.
    pub fn characters(&self, n: NodeId) -> &str
        ensures { result.now ≡ characters_in (content_of (table_of self.now) n) }
    {
        match self.node(n) {
            Some(node) => node.content.characters(),
            None => "",
        }
    }

    /// A node's declarations; none where it is no element.
    pub fn decls(&self, n: NodeId) -> &[Decl]
        ensures { result.now ≡ decls_of (table_of self.now) n }
    {
        match self.node(n) {
            Some(node) => node.content.decls(),
            None => &[],
        }
    }

    /// How many ancestors a live node has.
    pub fn depth(&self, n: NodeId) -> u32
        requires sound { IsSound self.now }
        requires lives { is_live (table_of self.now) n ≡ true }
        ensures { result ≡ length (ancestors (table_of self.now) n) }
    {
        match self.node(n) {
            Some(node) => node.depth,
            None => 0,
        }
    }
}
