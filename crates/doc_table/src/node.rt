//! A node as a tree keeps it.

ghost use Rattle.std.specs.Prelude.{◌≡◌, ◌<◌, ℕ, List, IfSome, Some};
ghost use Rattle.std.specs.Bool.{OnTrue};
ghost use Rattle.std.specs.Option.{option_map};
ghost use Rattle.doc_table.specs.declared.kind.Kind.TheVariants as kinds;
ghost use Rattle.doc_table.specs.Table.{kind_in, name_in, value_in, decls_in, numbered, Name};
ghost use Rattle.doc_table.specs.Walks.{characters_in};
ghost use Rattle.doc_table.specs.inner.Views.{content_seen};
ghost use Rattle.doc_table.specs.inner.Kept.{NameIsBelow};
ghost use Rattle.doc_table.specs.inner.Labels.{label_is_element, label_is_attribute};

use crate::ids::NodeId;
use crate::kind::Kind;
use crate::node_list::NodeList;
use doc_names::NameId;
use sch_base::{ItemList, Text};
use std::marker::Model;

/// A namespace declaration, seen by contracts as the pair of its prefix and its namespace.
pub struct Decl {
    pub prefix: Text,
    pub uri: Text,
}

/// One call lets a declaration go, wherever its owner ends.
impl Drop for Decl {
    fn drop(self) {
        let Decl { prefix, uri } = self;
        drop(prefix);
        drop(uri);
    }
}

impl Model for Decl {
    ghost use Rattle.std.specs.Prelude.{List, ℕ};

    ghost Value = { List ℕ × List ℕ };

    ghost view = { λ d. (d.prefix, d.uri) };
}

impl Decl {
    /// The prefix, empty for the default namespace.
    pub fn prefix(&self) -> &str
        ensures { result.now ≡ self.now.0 }
    {
        self.prefix.as_str()
    }

    /// The namespace.
    pub fn uri(&self) -> &str
        ensures { result.now ≡ self.now.1 }
    {
        self.uri.as_str()
    }
}

/// What a node holds by its kind.
pub enum NodeContent {
    Root,
    Element(NameId, ItemList<Decl>),
    Attribute(NameId, Text),
    Text(Text),
    Comment(Text),
    Pi(NameId, Text),
}

/// One call lets what a node holds go, wherever its owner ends.
impl Drop for NodeContent {
    fn drop(self) {
        match self {
            NodeContent::Root => {}
            NodeContent::Element(_, decls) => drop(decls),
            NodeContent::Attribute(_, text)
            | NodeContent::Text(text)
            | NodeContent::Comment(text)
            | NodeContent::Pi(_, text) => drop(text),
        }
    }
}

/// The kind of a node to be made, and its name where it has one.
#[derive(Clone, Copy)]
pub enum Label {
    Element(NameId),
    Attribute(NameId),
    Text,
    Comment,
    Pi(NameId),
}

/// A node: its parent, how many ancestors it has, its rank in document order, its kids and attributes, and what it holds.
pub struct Node {
    pub parent: Option<NodeId>,
    pub depth: u32,
    pub rank: u64,
    pub kids: NodeList,
    pub attributes: NodeList,
    pub content: NodeContent,
}

/// One call lets a node go, wherever its owner ends.
impl Drop for Node {
    fn drop(self) {
        let Node {
            parent: _,
            depth: _,
            rank: _,
            kids,
            attributes,
            content,
        } = self;
        drop(kids);
        drop(attributes);
        drop(content);
    }
}

impl NodeContent {
    /// The kind of a node that holds this.
    pub fn kind(&self) -> Kind
        ensures { (names : List Name) → kind_in (content_seen names self.now) ≡ result }
    {
        match self {
            NodeContent::Root => Kind::Root,
            NodeContent::Element(_, _) => Kind::Element,
            NodeContent::Attribute(_, _) => Kind::Attribute,
            NodeContent::Text(_) => Kind::Text,
            NodeContent::Comment(_) => Kind::Comment,
            NodeContent::Pi(_, _) => Kind::Pi,
        }
    }

    /// The name, where it has one.
    pub fn name(&self) -> Option<NameId>
        ensures name { (names : List Name) → option_map (numbered names) result ≡ name_in (content_seen names self.now) }
        ensures known { (count : ℕ) → NameIsBelow count self.now → IfSome result (λ id. id < count) }
    {
        match self {
            NodeContent::Element(name, _)
            | NodeContent::Attribute(name, _)
            | NodeContent::Pi(name, _) => Some(*name),
            NodeContent::Root | NodeContent::Text(_) | NodeContent::Comment(_) => None,
        }
    }

    /// Whether it is an element's, with the name that has this number.
    pub fn is_element_named(&self, name: NameId) -> bool
        ensures kind { OnTrue result ((names : List Name) → kind_in (content_seen names self.now) ≡ kinds.Element) }
        ensures name { OnTrue result ((names : List Name) → name_in (content_seen names self.now) ≡ Some (numbered names name)) }
    {
        match self {
            NodeContent::Element(own, _) => *own == name,
            NodeContent::Root | NodeContent::Attribute(_, _) | NodeContent::Text(_) => false,
            NodeContent::Comment(_) | NodeContent::Pi(_, _) => false,
        }
    }

    /// The value, the characters or the data; empty for the root and elements.
    pub fn value(&self) -> &str
        ensures { (names : List Name) → value_in (content_seen names self.now) ≡ result.now }
    {
        match self {
            NodeContent::Root | NodeContent::Element(_, _) => "",
            NodeContent::Attribute(_, value) => value.as_str(),
            NodeContent::Text(text) | NodeContent::Comment(text) => text.as_str(),
            NodeContent::Pi(_, text) => text.as_str(),
        }
    }

    /// The characters of a text node; empty for every other kind.
    pub fn characters(&self) -> &str
        ensures { (names : List Name) → characters_in (Some (content_seen names self.now)) ≡ result.now }
    {
        match self {
            NodeContent::Text(text) => text.as_str(),
            NodeContent::Root | NodeContent::Element(_, _) | NodeContent::Attribute(_, _) => "",
            NodeContent::Comment(_) | NodeContent::Pi(_, _) => "",
        }
    }

    /// The declarations; none where it is no element's content.
    pub fn decls(&self) -> &[Decl]
        ensures { (names : List Name) → decls_in (content_seen names self.now) ≡ result.now }
    {
        match self {
            NodeContent::Element(_, decls) => decls.as_slice(),
            NodeContent::Root
            | NodeContent::Attribute(_, _)
            | NodeContent::Text(_)
            | NodeContent::Comment(_)
            | NodeContent::Pi(_, _) => &[],
        }
    }
}

impl Label {
    /// Whether it is an element's.
    pub fn is_element(&self) -> bool
        ensures { result ≡ label_is_element self.now }
    {
        match self {
            Label::Element(_) => true,
            Label::Attribute(_) | Label::Text | Label::Comment | Label::Pi(_) => false,
        }
    }

    /// Whether it is an attribute's.
    pub fn is_attribute(&self) -> bool
        ensures { result ≡ label_is_attribute self.now }
    {
        match self {
            Label::Attribute(_) => true,
            Label::Element(_) | Label::Text | Label::Comment | Label::Pi(_) => false,
        }
    }
}
