//! Growing a table at its end.

ghost use Rattle.std.specs.Prelude.{◌≡◌, ◌<◌, ◌∷◌, [], ◌++◌, true, length, None, Some, Ok, IfOk, IfErr, OnOk, OnErr, slice_index_or, slice_set, vec_len, vec_capacity};
ghost use Rattle.doc_table.specs.Table.{AllLive, is_live, kind_of, value_in};
ghost use Rattle.doc_table.specs.Walks.{is_open, above};
ghost use Rattle.doc_table.specs.Growth.{Grew, FitsUnder, Refuses, passed_limit};
ghost use Rattle.doc_table.specs.Kinds.{holds_kids};
ghost use Rattle.doc_table.specs.inner.Growing.{grown, new_node};
ghost use Rattle.doc_table.specs.inner.Labels.{LabelIsBelow, content_labelled, kept_labelled};
ghost use Rattle.doc_table.specs.inner.Kept.{kept_link, linked};
ghost use Rattle.doc_table.specs.inner.Parts.{IsSound, table_of};

use crate::bare::Bare;
use crate::ids::NodeId;
use crate::limits::{MAX_DEPTH, MAX_LIVE_NODES, MAX_LIVE_TEXT_BYTES};
use crate::new_node::AppendError;
use crate::node::{Label, Node, NodeContent};
use crate::node_list::NodeList;
use sch_base::{ItemList, Text};
use std::alloc::{AllocError, Global};

impl Bare {
    /// Puts a node, given by its label and its text, under the root or an element, as the last of its kids or attributes
    /// and the last one of the tree in document order. A refused node changes nothing.
    ///
    /// Costs constant time, and the copying of the text.
    pub fn append(
        &mut self,
        parent: NodeId,
        label: &Label,
        text: &str,
    ) -> Result<NodeId, AppendError>
        requires sound { IsSound self.old }
        requires holder { holds_kids (kind_of (table_of self.old) parent) ≡ true }
        requires fits { FitsUnder (table_of self.old) parent (content_labelled self.old.names label.now text.now) }
        requires name { LabelIsBelow (length self.old.names) label.now }
        requires text { value_in (content_labelled self.old.names label.now text.now) ≡ text.now }
        requires last { is_open (table_of self.old) parent ≡ true }
        requires all_live { AllLive (table_of self.old) }
        ensures sound { IsSound self.new }
        ensures grew { IfOk result (λ n. Grew (table_of self.old) (table_of self.new) parent n (content_labelled self.old.names label.now text.now)) }
        ensures names { self.new.names ≡ self.old.names }
        ensures cap { self.new.pair_cap ≡ self.old.pair_cap }
        ensures within { OnOk result (passed_limit (table_of self.old) parent (content_labelled self.old.names label.now text.now) ≡ None) }
        ensures refused { IfErr result (Refuses (passed_limit (table_of self.old) parent (content_labelled self.old.names label.now text.now))) }
        ensures unchanged { OnErr result (self.new ≡ self.old) }
    {
        let depth = self.depth_under(parent);
        self.check_limits(parent, depth, label, text)?;
        let rank = self.next_rank();
        let number = self.grow(parent, depth, rank, label, text)?;
        Ok(number)
    }

    /// How many ancestors a node under this one has.
    pub fn depth_under(&self, parent: NodeId) -> u32
        requires sound { IsSound self.now }
        requires holder { holds_kids (kind_of (table_of self.now) parent) ≡ true }
        ensures { result ≡ length (above (table_of self.now) parent) }
    {
        match self.node(parent) {
            Some(node) => node.depth + 1,
            None => 1,
        }
    }

    /// Finds the first limit that a node with so many ancestors would pass.
    fn check_limits(
        &self,
        parent: NodeId,
        depth: u32,
        label: &Label,
        text: &str,
    ) -> Result<(), AppendError>
        requires sound { IsSound self.now }
        requires depth { depth ≡ length (above (table_of self.now) parent) }
        requires text { value_in (content_labelled self.now.names label.now text.now) ≡ text.now }
        ensures within { OnOk result (passed_limit (table_of self.now) parent (content_labelled self.now.names label.now text.now) ≡ None) }
        ensures refused { IfErr result (λ e. passed_limit (table_of self.now) parent (content_labelled self.now.names label.now text.now) ≡ Some e) }
    {
        if self.live_nodes() >= MAX_LIVE_NODES {
            return Err(AppendError::TooManyNodes);
        }
        if label.is_element() && depth > MAX_DEPTH {
            return Err(AppendError::TooDeep);
        }
        if text.len() > MAX_LIVE_TEXT_BYTES - self.live_text() {
            return Err(AppendError::TooMuchText);
        }
        Ok(())
    }

    /// Puts a node with so many ancestors and a rank under its parent, as the last of its kids or attributes, and counts
    /// it. The node takes the next number. What needs memory comes first.
    pub fn grow(
        &mut self,
        parent: NodeId,
        depth: u32,
        rank: u64,
        label: &Label,
        text: &str,
    ) -> Result<NodeId, AllocError>
        requires sound { IsSound self.old }
        requires parent { is_live (table_of self.old) parent ≡ true }
        ensures grown { OnOk result (self.new ≡ grown self.old parent depth rank label.now text.now) }
        ensures number { IfOk result (λ n. n ≡ length (table_of self.old)) }
        ensures unchanged { OnErr result (self.new ≡ self.old) }
    {
        let number = self.next_number();
        let node = copied_node(self.alloc, parent, depth, rank, label, text)?;
        attach(&mut self.nodes, parent, number, label.is_attribute(), node)?;
        self.live += 1;
        self.text_bytes += text.len();
        Ok(number)
    }
}

/// A node under a parent, with no kids and no attributes.
fn copied_node(
    alloc: Global,
    parent: NodeId,
    depth: u32,
    rank: u64,
    label: &Label,
    text: &str,
) -> Result<Node, AllocError>
    ensures { IfOk result (λ node. node ≡ new_node parent depth rank label.now text.now) }
{
    let kept_text = Text::copy(alloc, text)?;
    Ok(Node {
        parent: Some(parent),
        depth,
        rank,
        kids: NodeList::new(alloc),
        attributes: NodeList::new(alloc),
        content: kept_content(alloc, label, kept_text),
    })
}

/// What the tree keeps of a new node.
fn kept_content(alloc: Global, label: &Label, text: Text) -> NodeContent
    ensures { result ≡ kept_labelled label.now text }
{
    match label {
        Label::Element(name) => NodeContent::Element(*name, ItemList::new(alloc)),
        Label::Attribute(name) => NodeContent::Attribute(*name, text),
        Label::Text => NodeContent::Text(text),
        Label::Comment => NodeContent::Comment(text),
        Label::Pi(name) => NodeContent::Pi(*name, text),
    }
}

impl Node {
    /// Puts a number at the end of the kids, or of the attributes.
    fn link(&mut self, number: NodeId, is_attribute: bool) -> Result<(), AllocError>
        ensures linked { OnOk result (self.new ≡ linked self.old number is_attribute) }
        ensures unchanged { OnErr result (self.new ≡ self.old) }
    {
        if is_attribute {
            self.attributes.push(number)
        } else {
            self.kids.push(number)
        }
    }
}

/// Puts a number at the end of the kids, or of the attributes, of a node, and makes room for one node more.
fn link(
    nodes: &mut Vec<Option<Node>>,
    parent: NodeId,
    number: NodeId,
    is_attribute: bool,
) -> Result<(), AllocError>
    requires { parent < vec_len nodes.old }
    ensures linked { OnOk result (nodes.new.items ≡ slice_set nodes.old.items parent (kept_link number is_attribute (slice_index_or nodes.old.items parent None))) }
    ensures unchanged { OnErr result (nodes.new.items ≡ nodes.old.items) }
    ensures room { OnOk result (vec_len nodes.new < vec_capacity nodes.new) }
{
    nodes.reserve(1)?;
    let slot = &mut nodes[parent.index()];
    match slot {
        Some(node) => node.link(number, is_attribute),
        None => Ok(()),
    }
}

/// Puts a node at the end, under its parent. What needs memory comes first.
fn attach(
    nodes: &mut Vec<Option<Node>>,
    parent: NodeId,
    number: NodeId,
    is_attribute: bool,
    node: Node,
) -> Result<(), AllocError>
    requires { parent < vec_len nodes.old }
    ensures attached { OnOk result (nodes.new.items ≡ slice_set nodes.old.items parent (kept_link number is_attribute (slice_index_or nodes.old.items parent None)) ++ Some node ∷ []) }
    ensures unchanged { OnErr result (nodes.new.items ≡ nodes.old.items) }
{
    link(nodes, parent, number, is_attribute)?;
    nodes.push_reserved(Some(node));
    Ok(())
}

/// The node that was appended, where no limit is passed.
pub fn unlimited(appended: Result<NodeId, AppendError>) -> Result<NodeId, AllocError>
    requires { IfErr appended (Refuses None) }
    ensures { IfOk result (λ n. appended ≡ Ok n) }
{
    match appended {
        Ok(n) => Ok(n),
        Err(AppendError::Memory) => Err(AllocError),
        Err(AppendError::TooManyNodes) => unreachable!(),
        Err(AppendError::TooDeep) => unreachable!(),
        Err(AppendError::TooMuchText) => unreachable!(),
    }
}
