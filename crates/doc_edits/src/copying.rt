//! Copies of the nodes of a piece.

ghost use Rattle.std.specs.Prelude.{◌≡◌, ◌+◌, ◌<◌, ◌≤◌, ◌^◌, ℕ, None, Some, IfOk, length, map, slice_index_or, true};
ghost use Rattle.doc_names.specs.Name.{numbered};
ghost use Rattle.doc_table.specs.Lists.{mem, place_in};
ghost use Rattle.doc_table.specs.declared.node.NodeContent.TheVariants.{Attribute, Element, Pi};
ghost use Rattle.doc_table.specs.inner.Kept.{NameIsBelow, depth_at};
ghost use Rattle.doc_table.specs.inner.Views.{content_seen};
ghost use Rattle.doc_edits.specs.Changes.{given_parent};
ghost use Rattle.doc_edits.specs.Keeping.{NamesGrow};
ghost use Rattle.doc_edits.specs.inner.Copies.{AreCopies, IsCopy, number_in, rank_given};

use crate::ranking::Spread;
use doc_names::{NameId, NameTable};
use doc_table::{Bare, Decl, Node, NodeContent, NodeId, NodeList, node_at};
use sch_base::{ItemList, Text};
use std::alloc::{AllocError, Global};

/// Where the nodes of a piece come: the number that each gets, the node under which the piece comes, with the number of its
/// ancestors, and their ranks.
pub(crate) struct Placement {
    /// By number in the piece.
    pub(crate) numbers: Vec<NodeId>,
    /// What stands for the number of no node of the piece.
    pub(crate) past: NodeId,
    /// The first number.
    pub(crate) first: usize,
    pub(crate) parent: NodeId,
    pub(crate) depth: u32,
    pub(crate) spread: Spread,
}

/// One call lets it go, wherever its owner ends.
impl Drop for Placement {
    fn drop(self) {
        let Placement {
            numbers,
            past: _,
            first: _,
            parent: _,
            depth: _,
            spread: _,
        } = self;
        drop(numbers);
    }
}

/// The numbers that the nodes of a list get, from the first on, by their own numbers; there is room for so many of these.
pub(crate) fn numbers_for(
    alloc: Global,
    room: usize,
    nodes: &[NodeId],
    first: usize,
) -> Result<Vec<NodeId>, AllocError>
    requires few { first + length nodes.now < 2 ^ 32 }
    requires room { (m : ℕ) → mem m nodes.now ≡ true → m < room }
    ensures { IfOk result (λ numbers. (m : ℕ) → slice_index_or numbers.items m (first + length nodes.now) ≡ first + place_in m nodes.now) }
{
    let past = NodeId::from_number((first + nodes.len()) as u32);
    let mut numbers = vec![in alloc; past; room]?;
    let mut i = nodes.len();
    while i > 0 {
        i -= 1;
        numbers[nodes[i].index()] = NodeId::from_number((first + i) as u32);
    }
    Ok(numbers)
}

/// Numbers a name of another table.
fn name_again(
    names: &mut NameTable,
    alloc: Global,
    from: &NameTable,
    name: NameId,
) -> Result<NameId, AllocError>
    ensures name { IfOk result (λ id. numbered names.new id ≡ numbered from.now name) }
    ensures known { IfOk result (λ id. id < length names.new) }
    ensures grown { NamesGrow names.old names.new }
{
    names.number(alloc, from.prefix(name), from.local(name), from.uri(name))
}

/// Copies a declaration.
fn copy_decl(alloc: Global, decl: &Decl) -> Result<Decl, AllocError>
    ensures { IfOk result (λ copy. copy ≡ decl.now) }
{
    let prefix = Text::copy(alloc, decl.prefix())?;
    let uri = Text::copy(alloc, decl.uri())?;
    Ok(Decl { prefix, uri })
}

/// Copies declarations.
fn copy_decls(alloc: Global, decls: &[Decl]) -> Result<ItemList<Decl>, AllocError>
    ensures { IfOk result (λ list. list ≡ decls.now) }
{
    let mut list = ItemList::new(alloc);
    for decl in decls {
        let copy = copy_decl(alloc, decl)?;
        list.push(copy)?;
    }
    Ok(list)
}

/// Copies the text of a node with a name, which is numbered anew.
fn copy_named(
    names: &mut NameTable,
    alloc: Global,
    from: &NameTable,
    name: NameId,
    text: &Text,
) -> Result<(NameId, Text), AllocError>
    ensures name { IfOk result (λ copy. numbered names.new copy.0 ≡ numbered from.now name) }
    ensures known { IfOk result (λ copy. copy.0 < length names.new) }
    ensures text { IfOk result (λ copy. copy.1 ≡ text.now) }
    ensures grown { NamesGrow names.old names.new }
{
    let id = name_again(names, alloc, from, name)?;
    let copied = Text::copy(alloc, text.as_str())?;
    Ok((id, copied))
}

/// Copies what an element holds; its name is numbered anew.
fn copy_element(
    names: &mut NameTable,
    alloc: Global,
    from: &NameTable,
    name: NameId,
    decls: &ItemList<Decl>,
) -> Result<NodeContent, AllocError>
    ensures seen { IfOk result (λ copy. content_seen names.new copy ≡ content_seen from.now (Element name decls.now)) }
    ensures known { IfOk result (λ copy. NameIsBelow (length names.new) copy) }
    ensures grown { NamesGrow names.old names.new }
{
    let id = name_again(names, alloc, from, name)?;
    let list = copy_decls(alloc, decls.as_slice())?;
    Ok(NodeContent::Element(id, list))
}

/// Copies what an attribute holds; its name is numbered anew.
fn copy_attribute(
    names: &mut NameTable,
    alloc: Global,
    from: &NameTable,
    name: NameId,
    value: &Text,
) -> Result<NodeContent, AllocError>
    ensures seen { IfOk result (λ copy. content_seen names.new copy ≡ content_seen from.now (Attribute name value.now)) }
    ensures known { IfOk result (λ copy. NameIsBelow (length names.new) copy) }
    ensures grown { NamesGrow names.old names.new }
{
    let (id, text) = copy_named(names, alloc, from, name, value)?;
    Ok(NodeContent::Attribute(id, text))
}

/// Copies what a processing instruction holds; its target is numbered anew.
fn copy_instruction(
    names: &mut NameTable,
    alloc: Global,
    from: &NameTable,
    target: NameId,
    text: &Text,
) -> Result<NodeContent, AllocError>
    ensures seen { IfOk result (λ copy. content_seen names.new copy ≡ content_seen from.now (Pi target text.now)) }
    ensures known { IfOk result (λ copy. NameIsBelow (length names.new) copy) }
    ensures grown { NamesGrow names.old names.new }
{
    let (id, data) = copy_named(names, alloc, from, target, text)?;
    Ok(NodeContent::Pi(id, data))
}

/// Copies what a node holds; its name is numbered anew.
fn copy_content(
    names: &mut NameTable,
    alloc: Global,
    from: &NameTable,
    content: &NodeContent,
) -> Result<NodeContent, AllocError>
    ensures seen { IfOk result (λ copy. content_seen names.new copy ≡ content_seen from.now content.now) }
    ensures known { IfOk result (λ copy. NameIsBelow (length names.new) copy) }
    ensures grown { NamesGrow names.old names.new }
{
    match content {
        NodeContent::Root => Ok(NodeContent::Root),
        NodeContent::Element(name, decls) => copy_element(names, alloc, from, *name, decls),
        NodeContent::Attribute(name, value) => copy_attribute(names, alloc, from, *name, value),
        NodeContent::Text(characters) => {
            let text = Text::copy(alloc, characters.as_str())?;
            Ok(NodeContent::Text(text))
        }
        NodeContent::Comment(characters) => {
            let text = Text::copy(alloc, characters.as_str())?;
            Ok(NodeContent::Comment(text))
        }
        NodeContent::Pi(name, data) => copy_instruction(names, alloc, from, *name, data),
    }
}

impl Placement {
    /// The number that a node of the piece gets.
    fn number_of(&self, n: NodeId) -> NodeId
        ensures { result ≡ number_in self.now n }
    {
        match self.numbers.get(n.index()) {
            Some(number) => *number,
            None => self.past,
        }
    }

    /// The numbers that nodes of the piece get.
    fn numbers_of(&self, alloc: Global, nodes: &[NodeId]) -> Result<NodeList, AllocError>
        ensures { IfOk result (λ list. list ≡ map (number_in self.now) nodes.now) }
    {
        let mut list = NodeList::new(alloc);
        for n in nodes {
            list.push(self.number_of(*n))?;
        }
        Ok(list)
    }

    /// The parent of a copy.
    fn parent_of(&self, parent: Option<NodeId>) -> Option<NodeId>
        ensures { result ≡ given_parent (number_in self.now) self.now.parent parent }
    {
        let n = parent?;
        if n.index() == 0 {
            return Some(self.parent);
        }
        Some(self.number_of(n))
    }

    /// The rank of the copy of a node.
    fn rank_of(&self, n: NodeId) -> u64
        requires number { self.now.first ≤ number_in self.now n }
        requires small { rank_given self.now n < 2 ^ 64 }
        ensures { result ≡ rank_given self.now n }
    {
        let place = self.number_of(n).index() - self.first;
        self.spread.first + place as u64 * self.spread.step
    }

    /// Copies a node, with this rank.
    fn copy_node(
        &self,
        names: &mut NameTable,
        alloc: Global,
        from: &NameTable,
        node: &Node,
        rank: u64,
    ) -> Result<Node, AllocError>
        requires { self.now.depth + node.now.depth < 2 ^ 32 }
        ensures copied { IfOk result (λ copy. IsCopy names.new from.now self.now rank (Some node.now) (Some copy)) }
        ensures grown { NamesGrow names.old names.new }
    {
        let content = copy_content(names, alloc, from, &node.content)?;
        let kids = self.numbers_of(alloc, node.kids.as_slice())?;
        let attributes = self.numbers_of(alloc, node.attributes.as_slice())?;
        Ok(Node {
            parent: self.parent_of(node.parent),
            depth: self.depth + node.depth,
            rank,
            kids,
            attributes,
            content,
        })
    }

    /// Copies the node at a number of the piece.
    fn copy_at(
        &self,
        names: &mut NameTable,
        alloc: Global,
        piece: &Bare,
        n: NodeId,
    ) -> Result<Option<Node>, AllocError>
        requires depth { self.now.depth + depth_at (slice_index_or piece.now.nodes n None) < 2 ^ 32 }
        requires number { self.now.first ≤ number_in self.now n }
        requires rank { rank_given self.now n < 2 ^ 64 }
        ensures copied { IfOk result (λ copy. IsCopy names.new piece.now.names self.now (rank_given self.now n) (slice_index_or piece.now.nodes n None) copy) }
        ensures grown { NamesGrow names.old names.new }
    {
        match node_at(piece.nodes.as_slice(), n) {
            Some(node) => {
                let rank = self.rank_of(n);
                let copy = self.copy_node(names, alloc, &piece.names, node, rank)?;
                Ok(Some(copy))
            }
            None => Ok(None),
        }
    }

    /// Copies the nodes at some numbers of the piece.
    pub(crate) fn copy_all(
        &self,
        names: &mut NameTable,
        alloc: Global,
        piece: &Bare,
        nodes: &[NodeId],
    ) -> Result<Vec<Option<Node>>, AllocError>
        requires depths { (n : ℕ) → self.now.depth + depth_at (slice_index_or piece.now.nodes n None) < 2 ^ 32 }
        requires numbers { (n : ℕ) → self.now.first ≤ number_in self.now n }
        requires ranks { (n : ℕ) → rank_given self.now n < 2 ^ 64 }
        ensures copied { IfOk result (λ copies. AreCopies names.new piece.now.names self.now piece.now.nodes nodes.now copies.items) }
        ensures grown { NamesGrow names.old names.new }
    {
        let mut copies = Vec::new(alloc);
        for n in nodes {
            let copy = self.copy_at(names, alloc, piece, *n)?;
            copies.push(copy)?;
        }
        Ok(copies)
    }
}
