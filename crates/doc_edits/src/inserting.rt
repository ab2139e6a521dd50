//! A piece under a node.

ghost use Rattle.std.specs.Prelude.{◌≡◌, ◌+◌, ◌*◌, ◌<◌, ◌≤◌, ◌^◌, IfOk, None, OnErr, OnOk, length, slice_index_or, slice_set, true, vec_capacity, vec_len};
ghost use Rattle.doc_table.specs.declared.limits.TheConstants.{MAX_NODE_NUMBERS};
ghost use Rattle.doc_table.specs.Table.{is_live};
ghost use Rattle.doc_table.specs.inner.Parts.{IsSound, table_of};
ghost use Rattle.doc_edits.specs.Changes.{inserted, nodes_in};
ghost use Rattle.doc_edits.specs.Fitting.{MayTake};
ghost use Rattle.doc_edits.specs.Keeping.{NamesGrow};
ghost use Rattle.doc_edits.specs.inner.Copies.{IsCopied, IsPlacement};
ghost use Rattle.doc_edits.specs.inner.Grafts.{grafted, kept_kid, kept_kids};

use crate::copying::{Placement, numbers_for};
use crate::ranking::{Spread, spread_at};
use crate::reranking::settle;
use doc_table::{Bare, Node, NodeId, NodeList};
use std::alloc::{AllocError, Global};

/// Puts the one kid of a piece's root, with all below it, under a node behind so many of its kids. The new nodes take the
/// next numbers in document order; the kid's number is answered.
///
/// After want of memory nothing has changed, names included. Costs the nodes of the piece, the siblings behind it, and the
/// copying of the piece's texts; where ranks run out beside it, the nodes of the tree.
pub fn insert(
    bare: &mut Bare,
    parent: NodeId,
    before: usize,
    piece: &Bare,
) -> Result<NodeId, AllocError>
    requires sound { IsSound bare.old }
    requires piece { IsSound piece.now }
    requires may { MayTake (table_of bare.old) parent before (table_of piece.now) }
    ensures sound { IsSound bare.new }
    ensures inserted { OnOk result (table_of bare.new ≡ inserted (table_of bare.old) parent before (table_of piece.now)) }
    ensures number { IfOk result (λ n. n ≡ length (table_of bare.old)) }
    ensures names { NamesGrow bare.old.names bare.new.names }
    ensures cap { bare.new.pair_cap ≡ bare.old.pair_cap }
    ensures unchanged { OnErr result (bare.new ≡ bare.old) }
{
    let known = bare.names.len();
    match put_piece(bare, parent, before, piece) {
        Ok(number) => Ok(number),
        Err(error) => {
            bare.names.cut(known);
            Err(error)
        }
    }
}

/// `insert`, after which names of the piece may have numbers though memory was wanting.
fn put_piece(
    bare: &mut Bare,
    parent: NodeId,
    before: usize,
    piece: &Bare,
) -> Result<NodeId, AllocError>
    requires sound { IsSound bare.old }
    requires piece { IsSound piece.now }
    requires may { MayTake (table_of bare.old) parent before (table_of piece.now) }
    ensures sound { OnOk result (IsSound bare.new) }
    ensures inserted { OnOk result (table_of bare.new ≡ inserted (table_of bare.old) parent before (table_of piece.now)) }
    ensures number { IfOk result (λ n. n ≡ length (table_of bare.old)) }
    ensures names { NamesGrow bare.old.names bare.new.names }
    ensures cap { bare.new.pair_cap ≡ bare.old.pair_cap }
    ensures kept { OnErr result (bare.new ≡ record bare.old { names = bare.new.names }) }
{
    let first = bare.next_number();
    let count = piece.live_nodes() - 1;
    let spread = spread_at(bare, parent, before, count);
    let copies = copy_piece(bare, parent, spread, piece)?;
    graft(&mut bare.nodes, parent, before, first, copies)?;
    bare.live += count;
    bare.text_bytes += piece.text_bytes;
    settle(bare, spread);
    Ok(first)
}

/// The nodes of a piece in document order.
fn nodes_of(alloc: Global, piece: &Bare) -> Result<NodeList, AllocError>
    requires { IsSound piece.now }
    ensures { IfOk result (λ list. list ≡ nodes_in (table_of piece.now)) }
{
    let mut list = NodeList::new(alloc);
    for kid in piece.kids(piece.root()) {
        piece.push_below(&mut list, *kid)?;
    }
    Ok(list)
}

/// Copies the nodes of a piece, in document order, for their place under a node, with these ranks. Of the table only the
/// names change.
fn copy_piece(
    bare: &mut Bare,
    parent: NodeId,
    spread: Spread,
    piece: &Bare,
) -> Result<Vec<Option<Node>>, AllocError>
    requires sound { IsSound bare.old }
    requires piece { IsSound piece.now }
    requires parent { is_live (table_of bare.old) parent ≡ true }
    requires few { length (table_of bare.old) + length (nodes_in (table_of piece.now)) ≤ MAX_NODE_NUMBERS }
    requires ranks { spread.first + length (nodes_in (table_of piece.now)) * spread.step < 2 ^ 64 }
    ensures copied { IfOk result (λ copies. IsCopied bare.new.names (table_of bare.old) parent spread piece.now copies.items) }
    ensures kept { bare.new ≡ record bare.old { names = bare.new.names } }
    ensures grown { NamesGrow bare.old.names bare.new.names }
{
    let nodes = nodes_of(bare.alloc, piece)?;
    let places = place_piece(bare, parent, spread, piece, nodes.as_slice())?;
    places.copy_all(&mut bare.names, bare.alloc, piece, nodes.as_slice())
}

/// Gives each node of a piece its number and its rank.
fn place_piece(
    bare: &Bare,
    parent: NodeId,
    spread: Spread,
    piece: &Bare,
    nodes: &[NodeId],
) -> Result<Placement, AllocError>
    requires sound { IsSound bare.now }
    requires piece { IsSound piece.now }
    requires parent { is_live (table_of bare.now) parent ≡ true }
    requires few { length (table_of bare.now) + length (nodes_in (table_of piece.now)) ≤ MAX_NODE_NUMBERS }
    requires nodes { nodes.now ≡ nodes_in (table_of piece.now) }
    ensures { IfOk result (IsPlacement (table_of bare.now) parent spread (table_of piece.now)) }
{
    let first = bare.nodes.len();
    let numbers = numbers_for(bare.alloc, piece.nodes.len(), nodes, first)?;
    let depth = bare.depth(parent);
    Ok(Placement {
        numbers,
        past: NodeId::from_number((first + nodes.len()) as u32),
        first,
        parent,
        depth,
        spread,
    })
}

/// Puts copies behind all nodes, and the first of them among the kids of a node. What needs memory comes first.
fn graft(
    nodes: &mut Vec<Option<Node>>,
    parent: NodeId,
    before: usize,
    first: NodeId,
    mut copies: Vec<Option<Node>>,
) -> Result<(), AllocError>
    requires parent { parent < vec_len nodes.old }
    requires among { before ≤ length (kept_kids (slice_index_or nodes.old.items parent None)) }
    ensures grafted { OnOk result (nodes.new.items ≡ grafted parent before first copies.items nodes.old.items) }
    ensures unchanged { OnErr result (nodes.new.items ≡ nodes.old.items) }
{
    nodes.reserve(copies.len())?;
    link_at(nodes, parent, before, first)?;
    match nodes.append(&mut copies) {
        Ok(()) => Ok(()),
        Err(_) => unreachable!(),
    }
}

/// Puts a number among the kids of a node, behind so many.
fn link_at(
    nodes: &mut Vec<Option<Node>>,
    parent: NodeId,
    before: usize,
    number: NodeId,
) -> Result<(), AllocError>
    requires parent { parent < vec_len nodes.old }
    requires among { before ≤ length (kept_kids (slice_index_or nodes.old.items parent None)) }
    ensures linked { OnOk result (nodes.new.items ≡ slice_set nodes.old.items parent (kept_kid before number (slice_index_or nodes.old.items parent None))) }
    ensures unchanged { OnErr result (nodes.new.items ≡ nodes.old.items) }
    ensures len { vec_len nodes.new ≡ vec_len nodes.old }
    ensures capacity { vec_capacity nodes.new ≡ vec_capacity nodes.old }
{
    let slot = &mut nodes[parent.index()];
    match slot {
        Some(node) => node.kids.insert(before, number),
        None => Ok(()),
    }
}
