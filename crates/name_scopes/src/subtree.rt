//! From a fragment to the piece that it is under a node.

ghost use Rattle.std.specs.Prelude.{◌≡◌, ◌≤◌, ◌+◌, ◌∷◌, [], true, List, None, length, sum_by, IfOk, OnOk, IfErr};
ghost use Rattle.pyx_core.specs.declared.event.Event.{Event};
ghost use Rattle.pyx_core.specs.declared.mode.Mode.TheVariants.{Fragment};
ghost use Rattle.pyx_core.specs.Nesting.{Fits, start};
ghost use Rattle.doc_tree.specs.limits.TheConstants.{MAX_LIVE_TEXT_BYTES};
ghost use Rattle.doc_tree.specs.Kinds.{holds_kids};
ghost use Rattle.doc_tree.specs.Scope.{Decl, scope_at};
ghost use Rattle.doc_tree.specs.Table.{kind_of};
ghost use Rattle.doc_tree.specs.Walks.{order, text_bytes};
ghost use Rattle.name_scopes.specs.Fragments.{IsFragment, Refuses, ScopedPiece, event_nodes, names_fault, piece_refusal, plain_text};
ghost use Rattle.name_scopes.specs.inner.Build.{IsLeaf};
ghost use Rattle.name_scopes.specs.inner.Piece.{IsAcceptable, IsPiece, begins_element, is_start};

use crate::build::{Loader, append_leaf};
use crate::refusal::PieceError;
use crate::refuse::refuse_piece;
use doc_tree::{MAX_LIVE_NODES, NodeId, Tree};
use pyx_core::{Event, EventList};
use std::alloc::{AllocError, Global};

/// Loads a fragment as a piece to come under a node of a tree: each name is in the namespace that the nearest declaration of
/// its prefix gives, in the fragment or at the node and above it (Namespaces in XML 1.0, section 6). Else it answers the
/// first reason for which the names and the nodes keep the fragment from coming there. The piece's pair cap is that of a new
/// tree.
///
/// A fragment without tags wants memory only where nothing refuses it. Costs time linear in the fragment and in the
/// declarations in scope at the node.
pub fn load_subtree(
    alloc: Global,
    tree: &Tree,
    parent: NodeId,
    events: &EventList,
) -> Result<Tree, PieceError>
    requires holder { holds_kids (kind_of tree.now.nodes parent) ≡ true }
    requires fragment { IsFragment events.now }
    requires names { names_fault events.now ≡ None }
    requires text { sum_by plain_text events.now ≤ MAX_LIVE_TEXT_BYTES }
    ensures within { OnOk result (piece_refusal tree.now.nodes parent events.now ≡ None) }
    ensures loaded { IfOk result (λ piece. ScopedPiece (scope_at tree.now.nodes parent) events.now piece.nodes) }
    ensures nodes { IfOk result (λ piece. length (order piece.nodes) ≡ 1 + sum_by event_nodes events.now) }
    ensures text { IfOk result (λ piece. text_bytes piece.nodes ≡ sum_by plain_text events.now) }
    ensures cap { IfOk result (λ piece. piece.pair_cap ≡ MAX_LIVE_NODES) }
    ensures refused { IfErr result (Refuses events.now (piece_refusal tree.now.nodes parent events.now)) }
{
    if let Some(refusal) = refuse_piece(alloc, tree, parent, events.as_slice())? {
        return Err(PieceError::Refused(refusal));
    }
    tree.laws();
    let mut piece = build_piece(alloc, tree, parent, events.as_slice())?;
    piece.set_pair_cap(MAX_LIVE_NODES);
    Ok(piece)
}

/// The tree of a fragment that is to come under a node.
fn build_piece(
    alloc: Global,
    tree: &Tree,
    parent: NodeId,
    events: &[Event],
) -> Result<Tree, AllocError>
    requires { IsAcceptable (scope_at tree.now.nodes parent) events.now }
    ensures { IfOk result (λ piece. IsPiece (scope_at tree.now.nodes parent) events.now piece.nodes) }
{
    if is_start(&events[0]) {
        load_element(alloc, tree, parent, events)
    } else {
        load_leaf(alloc, &events[0])
    }
}

/// Whether an event is a start tag.
pub(crate) fn is_start(event: &Event) -> bool
    ensures { result ≡ is_start event.now }
{
    match event {
        Event::Start { name: _, attrs: _ } => true,
        Event::End { name: _ } => false,
        Event::Chars { text: _ } => false,
        Event::Pi { target: _, body: _ } => false,
        Event::Comment { text: _ } => false,
    }
}

/// The tree of one element with its content, which is to come under a node.
fn load_element(
    alloc: Global,
    tree: &Tree,
    parent: NodeId,
    events: &[Event],
) -> Result<Tree, AllocError>
    requires acceptable { IsAcceptable (scope_at tree.now.nodes parent) events.now }
    requires element { begins_element events.now ≡ true }
    ensures { IfOk result (λ piece. IsPiece (scope_at tree.now.nodes parent) events.now piece.nodes) }
{
    let mut loader = Loader::new(alloc)?;
    let put = loader.put_piece(tree, parent, events);
    let piece = loader.into_tree();
    match put {
        Ok(()) => Ok(piece),
        Err(error) => Err(error),
    }
}

/// The tree of one text, comment or processing instruction.
fn load_leaf(alloc: Global, event: &Event) -> Result<Tree, AllocError>
    requires leaf { IsLeaf event.now }
    requires fits { Fits Fragment start event.now }
    requires little { plain_text event.now ≤ MAX_LIVE_TEXT_BYTES }
    ensures { IfOk result (λ piece. (around : List Decl) → IsPiece around (event.now ∷ []) piece.nodes) }
{
    let mut tree = Tree::new(alloc)?;
    let root = tree.root();
    tree.laws();
    append_leaf(&mut tree, root, event)?;
    Ok(tree)
}
