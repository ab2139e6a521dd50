//! A fragment, put under a node of a document.

ghost use Rattle.std.specs.Prelude.{◌≡◌, ◌≢◌, List, true, None, Some, IfErr, IfOk};
ghost use Rattle.doc_tree.specs.Kinds.{can_be_kid, is_document};
ghost use Rattle.edit_script.specs.declared.command.Command.TheVariants.{Insert};
ghost use Rattle.edit_script.specs.declared.command.PathStep.{PathStep};
ghost use Rattle.edit_script.specs.WellFormed.{IsPiece, IsPlace};
ghost use Rattle.edit_commands.specs.Commands.{top_kind};
ghost use Rattle.edit_commands.specs.inner.Done.{Done, Keeps, NotDone};

use crate::refusal::ApplyError;
use crate::touched::Touched;
use doc_tree::{Kind, NodeId, Tree};
use name_scopes::load_subtree;
use name_scopes_laws::edits_keep_scope;
use pyx_core::{Event, EventList};
use std::alloc::Global;

/// Puts a fragment under a node, as the kid with a number, counted from 1.
pub(crate) fn insert_piece(
    alloc: Global,
    tree: &mut Tree,
    n: NodeId,
    at: u32,
    events: &EventList,
) -> Result<Touched, ApplyError>
    requires document { is_document tree.old.nodes ≡ true }
    requires place { IsPlace at }
    requires piece { IsPiece events.now }
    ensures done { IfOk result (λ touched. (path : List PathStep) → Done tree.old tree.new (Insert path at events.now) n touched) }
    ensures not_done { IfErr result (λ error. (path : List PathStep) → NotDone tree.old tree.new (Insert path at events.now) n error) }
    ensures keeps { Keeps tree.old tree.new }
{
    tree.laws();
    edits_keep_scope();
    if let Err(reason) = tree.check_place(n, at, top_kind(events.as_slice())) {
        return Err(ApplyError::Refused(reason));
    }
    let piece = load_subtree(alloc, tree, n, events)?;
    piece.laws();
    tree.insert(n, at, &piece)?;
    Ok(Touched::Below {
        parent: n,
        left: None,
    })
}

/// The kind of the one item of a fragment.
fn top_kind(events: &[Event]) -> Kind
    requires { top_kind events.now ≢ None }
    ensures kind { top_kind events.now ≡ Some result }
    ensures kid { can_be_kid (Some result) ≡ true }
{
    match &events[0] {
        Event::Start { name: _, attrs: _ } => Kind::Element,
        Event::End { name: _ } => unreachable!(),
        Event::Chars { text: _ } => Kind::Text,
        Event::Pi { target: _, body: _ } => Kind::Pi,
        Event::Comment { text: _ } => Kind::Comment,
    }
}
