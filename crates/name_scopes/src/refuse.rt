//! The reasons for which the names and the nodes of a fragment keep it from coming under a node.

ghost use Rattle.std.specs.Prelude.{◌≡◌, ◌≤◌, ◌<◌, ◌+◌, [], ◌∷◌, List, nat_le, sum_by, true, IfOk, MatchOption, OnErr};
ghost use Rattle.std.specs.List.{list_any};
ghost use Rattle.pyx_core.specs.declared.event.Event.{Event};
ghost use Rattle.doc_tree.specs.limits.TheConstants.{MAX_DEPTH};
ghost use Rattle.doc_tree.specs.Kinds.{holds_kids};
ghost use Rattle.doc_tree.specs.Scope.{scope_at};
ghost use Rattle.doc_tree.specs.Table.{kind_of};
ghost use Rattle.name_scopes.specs.Fragments.{event_nodes, is_start, is_too_deep, piece_refusal, tag_doubles, tag_lacks_prefix};
ghost use Rattle.name_scopes.specs.inner.Piece.{Stands, deep_from, holds_of_tag, names_refusal};

use crate::build::count_plain;
use crate::open_tags::OpenTags;
use crate::scope::Scope;
use crate::subtree::is_start;
use crate::tag::{is_unknown, lack_prefix, repeat_expanded};
use doc_tree::{EditRefusal, MAX_DEPTH, MAX_LIVE_NODES, NodeId, Tree};
use pyx_core::Event;
use std::alloc::{AllocError, Global};

/// The first reason for which the names and the nodes of a fragment keep it from coming under a node.
///
/// Costs time linear in the fragment and in the declarations in scope at the node.
pub(crate) fn refuse_piece(
    alloc: Global,
    tree: &Tree,
    parent: NodeId,
    events: &[Event],
) -> Result<Option<EditRefusal>, AllocError>
    requires { holds_kids (kind_of tree.now.nodes parent) ≡ true }
    ensures found { IfOk result (λ found. found ≡ piece_refusal tree.now.nodes parent events.now) }
    ensures memory { OnErr result (list_any is_start events.now ≡ true) }
{
    if let Some(refusal) = refuse_names(alloc, tree, parent, events)? {
        return Ok(Some(refusal));
    }
    tree.laws();
    let left = MAX_LIVE_NODES - tree.live_nodes();
    if !bring_few(left as usize, events) {
        return Ok(Some(EditRefusal::TooManyNodes));
    }
    if are_too_deep(tree.depth(parent) as usize + 1, events) {
        return Ok(Some(EditRefusal::TooDeep));
    }
    Ok(None)
}

/// The first reason among those of the names; only tags have names.
fn refuse_names(
    alloc: Global,
    tree: &Tree,
    parent: NodeId,
    events: &[Event],
) -> Result<Option<EditRefusal>, AllocError>
    ensures found { IfOk result (λ found. found ≡ names_refusal (scope_at tree.now.nodes parent) events.now) }
    ensures memory { OnErr result (list_any is_start events.now ≡ true) }
{
    if !have_tag(events) {
        return Ok(None);
    }
    let mut tags = OpenTags::new(alloc);
    refuse_tags(alloc, &mut tags, tree, parent, events)
}

/// Whether one of the events is a start tag.
fn have_tag(events: &[Event]) -> bool
    ensures { result ≡ list_any is_start events.now }
{
    events.iter().any(|event| is_start(event))
}

/// The first reason among those of the names, where nothing is in scope yet.
fn refuse_tags(
    alloc: Global,
    tags: &mut OpenTags,
    tree: &Tree,
    parent: NodeId,
    events: &[Event],
) -> Result<Option<EditRefusal>, AllocError>
    requires { Stands [] tags.old }
    ensures { IfOk result (λ found. found ≡ names_refusal (scope_at tree.now.nodes parent) events.now) }
{
    tags.stand_under(tree, parent)?;
    let mut doubled = false;
    for event in events {
        tags.take(event)?;
        if lacks_prefix(&tags.scope, event) {
            return Ok(Some(EditRefusal::NoPrefix));
        }
        let twice = doubles(alloc, &tags.scope, event)?;
        doubled |= twice;
    }
    if doubled {
        return Ok(Some(EditRefusal::SameAttribute));
    }
    Ok(None)
}

/// Whether a prefix of an event, whose own declarations are in scope, isn't in scope.
fn lacks_prefix(scope: &Scope, event: &Event) -> bool
    ensures { result ≡ holds_of_tag tag_lacks_prefix scope.now event.now }
{
    match event {
        Event::Start { name, attrs } => {
            is_unknown(scope, name.as_str()) || lack_prefix(scope, attrs.as_slice())
        }
        Event::End { name: _ } => false,
        Event::Chars { text: _ } => false,
        Event::Pi { target: _, body: _ } => false,
        Event::Comment { text: _ } => false,
    }
}

/// Whether two attributes of an event, whose own declarations are in scope, have one expanded name.
fn doubles(alloc: Global, scope: &Scope, event: &Event) -> Result<bool, AllocError>
    ensures { IfOk result (λ found. found ≡ holds_of_tag tag_doubles scope.now event.now) }
{
    match event {
        Event::Start { name: _, attrs } => repeat_expanded(alloc, scope, attrs.as_slice()),
        Event::End { name: _ } => Ok(false),
        Event::Chars { text: _ } => Ok(false),
        Event::Pi { target: _, body: _ } => Ok(false),
        Event::Comment { text: _ } => Ok(false),
    }
}

/// Whether the events bring at most so many nodes.
fn bring_few(limit: usize, events: &[Event]) -> bool
    ensures { result ≡ nat_le (sum_by event_nodes events.now) limit }
{
    let mut left = limit;
    for event in events {
        match spend(left, event) {
            Some(rest) => left = rest,
            None => return false,
        }
    }
    true
}

/// How many nodes are left of so many behind an event; None where it brings more.
fn spend(left: usize, event: &Event) -> Option<usize>
    ensures { MatchOption result (left < event_nodes event.now) (λ rest. rest + event_nodes event.now ≡ left) }
{
    match event {
        Event::Start { name: _, attrs } => {
            let plain = count_plain(attrs.as_slice());
            if plain < left {
                Some(left - plain - 1)
            } else {
                None
            }
        }
        Event::End { name: _ } => Some(left),
        Event::Chars { text: _ } | Event::Pi { target: _, body: _ } | Event::Comment { text: _ } =>
            { if left > 0 { Some(left - 1) } else { None } }
    }
}

/// Whether an element among the events would stand too deep, where the first has so many ancestors.
fn are_too_deep(start: usize, events: &[Event]) -> bool
    requires { start ≤ MAX_DEPTH + 2 }
    ensures { result ≡ is_too_deep start events.now }
{
    let mut depth = start;
    for event in events {
        match depth_behind(depth, event) {
            Some(next) => depth = next,
            None => return true,
        }
    }
    false
}

/// How many ancestors an element behind an event has; None where the event is an element too deep.
fn depth_behind(depth: usize, event: &Event) -> Option<usize>
    requires { depth ≤ MAX_DEPTH + 2 }
    ensures small { MatchOption result (Unit {0}) (λ next. next ≤ MAX_DEPTH + 2) }
    ensures step { (rest : List Event) → is_too_deep depth (event.now ∷ rest) ≡ deep_from result rest }
{
    match event {
        Event::Start { name: _, attrs: _ } => {
            if depth > MAX_DEPTH as usize {
                None
            } else {
                Some(depth + 1)
            }
        }
        Event::End { name: _ } => Some(depth.saturating_sub(1)),
        Event::Chars { text: _ } | Event::Pi { target: _, body: _ } | Event::Comment { text: _ } =>
            Some(depth),
    }
}
