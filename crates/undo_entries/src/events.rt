//! The events of a node and of all below it.

ghost use Rattle.std.specs.Prelude.{◌≡◌, ℕ, [], ◌∷◌, ◌++◌, map, true, Some, IfOk, OnOk};
ghost use Rattle.std.specs.List.{flat_map};
ghost use Rattle.doc_tree.specs.kind.Kind.TheVariants.{Element};
ghost use Rattle.doc_tree.specs.kind.Kind.TheVariants as kinds;
ghost use Rattle.doc_tree.specs.Lists.{mem};
ghost use Rattle.doc_tree.specs.Table.{content_of, decls_of, is_live, kind_of};
ghost use Rattle.subtree_events.specs.Events.{attr_in, begin_events, declaring_attr, end_events, events_below, tag_attrs};

use crate::names::{declaring_name, target, written_name};
use doc_tree::{Kind, NodeId, Tree};
use pyx_core::{Attr, AttrList, Event, EventList};
use sch_base::{ItemList, Text};
use std::alloc::{AllocError, Global};

/// The events of a node and of all below it: the fragment that tells it.
///
/// Costs the nodes, and the copying of their names and texts.
pub fn subtree_events(alloc: Global, tree: &Tree, n: NodeId) -> Result<EventList, AllocError>
    requires { is_live tree.now.nodes n ≡ true }
    ensures { IfOk result (λ events. events ≡ events_below tree.now.nodes n) }
{
    let mut events = ItemList::new(alloc);
    push_below(alloc, tree, n, &mut events)?;
    Ok(events)
}

/// Puts the events of a node and of all below it at the end of a list.
fn push_below(
    alloc: Global,
    tree: &Tree,
    n: NodeId,
    events: &mut EventList,
) -> Result<(), AllocError>
    requires { is_live tree.now.nodes n ≡ true }
    ensures { OnOk result (events.new ≡ events.old ++ events_below tree.now.nodes n) }
{
    tree.laws();
    push_begin(alloc, tree, n, events)?;
    for kid in tree.kids(n) {
        push_below(alloc, tree, *kid, events)?;
    }
    push_end(alloc, tree, n, events)
}

/// Puts the event with which a node begins at the end of a list.
fn push_begin(
    alloc: Global,
    tree: &Tree,
    n: NodeId,
    events: &mut EventList,
) -> Result<(), AllocError>
    requires { is_live tree.now.nodes n ≡ true }
    ensures { OnOk result (events.new ≡ events.old ++ begin_events tree.now.nodes n (content_of tree.now.nodes n)) }
{
    match tree.kind(n) {
        Kind::Root | Kind::Attribute => Ok(()),
        Kind::Element => push_start(alloc, tree, n, events),
        Kind::Text => push_chars(alloc, tree, n, events),
        Kind::Comment => push_comment(alloc, tree, n, events),
        Kind::Pi => push_instruction(alloc, tree, n, events),
    }
}

/// Puts the event with which a node ends at the end of a list.
fn push_end(alloc: Global, tree: &Tree, n: NodeId, events: &mut EventList) -> Result<(), AllocError>
    requires { is_live tree.now.nodes n ≡ true }
    ensures { OnOk result (events.new ≡ events.old ++ end_events (content_of tree.now.nodes n)) }
{
    if !tree.is_element(n) {
        return Ok(());
    }
    let name = written_name(alloc, tree, n)?;
    events.push(Event::End { name })
}

/// Puts the start of an element at the end of a list.
fn push_start(
    alloc: Global,
    tree: &Tree,
    n: NodeId,
    events: &mut EventList,
) -> Result<(), AllocError>
    requires { kind_of tree.now.nodes n ≡ Some Element }
    ensures { OnOk result (events.new ≡ events.old ++ begin_events tree.now.nodes n (content_of tree.now.nodes n)) }
{
    let name = written_name(alloc, tree, n)?;
    match tag_attrs(alloc, tree, n) {
        Ok(attrs) => events.push(Event::Start { name, attrs }),
        Err(error) => {
            drop(name);
            Err(error)
        }
    }
}

/// Puts a text at the end of a list.
fn push_chars(
    alloc: Global,
    tree: &Tree,
    n: NodeId,
    events: &mut EventList,
) -> Result<(), AllocError>
    requires { kind_of tree.now.nodes n ≡ Some kinds.Text }
    ensures { OnOk result (events.new ≡ events.old ++ begin_events tree.now.nodes n (content_of tree.now.nodes n)) }
{
    let text = Text::copy(alloc, tree.value(n))?;
    events.push(Event::Chars { text })
}

/// Puts a comment at the end of a list.
fn push_comment(
    alloc: Global,
    tree: &Tree,
    n: NodeId,
    events: &mut EventList,
) -> Result<(), AllocError>
    requires { kind_of tree.now.nodes n ≡ Some kinds.Comment }
    ensures { OnOk result (events.new ≡ events.old ++ begin_events tree.now.nodes n (content_of tree.now.nodes n)) }
{
    let text = Text::copy(alloc, tree.value(n))?;
    events.push(Event::Comment { text })
}

/// Puts a processing instruction at the end of a list.
fn push_instruction(
    alloc: Global,
    tree: &Tree,
    n: NodeId,
    events: &mut EventList,
) -> Result<(), AllocError>
    requires { kind_of tree.now.nodes n ≡ Some kinds.Pi }
    ensures { OnOk result (events.new ≡ events.old ++ begin_events tree.now.nodes n (content_of tree.now.nodes n)) }
{
    let target = target(alloc, tree, n)?;
    match Text::copy(alloc, tree.value(n)) {
        Ok(body) => events.push(Event::Pi { target, body }),
        Err(error) => {
            drop(target);
            Err(error)
        }
    }
}

/// The attributes of a start tag, the declarations in front.
fn tag_attrs(alloc: Global, tree: &Tree, n: NodeId) -> Result<AttrList, AllocError>
    ensures { IfOk result (λ attrs. attrs ≡ tag_attrs tree.now.nodes n (decls_of tree.now.nodes n)) }
{
    tree.laws();
    let mut attrs = ItemList::new(alloc);
    push_declarations(alloc, tree, n, &mut attrs)?;
    push_attributes(alloc, tree, tree.attrs(n), &mut attrs)?;
    Ok(attrs)
}

/// Puts the attributes that declare what an element declares at the end of a list.
fn push_declarations(
    alloc: Global,
    tree: &Tree,
    n: NodeId,
    attrs: &mut AttrList,
) -> Result<(), AllocError>
    ensures { OnOk result (attrs.new ≡ attrs.old ++ map declaring_attr (decls_of tree.now.nodes n)) }
{
    for i in 0..tree.decl_count(n) {
        push_declaration(alloc, tree.decl_prefix(n, i), tree.decl_uri(n, i), attrs)?;
    }
    Ok(())
}

/// Puts the attribute that declares a prefix at the end of a list.
fn push_declaration(
    alloc: Global,
    prefix: &str,
    uri: &str,
    attrs: &mut AttrList,
) -> Result<(), AllocError>
    ensures { OnOk result (attrs.new ≡ attrs.old ++ declaring_attr (prefix.now, uri.now) ∷ []) }
{
    let name = declaring_name(alloc, prefix)?;
    match Text::copy(alloc, uri) {
        Ok(value) => attrs.push(Attr { name, value }),
        Err(error) => {
            drop(name);
            Err(error)
        }
    }
}

/// Puts attributes at the end of a list, in their order.
fn push_attributes(
    alloc: Global,
    tree: &Tree,
    nodes: &[NodeId],
    attrs: &mut AttrList,
) -> Result<(), AllocError>
    requires { (a : ℕ) → mem a nodes.now ≡ true → kind_of tree.now.nodes a ≡ Some kinds.Attribute }
    ensures { OnOk result (attrs.new ≡ attrs.old ++ flat_map (λ a. attr_in (content_of tree.now.nodes a)) nodes.now) }
{
    for a in nodes {
        push_attribute(alloc, tree, *a, attrs)?;
    }
    Ok(())
}

/// Puts an attribute at the end of a list.
fn push_attribute(
    alloc: Global,
    tree: &Tree,
    a: NodeId,
    attrs: &mut AttrList,
) -> Result<(), AllocError>
    requires { kind_of tree.now.nodes a ≡ Some kinds.Attribute }
    ensures { OnOk result (attrs.new ≡ attrs.old ++ attr_in (content_of tree.now.nodes a)) }
{
    let name = written_name(alloc, tree, a)?;
    match Text::copy(alloc, tree.value(a)) {
        Ok(value) => attrs.push(Attr { name, value }),
        Err(error) => {
            drop(name);
            Err(error)
        }
    }
}
