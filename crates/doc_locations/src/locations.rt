//! Locations: for each node the XPath expression that finds it.

ghost use Rattle.std.specs.Prelude.{◌≡◌, ◌++◌, true, IfOk, OnOk, string_bytes};
ghost use Rattle.doc_tree.specs.Table.{is_live, name_of};
ghost use Rattle.doc_tree.specs.Walks.{above};
ghost use Rattle.doc_locations.specs.Locations.{location_of, steps_of, step_of, kid_step, attribute_step, named_step, quotes_of};
ghost use Rattle.doc_locations.specs.inner.Places.{HoldsSome};

use crate::places::{place_of, places_on_ways};
use doc_tree::{Kind, NodeId, Tree};
use sch_base::Text;
use std::alloc::{AllocError, Global};
use std::fmt::Write;
use std::marker::Model;

/// The expression that finds the node from the root (ISO/IEC 19757-3, annex on SVRL).
///
/// The time grows with the depth of the node and the number of siblings on the way up; a `Locator` is for more than one.
pub fn location(alloc: Global, tree: &Tree, n: NodeId) -> Result<Text, AllocError>
    requires live { is_live tree.now.nodes n ≡ true }
    ensures { IfOk result (λ location. location ≡ location_of tree.now.nodes n) }
{
    location_by(alloc, tree, &[], n)
}

/// What finds the nodes of a tree one by one: the places of kids are counted once. Contracts see the nodes' table.
#[derive(Drop)]
pub struct Locator<'a> {
    tree: &'a Tree,
    /// The places of nodes among their siblings of their kind, by node number; 0 for those that were not counted.
    places: Vec<usize>,
}

impl<'a> Model for Locator<'a> {
    ghost use Rattle.doc_tree.specs.Table.{Table};

    ghost Value = { Table };

    ghost use Rattle.doc_locations.specs.inner.Places.{HoldsSome};

    ghost view = { λ l. l.tree.now.nodes };

    ghost invariant = { λ l. HoldsSome l.tree.now.nodes l.places.items };
}

impl<'a> Locator<'a> {
    /// A locator of the nodes of the tree, for use with some of them. The time grows with their number and depth; where these
    /// have many siblings on their ways up, also with the number of these siblings and that of the tree's nodes.
    pub fn new(alloc: Global, tree: &'a Tree, nodes: &[NodeId]) -> Result<Locator<'a>, AllocError>
        ensures { IfOk result (λ locator. locator ≡ tree.now.nodes) }
    {
        let places = places_on_ways(alloc, tree, nodes)?;
        Ok(Locator { tree, places })
    }

    /// The expression that finds the node from the root. The time grows with the depth of the node, and with the number of
    /// siblings on the way up where it is none of the nodes that were given, or these have few.
    pub fn location(&self, alloc: Global, n: NodeId) -> Result<Text, AllocError>
        requires live { is_live self.now n ≡ true }
        ensures { IfOk result (λ location. location ≡ location_of self.now n) }
    {
        location_by(alloc, self.tree, self.places.as_slice(), n)
    }
}

/// The same, with places that were counted at hand.
fn location_by(alloc: Global, tree: &Tree, places: &[usize], n: NodeId) -> Result<Text, AllocError>
    requires live { is_live tree.now.nodes n ≡ true }
    requires places { HoldsSome tree.now.nodes places.now }
    ensures { IfOk result (λ location. location ≡ location_of tree.now.nodes n) }
{
    if n == tree.root() {
        return Text::copy(alloc, "/");
    }
    let mut text = String::new(alloc);
    push_steps(&mut text, tree, places, n)?;
    Ok(Text::from(text))
}

/// Puts the steps from the root to the node at the end of the text.
fn push_steps(text: &mut String, tree: &Tree, places: &[usize], n: NodeId) -> Result<(), AllocError>
    requires live { is_live tree.now.nodes n ≡ true }
    requires places { HoldsSome tree.now.nodes places.now }
    ensures { OnOk result (string_bytes text.new ≡ string_bytes text.old ++ steps_of tree.now.nodes (above tree.now.nodes n)) }
{
    tree.laws();
    if let Some(parent) = tree.parent(n) {
        push_steps(text, tree, places, parent)?;
    }
    push_step(text, tree, places, n)
}

/// Puts the step from the node's parent to the node at the end of the text.
fn push_step(text: &mut String, tree: &Tree, places: &[usize], n: NodeId) -> Result<(), AllocError>
    requires live { is_live tree.now.nodes n ≡ true }
    requires places { HoldsSome tree.now.nodes places.now }
    ensures { OnOk result (string_bytes text.new ≡ string_bytes text.old ++ step_of tree.now.nodes n) }
{
    tree.laws();
    match tree.kind(n) {
        Kind::Root => Ok(()),
        Kind::Element => push_kid_step(text, "*", place_of(places, tree, n)),
        Kind::Attribute => push_attribute_step(text, tree, n),
        Kind::Text => push_kid_step(text, "text()", place_of(places, tree, n)),
        Kind::Comment => push_kid_step(text, "comment()", place_of(places, tree, n)),
        Kind::Pi => push_kid_step(text, "processing-instruction()", place_of(places, tree, n)),
    }
}

/// Puts the step to a kid, by the test of its kind and its place, at the end of the text.
fn push_kid_step(text: &mut String, test: &str, place: usize) -> Result<(), AllocError>
    ensures { OnOk result (string_bytes text.new ≡ string_bytes text.old ++ kid_step test.now place) }
{
    write!(text, "/{test}[{place}]")?;
    Ok(())
}

/// Puts the step to an attribute at the end of the text.
fn push_attribute_step(text: &mut String, tree: &Tree, n: NodeId) -> Result<(), AllocError>
    ensures { OnOk result (string_bytes text.new ≡ string_bytes text.old ++ attribute_step (name_of tree.now.nodes n)) }
{
    match tree.name(n) {
        Some(name) => push_named_step(text, tree.local_of(name), tree.uri_of(name)),
        None => Ok(()),
    }
}

/// Puts the step to an attribute of that local name and namespace, empty for none, at the end of the text.
fn push_named_step(text: &mut String, local: &str, uri: &str) -> Result<(), AllocError>
    ensures { OnOk result (string_bytes text.new ≡ string_bytes text.old ++ named_step local.now uri.now) }
{
    if uri.is_empty() {
        write!(text, "/@{local}")?;
    } else {
        let quotes = quotes_of(uri);
        write!(
            text,
            "/@*[local-name()='{local}' and namespace-uri()={quotes}{uri}{quotes}]"
        )?;
    }
    Ok(())
}

/// The quotes that a namespace stands in; none holds both kinds, since no attribute's value does that declares it.
fn quotes_of(uri: &str) -> &'static str
    ensures { result.now ≡ quotes_of uri.now }
{
    if uri.as_bytes().contains(&b'\'') {
        "\""
    } else {
        "'"
    }
}
