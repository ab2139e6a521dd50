//! The places of nodes among the siblings of their kind, counted where they are asked for.

ghost use Rattle.std.specs.Prelude.{◌≡◌, ℕ, ◌+◌, ◌<◌, true, false, Some, IfOk, length, slice_index_or, if◌then◌else◌};
ghost use Rattle.doc_tree.specs.Kinds.{is_kind};
ghost use Rattle.doc_tree.specs.Lists.{mem, Distinct};
ghost use Rattle.doc_tree.specs.Table.{is_live};
ghost use Rattle.doc_tree.specs.kind.Kind.{Kind};
ghost use Rattle.doc_locations.specs.Locations.{has_kind, place_among};
ghost use Rattle.doc_locations.specs.inner.Places.{count_for, HasPlace, HoldsSome, AreBelow, AreLive, ArePlaced};

use doc_tree::{Kind, NodeId, Tree};
use std::alloc::{AllocError, Global};

/// How many kinds of nodes there are.
const KINDS: usize = 6;

/// The places of nodes and their siblings, by node number: those of the given nodes and of all above them. A place is
/// that among the siblings of a kind, counted from 1; 0 stands for those that were not counted.
///
/// The kids of each parent on the ways up are looked at once. Where the nodes have few siblings on their ways up, none is
/// counted: it costs less to count them when a place is asked for than to make a table as long as the tree.
pub(crate) fn places_on_ways(
    alloc: Global,
    tree: &Tree,
    nodes: &[NodeId],
) -> Result<Vec<usize>, AllocError>
    ensures { IfOk result (λ places. HoldsSome tree.now.nodes places.items) }
{
    if have_few_siblings(tree, nodes) {
        return Ok(Vec::new(alloc));
    }
    let mut places = vec![in alloc; 0; tree.numbers_made() as usize]?;
    count_ways(places.as_mut_slice(), tree, nodes);
    Ok(places)
}

/// Whether the siblings on the ways up from the nodes, counted for each of them, are fewer than the tree has numbers.
///
/// Costs a look at each node on these ways, as far as they are few.
fn have_few_siblings(tree: &Tree, nodes: &[NodeId]) -> bool {
    let mut left = tree.numbers_made() as usize;
    for n in nodes {
        let siblings = siblings_on_way(tree, *n);
        if siblings >= left {
            return false;
        }
        left -= siblings;
    }
    true
}

/// How many siblings stand on the way up from a node, itself and those above it among them.
fn siblings_on_way(tree: &Tree, n: NodeId) -> usize {
    tree.laws();
    match tree.parent(n) {
        Some(parent) => tree
            .kids(parent)
            .len()
            .saturating_add(siblings_on_way(tree, parent)),
        None => 0,
    }
}

/// Counts the places on the ways up from the nodes.
fn count_ways(places: &mut [usize], tree: &Tree, nodes: &[NodeId])
    requires room { length places.old ≡ length tree.now.nodes }
    requires some { HoldsSome tree.now.nodes places.old }
    ensures { HoldsSome tree.now.nodes places.new }
{
    for n in nodes {
        count_way(places, tree, *n);
    }
}

/// Counts the places on the way up from a node, as far as they are not counted.
fn count_way(places: &mut [usize], tree: &Tree, n: NodeId)
    requires room { length places.old ≡ length tree.now.nodes }
    requires some { HoldsSome tree.now.nodes places.old }
    ensures { HoldsSome tree.now.nodes places.new }
{
    tree.laws();
    if place_in(places, n) > 0 {
        return;
    }
    if let Some(parent) = tree.parent(n) {
        if !tree.is_kind(n, Kind::Attribute) {
            count_kids_of(places, tree, parent);
        }
        count_way(places, tree, parent);
    }
}

/// Counts the places of a node's kids.
fn count_kids_of(places: &mut [usize], tree: &Tree, n: NodeId)
    requires room { length places.old ≡ length tree.now.nodes }
    requires some { HoldsSome tree.now.nodes places.old }
    ensures { HoldsSome tree.now.nodes places.new }
{
    tree.laws();
    count_kids(places, tree, tree.kids(n));
}

/// The place of a node, where it is counted, or else 0.
fn place_in(places: &[usize], n: NodeId) -> usize
    ensures { result ≡ slice_index_or places.now n 0 }
{
    match places.get(n.index()) {
        Some(place) => *place,
        None => 0,
    }
}

/// The place of a node among its siblings of its kind: the one that is counted, or else it is counted now.
pub(crate) fn place_of(places: &[usize], tree: &Tree, n: NodeId) -> usize
    requires live { is_live tree.now.nodes n ≡ true }
    requires some { HoldsSome tree.now.nodes places.now }
    ensures { HasPlace tree.now.nodes n result }
{
    tree.laws();
    let place = place_in(places, n);
    if place > 0 {
        return place;
    }
    match tree.parent(n) {
        Some(parent) => place_among(tree, tree.kids(parent), n, tree.kind(n)),
        None => 0,
    }
}

/// How many of the kids are of the kind, up to a node, which is counted too.
fn place_among(tree: &Tree, kids: &[NodeId], n: NodeId, kind: Kind) -> usize
    requires { AreLive tree.now.nodes kids.now }
    ensures { result ≡ place_among (has_kind tree.now.nodes kind) n kids.now }
{
    let mut place = 0;
    for kid in kids {
        if tree.is_kind(*kid, kind) {
            place += 1;
        }
        if *kid == n {
            return place;
        }
    }
    place
}

/// Writes the place of each of the kids at its number.
fn count_kids(places: &mut [usize], tree: &Tree, kids: &[NodeId])
    requires room { AreBelow kids.now (length places.old) }
    requires live { AreLive tree.now.nodes kids.now }
    requires once { Distinct kids.now }
    ensures placed { ArePlaced tree.now.nodes kids.now places.new kids.now }
    ensures others { (n : ℕ) → mem n kids.now ≡ false → slice_index_or places.new n 0 ≡ slice_index_or places.old n 0 }
{
    let mut counts = Counts {
        by_kind: [0; KINDS],
    };
    for kid in kids {
        let place = counts.next(tree.kind(*kid));
        places[kid.index()] = place;
    }
}

/// How many kids of each kind were counted, by the kind's number.
#[derive(Drop)]
struct Counts {
    by_kind: [usize; KINDS],
}

impl Counts {
    /// Counts a kid of the kind, and answers its place among those of its kind.
    fn next(&mut self, kind: Kind) -> usize
        requires room { (k : ℕ) → k < KINDS → slice_index_or self.old.by_kind k 0 + 1 < 18446744073709551616 }
        ensures place { result ≡ count_for self.old kind + 1 }
        ensures counted { (other : Kind) → count_for self.new other ≡ (if is_kind other (Some kind) then 1 else 0) + count_for self.old other }
    {
        let count = &mut self.by_kind[kind as usize];
        *count += 1;
        *count
    }
}
