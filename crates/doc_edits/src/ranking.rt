//! Ranks of new nodes, between those of the nodes round their place.

ghost use Rattle.std.specs.Prelude.{◌≡◌, ◌+◌, ◌*◌, ◌<◌, ◌≤◌, ◌++◌, ◌^◌, ℕ, List, None, Some, length, slice_get, slice_index_or, take, true};
ghost use Rattle.std.specs.List.{flat_map};
ghost use Rattle.std.specs.Option.{option_map};
ghost use Rattle.doc_table.specs.declared.limits.TheConstants.{MAX_LIVE_NODES};
ghost use Rattle.doc_table.specs.Kinds.{holds_kids};
ghost use Rattle.doc_table.specs.Lists.{last_or, mem};
ghost use Rattle.doc_table.specs.Table.{attrs_of, is_live, kids_of, kind_of};
ghost use Rattle.doc_table.specs.Walks.{below, order};
ghost use Rattle.doc_table.specs.inner.Kept.{rank_at};
ghost use Rattle.doc_table.specs.inner.Parts.{IsSound, table_of};
ghost use Rattle.doc_edits.specs.inner.Ranking.{HasRoom, Seam};

use doc_table::{Bare, NodeId, RANK_STEP};

/// Ranks of new nodes, evenly spread: the first one, and the step from one to the next. A step of 0 says that there is no
/// room for them.
#[derive(Clone, Copy)]
pub(crate) struct Spread {
    pub(crate) first: u64,
    pub(crate) step: u64,
}

/// Spreads ranks for so many nodes that come under a node behind so many of its kids, or behind its attributes for none.
///
/// Costs a binary search among the siblings of each node above that is the last of them, and the way down to the node before.
pub(crate) fn spread_at(bare: &Bare, parent: NodeId, before: usize, count: u32) -> Spread
    requires sound { IsSound bare.now }
    requires holder { holds_kids (kind_of (table_of bare.now) parent) ≡ true }
    requires among { before ≤ length (kids_of (table_of bare.now) parent) }
    requires few { count ≤ MAX_LIVE_NODES }
    ensures room { 0 < result.step → (front back : List ℕ) → Seam (table_of bare.now) parent before front back → HasRoom bare.now.nodes front back count result }
    ensures small { result.first + count * result.step < 2 ^ 64 }
{
    let left = bare.rank(node_before(bare, parent, before));
    match rank_at_place(bare, parent, before) {
        Some(right) => between(left, right, count),
        None => Spread {
            first: bare.next_rank(),
            step: RANK_STEP,
        },
    }
}

/// Spreads so many ranks between two.
fn between(left: u64, right: u64, count: u32) -> Spread
    requires { left ≤ right }
    ensures first { result.first ≡ left + result.step }
    ensures within { result.first + count * result.step ≤ right }
{
    let step = (right - left) / (u64::from(count) + 1);
    Spread {
        first: left + step,
        step,
    }
}

/// The last of a node, its attributes, and all below the first so many of its kids.
fn node_before(bare: &Bare, n: NodeId, before: usize) -> NodeId
    requires sound { IsSound bare.now }
    requires lives { is_live (table_of bare.now) n ≡ true }
    requires among { before ≤ length (kids_of (table_of bare.now) n) }
    ensures { result ≡ last_or n (attrs_of (table_of bare.now) n ++ flat_map (below (table_of bare.now)) (take before (kids_of (table_of bare.now) n))) }
{
    bare.laws();
    match bare.kids(n)[..before].last() {
        Some(kid) => node_before(bare, *kid, bare.kids(*kid).len()),
        None => last_attribute(bare, n),
    }
}

/// The last attribute of a node, or else the node itself.
fn last_attribute(bare: &Bare, n: NodeId) -> NodeId
    ensures { result ≡ last_or n (attrs_of (table_of bare.now) n) }
{
    match bare.attrs(n).last() {
        Some(attribute) => *attribute,
        None => n,
    }
}

/// The rank of what stands where nodes come under a node behind so many of its kids.
fn rank_at_place(bare: &Bare, parent: NodeId, before: usize) -> Option<u64>
    requires sound { IsSound bare.now }
    requires holder { holds_kids (kind_of (table_of bare.now) parent) ≡ true }
    requires among { before ≤ length (kids_of (table_of bare.now) parent) }
    ensures { (front back : List ℕ) → Seam (table_of bare.now) parent before front back → result ≡ option_map (λ m. rank_at (slice_index_or bare.now.nodes m None)) (slice_get back 0) }
{
    match bare.kids(parent).get(before) {
        Some(kid) => Some(bare.rank(*kid)),
        None => rank_behind(bare, parent),
    }
}

/// The rank of what stands behind a node and all below it.
fn rank_behind(bare: &Bare, n: NodeId) -> Option<u64>
    requires sound { IsSound bare.now }
    requires holder { holds_kids (kind_of (table_of bare.now) n) ≡ true }
    ensures { (front back : List ℕ) → order (table_of bare.now) ≡ front ++ (below (table_of bare.now) n ++ back) →
        result ≡ option_map (λ m. rank_at (slice_index_or bare.now.nodes m None)) (slice_get back 0) }
{
    bare.laws();
    let parent = bare.parent(n)?;
    match kid_behind(bare, parent, bare.rank(n)) {
        Some(kid) => Some(bare.rank(kid)),
        None => rank_behind(bare, parent),
    }
}

/// The first kid of a node with a rank beyond this one, found by a binary search: the ranks of kids rise.
fn kid_behind(bare: &Bare, n: NodeId, rank: u64) -> Option<NodeId>
    ensures { (front back : List ℕ) → kids_of (table_of bare.now) n ≡ front ++ back → ((k : ℕ) → mem k front ≡ true → rank_at (slice_index_or bare.now.nodes k None) ≤ rank) →
        ((k : ℕ) → mem k back ≡ true → rank < rank_at (slice_index_or bare.now.nodes k None)) → result ≡ slice_get back 0 }
{
    let kids = bare.kids(n);
    let place = kids.partition_point(|kid| bare.rank(*kid) <= rank);
    node_in(kids, place)
}

/// The node at a place of a list.
fn node_in(list: &[NodeId], place: usize) -> Option<NodeId>
    ensures { result ≡ slice_get list.now place }
{
    list.get(place).copied()
}
