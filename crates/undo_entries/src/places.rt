//! Places of nodes among others.

ghost use Rattle.std.specs.Prelude.{◌≡◌, ◌≤◌, true, length, take, count_by};
ghost use Rattle.doc_tree.specs.Changes.{meeting};
ghost use Rattle.doc_tree.specs.Kinds.{is_kind};
ghost use Rattle.doc_tree.specs.Lists.{place_in};
ghost use Rattle.doc_tree.specs.limits.TheConstants.{MAX_LIVE_NODES, MAX_NODE_NUMBERS};
ghost use Rattle.doc_tree.specs.Table.{attrs_of, is_live, kids_above, kids_of, kind_of, parent_of};
ghost use Rattle.doc_tree.specs.Walks.{below};
ghost use Rattle.edit_paths.specs.Entries.{behind};
ghost use Rattle.undo_entries.specs.inner.Parts.{both_texts, meeting_of};

use doc_tree::{Kind, NodeId, Tree};

/// Two texts that meet where the kid between them goes.
#[derive(Clone, Copy)]
pub(crate) struct Met {
    pub left: NodeId,
    pub right: NodeId,
}

/// How many numbers stand before one in a list; all, where it isn't there.
pub(crate) fn place_in(n: NodeId, ns: &[NodeId]) -> usize
    ensures place { result ≡ place_in n ns.now }
    ensures within { result ≤ length ns.now }
{
    for i in 0..ns.len() {
        if n == ns[i] {
            return i;
        }
    }
    ns.len()
}

/// Those of a list that stand behind a number.
pub(crate) fn behind(n: NodeId, ns: &[NodeId]) -> &[NodeId]
    ensures those { result.now ≡ behind n ns.now }
    ensures within { length result.now ≤ length ns.now }
{
    let place = place_in(n, ns);
    if place < ns.len() {
        &ns[place + 1..]
    } else {
        &ns[place..]
    }
}

/// The first ones of a list, so many; all, where there are fewer.
pub(crate) fn front(ns: &[NodeId], count: usize) -> &[NodeId]
    ensures those { result.now ≡ take count ns.now }
    ensures within { length result.now ≤ length ns.now }
{
    if count < ns.len() { &ns[..count] } else { ns }
}

/// How many of some nodes are of a kind.
pub(crate) fn count_of_kind(tree: &Tree, kind: Kind, nodes: &[NodeId]) -> usize
    ensures count { result ≡ count_by (λ k. is_kind kind (kind_of tree.now.nodes k)) nodes.now }
    ensures within { result ≤ length nodes.now }
{
    let mut count = 0;
    for k in nodes {
        if tree.is_kind(*k, kind) {
            count += 1;
        }
    }
    count
}

/// The kids of a node.
pub(crate) fn kids(tree: &Tree, n: NodeId) -> &[NodeId]
    ensures those { result.now ≡ kids_of tree.now.nodes n }
    ensures few { length result.now ≤ MAX_NODE_NUMBERS }
{
    tree.laws();
    tree.kids(n)
}

/// The kids of a node's parent; none where it has no parent.
pub(crate) fn kids_above(tree: &Tree, n: NodeId) -> &[NodeId]
    ensures those { result.now ≡ kids_above tree.now.nodes (parent_of tree.now.nodes n) }
    ensures few { length result.now ≤ MAX_NODE_NUMBERS }
{
    match tree.parent(n) {
        Some(parent) => kids(tree, parent),
        None => &[],
    }
}

/// The attributes of an element.
pub(crate) fn attrs(tree: &Tree, n: NodeId) -> &[NodeId]
    ensures those { result.now ≡ attrs_of tree.now.nodes n }
    ensures few { length result.now ≤ MAX_NODE_NUMBERS }
{
    tree.laws();
    tree.attrs(n)
}

/// The two texts among some kids that meet where a node between them goes.
pub(crate) fn meeting(tree: &Tree, n: NodeId, kids: &[NodeId]) -> Option<Met>
    ensures { meeting_of result ≡ meeting tree.now.nodes n kids.now }
{
    for i in 2..kids.len() {
        if kids[i - 1] == n {
            return texts(tree, kids[i - 2], kids[i]);
        }
    }
    None
}

/// Two nodes, where they are texts.
fn texts(tree: &Tree, left: NodeId, right: NodeId) -> Option<Met>
    ensures { meeting_of result ≡ both_texts tree.now.nodes left right }
{
    if tree.is_kind(left, Kind::Text) && tree.is_kind(right, Kind::Text) {
        Some(Met { left, right })
    } else {
        None
    }
}

/// How many nodes there are from a node on.
pub(crate) fn count_below(tree: &Tree, n: NodeId) -> u32
    requires { is_live tree.now.nodes n ≡ true }
    ensures count { result ≡ length (below tree.now.nodes n) }
    ensures few { result ≤ MAX_LIVE_NODES }
{
    tree.laws();
    let mut count = 1 + attrs(tree, n).len() as u32;
    for kid in tree.kids(n) {
        count += count_below(tree, *kid);
    }
    count
}
