//! Taking nodes out of a table.

ghost use Rattle.std.specs.Prelude.{◌≡◌, ◌+◌, ◌<◌, ◌≤◌, ◌∷◌, ◌++◌, suc, None, IfSome, MatchOption, drop, length, slice_index_or, slice_set, take, vec_len};
ghost use Rattle.doc_table.specs.Lists.{Distinct, occurs};
ghost use Rattle.doc_table.specs.inner.Parts.{IsSound, table_of};
ghost use Rattle.doc_edits.specs.Changes.{removed, without};
ghost use Rattle.doc_edits.specs.Fitting.{MayGo};
ghost use Rattle.doc_edits.specs.inner.Grafts.{kept_kids};
ghost use Rattle.doc_edits.specs.inner.Removing.{Clears, Counted, emptied, kept_attributes, kept_without};

use doc_table::{Bare, Node, NodeId, NodeList};

/// Takes a node, or an attribute, out of the table with all below it. Takes no memory.
///
/// Costs the nodes below it, and a look at its siblings.
pub fn remove(bare: &mut Bare, n: NodeId)
    requires sound { IsSound bare.old }
    requires may { MayGo (table_of bare.old) n }
    ensures sound { IsSound bare.new }
    ensures removed { table_of bare.new ≡ removed (table_of bare.old) n }
    ensures names { bare.new.names ≡ bare.old.names }
    ensures cap { bare.new.pair_cap ≡ bare.old.pair_cap }
{
    if let Some(parent) = bare.parent(n) {
        unlink(&mut bare.nodes, parent, n);
        clear(bare, n);
    }
}

/// Takes the node at a number out.
fn take_node(nodes: &mut Vec<Option<Node>>, n: NodeId) -> Option<Node>
    ensures taken { nodes.new.items ≡ slice_set nodes.old.items n None }
    ensures was { result ≡ slice_index_or nodes.old.items n None }
{
    if n.index() < nodes.len() {
        nodes[n.index()].take()
    } else {
        None
    }
}

/// Takes a number out of a list, in which it stands once at most.
fn take_out(list: &mut NodeList, n: NodeId)
    requires { Distinct list.old }
    ensures { list.new ≡ without n list.old }
{
    if let Some(place) = place_of(list.as_slice(), n) {
        list.remove(place);
    }
}

/// The first place of a number in a list.
pub(crate) fn place_of(list: &[NodeId], n: NodeId) -> Option<usize>
    ensures { MatchOption result (occurs n list.now ≡ 0)
        (λ place. (place < length list.now) × (list.now ≡ take place list.now ++ n ∷ drop (suc place) list.now) × (occurs n (take place list.now) ≡ 0)) }
{
    for (place, m) in list.iter().enumerate() {
        if *m == n {
            return Some(place);
        }
    }
    None
}

/// Takes a number out of the attributes and the kids of a node.
fn unlink(nodes: &mut Vec<Option<Node>>, parent: NodeId, n: NodeId)
    requires parent { parent < vec_len nodes.old }
    requires kids { Distinct (kept_kids (slice_index_or nodes.old.items parent None)) }
    requires attributes { Distinct (kept_attributes (slice_index_or nodes.old.items parent None)) }
    ensures { nodes.new.items ≡ slice_set nodes.old.items parent (kept_without n (slice_index_or nodes.old.items parent None)) }
{
    let slot = &mut nodes[parent.index()];
    if let Some(node) = slot {
        take_out(&mut node.attributes, n);
        take_out(&mut node.kids, n);
    }
}

/// Takes the node at a number out, and counts it no longer.
fn take(bare: &mut Bare, n: NodeId) -> Option<Node>
    requires counted { Counted bare.old }
    ensures counted { Counted bare.new }
    ensures taken { bare.new.nodes ≡ slice_set bare.old.nodes n None }
    ensures was { result ≡ slice_index_or bare.old.nodes n None }
    ensures less { IfSome result (λ _. bare.new.live + 1 ≡ bare.old.live) }
    ensures fewer { bare.new.live ≤ bare.old.live }
    ensures names { bare.new.names ≡ bare.old.names }
    ensures cap { bare.new.pair_cap ≡ bare.old.pair_cap }
{
    let node = take_node(&mut bare.nodes, n)?;
    bare.live -= 1;
    bare.text_bytes -= node.content.value().len();
    Some(node)
}

/// Takes the nodes at some numbers out, and counts them no longer.
fn take_all(bare: &mut Bare, ns: &[NodeId])
    requires counted { Counted bare.old }
    ensures counted { Counted bare.new }
    ensures taken { bare.new.nodes ≡ emptied ns.now bare.old.nodes }
    ensures fewer { bare.new.live ≤ bare.old.live }
    ensures names { bare.new.names ≡ bare.old.names }
    ensures cap { bare.new.pair_cap ≡ bare.old.pair_cap }
{
    for n in ns {
        let _node = take(bare, *n);
    }
}

/// Takes a node out with all below it, and counts them no longer.
fn clear(bare: &mut Bare, n: NodeId)
    requires counted { Counted bare.old }
    ensures counted { Counted bare.new }
    ensures cleared { Clears bare.old bare.new n }
    ensures fewer { bare.new.live ≤ bare.old.live }
    ensures names { bare.new.names ≡ bare.old.names }
    ensures cap { bare.new.pair_cap ≡ bare.old.pair_cap }
{
    if let Some(node) = take(bare, n) {
        take_all(bare, node.attributes.as_slice());
        for kid in node.kids.as_slice() {
            clear(bare, *kid);
        }
    }
}
