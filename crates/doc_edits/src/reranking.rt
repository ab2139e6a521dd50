//! Ranks given anew, where there is no room between two of them.

ghost use Rattle.std.specs.Prelude.{◌≡◌, ◌+◌, ◌*◌, ◌<◌, ◌≤◌, ◌∷◌, ◌^◌, None, length, slice_index_or, slice_set, true};
ghost use Rattle.doc_table.specs.declared.limits.TheConstants.{MAX_LIVE_NODES};
ghost use Rattle.doc_table.specs.declared.ranks.TheConstants.{RANK_STEP};
ghost use Rattle.doc_table.specs.Table.{attrs_of, is_live};
ghost use Rattle.doc_table.specs.Walks.{below};
ghost use Rattle.doc_table.specs.inner.Parts.{IsSound, table_of};
ghost use Rattle.doc_table.specs.inner.Sound.{Formed};
ghost use Rattle.doc_edits.specs.inner.Ranking.{ranked, reranked, with_rank};

use crate::ranking::Spread;
use doc_table::{Bare, Node, NodeId, RANK_STEP};

/// Gives ranks anew where there was no room for those of new nodes. Takes no memory.
///
/// Costs nothing where there was room, and else the nodes of the tree.
pub(crate) fn settle(bare: &mut Bare, spread: Spread)
    requires formed { Formed (table_of bare.old) }
    requires roomy { 0 < spread.step → IsSound bare.old }
    requires anew { IsSound (reranked bare.old) }
    ensures sound { IsSound bare.new }
    ensures table { table_of bare.new ≡ table_of bare.old }
    ensures names { bare.new.names ≡ bare.old.names }
    ensures cap { bare.new.pair_cap ≡ bare.old.pair_cap }
{
    if spread.step == 0 {
        rank_anew(bare);
    }
}

/// Gives each node the rank of its place in document order.
fn rank_anew(bare: &mut Bare)
    requires { Formed (table_of bare.old) }
    ensures { bare.new ≡ reranked bare.old }
{
    let root = bare.root();
    rank_below(bare, root, 0);
}

/// Gives a node and all below it ranks by their places, of which this is the first; returns the place behind them.
fn rank_below(bare: &mut Bare, n: NodeId, place: u32) -> u32
    requires formed { Formed (table_of bare.old) }
    requires lives { is_live (table_of bare.old) n ≡ true }
    requires few { place + length (below (table_of bare.old) n) ≤ MAX_LIVE_NODES }
    ensures ranked { bare.new ≡ record bare.old { nodes = ranked place (below (table_of bare.old) n) bare.old.nodes } }
    ensures next { result ≡ place + length (below (table_of bare.old) n) }
{
    let kids = bare.kids(n).len();
    let mut next = rank_node(bare, n, place);
    for i in 0..kids {
        let kid = bare.kids(n)[i];
        next = rank_below(bare, kid, next);
    }
    next
}

/// Gives a node and its attributes ranks by their places, of which this is the first; returns the place behind them.
fn rank_node(bare: &mut Bare, n: NodeId, place: u32) -> u32
    requires few { place + length (attrs_of (table_of bare.old) n) + 1 < 2 ^ 32 }
    ensures ranked { bare.new ≡ record bare.old { nodes = ranked place (n ∷ attrs_of (table_of bare.old) n) bare.old.nodes } }
    ensures next { result ≡ place + length (attrs_of (table_of bare.old) n) + 1 }
{
    let attributes = bare.attrs(n).len();
    set_rank(&mut bare.nodes, n, place);
    let mut next = place + 1;
    for i in 0..attributes {
        let attribute = bare.attrs(n)[i];
        set_rank(&mut bare.nodes, attribute, next);
        next += 1;
    }
    next
}

/// Gives a node the rank of its place.
fn set_rank(nodes: &mut Vec<Option<Node>>, n: NodeId, place: u32)
    ensures { nodes.new.items ≡ slice_set nodes.old.items n (with_rank (RANK_STEP * place) (slice_index_or nodes.old.items n None)) }
{
    if n.index() < nodes.len() {
        let slot = &mut nodes[n.index()];
        if let Some(node) = slot {
            node.rank = RANK_STEP * u64::from(place);
        }
    }
}
