//! Deleting a node, and joining the texts that meet then.

ghost use Rattle.std.specs.Prelude.{◌≡◌, ◌≢◌, ◌+◌, ◌-◌, ◌<◌, ◌≤◌, ◌++◌, ◌&&◌, ◌⊎◌, true, length, Some, None, IfOk, MatchOption, OnOk, OnErr, slice_index};
ghost use Rattle.doc_table.specs.Kinds.{can_be_kid, is_text};
ghost use Rattle.doc_table.specs.Table.{kids_above, kind_of, parent_of, value_of};
ghost use Rattle.doc_table.specs.inner.Parts.{IsSound, table_of};
ghost use Rattle.doc_edits.specs.Changes.{deleted, meeting};

use crate::removing::{place_of, remove};
use crate::saying::put_text;
use doc_table::{Bare, Kind, NodeId};
use sch_base::Text;
use std::alloc::AllocError;

/// Deletes a node with all below it; of two texts that meet then the left one says both, and the right one is gone.
///
/// Memory is wanted only where two texts meet, and then nothing has changed after want of it. Costs the nodes below it,
/// a look at its siblings, and the copying of two texts that meet.
#[tactic(auto, using(crate::proofs::MeetingLemmas::lone_goes))]
pub fn delete(bare: &mut Bare, n: NodeId) -> Result<(), AllocError>
    requires sound { IsSound bare.old }
    requires kid { can_be_kid (kind_of (table_of bare.old) n) ≡ true }
    ensures sound { IsSound bare.new }
    ensures deleted { OnOk result (table_of bare.new ≡ deleted (table_of bare.old) n) }
    ensures memory { OnErr result (meeting (table_of bare.old) n (kids_above (table_of bare.old) (parent_of (table_of bare.old) n)) ≢ None) }
    ensures names { bare.new.names ≡ bare.old.names }
    ensures cap { bare.new.pair_cap ≡ bare.old.pair_cap }
    ensures unchanged { OnErr result (bare.new ≡ bare.old) }
{
    match texts_beside(bare, n) {
        Some((left, right)) => merge(bare, n, left, right),
        None => {
            remove(bare, n);
            Ok(())
        }
    }
}

/// The texts that meet where the node goes.
fn texts_beside(bare: &Bare, n: NodeId) -> Option<(NodeId, NodeId)>
    requires sound { IsSound bare.now }
    requires kid { can_be_kid (kind_of (table_of bare.now) n) ≡ true }
    ensures { MatchOption result
        (meeting (table_of bare.now) n (kids_above (table_of bare.now) (parent_of (table_of bare.now) n)) ≡ None)
        (λ texts. meeting (table_of bare.now) n (kids_above (table_of bare.now) (parent_of (table_of bare.now) n)) ≡ Some (record { left = texts.0; right = texts.1 })) }
{
    let kids = bare.kids(bare.parent(n)?);
    let place = place_of(kids, n)?;
    let (left, right) = neighbours(kids, place)?;
    if are_texts(bare, left, right) {
        Some((left, right))
    } else {
        None
    }
}

/// What stands before and behind a place of a list.
fn neighbours(list: &[NodeId], place: usize) -> Option<(NodeId, NodeId)>
    requires { place < length list.now }
    ensures { MatchOption result ((place ≡ 0) ⊎ (length list.now ≤ place + 1))
        (λ pair. (0 < place) × (place + 1 < length list.now) × (pair.0 ≡ slice_index list.now (place - 1)) × (pair.1 ≡ slice_index list.now (place + 1))) }
{
    if place == 0 || place + 1 >= list.len() {
        return None;
    }
    Some((list[place - 1], list[place + 1]))
}

/// Whether two nodes are texts.
fn are_texts(bare: &Bare, left: NodeId, right: NodeId) -> bool
    ensures { result ≡ (is_text (kind_of (table_of bare.now) left) && is_text (kind_of (table_of bare.now) right)) }
{
    matches!(bare.kind_of(left), Some(Kind::Text))
        && matches!(bare.kind_of(right), Some(Kind::Text))
}

/// Deletes the node between two texts, of which the left one says both then, and the right one is gone.
fn merge(bare: &mut Bare, n: NodeId, left: NodeId, right: NodeId) -> Result<(), AllocError>
    requires sound { IsSound bare.old }
    requires meet { meeting (table_of bare.old) n (kids_above (table_of bare.old) (parent_of (table_of bare.old) n)) ≡ Some (record { left = left; right = right }) }
    ensures sound { IsSound bare.new }
    ensures deleted { OnOk result (table_of bare.new ≡ deleted (table_of bare.old) n) }
    ensures names { bare.new.names ≡ bare.old.names }
    ensures cap { bare.new.pair_cap ≡ bare.old.pair_cap }
    ensures unchanged { OnErr result (bare.new ≡ bare.old) }
{
    let text = joined(bare, left, right)?;
    remove(bare, right);
    remove(bare, n);
    put_text(bare, left, text);
    Ok(())
}

/// The texts of two nodes, joined.
fn joined(bare: &Bare, left: NodeId, right: NodeId) -> Result<Text, AllocError>
    ensures { IfOk result (λ text. text ≡ value_of (table_of bare.now) left ++ value_of (table_of bare.now) right) }
{
    let mut text = String::from_str(bare.alloc, bare.value(left))?;
    text.push_str(bare.value(right))?;
    Ok(Text::from(text))
}
