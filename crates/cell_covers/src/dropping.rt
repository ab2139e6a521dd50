//! What is held of the reads of a unit: no cell that another covers, and names along upward axes one by one.

ghost use Rattle.std.specs.Prelude.{◌≡◌, ◌&&◌, not, IfOk, OnOk};
ghost use Rattle.std.specs.FinSet.{empty, from_list, items};
ghost use Rattle.std.specs.List.{list_any};
ghost use Rattle.cover_laws.specs.Covering.{HeldAlike, is_upward};
ghost use Rattle.cell_covers.specs.Bare.{IsBare};
ghost use Rattle.cell_covers.specs.inner.Dropping.{Leaves, StandsFor, is_covered, is_wide};

use crate::covering::Covering;
use crate::names::{add_names, has_upward};
use cover_laws::equal_is_held_alike;
use doc_tree::{Cell, Tree};
use std::alloc::{AllocError, Global};
use xp_outcome::Recorder;

/// What is held of what was read over a tree: the lets; the cells that no other covers, with the names along upward axes one by one; and
/// the names along the other axes.
///
/// Costs one look over the reads where no `Shape`, no `Text` and no name along an upward axis was read: they are then held as they are. Else
/// each cell climbs to what covers it: a logarithm of the cells for each node on its way up, and none where the `Shape` or the `Text`
/// of the root covers it. Names along an upward axis cost the way up.
pub fn without_covered(alloc: Global, tree: &Tree, reads: Recorder) -> Result<Recorder, AllocError>
    ensures alike { IfOk result (λ held. HeldAlike tree.now.nodes held reads) }
    ensures bare { IfOk result (λ held. IsBare tree.now.nodes held.cells) }
{
    equal_is_held_alike();
    if is_plain(&reads) {
        return Ok(reads);
    }
    let held = uncovered(alloc, tree, &reads);
    drop(reads);
    held
}

/// Whether no cell is one that can cover others, and no name was read along an upward axis.
fn is_plain(reads: &Recorder) -> bool
    ensures { result ≡ (not (list_any is_wide (items reads.now.cells)) && not (list_any (λ along. is_upward along.axis) (items reads.now.names))) }
{
    if has_wide(reads) {
        return false;
    }
    !leads_upward(reads)
}

/// Whether some cell is one that can cover others.
fn has_wide(reads: &Recorder) -> bool
    ensures { result ≡ list_any is_wide (items reads.now.cells) }
{
    is_wide_among(reads.cells())
}

/// Whether names were read along an upward axis.
fn leads_upward(reads: &Recorder) -> bool
    ensures { result ≡ list_any (λ along. is_upward along.axis) (items reads.now.names) }
{
    has_upward(reads.names())
}

/// Whether one of some cells can cover others.
fn is_wide_among(cells: &[Cell]) -> bool
    ensures { result ≡ list_any is_wide cells.now }
{
    cells
        .iter()
        .any(|cell| matches!(cell, Cell::Shape(_) | Cell::Text(_)))
}

/// What is held, where some cell can cover others or names lead upward.
fn uncovered(alloc: Global, tree: &Tree, reads: &Recorder) -> Result<Recorder, AllocError>
    ensures alike { IfOk result (λ held. HeldAlike tree.now.nodes held reads.now) }
    ensures bare { IfOk result (λ held. IsBare tree.now.nodes held.cells) }
{
    let covering = Covering::of(alloc, reads.cells())?;
    let held = left_by(alloc, tree, &covering, reads);
    drop(covering);
    held
}

/// The lets that were read, the cells that none of these covers, and the names.
fn left_by(
    alloc: Global,
    tree: &Tree,
    covering: &Covering,
    reads: &Recorder,
) -> Result<Recorder, AllocError>
    requires { StandsFor reads.now.cells covering.now.shapes.numbers.items covering.now.texts.numbers.items }
    ensures alike { IfOk result (λ held. HeldAlike tree.now.nodes held reads.now) }
    ensures bare { IfOk result (λ held. IsBare tree.now.nodes held.cells) }
{
    tree.laws();
    let mut held = with_lets(alloc, reads.lets())?;
    add_uncovered(tree, covering, reads.cells(), &mut held)?;
    add_names(alloc, tree, reads.names(), &mut held)?;
    Ok(held)
}

/// A recorder of the lets in these slots alone.
fn with_lets(alloc: Global, slots: &[u32]) -> Result<Recorder, AllocError>
    ensures lets { IfOk result (λ held. held.lets ≡ from_list slots.now) }
    ensures cells { IfOk result (λ held. held.cells ≡ empty) }
    ensures names { IfOk result (λ held. held.names ≡ empty) }
{
    let mut held = Recorder::new(alloc);
    for slot in slots {
        held.add_let(*slot)?;
    }
    Ok(held)
}

/// Adds those of some cells that aren't covered.
fn add_uncovered(
    tree: &Tree,
    covering: &Covering,
    cells: &[Cell],
    held: &mut Recorder,
) -> Result<(), AllocError>
    requires { held.old.cells ≡ empty }
    ensures cells { OnOk result (Leaves (is_covered tree.now.nodes covering.now.shapes.numbers.items covering.now.texts.numbers.items)
        (from_list cells.now) held.new.cells) }
    ensures names { OnOk result (held.new.names ≡ held.old.names) }
    ensures lets { OnOk result (held.new.lets ≡ held.old.lets) }
{
    for cell in cells {
        if !covering.covers(tree, *cell) {
            held.add(*cell)?;
        }
    }
    Ok(())
}
