//! Sets of cells, shared by the units that have just these cells.

ghost use Rattle.std.specs.Prelude.{◌≡◌, ℕ, ◌+◌, ◌≤◌, true, false, length, IfNone, IfOk, IfSome, OnErr, OnOk};
ghost use Rattle.cell_index.specs.Index.{Adds, AreThoseWith, Removes, Stays, has};
ghost use Rattle.cell_index.specs.inner.Sharing.{KeepsCells, cells_of_set, held_of, is_member};

use crate::cell_list::CellList;
use crate::cell_sets::CellSets;
use crate::gathering::in_order;
use crate::unit_sets::UnitSets;
use doc_tree::Cell;
use std::alloc::{AllocError, Global};

/// Gives a unit the set of its cells and others.
pub(crate) fn add_shared(
    sets: &mut CellSets,
    units: &mut UnitSets,
    alloc: Global,
    unit: u32,
    cells: &[Cell],
) -> Result<(), AllocError>
    ensures added { OnOk result (Adds unit cells.now (held_of sets.old units.old) (held_of sets.new units.new)) }
    ensures unchanged { OnErr result (Stays (held_of sets.old units.old) (held_of sets.new units.new)) }
{
    if cells.is_empty() {
        return Ok(());
    }
    let own = sets.cells(units.set_of(unit as usize));
    let all = CellList::of_both(alloc, own, cells)?;
    let set = set_for(sets, units, all)?;
    units.join(unit, set)
}

/// The set with just these cells in this order; where none is found it is made.
fn set_for(sets: &mut CellSets, units: &UnitSets, cells: CellList) -> Result<u32, AllocError>
    ensures has { IfOk result (λ set. cells_of_set sets.new set ≡ cells) }
    ensures same { KeepsCells units.now sets.old sets.new }
{
    if let Some(set) = sets.find(cells.as_slice()) {
        return Ok(set);
    }
    let place = unused_place(sets, units)?;
    sets.put(place, cells)
}

/// The place of a set that no unit has, or the one behind the last.
fn unused_place(sets: &CellSets, units: &UnitSets) -> Result<usize, AllocError>
    ensures within { IfOk result (λ place. place ≤ length sets.now) }
    ensures unused { IfOk result (λ place. (unit : ℕ) → is_member units.now (place + 1) unit ≡ false) }
{
    for place in sets.first()..sets.len().saturating_add(1) {
        if !units.may_have(place + 1) {
            return Ok(place);
        }
    }
    Err(AllocError)
}

/// Takes a unit that has a cell from its set.
pub(crate) fn take_unit(sets: &mut CellSets, units: &mut UnitSets, cell: &Cell) -> Option<u32>
    ensures took { IfSome result (λ unit. has (held_of sets.old units.old) unit cell.now ≡ true) }
    ensures removed { IfSome result (λ unit. Removes unit (held_of sets.old units.old) (held_of sets.new units.new)) }
    ensures none { IfNone result ((u : ℕ) → has (held_of sets.old units.old) u cell.now ≡ false) }
    ensures unchanged { IfNone result (Stays (held_of sets.old units.old) (held_of sets.new units.new)) }
{
    while let Some(set) = sets.next_with(cell) {
        if let Some(unit) = units.next_of(set) {
            units.leave(unit as usize);
            return Some(unit);
        }
        sets.clear(set as usize);
    }
    None
}

/// The units that have one of some cells, in any order, some perhaps more than once.
pub(crate) fn units_with(
    alloc: Global,
    sets: &CellSets,
    units: &UnitSets,
    cells: &[Cell],
) -> Result<Vec<u64>, AllocError>
    ensures { IfOk result (λ found. AreThoseWith (held_of sets.now units.now) cells.now found.items) }
{
    let numbers = in_order(sets.with(alloc, cells)?);
    let found = units.of_sets(alloc, numbers.as_slice())?;
    Ok(in_order(found))
}

/// Makes the hints anew, and drops the cells of sets that no unit has.
pub(crate) fn renew(
    sets: &mut CellSets,
    units: &mut UnitSets,
    alloc: Global,
) -> Result<(), AllocError>
    ensures { Stays (held_of sets.old units.old) (held_of sets.new units.new) }
{
    units.renew(alloc)?;
    clear_unused(sets, units);
    sets.renew(alloc)
}

/// Drops the cells of sets that no unit has.
fn clear_unused(sets: &mut CellSets, units: &UnitSets)
    ensures { KeepsCells units.now sets.old sets.new }
{
    for place in 0..sets.len() {
        if !units.may_have(place + 1) {
            sets.clear(place + 1);
        }
    }
}
