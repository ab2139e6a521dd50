//! Sets that have a cell, and units that have a set, found by hints.

ghost use Rattle.std.specs.Prelude.{◌≡◌, ℕ, ◌==◌, [], true, false, IfNone, IfOk, IfSome, OnOk};
ghost use Rattle.std.specs.List.{Contains, list_any};
ghost use Rattle.doc_tree.specs.cell.Cell.{Cell};
ghost use Rattle.cell_index.specs.inner.Gathering.{Finds};
ghost use Rattle.cell_index.specs.inner.Sharing.{AreMembers, AreReaders, is_member, set_has};

use crate::cell_list::CellList;
use crate::cell_numbers::cell_number;
use crate::cell_sets::set_has;
use crate::chains::Chains;
use crate::gathering::push_if;
use crate::unit_sets::is_member;
use doc_tree::Cell;
use std::alloc::{AllocError, Global};

/// A set that has a cell; None where no set has it. Hints before it that lead to no such set are dropped.
pub(crate) fn next_with(sets: &[CellList], readers: &mut Chains, cell: &Cell) -> Option<u32>
    ensures readers { AreReaders sets.now readers.old → AreReaders sets.now readers.new }
    ensures has { IfSome result (λ set. set_has sets.now set cell.now ≡ true) }
    ensures none { IfNone result (AreReaders sets.now readers.old → (set : ℕ) → set_has sets.now set cell.now ≡ false) }
{
    let key = cell_number(*cell);
    while let Some(set) = readers.newest_item(key) {
        if set_has(sets, set, cell) {
            return Some(set);
        }
        readers.drop_newest(key);
    }
    None
}

/// A unit that has a set; None where no unit has it. Hints before it that lead to no such unit are dropped.
pub(crate) fn next_of(of_unit: &[u32], members: &mut Chains, set: u32) -> Option<u32>
    ensures members { AreMembers of_unit.now members.old → AreMembers of_unit.now members.new }
    ensures has { IfSome result (λ unit. is_member of_unit.now set unit ≡ true) }
    ensures none { IfNone result (AreMembers of_unit.now members.old → (unit : ℕ) → is_member of_unit.now set unit ≡ false) }
{
    let key = set as usize;
    while let Some(unit) = members.newest_item(key) {
        if is_member(of_unit, key, unit) {
            return Some(unit);
        }
        members.drop_newest(key);
    }
    None
}

/// The sets that have one of some cells, in any order, some perhaps more than once.
pub(crate) fn sets_with(
    alloc: Global,
    sets: &[CellList],
    readers: &Chains,
    cells: &[Cell],
) -> Result<Vec<u64>, AllocError>
    ensures { IfOk result (λ found. AreReaders sets.now readers.now → Finds (λ set. list_any (set_has sets.now set) cells.now) [] found.items) }
{
    let mut found = Vec::new(alloc);
    for cell in cells {
        push_sets(&mut found, alloc, sets, readers, cell)?;
    }
    Ok(found)
}

/// Puts the sets that have a cell at the end.
fn push_sets(
    found: &mut Vec<u64>,
    alloc: Global,
    sets: &[CellList],
    readers: &Chains,
    cell: &Cell,
) -> Result<(), AllocError>
    ensures { OnOk result (AreReaders sets.now readers.now → Finds (λ set. set_has sets.now set cell.now) found.old.items found.new.items) }
{
    let hints = readers.items(alloc, cell_number(*cell))?;
    for set in &hints {
        push_if(found, *set, set_has(sets, *set, cell))?;
    }
    Ok(())
}

/// The units that have one of some sets, in any order, some perhaps more than once.
pub(crate) fn units_of(
    alloc: Global,
    of_unit: &[u32],
    members: &Chains,
    sets: &[u64],
) -> Result<Vec<u64>, AllocError>
    ensures { IfOk result (λ found. AreMembers of_unit.now members.now → Finds (λ unit. list_any (λ set. is_member of_unit.now set unit) sets.now) [] found.items) }
{
    let mut found = Vec::new(alloc);
    for set in sets {
        push_units(&mut found, alloc, of_unit, members, *set)?;
    }
    Ok(found)
}

/// Puts the units that have a set at the end.
fn push_units(
    found: &mut Vec<u64>,
    alloc: Global,
    of_unit: &[u32],
    members: &Chains,
    set: u64,
) -> Result<(), AllocError>
    ensures { OnOk result (AreMembers of_unit.now members.now → Finds (is_member of_unit.now set) found.old.items found.new.items) }
{
    let hints = members.items(alloc, set as usize)?;
    for unit in &hints {
        push_if(found, *unit, is_member(of_unit, set as usize, *unit))?;
    }
    Ok(())
}
