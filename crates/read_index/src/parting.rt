//! The names of nodes, parted from the other cells of a unit that has read many.

ghost use Rattle.std.specs.Prelude.{◌≡◌, ◌||◌, ◌&&◌, IfOk, OnOk};
ghost use Rattle.doc_tree.specs.cell.Cell.{Cell};
ghost use Rattle.cell_index.specs.Cells.{is_among, is_cell};
ghost use Rattle.read_index.specs.inner.Filing.{StaysElsewhere};
ghost use Rattle.read_index.specs.inner.Parting.{AddsPart, AddsToBoth, is_name, is_of_part};

use cell_index::CellIndex;
use doc_tree::Cell;
use std::alloc::{AllocError, Global};

/// How many cells of a unit may stay together: to part them takes one set more, some 70 bytes, and to share so few spares little, at most
/// 16 bytes for each.
const FEW_CELLS: usize = 16;

/// Gives a unit cells: where they are few, all in the one index; else the names of nodes among them in the other.
pub(crate) fn add_cells(
    alloc: Global,
    index: &mut CellIndex,
    named: &mut CellIndex,
    unit: u64,
    cells: &[Cell],
) -> Result<(), AllocError>
    ensures added { OnOk result (AddsToBoth unit cells.now index.old named.old index.new named.new) }
    ensures others { StaysElsewhere unit index.old index.new }
    ensures named_others { StaysElsewhere unit named.old named.new }
{
    if cells.len() <= FEW_CELLS {
        return index.add(unit, cells);
    }
    add_part(alloc, index, unit, cells, false)?;
    add_part(alloc, named, unit, cells, true)
}

/// Gives a unit the names of nodes among some cells, or the others.
fn add_part(
    alloc: Global,
    index: &mut CellIndex,
    unit: u64,
    cells: &[Cell],
    names: bool,
) -> Result<(), AllocError>
    ensures added { OnOk result (AddsPart names unit cells.now index.old index.new) }
    ensures others { StaysElsewhere unit index.old index.new }
{
    let part = part_of(alloc, cells, names)?;
    index.add(unit, part.as_slice())
}

/// The names of nodes among some cells, or the others.
fn part_of(alloc: Global, cells: &[Cell], names: bool) -> Result<Vec<Cell>, AllocError>
    ensures { IfOk result (λ part. (c : Cell) → is_among part.items c ≡ (is_of_part names c && is_among cells.now c)) }
{
    let mut part = Vec::new(alloc);
    for cell in cells {
        push_for(&mut part, cell, names)?;
    }
    Ok(part)
}

/// Puts a cell at the end where it is the name of a node, or where it is none.
fn push_for(part: &mut Vec<Cell>, cell: &Cell, names: bool) -> Result<(), AllocError>
    ensures { OnOk result ((c : Cell) → is_among part.new.items c ≡ (is_among part.old.items c || (is_of_part names c && is_cell c cell.now))) }
{
    if is_name(cell) == names {
        part.push(*cell)?;
    }
    Ok(())
}

/// Whether a cell is the name of a node.
fn is_name(cell: &Cell) -> bool
    ensures { result ≡ is_name cell.now }
{
    matches!(cell, Cell::Name(_))
}
