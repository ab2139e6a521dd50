//! Lists of cells, held in little room.

ghost use Rattle.std.specs.Prelude.{◌≡◌, ◌||◌, ℕ, Bool, [], ◌++◌, length, IfOk, IfSome, OnOk};
ghost use Rattle.std.specs.List.{list_any};
ghost use Rattle.doc_tree.specs.cell.Cell.{Cell};
ghost use Rattle.cell_index.specs.Cells.{is_among, is_cell};
ghost use Rattle.cell_index.specs.inner.CellList.{cells_held};

use doc_tree::Cell;
use std::alloc::{AllocError, Global};
use std::marker::Model;
use std::slice;

/// A list of cells, seen by contracts as it is.
///
/// Takes 32 bytes. Most lists are short; nothing else is allocated for up to three cells, and 8 bytes a cell for more.
#[derive(Drop)]
pub(crate) struct CellList {
    held: HeldCells,
}

/// How the cells of a list are held.
#[derive(Drop)]
enum HeldCells {
    Nothing,
    One(Cell),
    Two([Cell; 2]),
    Three([Cell; 3]),
    Many(Vec<Cell>),
}

impl Model for CellList {
    ghost use Rattle.std.specs.Prelude.{List};
    ghost use Rattle.doc_tree.specs.cell.Cell.{Cell};

    ghost Value = { List Cell };

    ghost use Rattle.cell_index.specs.inner.CellList.{cells_held};

    ghost view = { λ u. cells_held u.held };
}

impl CellList {
    /// No cell.
    pub(crate) fn none() -> CellList
        ensures { result ≡ [] }
    {
        CellList {
            held: HeldCells::Nothing,
        }
    }

    /// The cells of two lists. Up to three stay as they come, where the first list has none; else they are put in the order of cells,
    /// each once, so that lists of the same cells become the same.
    ///
    /// Costs what it costs to sort them.
    pub(crate) fn of_both(
        alloc: Global,
        first: &[Cell],
        cells: &[Cell],
    ) -> Result<CellList, AllocError>
        ensures { IfOk result (λ list. (c : Cell) → is_among list c ≡ (is_among first.now c || is_among cells.now c)) }
    {
        let held = held_of_both(alloc, first, cells)?;
        Ok(CellList { held })
    }

    /// The cells in their order.
    pub(crate) fn as_slice(&self) -> &[Cell]
        ensures { result.now ≡ self.now }
    {
        match &self.held {
            HeldCells::Nothing => &[],
            HeldCells::One(cell) => slice::from_ref(cell),
            HeldCells::Two(cells) => cells.as_slice(),
            HeldCells::Three(cells) => cells.as_slice(),
            HeldCells::Many(cells) => cells.as_slice(),
        }
    }
}

/// Whether a cell is among some. Looks at each up to that one.
pub(crate) fn is_among(cells: &[Cell], cell: &Cell) -> bool
    ensures { result ≡ is_among cells.now cell.now }
{
    cells.iter().any(|other| is_cell(cell, other))
}

/// Whether two cells are one.
fn is_cell(a: &Cell, b: &Cell) -> bool
    ensures { result ≡ is_cell a.now b.now }
{
    *a == *b
}

/// The cells of two lists, as `CellList::of_both` tells.
fn held_of_both(alloc: Global, first: &[Cell], cells: &[Cell]) -> Result<HeldCells, AllocError>
    ensures { IfOk result (λ held. (c : Cell) → is_among (cells_held held) c ≡ (is_among first.now c || is_among cells.now c)) }
{
    if first.is_empty() {
        if let Some(held) = few(cells) {
            return Ok(held);
        }
    }
    let all = in_order(joined(alloc, first, cells)?);
    Ok(in_little_room(all))
}

/// Some cells, and others behind them.
fn joined(alloc: Global, first: &[Cell], cells: &[Cell]) -> Result<Vec<Cell>, AllocError>
    ensures { IfOk result (λ all. all.items ≡ first.now ++ cells.now) }
{
    let mut all = Vec::new(alloc);
    all.extend_from_slice(first)?;
    all.extend_from_slice(cells)?;
    Ok(all)
}

/// The cells in their order, each once.
fn in_order(mut cells: Vec<Cell>) -> Vec<Cell>
    ensures { (c : Cell) → is_among result.items c ≡ is_among cells.items c }
{
    cells.sort_unstable();
    cells.dedup();
    cells
}

/// Some cells, in place where they are few.
fn in_little_room(mut cells: Vec<Cell>) -> HeldCells
    ensures { cells_held result ≡ cells.items }
{
    if let Some(held) = few(cells.as_slice()) {
        return held;
    }
    cells.shrink_to_fit();
    HeldCells::Many(cells)
}

/// Cells in place; None where they are too many.
fn few(cells: &[Cell]) -> Option<HeldCells>
    ensures { IfSome result (λ held. cells_held held ≡ cells.now) }
{
    match cells {
        [] => Some(HeldCells::Nothing),
        [a] => Some(HeldCells::One(*a)),
        [a, b] => Some(HeldCells::Two([*a, *b])),
        [a, b, c] => Some(HeldCells::Three([*a, *b, *c])),
        _ => None,
    }
}
