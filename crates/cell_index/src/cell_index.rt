//! The index from cells to units.

ghost use Rattle.std.specs.Prelude.{◌≡◌, ℕ, ◌<◌, true, false, IfNone, IfOk, IfSome, OnErr, OnOk, length};
ghost use Rattle.std.specs.Bool.{OnFalse, OnTrue};
ghost use Rattle.doc_tree.specs.cell.Cell.{Cell};
ghost use Rattle.cell_index.specs.Index.{Adds, AreThoseWith, Removes, Stays, has};

use crate::cell_sets::CellSets;
use crate::sharing::{add_shared, renew, take_unit, units_with};
use crate::unit_sets::{UnitSets, small};
use doc_tree::Cell;
use sch_base::ItemList;
use std::alloc::{AllocError, Global};
use std::marker::Model;

/// A list of units, by their numbers.
pub type UnitList = ItemList<u64>;

/// How many hints there may be at least before they are made anew.
const FEW_HINTS: usize = 4096;

/// From each cell to the units that have it.
///
/// Units that have the same cells share them: the cells of the set of each unit are what is true; beside them hints lead from each of
/// these cells to the set, and from the set to its units, and stay where the unit is removed. Where hints get many more than they need
/// be, they are made anew. Takes 4 bytes a unit up to the greatest number and 8 bytes for its hint; some 50 bytes a set, 8 bytes a cell
/// of a set with more than three and 8 bytes for the hint of each cell; 20 bytes a node.
#[derive(Drop)]
pub struct CellIndex {
    alloc: Global,
    sets: CellSets,
    units: UnitSets,
    /// Up to how many hints it doesn't pay to make them anew.
    limit: usize,
}

impl Model for CellIndex {
    ghost use Rattle.std.specs.Prelude.{List};
    ghost use Rattle.doc_tree.specs.cell.Cell.{Cell};

    ghost Value = { List (List Cell) };

    ghost use Rattle.cell_index.specs.inner.Sharing.{held_of};

    ghost view = { λ i. held_of i.sets i.units };
}

impl CellIndex {
    /// No unit has a cell.
    pub fn new(alloc: Global) -> CellIndex
        ensures { (unit : ℕ) (c : Cell) → has result unit c ≡ false }
    {
        CellIndex {
            alloc,
            sets: CellSets::new(alloc),
            units: UnitSets::new(alloc),
            limit: FEW_HINTS,
        }
    }

    /// Gives a unit cells beside those that it has; without memory, and for 4,294,967,295 units and more, the index stays as it was.
    ///
    /// Costs what it costs to sort the cells, near constant time a cell where no other unit has the same, and makes a place for each
    /// unit up to this one.
    pub fn add(&mut self, unit: u64, cells: &[Cell]) -> Result<(), AllocError>
        ensures added { OnOk result (Adds unit cells.now self.old self.new) }
        ensures unchanged { OnErr result (Stays self.old self.new) }
    {
        let unit = small(unit as usize)?;
        self.renew()?;
        self.put(unit, cells)
    }

    /// Forgets a unit: it has no cell any more. Takes no memory.
    pub fn remove(&mut self, unit: u64)
        ensures { Removes unit self.old self.new }
    {
        self.units.leave(unit as usize);
    }

    /// The units that have one of the cells, in the order of their numbers.
    ///
    /// Goes to each hint of the cells and looks at the cells of its set, and to each hint of these sets; what is found is sorted.
    pub fn touched_by(&self, alloc: Global, cells: &[Cell]) -> Result<UnitList, AllocError>
        ensures { IfOk result (AreThoseWith self.now cells.now) }
    {
        let units = units_with(alloc, &self.sets, &self.units, cells)?;
        UnitList::copy_of(alloc, units.as_slice())
    }

    /// Takes a unit that has the cell from the index, as `remove` does; None where no unit has it. Takes no memory.
    ///
    /// Looks at the cells of the unit's set up to this one. To take all units of a cell goes to each of its hints once, and to each of
    /// these sets' hints.
    pub fn take(&mut self, cell: &Cell) -> Option<u64>
        ensures took { IfSome result (λ unit. (has self.old unit cell.now ≡ true) × Removes unit self.old self.new) }
        ensures none { IfNone result ((u : ℕ) → has self.old u cell.now ≡ false) }
        ensures unchanged { IfNone result (Stays self.old self.new) }
    {
        let unit = take_unit(&mut self.sets, &mut self.units, cell)?;
        Some(u64::from(unit))
    }

    /// Whether a unit may have the cell; where not, none has it. Looks at one number.
    pub fn may_have(&self, cell: &Cell) -> bool
        ensures { OnFalse result ((unit : ℕ) → has self.now unit cell.now ≡ false) }
    {
        self.sets.may_have(cell)
    }

    /// Whether no cell was given to a unit since the index was made; then no unit has one.
    pub fn is_unused(&self) -> bool
        ensures { OnTrue result ((unit : ℕ) (c : Cell) → has self.now unit c ≡ false) }
    {
        self.sets.len() == 0
    }

    /// Makes the hints anew where they are many more than they need be.
    fn renew(&mut self) -> Result<(), AllocError>
        ensures { Stays self.old self.new }
    {
        if self.hints() <= self.limit {
            return Ok(());
        }
        renew(&mut self.sets, &mut self.units, self.alloc)?;
        self.limit = self.hints().saturating_mul(2).saturating_add(FEW_HINTS);
        Ok(())
    }

    /// How many hints there are.
    fn hints(&self) -> usize {
        self.sets.hints().saturating_add(self.units.hints())
    }

    /// Gives a unit cells beside those that it has.
    fn put(&mut self, unit: u32, cells: &[Cell]) -> Result<(), AllocError>
        ensures added { OnOk result (Adds unit cells.now self.old self.new) }
        ensures unchanged { OnErr result (Stays self.old self.new) }
    {
        add_shared(&mut self.sets, &mut self.units, self.alloc, unit, cells)
    }
}
