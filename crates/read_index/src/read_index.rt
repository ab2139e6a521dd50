//! The index from what is read to units.

ghost use Rattle.std.specs.Prelude.{◌≡◌, ℕ, true, false, IfNone, IfSome, OnErr, OnOk};
ghost use Rattle.std.specs.Bool.{OnFalse};
ghost use Rattle.doc_tree.specs.cell.Cell.{Cell};
ghost use Rattle.doc_tree.specs.declared.axes.Axis.{Axis};
ghost use Rattle.xp_outcome.specs.Evaluation.{Read, cell as of_cell, names_along};
ghost use Rattle.cell_index.specs.Index.{has};
ghost use Rattle.read_index.specs.Names.{is_far};
ghost use Rattle.read_index.specs.ReadIndex.{Adds, Removes, Stays, has_read};
ghost use Rattle.read_index.specs.inner.Filing.{SameElsewhere, filed_part};

use crate::filing::{add_names, filed, is_far};
use crate::parting::add_cells;
use cell_index::CellIndex;
use doc_tree::Cell;
use std::alloc::{AllocError, Global};
use xp_outcome::NamesAlong;

/// From each cell, and from the names along each axis from a node, to the units that have read them.
///
/// Units that have read the same cells share them, and so do units that have read names along the same axes from the same nodes. Where a
/// unit has read many cells, the names of nodes among them are kept apart, and each part is shared alone: each unit has read the name of its
/// own node, and units that differ in this share all the other cells. The names along an axis from a node are one item, filed as a cell is.
///
/// Takes what its four indexes take (see `CellIndex`): 16 bytes a cell of each set, once for all units that share it; some 100 bytes for a
/// unit that shares many cells, with one name for itself.
#[derive(Drop)]
pub struct ReadIndex {
    /// The cells, but for the names of nodes that units with many cells have read.
    pub(crate) cells: CellIndex,
    /// These names of nodes.
    pub(crate) named: CellIndex,
    /// The names along the axes on which a node stands from its parent, from those above it and from those beside it.
    pub(crate) near: CellIndex,
    /// The names along the other axes.
    pub(crate) far: CellIndex,
}

impl ReadIndex {
    /// No unit has read anything.
    pub fn new(alloc: Global) -> ReadIndex
        ensures { (unit : ℕ) (r : Read) → has_read result unit r ≡ false }
    {
        ReadIndex {
            cells: CellIndex::new(alloc),
            named: CellIndex::new(alloc),
            near: CellIndex::new(alloc),
            far: CellIndex::new(alloc),
        }
    }

    /// Keeps the cells and the names along axes that a unit has read of which nothing is kept; without memory, and for 4,294,967,295
    /// units and more, still nothing is.
    pub fn add(
        &mut self,
        alloc: Global,
        unit: u64,
        cells: &[Cell],
        names: &[NamesAlong],
    ) -> Result<(), AllocError>
        requires none { (r : Read) → has_read self.old unit r ≡ false }
        ensures added { OnOk result (Adds unit cells.now names.now self.old self.new) }
        ensures unchanged { OnErr result (Stays self.old self.new) }
    {
        match self.put(alloc, unit, cells, names) {
            Ok(()) => Ok(()),
            Err(error) => {
                self.remove(unit);
                Err(error)
            }
        }
    }

    /// Forgets a unit: it has read nothing. Takes no memory.
    pub fn remove(&mut self, unit: u64)
        ensures { Removes unit self.old self.new }
    {
        self.cells.remove(unit);
        self.named.remove(unit);
        self.near.remove(unit);
        self.far.remove(unit);
    }

    /// Takes a unit that has read the cell from the index, as `remove` does; None where no unit has. Takes no memory.
    pub fn take(&mut self, cell: &Cell) -> Option<u64>
        ensures took { IfSome result (λ unit. (has_read self.old unit (of_cell cell.now) ≡ true) × Removes unit self.old self.new) }
        ensures none { IfNone result ((u : ℕ) → has_read self.old u (of_cell cell.now) ≡ false) }
        ensures unchanged { IfNone result (Stays self.old self.new) }
    {
        match self.take_cell(cell) {
            Some(unit) => {
                self.remove(unit);
                Some(unit)
            }
            None => None,
        }
    }

    /// Takes a unit that has read the names along an axis from a node from the index, as `remove` does; None where no unit has. Takes no
    /// memory.
    pub fn take_names(&mut self, names: &NamesAlong) -> Option<u64>
        ensures took { IfSome result (λ unit. (has_read self.old unit (names_along names.now.axis names.now.node) ≡ true) × Removes unit self.old self.new) }
        ensures none { IfNone result ((u : ℕ) → has_read self.old u (names_along names.now.axis names.now.node) ≡ false) }
        ensures unchanged { IfNone result (Stays self.old self.new) }
    {
        match self.take_filed(is_far(names.axis), &filed(names.axis, names.node)) {
            Some(unit) => {
                self.remove(unit);
                Some(unit)
            }
            None => None,
        }
    }

    /// Whether a unit may have read the names along an axis from a node; where not, none has. Looks at one number.
    pub fn may_have(&self, names: &NamesAlong) -> bool
        ensures { OnFalse result ((unit : ℕ) → has_read self.now unit (names_along names.now.axis names.now.node) ≡ false) }
    {
        let cell = filed(names.axis, names.node);
        if is_far(names.axis) {
            self.far.may_have(&cell)
        } else {
            self.near.may_have(&cell)
        }
    }

    /// Whether a unit may have read the names along a far axis; where not, none has.
    pub fn may_have_far(&self) -> bool
        ensures { OnFalse result ((unit : ℕ) (axis : Axis) (n : ℕ) → is_far axis ≡ true → has_read self.now unit (names_along axis n) ≡ false) }
    {
        !self.far.is_unused()
    }

    /// Gives a unit what it has read; where memory ends, perhaps some of it.
    fn put(
        &mut self,
        alloc: Global,
        unit: u64,
        cells: &[Cell],
        names: &[NamesAlong],
    ) -> Result<(), AllocError>
        ensures added { OnOk result (Adds unit cells.now names.now self.old self.new) }
        ensures others { SameElsewhere unit self.old self.new }
    {
        add_cells(alloc, &mut self.cells, &mut self.named, unit, cells)?;
        add_names(alloc, &mut self.near, unit, names, false)?;
        add_names(alloc, &mut self.far, unit, names, true)
    }

    /// Takes a unit that has the cell from the index in which it is found, that of cells or that of names apart, and from no other.
    fn take_cell(&mut self, cell: &Cell) -> Option<u64>
        ensures took { IfSome result (λ unit. (has_read self.old unit (of_cell cell.now) ≡ true) × SameElsewhere unit self.old self.new) }
        ensures none { IfNone result ((u : ℕ) → has_read self.old u (of_cell cell.now) ≡ false) }
        ensures unchanged { IfNone result (Stays self.old self.new) }
    {
        match self.cells.take(cell) {
            Some(unit) => Some(unit),
            None => self.named.take(cell),
        }
    }

    /// Takes a unit that has what is filed under a cell from the index of far axes or from that of the others, and from no other.
    fn take_filed(&mut self, far: bool, cell: &Cell) -> Option<u64>
        ensures took { IfSome result (λ unit. (has (filed_part self.old far) unit cell.now ≡ true) × SameElsewhere unit self.old self.new) }
        ensures none { IfNone result ((u : ℕ) → has (filed_part self.old far) u cell.now ≡ false) }
        ensures unchanged { IfNone result (Stays self.old self.new) }
    {
        if far {
            self.far.take(cell)
        } else {
            self.near.take(cell)
        }
    }
}
