//! The recorder of what evaluation reads.

ghost use Rattle.std.specs.Prelude.{◌≡◌, OnOk, OnErr};
ghost use Rattle.std.specs.FinSet as set;
ghost use Rattle.xp_outcome.specs.Evaluation.{cell as of_cell, names_along as along, variable};
ghost use Rattle.xp_outcome.specs.Recorded.{joined, nothing_read, note, without_lets_from};

use crate::names_along::NamesAlong;
use crate::read_list::ReadList;
use doc_tree::{Axis, Cell, NodeId};
use std::alloc::{AllocError, Global};
use std::marker::Model;

/// The cells, the names along axes and the lets that were read, seen by contracts as three sets.
///
/// The names along an axis from a node are held as one item, so that a step by name costs the same memory however many nodes
/// stand on its axis.
#[derive(Drop)]
pub struct Recorder {
    cells: ReadList<Cell>,
    names: ReadList<NamesAlong>,
    lets: ReadList<u32>,
}

impl Model for Recorder {
    ghost use Rattle.std.specs.FinSet as set;
    ghost use Rattle.xp_outcome.specs.Recorded.{Recorded};
    ghost use Rattle.xp_outcome.specs.inner.RecordedCode.{recorded_code};

    ghost Value = { Recorded };

    ghost coded = { recorded_code };

    ghost view = { λ r. record { cells = set.from_list r.cells.items.items; names = set.from_list r.names.items.items; lets = set.from_list r.lets.items.items } };
}

impl Recorder {
    /// A recorder that holds nothing.
    pub fn new(alloc: Global) -> Recorder
        ensures { result ≡ nothing_read }
    {
        Recorder {
            cells: ReadList::new(alloc),
            names: ReadList::new(alloc),
            lets: ReadList::new(alloc),
        }
    }

    /// Adds a cell.
    pub fn add(&mut self, cell: Cell) -> Result<(), AllocError>
        ensures noted { OnOk result (self.new ≡ note self.old (of_cell cell)) }
        ensures unchanged { OnErr result (self.new ≡ self.old) }
    {
        self.cells.add(cell)
    }

    /// Adds the names along an axis from a node.
    pub fn add_names(&mut self, axis: Axis, node: NodeId) -> Result<(), AllocError>
        ensures noted { OnOk result (self.new ≡ note self.old (along axis node)) }
        ensures unchanged { OnErr result (self.new ≡ self.old) }
    {
        self.names.add(NamesAlong { axis, node })
    }

    /// Adds the let in a slot.
    pub fn add_let(&mut self, slot: u32) -> Result<(), AllocError>
        ensures noted { OnOk result (self.new ≡ note self.old (variable slot)) }
        ensures unchanged { OnErr result (self.new ≡ self.old) }
    {
        self.lets.add(slot)
    }

    /// Adds all that another recorder holds, in one piece for each kind of read. Costs its length, and the more where this one has grown long.
    pub fn join(&mut self, more: &Recorder) -> Result<(), AllocError>
        ensures joined { OnOk result (self.new ≡ joined self.old more.now) }
        ensures unchanged { OnErr result (self.new ≡ self.old) }
    {
        self.cells.make_room_for(more.cells.as_slice().len())?;
        self.names.make_room_for(more.names.as_slice().len())?;
        self.lets.make_room_for(more.lets.as_slice().len())?;
        self.cells.join(more.cells.as_slice());
        self.names.join(more.names.as_slice());
        self.lets.join(more.lets.as_slice());
        Ok(())
    }

    /// The cells that were read one by one, some perhaps more than once.
    pub fn cells(&self) -> &[Cell]
        ensures { set.from_list result.now ≡ self.now.cells }
    {
        self.cells.as_slice()
    }

    /// The axes and nodes along which names were read, some perhaps more than once.
    pub fn names(&self) -> &[NamesAlong]
        ensures { set.from_list result.now ≡ self.now.names }
    {
        self.names.as_slice()
    }

    /// The slots of the lets that were read, some perhaps more than once.
    pub fn lets(&self) -> &[u32]
        ensures { set.from_list result.now ≡ self.now.lets }
    {
        self.lets.as_slice()
    }

    /// Forgets the lets in the slots from `len` on.
    pub fn cut_lets(&mut self, len: u32)
        ensures { self.new ≡ without_lets_from len self.old }
    {
        self.lets.cut(len)
    }

    /// Gives back the memory that isn't needed, and drops repeats where at most 4,096 items are held: a recorder that is
    /// kept for one cell then holds one.
    pub fn settle(&mut self)
        ensures { self.new ≡ self.old }
    {
        self.cells.shrink();
        self.names.shrink();
        self.lets.shrink();
    }

    /// Forgets all that was read; the memory stays for what is read next.
    pub fn clear(&mut self)
        ensures { self.new ≡ nothing_read }
    {
        self.cells.clear();
        self.names.clear();
        self.lets.clear();
    }
}
