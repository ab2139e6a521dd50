//! What units read, kept by the place of each unit.

ghost use Rattle.std.specs.Prelude.{◌≡◌, ◌<◌, ◌≤◌, [], is_none, length, OnErr, OnOk};
ghost use Rattle.std.specs.Option.{option_copied};
ghost use Rattle.kept_reads.specs.KeptReads.{Empties, Passes, Prepares, PutsReads};
ghost use Rattle.kept_reads.specs.Reads.{lets_kept, lets_told, may_be_stale, reads_at};

use crate::entries::Entries;
use std::alloc::{AllocError, Global};
use xp_outcome::Recorder;

/// How many rows have a flag in common.
pub(crate) const ROWS: usize = 64;

/// What units read when they were last evaluated, each at its place; None where a unit is stale. Places that follow each other make
/// up rows of the same width.
///
/// The cells stand in an index to the units that read them: 4 bytes a unit, some 50 bytes a set of cells, 8 bytes a cell of a set with
/// more than three, 8 bytes a hint and 20 bytes a node; units that read the same cells share them. The lets take 16 bytes a unit, and
/// those of a unit that read some stand apart.
pub struct KeptReads {
    pub(crate) entries: Entries,
    /// Of rows that have a flag in common, whether one may have a stale unit; past the end each may.
    pub(crate) stale_blocks: Vec<bool>,
}

impl KeptReads {
    /// There is no place.
    pub fn new(alloc: Global) -> KeptReads
        ensures entries { result.entries ≡ [] }
        ensures blocks { result.stale_blocks.items ≡ [] }
    {
        KeptReads {
            entries: Entries::new(alloc),
            stale_blocks: Vec::new(alloc),
        }
    }

    /// The slots of the lets that the unit at a place read, some perhaps more than once; None where it is stale, and past the end.
    pub fn lets(&self, place: usize) -> Option<&[u32]>
        ensures { lets_told (option_copied result) ≡ lets_kept (reads_at self.now.entries place) }
    {
        self.entries.lets(place)
    }

    /// Whether the unit at a place is stale; past the end all are.
    pub fn is_stale(&self, place: usize) -> bool
        ensures { result ≡ is_none (reads_at self.now.entries place) }
    {
        self.lets(place).is_none()
    }

    /// Whether a unit of a row may be stale; where none may, none is.
    pub fn may_be_stale(&self, row: usize) -> bool
        ensures { result ≡ may_be_stale self.now.stale_blocks.items row }
    {
        match self.stale_blocks.get(row / ROWS) {
            Some(flag) => *flag,
            None => true,
        }
    }

    /// Says that no unit of the first rows is stale, but for rows at the end that make up no block. For want of memory it says so of
    /// none.
    pub fn pass(&mut self, rows: usize)
        ensures { Passes rows self.old self.new }
    {
        self.stale_blocks.clear();
        fill(&mut self.stale_blocks, rows / ROWS);
    }

    /// Puts places of stale units at the end until there are so many.
    pub fn prepare(&mut self, count: usize) -> Result<(), AllocError>
        ensures there { OnOk result (count ≤ length self.new.entries) }
        ensures prepares { Prepares count self.old self.new }
    {
        self.entries.reach(count)
    }

    /// Keeps what the unit at a place has read; for want of memory, and at places from 4,294,967,295 on, it is stale.
    pub fn put(&mut self, alloc: Global, place: usize, reads: Recorder) -> Result<(), AllocError>
        requires { place < length self.old.entries }
        ensures puts { OnOk result (PutsReads place reads self.old self.new) }
        ensures empties { OnErr result (Empties place self.old self.new) }
    {
        self.entries.put(alloc, place, reads)
    }
}

impl Drop for KeptReads {
    fn drop(self) {
        let KeptReads {
            entries,
            stale_blocks,
        } = self;
        drop(entries);
        drop(stale_blocks);
    }
}

/// Puts false at each place of an empty list until there are so many; none for want of memory.
fn fill(flags: &mut Vec<bool>, count: usize)
    requires { length flags.old.items ≡ 0 }
    ensures { length flags.new.items ≤ count }
{
    let _filled = flags.resize(count, false);
}
