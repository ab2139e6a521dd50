//! What each unit read when it was last evaluated: its cells and names along axes in an index, and its lets.

ghost use Rattle.std.specs.Option.{option_copied};
ghost use Rattle.std.specs.Prelude.{◌≡◌, ◌<◌, ◌≤◌, ℕ, true, false, [], None, Some, is_none, length, slice_set, IfNone, IfSome, OnErr, OnOk, OnSome};
ghost use Rattle.std.specs.Bool.{OnFalse};
ghost use Rattle.doc_tree.specs.declared.axes.Axis.{Axis};
ghost use Rattle.xp_outcome.specs.Evaluation.{cell as of_cell, names_along};
ghost use Rattle.read_index.specs.Names.{is_far};
ghost use Rattle.kept_reads.specs.Reads.{has_kept, kept_count, lets_kept, lets_told, reads_at};
ghost use Rattle.kept_reads.specs.inner.Entries.{kept_of};
ghost use Rattle.kept_reads.specs.inner.LetsRead.{slots_of};

use crate::lets_read::{LetsRead, reach, set, slots_at};
use doc_tree::Cell;
use read_index::ReadIndex;
use std::alloc::{AllocError, Global};
use std::marker::Model;
use xp_outcome::{NamesAlong, Recorder};

/// How many cells, or names along axes, are kept as they come.
const FEW: usize = 3;

/// What units read when they were last evaluated, each at its place, seen by contracts as that list; None where a unit is stale.
#[derive(Drop)]
pub struct Entries {
    index: ReadIndex,
    lets: Vec<LetsRead>,
}

impl Model for Entries {
    ghost use Rattle.std.specs.Prelude.{List, Option};
    ghost use Rattle.std.specs.Coded.{coded_list, coded_option};
    ghost use Rattle.xp_outcome.specs.Recorded.{Recorded};
    ghost use Rattle.xp_outcome.specs.inner.RecordedCode.{recorded_code};

    ghost Value = { List (Option Recorded) };

    ghost coded = { coded_list (coded_option recorded_code) };

    ghost use Rattle.kept_reads.specs.inner.Entries.{StaleHasNone, entries_of};

    ghost view = { λ e. entries_of e.index 0 e.lets.items };

    ghost invariant = { λ e. StaleHasNone e.index e.lets.items };
}

impl Entries {
    /// There is no place.
    pub(crate) fn new(alloc: Global) -> Entries
        ensures { result ≡ [] }
    {
        Entries {
            index: ReadIndex::new(alloc),
            lets: Vec::new(alloc),
        }
    }

    /// The slots of the lets that the unit at a place read, some perhaps more than once; None where it is stale, and past the end.
    pub(crate) fn lets(&self, place: usize) -> Option<&[u32]>
        ensures { lets_told (option_copied result) ≡ lets_kept (reads_at self.now place) }
    {
        slots_at(self.lets.as_slice(), place)
    }

    /// Puts places of stale units at the end until there are so many.
    pub(crate) fn reach(&mut self, count: usize) -> Result<(), AllocError>
        ensures there { OnOk result (count ≤ length self.new) }
        ensures short { length self.old ≤ count → length self.new ≤ count }
        ensures same { (place : ℕ) → reads_at self.new place ≡ reads_at self.old place }
    {
        reach(&mut self.lets, count)
    }

    /// How many places there are.
    pub(crate) fn len(&self) -> usize
        ensures { result ≡ length self.now }
    {
        self.lets.len()
    }

    /// Keeps what the unit at a place has read; for want of memory, and at places from 4,294,967,295 on, nothing of it. Of many reads
    /// repeats are dropped, as `Recorder::settle` does.
    pub(crate) fn put(
        &mut self,
        alloc: Global,
        place: usize,
        mut reads: Recorder,
    ) -> Result<(), AllocError>
        requires { place < length self.old }
        ensures puts { OnOk result (self.new ≡ slice_set self.old place (Some reads)) }
        ensures forgets { OnErr result (self.new ≡ slice_set self.old place None) }
    {
        self.forget(place);
        settle_many(&mut reads);
        let slots = reads.lets();
        let lets = LetsRead::of(alloc, slots)?;
        self.keep(alloc, place, reads.cells(), reads.names(), lets)
    }

    /// Forgets what the unit at a place read: it is stale. Takes no memory.
    pub(crate) fn forget(&mut self, place: usize)
        ensures { self.new ≡ slice_set self.old place None }
    {
        self.index.remove(place as u64);
        set(&mut self.lets, place, LetsRead::Stale);
    }

    /// Keeps what a stale unit read.
    fn keep(
        &mut self,
        alloc: Global,
        place: usize,
        cells: &[Cell],
        names: &[NamesAlong],
        lets: LetsRead,
    ) -> Result<(), AllocError>
        requires within { place < length self.old }
        requires stale { reads_at self.old place ≡ None }
        requires known { is_none (slots_of lets) ≡ false }
        ensures kept { OnOk result (self.new ≡ slice_set self.old place (kept_of cells.now names.now (slots_of lets))) }
        ensures unchanged { OnErr result (self.new ≡ self.old) }
    {
        self.index.add(alloc, place as u64, cells, names)?;
        set(&mut self.lets, place, lets);
        Ok(())
    }

    /// Forgets what a unit read that read the cell, and gives its place; None where no unit has read it. Takes no memory.
    pub(crate) fn take(&mut self, cell: &Cell) -> Option<usize>
        ensures took { IfSome result (λ place. has_kept (reads_at self.old place) (of_cell cell.now) ≡ true) }
        ensures dropped { IfSome result (λ place. self.new ≡ slice_set self.old place None) }
        ensures falls { OnSome result (kept_count self.new < kept_count self.old) }
        ensures none { IfNone result ((place : ℕ) → has_kept (reads_at self.old place) (of_cell cell.now) ≡ false) }
        ensures unchanged { IfNone result (self.new ≡ self.old) }
    {
        match self.index.take(cell) {
            Some(unit) => {
                set(&mut self.lets, unit as usize, LetsRead::Stale);
                Some(unit as usize)
            }
            None => None,
        }
    }

    /// Forgets what a unit read that read the names along an axis from a node, and gives its place; None where no unit has read them.
    /// Takes no memory.
    pub(crate) fn take_names(&mut self, names: &NamesAlong) -> Option<usize>
        ensures took { IfSome result (λ place. has_kept (reads_at self.old place) (names_along names.now.axis names.now.node) ≡ true) }
        ensures dropped { IfSome result (λ place. self.new ≡ slice_set self.old place None) }
        ensures falls { OnSome result (kept_count self.new < kept_count self.old) }
        ensures none { IfNone result ((place : ℕ) → has_kept (reads_at self.old place) (names_along names.now.axis names.now.node) ≡ false) }
        ensures unchanged { IfNone result (self.new ≡ self.old) }
    {
        match self.index.take_names(names) {
            Some(unit) => {
                set(&mut self.lets, unit as usize, LetsRead::Stale);
                Some(unit as usize)
            }
            None => None,
        }
    }

    /// Whether a unit may have read the names along an axis from a node; where not, none has.
    pub(crate) fn may_have(&self, names: &NamesAlong) -> bool
        ensures { OnFalse result ((place : ℕ) → has_kept (reads_at self.now place) (names_along names.now.axis names.now.node) ≡ false) }
    {
        self.index.may_have(names)
    }

    /// Whether a unit may have read the names along a far axis; where not, none has.
    pub(crate) fn may_have_far(&self) -> bool
        ensures { OnFalse result ((place : ℕ) (axis : Axis) (n : ℕ) → is_far axis ≡ true → has_kept (reads_at self.now place) (names_along axis n) ≡ false) }
    {
        self.index.may_have_far()
    }
}

/// Settles a recorder that holds more than few cells or names along axes.
fn settle_many(reads: &mut Recorder)
    ensures { reads.new ≡ reads.old }
{
    if is_many(reads) {
        reads.settle();
    }
}

/// Whether a recorder holds more than few cells or names along axes, or some lets.
fn is_many(reads: &Recorder) -> bool {
    reads.cells().len() > FEW || reads.names().len() > FEW || !reads.lets().is_empty()
}
