//! Sets of cells, by their numbers.

ghost use Rattle.std.specs.Prelude.{◌≡◌, ℕ, ◌+◌, ◌<◌, ◌≤◌, [], true, false, length, IfNone, IfOk, IfSome, OnErr, OnOk};
ghost use Rattle.std.specs.Bool.{OnFalse, OnTrue};
ghost use Rattle.std.specs.List.{list_any};
ghost use Rattle.doc_tree.specs.cell.Cell.{Cell};
ghost use Rattle.cell_index.specs.inner.Chains.{Keeps};
ghost use Rattle.cell_index.specs.inner.Gathering.{Finds};
ghost use Rattle.cell_index.specs.inner.Sharing.{AreReaders, Puts, Reads, cells_of_set, cleared, set_has};

use crate::cell_list::{CellList, is_among};
use crate::cell_numbers::{cell_number, spread};
use crate::chains::Chains;
use crate::finding::{next_with, sets_with};
use doc_tree::Cell;
use std::alloc::{AllocError, Global};
use std::marker::Model;

/// Among how many places sets are spread at least.
const FEW_PLACES: u32 = 4096;

/// Sets of cells by their numbers, which begin with 1; seen by contracts as the list of their cells.
///
/// From each cell hints lead to the sets that have it; hints to sets that lost it stay. Takes some 50 bytes a set, 8 bytes a cell of a
/// set with more than three, 20 bytes a node and 8 bytes a hint.
#[derive(Drop)]
pub(crate) struct CellSets {
    sets: Vec<CellList>,
    /// From the number of a cell to the sets that have it.
    readers: Chains,
    /// From a place to the sets whose cells are spread to it. What it leads to is compared, so that nothing need be true of it.
    spread: Chains,
    places: u32,
    /// Where a number that can be used again is looked for first.
    first: usize,
}

impl Model for CellSets {
    ghost use Rattle.std.specs.Prelude.{List};
    ghost use Rattle.doc_tree.specs.cell.Cell.{Cell};

    ghost Value = { List (List Cell) };

    ghost view = { λ s. s.sets.items };

    ghost use Rattle.cell_index.specs.inner.Sharing.{AreReaders};

    ghost invariant = { λ s. AreReaders s.sets.items s.readers };
}

impl CellSets {
    /// There is no set.
    pub(crate) fn new(alloc: Global) -> CellSets
        ensures { result ≡ [] }
    {
        CellSets {
            sets: Vec::new(alloc),
            readers: Chains::new(alloc),
            spread: Chains::new(alloc),
            places: FEW_PLACES,
            first: 0,
        }
    }

    /// How many sets there are, those without cells too.
    pub(crate) fn len(&self) -> usize
        ensures { result ≡ length self.now }
    {
        self.sets.len()
    }

    /// How many hints there are.
    pub(crate) fn hints(&self) -> usize {
        self.readers.len()
    }

    /// The place where a number that can be used again is looked for first.
    pub(crate) fn first(&self) -> usize {
        self.first
    }

    /// The cells of a set.
    pub(crate) fn cells(&self, set: u32) -> &[Cell]
        ensures { result.now ≡ cells_of_set self.now set }
    {
        cells_of(self.sets.as_slice(), set)
    }

    /// A set with just these cells in this order.
    ///
    /// Compares them with those of the sets that are spread to the same place, seldom more than two.
    pub(crate) fn find(&self, cells: &[Cell]) -> Option<u32>
        ensures { IfSome result (λ set. cells_of_set self.now set ≡ cells.now) }
    {
        let mut number = self.spread.newest(spread(cells, self.places) as usize);
        while let Some(link) = self.spread.link(number) {
            if is_same(self.cells(link.item), cells) {
                return Some(link.item);
            }
            number = link.earlier(number);
        }
        None
    }

    /// Puts cells in the place of those of a set, or a set with them at the end; answers its number.
    pub(crate) fn put(&mut self, place: usize, cells: CellList) -> Result<u32, AllocError>
        requires { place ≤ length self.old }
        ensures number { IfOk result (λ set. set ≡ place + 1) }
        ensures put { OnOk result (Puts (place + 1) cells self.old self.new) }
        ensures unchanged { OnErr result (self.new ≡ self.old) }
    {
        let set = number_at(place)?;
        let spread = spread(cells.as_slice(), self.places);
        self.spread.add(spread as usize, set)?;
        put_read(&mut self.sets, &mut self.readers, place, set, cells)?;
        self.first = place.saturating_add(1);
        Ok(set)
    }

    /// Drops the cells of a set.
    pub(crate) fn clear(&mut self, set: usize)
        ensures { self.new ≡ cleared self.old set }
    {
        clear(&mut self.sets, set);
    }

    /// A set that has a cell; None where no set has it. Hints before it that lead to no such set are dropped.
    pub(crate) fn next_with(&mut self, cell: &Cell) -> Option<u32>
        ensures has { IfSome result (λ set. set_has self.old set cell.now ≡ true) }
        ensures none { IfNone result ((set : ℕ) → set_has self.old set cell.now ≡ false) }
        ensures same { self.new ≡ self.old }
    {
        next_with(self.sets.as_slice(), &mut self.readers, cell)
    }

    /// Whether a cell has a hint to a set.
    pub(crate) fn may_have(&self, cell: &Cell) -> bool
        ensures { OnFalse result ((set : ℕ) → set_has self.now set cell.now ≡ false) }
    {
        self.readers.has_any(cell_number(*cell))
    }

    /// The sets that have one of some cells, in any order, some perhaps more than once.
    pub(crate) fn with(&self, alloc: Global, cells: &[Cell]) -> Result<Vec<u64>, AllocError>
        ensures { IfOk result (λ sets. Finds (λ set. list_any (set_has self.now set) cells.now) [] sets.items) }
    {
        sets_with(alloc, self.sets.as_slice(), &self.readers, cells)
    }

    /// Makes the hints anew.
    pub(crate) fn renew(&mut self, alloc: Global) -> Result<(), AllocError>
        ensures { self.new ≡ self.old }
    {
        let places = places_for(self.sets.len());
        let spread = spread_of(alloc, self.sets.as_slice(), places)?;
        self.readers = readers_of(alloc, self.sets.as_slice())?;
        self.spread = spread;
        self.places = places;
        self.first = 0;
        Ok(())
    }
}

/// The number of the set at a place. There is no memory for 4,294,967,295 sets and more.
fn number_at(place: usize) -> Result<u32, AllocError>
    ensures { IfOk result (λ set. set ≡ place + 1) }
{
    match u32::try_from(place) {
        Ok(number) if number < u32::MAX => Ok(number + 1),
        _ => Err(AllocError),
    }
}

/// Among how many places so many sets are spread, and as many more.
fn places_for(sets: usize) -> u32 {
    match u32::try_from(sets) {
        Ok(count) => count.saturating_mul(2).saturating_add(FEW_PLACES),
        Err(_) => u32::MAX,
    }
}

/// The cells of a set.
pub(crate) fn cells_of(sets: &[CellList], set: u32) -> &[Cell]
    ensures { result.now ≡ cells_of_set sets.now set }
{
    if set == 0 {
        return &[];
    }
    match sets.get(set as usize - 1) {
        Some(cells) => cells.as_slice(),
        None => &[],
    }
}

/// Whether two lists of cells are the same.
fn is_same(a: &[Cell], b: &[Cell]) -> bool
    ensures { OnTrue result (a.now ≡ b.now) }
{
    *a == *b
}

/// Whether a set has a cell.
pub(crate) fn set_has(sets: &[CellList], set: u32, cell: &Cell) -> bool
    ensures { result ≡ set_has sets.now set cell.now }
{
    is_among(cells_of(sets, set), cell)
}

/// Drops the cells of a set.
fn clear(sets: &mut Vec<CellList>, set: usize)
    ensures { sets.new.items ≡ cleared sets.old.items set }
{
    if set == 0 || sets.len() < set {
        return;
    }
    sets[set - 1] = CellList::none();
}

/// Puts cells in the place of those of a set, or a set with them at the end.
fn put_at(sets: &mut Vec<CellList>, place: usize, cells: CellList) -> Result<(), AllocError>
    requires { place ≤ length sets.old.items }
    ensures put { OnOk result (Puts (place + 1) cells sets.old.items sets.new.items) }
    ensures unchanged { OnErr result (sets.new.items ≡ sets.old.items) }
{
    if place < sets.len() {
        sets[place] = cells;
        return Ok(());
    }
    sets.push(cells)?;
    Ok(())
}

/// Makes a set a reader of some cells, and puts these in its place.
fn put_read(
    sets: &mut Vec<CellList>,
    readers: &mut Chains,
    place: usize,
    set: u32,
    cells: CellList,
) -> Result<(), AllocError>
    requires within { place ≤ length sets.old.items }
    requires number { set ≡ place + 1 }
    ensures readers { AreReaders sets.old.items readers.old → AreReaders sets.new.items readers.new }
    ensures put { OnOk result (Puts set cells sets.old.items sets.new.items) }
    ensures unchanged { OnErr result (sets.new.items ≡ sets.old.items) }
{
    add_reader(readers, cells.as_slice(), set)?;
    put_at(sets, place, cells)
}

/// Makes a set a reader of some cells.
fn add_reader(readers: &mut Chains, cells: &[Cell], set: u32) -> Result<(), AllocError>
    ensures keeps { Keeps readers.old readers.new }
    ensures added { OnOk result (Reads readers.new set cells.now) }
{
    for cell in cells {
        readers.add(cell_number(*cell), set)?;
    }
    Ok(())
}

/// The readers of each cell, by the cells of each set.
fn readers_of(alloc: Global, sets: &[CellList]) -> Result<Chains, AllocError>
    ensures { IfOk result (AreReaders sets.now) }
{
    let mut readers = Chains::new(alloc);
    for (place, cells) in sets.iter().enumerate() {
        add_reader(&mut readers, cells.as_slice(), number_at(place)?)?;
    }
    Ok(readers)
}

/// The sets that are spread to each place.
fn spread_of(alloc: Global, sets: &[CellList], places: u32) -> Result<Chains, AllocError> {
    let mut chains = Chains::new(alloc);
    for (place, cells) in sets.iter().enumerate() {
        let spread = spread(cells.as_slice(), places);
        chains.add(spread as usize, number_at(place)?)?;
    }
    Ok(chains)
}
