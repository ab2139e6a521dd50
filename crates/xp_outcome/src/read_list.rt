//! Lists of what was read, in which an item may stand more than once.

ghost use Rattle.std.specs.Prelude.{◌≡◌, ◌+◌, ◌≤◌, [], ◌∷◌, ◌++◌, true, filter, length, nat_lt, vec_capacity, vec_len, OnOk, OnErr};
ghost use Rattle.xp_outcome.specs.inner.Settling.{SameItems, is_item_at};

use std::alloc::{AllocError, Global};

/// The shortest list that is freed of repeats before it grows. Most evaluations read less.
const LONG: usize = 1_048_576;

/// The longest list that is freed of repeats when it is kept. To sort a longer one costs more than it saves, since few
/// repeats come into a list.
const MOST_SORTED: usize = 4_096;

/// A list that leaves out the repeats that are found without a search: an item that is the last one, and one that stands
/// at `next`, the place after the item that was found so before. So a second walk in the order of a first one that the
/// list begins with adds nothing, whatever comes between its items.
///
/// A long list that has no room left is freed of all repeats, by sorting, before it grows. Adding an item costs two
/// comparisons, and in a long list the logarithm of its length on average.
#[derive(Drop)]
pub(crate) struct ReadList<T> {
    items: Vec<T>,
    next: usize,
}

impl<T> ReadList<T> {
    /// The list without items.
    pub(crate) fn new(alloc: Global) -> ReadList<T>
        ensures { result.items.items ≡ [] }
    {
        ReadList {
            items: Vec::new(alloc),
            next: 0,
        }
    }

    /// The items, some perhaps more than once.
    pub(crate) fn as_slice(&self) -> &[T]
        ensures { result.now ≡ self.now.items.items }
    {
        self.items.as_slice()
    }
}

impl<T: Ord + Copy + Drop> ReadList<T> {
    /// Adds an item.
    pub(crate) fn add(&mut self, item: T) -> Result<(), AllocError>
        ensures added { OnOk result (SameItems T.eq (self.old.items.items ++ item ∷ []) self.new.items.items) }
        ensures unchanged { OnErr result (SameItems T.eq self.old.items.items self.new.items.items) }
    {
        if self.meets_again(item) {
            return Ok(());
        }
        self.put(item)
    }

    /// Whether the item stands at `next`, which then moves on, or is the last one.
    fn meets_again(&mut self, item: T) -> bool
        ensures list { self.new.items.items ≡ self.old.items.items }
        ensures again { result ≡ true → SameItems T.eq (self.old.items.items ++ item ∷ []) self.old.items.items }
    {
        if self.is_at(self.next, item) {
            self.move_by(1);
            return true;
        }
        self.is_at(self.items.len().saturating_sub(1), item)
    }

    /// Whether the item stands at a place.
    fn is_at(&self, place: usize, item: T) -> bool
        ensures { result ≡ is_item_at T.eq self.now.items.items place item }
    {
        match self.items.get(place) {
            Some(held) => *held == item,
            None => false,
        }
    }

    /// Moves `next` on; after the last place comes the first.
    fn move_by(&mut self, count: usize)
        ensures { self.new.items.items ≡ self.old.items.items }
    {
        let after = self.next.saturating_add(count);
        self.next = if after < self.items.len() { after } else { 0 };
    }

    /// Puts an item at the end.
    fn put(&mut self, item: T) -> Result<(), AllocError>
        ensures added { OnOk result (SameItems T.eq (self.old.items.items ++ item ∷ []) self.new.items.items) }
        ensures unchanged { OnErr result (SameItems T.eq self.old.items.items self.new.items.items) }
    {
        self.make_room()?;
        self.items.push(item)?;
        Ok(())
    }

    /// Drops repeats from a long list without room, and makes room for as many items again as are left.
    fn make_room(&mut self) -> Result<(), AllocError>
        ensures { SameItems T.eq self.old.items.items self.new.items.items }
    {
        if self.items.len() < LONG || self.items.len() < self.items.capacity() {
            return Ok(());
        }
        self.settle();
        self.items.reserve_exact(self.items.len())
    }

    /// Makes room for so many items more. A long list that lacks it is freed of all repeats first.
    pub(crate) fn make_room_for(&mut self, count: usize) -> Result<(), AllocError>
        ensures same { SameItems T.eq self.old.items.items self.new.items.items }
        ensures room { OnOk result (vec_len self.new.items + count ≤ vec_capacity self.new.items) }
    {
        if self.items.len() >= LONG && self.items.capacity() - self.items.len() < count {
            self.settle();
        }
        self.items.reserve(count)
    }

    /// Adds items that there is room for, in one piece; none where all stand at `next` already, which then moves behind them.
    pub(crate) fn join(&mut self, more: &[T])
        requires room { vec_len self.old.items + length more.now ≤ vec_capacity self.old.items }
        ensures joined { SameItems T.eq (self.old.items.items ++ more.now) self.new.items.items }
    {
        if self.stand_at_next(more) {
            self.move_by(more.len());
        } else {
            self.put_all(more);
        }
    }

    /// Whether the items stand one after another at `next`.
    fn stand_at_next(&self, more: &[T]) -> bool
        ensures { result ≡ true → SameItems T.eq (self.now.items.items ++ more.now) self.now.items.items }
    {
        let mut place = self.next;
        for item in more {
            if !self.is_at(place, *item) {
                return false;
            }
            place = place.saturating_add(1);
        }
        true
    }

    /// Puts items at the end that there is room for.
    fn put_all(&mut self, more: &[T])
        requires room { vec_len self.old.items + length more.now ≤ vec_capacity self.old.items }
        ensures { self.new.items.items ≡ self.old.items.items ++ more.now }
    {
        match self.items.extend_from_slice(more) {
            Ok(()) => (),
            Err(AllocError) => unreachable!(),
        }
    }

    /// Drops repeats from a list that is not long, and gives back the memory that isn't needed. Most lists have none, and
    /// nothing is to do.
    pub(crate) fn shrink(&mut self)
        ensures { SameItems T.eq self.old.items.items self.new.items.items }
    {
        if self.items.capacity() == 0 {
            return;
        }
        self.settle_short();
        self.items.shrink_to_fit();
    }

    /// Drops repeats from a list that is not long.
    fn settle_short(&mut self)
        ensures { SameItems T.eq self.old.items.items self.new.items.items }
    {
        if matches!(self.items.len(), 2..=MOST_SORTED) {
            self.settle();
        }
    }

    /// Drops all items; the memory stays for those that come.
    pub(crate) fn clear(&mut self)
        ensures { self.new.items.items ≡ [] }
    {
        self.items.clear();
        self.next = 0;
    }

    /// Sorts the items and drops repeats, in place. Kept out of what is done at each item.
    #[inline(never)]
    fn settle(&mut self)
        ensures { SameItems T.eq self.old.items.items self.new.items.items }
    {
        self.items.sort_unstable();
        self.items.dedup();
        self.next = 0;
    }
}

impl ReadList<u32> {
    /// Forgets the slots from `len` on.
    pub(crate) fn cut(&mut self, len: u32)
        ensures { self.new.items.items ≡ filter (λ slot. nat_lt slot len) self.old.items.items }
    {
        self.items.retain(|slot| *slot < len);
        self.next = 0;
    }
}
