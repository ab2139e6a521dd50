//! Units that read a let which has another outcome.

ghost use Rattle.std.specs.Bool.{OnTrue};
ghost use Rattle.std.specs.Prelude.{◌≡◌, ℕ, ◌<◌, false, is_none, length};
ghost use Rattle.std.specs.List.{list_any};
ghost use Rattle.kept_reads.specs.Forgetting.{Forgets, ForgetsReaders, flag_at, reads_flagged, unless_flagged};
ghost use Rattle.kept_reads.specs.inner.Forgetting.{ForgetsIf};
ghost use Rattle.kept_reads.specs.Reads.{reads_at};

use crate::kept_reads::KeptReads;
use crate::marking::{row_of, set_flag};

impl KeptReads {
    /// Whether the unit at a place is stale, or read a let for which a flag is set.
    pub fn is_stale_by(&self, place: usize, flags: &Vec<bool>) -> bool
        ensures { result ≡ is_none (unless_flagged flags.now.items (reads_at self.now.entries place)) }
    {
        match self.lets(place) {
            Some(slots) => has_flagged(slots, flags),
            None => true,
        }
    }

    /// Whether the unit at a place has read a let for which a flag is set; of a stale unit none is known.
    fn reads_flagged(&self, place: usize, flags: &Vec<bool>) -> bool
        ensures { result ≡ reads_flagged flags.now.items (reads_at self.now.entries place) }
    {
        match self.lets(place) {
            Some(slots) => has_flagged(slots, flags),
            None => false,
        }
    }

    /// Forgets what the unit at a place read.
    pub fn forget(&mut self, place: usize, width: u32)
        requires there { place < length self.old.entries }
        requires wide { 0 < width }
        ensures { Forgets place width self.old self.new }
    {
        self.entries.forget(place);
        set_flag(&mut self.stale_blocks, row_of(place, width));
    }

    /// Forgets what each unit read that read a let for which a flag is set.
    ///
    /// Takes no memory. Where some flag is set it looks at each unit, and else at none.
    pub fn forget_readers(&mut self, flags: &Vec<bool>, width: u32)
        requires { 0 < width }
        ensures { ForgetsReaders flags.now.items width self.old self.new }
    {
        if none_set(flags) {
            return;
        }
        for place in 0..self.entries.len() {
            self.forget_if_flagged(place, flags, width);
        }
    }

    /// Forgets what the unit at a place read, where it read a let for which a flag is set.
    fn forget_if_flagged(&mut self, place: usize, flags: &Vec<bool>, width: u32)
        requires there { place < length self.old.entries }
        requires wide { 0 < width }
        ensures { ForgetsIf flags.now.items place width self.old self.new }
    {
        if self.reads_flagged(place, flags) {
            self.forget(place, width);
        }
    }
}

/// Whether a flag is set for one of the slots.
fn has_flagged(slots: &[u32], flags: &Vec<bool>) -> bool
    ensures { result ≡ list_any (flag_at flags.now.items) slots.now }
{
    slots.iter().any(|slot| flag_at(flags, *slot))
}

/// The flag for a slot; past the end none is set.
fn flag_at(flags: &Vec<bool>, slot: u32) -> bool
    ensures { result ≡ flag_at flags.now.items slot }
{
    match flags.get(slot as usize) {
        Some(flag) => *flag,
        None => false,
    }
}

/// Whether no flag is set.
fn none_set(flags: &Vec<bool>) -> bool
    ensures { OnTrue result ((slot : ℕ) → flag_at flags.now.items slot ≡ false) }
{
    for flag in flags {
        if *flag {
            return false;
        }
    }
    true
}
