//! Numbered slots for the values of lets.

ghost use Rattle.std.specs.Prelude.{◌≡◌, ◌<◌, ◌^◌, [], length, OnOk, OnErr};
ghost use Rattle.std.specs.Option.{option_copied};
ghost use Rattle.xp_outcome.specs.Slots.{IsTrimmed, in_slot, reaching, slots_below, trimmed, with_slot};
ghost use Rattle.xp_outcome.specs.inner.Trimming.{ends_empty};

use std::alloc::{AllocError, Global};
use std::marker::Model;

/// A list of slots, each empty or with a value; the last one has a value.
#[derive(Drop)]
pub struct Slots<V> {
    slots: Vec<Option<V>>,
}

impl<V> Model for Slots<V> {
    ghost use Rattle.std.specs.Prelude.{List, Option};

    ghost Value = { List (Option V) };

    ghost use Rattle.xp_outcome.specs.Slots.{IsTrimmed};

    ghost view = { λ s. s.slots.items };

    ghost invariant = { λ s. IsTrimmed s.slots.items };
}

impl<V> Slots<V> {
    /// No slot has a value.
    pub fn new(alloc: Global) -> Slots<V>
        ensures { result ≡ [] }
    {
        Slots {
            slots: Vec::new(alloc),
        }
    }

    /// The value in a slot, None exactly where it was never set or was cut since.
    pub fn get(&self, slot: u32) -> Option<&V>
        ensures { option_copied result ≡ in_slot self.now slot }
    {
        match self.slots.get(slot as usize) {
            Some(Some(value)) => Some(value),
            _ => None,
        }
    }

    /// No slot at the end is empty, so that slots with the same values are the same.
    pub fn laws(&self)
        ensures { IsTrimmed self.now }
    {
        let _ = &self.slots;
    }
}

/// Puts empty slots at the end until there is one with the number.
fn reach<V: Drop>(slots: &mut Vec<Option<V>>, slot: usize) -> Result<(), AllocError>
    requires { slot < 2 ^ 32 }
    ensures reached { OnOk result (slots.new.items ≡ reaching slots.old.items slot) }
    ensures there { OnOk result (slot < length slots.new.items) }
    ensures unchanged { OnErr result (slots.new.items ≡ slots.old.items) }
{
    if slot < slots.len() {
        return Ok(());
    }
    slots.resize_with(slot + 1, || None)?;
    Ok(())
}

/// Drops the empty slots at the end.
fn trim<V: Drop>(slots: &mut Vec<Option<V>>)
    ensures { slots.new.items ≡ trimmed slots.old.items }
{
    while ends_empty(slots) {
        slots.pop();
    }
}

/// Whether there is a slot, and the last one is empty.
fn ends_empty<V>(slots: &[Option<V>]) -> bool
    ensures { result ≡ ends_empty slots.now }
{
    match slots.last() {
        Some(slot) => slot.is_none(),
        None => false,
    }
}

impl<V: Drop> Slots<V> {
    /// Puts a value into a slot in place of what it held.
    pub fn set(&mut self, slot: u32, value: V) -> Result<(), AllocError>
        ensures set { OnOk result (self.new ≡ with_slot self.old slot value) }
        ensures unchanged { OnErr result (self.new ≡ self.old) }
    {
        reach(&mut self.slots, slot as usize)?;
        self.slots[slot as usize] = Some(value);
        Ok(())
    }

    /// Forgets the values in the slots from `len` on.
    pub fn cut(&mut self, len: u32)
        ensures { self.new ≡ slots_below len self.old }
    {
        self.slots.truncate(len as usize);
        trim(&mut self.slots);
    }
}
