//! Examples of slots, which keep the last value.

use std::alloc::Global;
use std::test::Fail;
use test_rows::{Answers, copy, first_word, named, number, parts};
use xp_outcome::Slots;

/// A call of the slots.
#[derive(Clone, Copy)]
enum Call {
    Set,
    Cut,
    Get,
}

/// The calls of the slots by their words.
const CALLS: [(&str, Call); 3] = [("set", Call::Set), ("cut", Call::Cut), ("get", Call::Get)];

/// Slots, which calls set and cut.
#[derive(Drop)]
pub struct SlotTable {
    alloc: Global,
    slots: Slots<u8>,
}

impl Answers for SlotTable {
    /// What a call of the slots comes to.
    fn answer(&mut self, word: &str, rest: &str) -> Result<String, Fail> {
        let (slot, value) = first_word(rest);
        let slot = slot_of(slot)?;
        match named(&CALLS, word)? {
            Call::Set => self.set_slot(slot, value),
            Call::Cut => self.cut_slots(slot),
            Call::Get => self.told_slot(slot),
        }
    }
}

impl SlotTable {
    /// Slots without values.
    pub fn new(alloc: Global) -> SlotTable {
        SlotTable {
            alloc,
            slots: Slots::new(alloc),
        }
    }

    /// Gives a slot a value.
    fn set_slot(&mut self, slot: u32, value: &str) -> Result<String, Fail> {
        self.slots.set(slot, u8::try_from(number(value)?)?)?;
        copy(self.alloc, "done")
    }

    /// The value of a slot, if any.
    fn told_slot(&self, slot: u32) -> Result<String, Fail> {
        parts(self.alloc, &self.slots.get(slot))
    }

    /// Empties the slots from one on.
    fn cut_slots(&mut self, slot: u32) -> Result<String, Fail> {
        self.slots.cut(slot);
        copy(self.alloc, "done")
    }
}

/// The slot that a word numbers.
pub fn slot_of(word: &str) -> Result<u32, Fail> {
    Ok(u32::try_from(number(word)?)?)
}
