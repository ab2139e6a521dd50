//! Which lets units read.

ghost use Rattle.std.specs.Option.{option_copied};
ghost use Rattle.std.specs.Prelude.{◌≡◌, ℕ, ◌≤◌, Some, IfOk, OnOk, length, slice_set};
ghost use Rattle.kept_reads.specs.inner.LetsRead.{slots_at, slots_of};

use std::alloc::{AllocError, Global};

/// Which lets a unit read when it was last evaluated.
///
/// Takes 16 bytes where it read none, as most units do.
#[derive(Drop)]
pub(crate) enum LetsRead {
    /// The unit is stale: it isn't known.
    Stale,
    Nothing,
    /// The slots of lets, some perhaps more than once.
    Slots(Box<Vec<u32>>),
}

impl LetsRead {
    /// The slots of these lets.
    pub(crate) fn of(alloc: Global, slots: &[u32]) -> Result<LetsRead, AllocError>
        ensures { IfOk result (λ lets. slots_of lets ≡ Some slots.now) }
    {
        if slots.is_empty() {
            return Ok(LetsRead::Nothing);
        }
        let mut copied = Vec::new(alloc);
        copied.extend_from_slice(slots)?;
        Ok(LetsRead::Slots(Box::new(alloc, copied)?))
    }

    /// The slots of the lets that were read; None where the unit is stale.
    fn slots(&self) -> Option<&[u32]>
        ensures { option_copied result ≡ slots_of self.now }
    {
        match self {
            LetsRead::Stale => None,
            LetsRead::Nothing => Some(&[]),
            LetsRead::Slots(slots) => Some(slots.as_slice()),
        }
    }
}

/// The slots of the lets that the unit at a place read; None where it is stale, and past the end.
pub(crate) fn slots_at(lets: &[LetsRead], place: usize) -> Option<&[u32]>
    ensures { option_copied result ≡ slots_at lets.now place }
{
    match lets.get(place) {
        Some(own) => own.slots(),
        None => None,
    }
}

/// Puts stale units at the end until there are so many.
pub(crate) fn reach(lets: &mut Vec<LetsRead>, count: usize) -> Result<(), AllocError>
    ensures there { OnOk result (count ≤ length lets.new.items) }
    ensures short { length lets.old.items ≤ count → length lets.new.items ≤ count }
    ensures same { (place : ℕ) → slots_at lets.new.items place ≡ slots_at lets.old.items place }
{
    while lets.len() < count {
        lets.push(LetsRead::Stale)?;
    }
    Ok(())
}

/// Puts which lets the unit at a place read.
pub(crate) fn set(lets: &mut Vec<LetsRead>, place: usize, own: LetsRead)
    ensures { lets.new.items ≡ slice_set lets.old.items place own }
{
    if place < lets.len() {
        lets[place] = own;
    }
}
