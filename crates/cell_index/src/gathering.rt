//! Numbers that are wanted, gathered in a list.

ghost use Rattle.std.specs.Prelude.{◌≡◌, ◌⊎◌, ℕ, true, OnOk};
ghost use Rattle.std.specs.List.{Contains};
ghost use Rattle.std.specs.List.Sorted.{IsStrictlyIncreasing};

use std::alloc::AllocError;

/// Puts a number at the end where it is wanted.
pub(crate) fn push_if(
    numbers: &mut Vec<u64>,
    number: u32,
    is_wanted: bool,
) -> Result<(), AllocError>
    ensures stays { OnOk result ((n : ℕ) → Contains numbers.old.items n → Contains numbers.new.items n) }
    ensures each { OnOk result ((n : ℕ) → Contains numbers.new.items n → Contains numbers.old.items n ⊎ ((n ≡ number) × (is_wanted ≡ true))) }
    ensures there { OnOk result (is_wanted ≡ true → Contains numbers.new.items number) }
{
    if is_wanted {
        numbers.push(u64::from(number))?;
    }
    Ok(())
}

/// The numbers in their order, each once.
pub(crate) fn in_order(mut numbers: Vec<u64>) -> Vec<u64>
    ensures rising { IsStrictlyIncreasing result.items }
    ensures each { (n : ℕ) → Contains result.items n → Contains numbers.items n }
    ensures all { (n : ℕ) → Contains numbers.items n → Contains result.items n }
{
    numbers.sort_unstable();
    numbers.dedup();
    numbers
}
