//! Sums over lists.

ghost use Rattle.std.specs.Prelude.{◌≡◌};
ghost use Rattle.sch_sizes.specs.inner.Amounts.{cap, sum_all};

use crate::amount::Amount;

/// A way to tell what an item amounts to.
pub(crate) trait Weighing<T> {
    ghost use Rattle.sch_sizes.specs.declared.amount.Amount.{Amount};

    // what it tells of an item
    ghost amount: { Self → T → Amount };

    /// What the item amounts to.
    fn amount_of(&self, item: &T) -> Amount
        ensures { result ≡ amount self.now item.now };
}

/// What all items amount to.
pub(crate) fn sum_over<T, W: Weighing<T>>(way: &W, items: &[T]) -> Amount
    ensures { result ≡ cap (sum_all (W.amount way.now) items.now) }
{
    let mut sum = Amount::none();
    for item in items {
        sum = sum.plus(way.amount_of(item));
    }
    sum
}
