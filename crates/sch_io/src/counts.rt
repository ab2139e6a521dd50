//! Counts of failures.

ghost use Rattle.std.specs.Prelude.{◌≡◌};
ghost use Rattle.sch_io.specs.Counts.{one_more};

/// One more, as far as a u64 counts.
#[tactic(auto, unfolding(crate::specs::Counts::one_more))]
pub(crate) fn one_more(count: u64) -> u64
    ensures { result ≡ one_more count }
{
    count.saturating_add(1)
}
