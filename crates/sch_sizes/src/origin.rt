//! The patterns whose lets and rules patterns have.

ghost use Rattle.std.specs.Prelude.{◌≡◌};
ghost use Rattle.std.specs.Option.{option_copied};
ghost use Rattle.sch_sizes.specs.inner.Schemas.{origin_by};

use sch_expansion::Origins;
use sch_model::RawPattern;

/// The pattern itself, or the abstract pattern of which it is an instance, if there is one.
pub(crate) fn origin_of<'a>(
    origins: &'a Origins<'_>,
    pattern: &'a RawPattern,
) -> Option<&'a RawPattern>
    ensures { option_copied result ≡ origin_by origins.now pattern.now pattern.now.is_a }
{
    match &pattern.is_a {
        None => Some(pattern),
        Some(name) => origins.named(name.as_str()),
    }
}
