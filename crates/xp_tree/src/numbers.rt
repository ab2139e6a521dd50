//! The range of numbers.

ghost use Rattle.std.specs.Prelude.{◌≡◌};
ghost use Rattle.xp_tree.specs.declared.numbers.TheConstants.{MAX_WHOLE};

/// The greatest whole number in size, 2^53 - 1.
pub const MAX_WHOLE: u64 = 9_007_199_254_740_991;

/// The number of the limit, which contracts name by its constant.
pub fn numbers_of_limits()
    ensures whole { MAX_WHOLE ≡ 9007199254740991 }
{}
