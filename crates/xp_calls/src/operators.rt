//! Minus signs before numbers (XPath 1.0, section 3.5).

ghost use Rattle.std.specs.Prelude.{◌≡◌};
ghost use Rattle.xp_meaning.specs.Operators.{negated};

use xp_values::{ArithOp, EvalFault, Num, arith};

/// The number with so many minus signs before it. The fault is NumberRange, which no number in the range gives.
pub fn negate(signs: u32, number: Num) -> Result<Num, EvalFault>
    ensures { result ≡ negated signs number }
{
    let mut number = number;
    let mut left = signs;
    while left > 0 {
        number = arith(ArithOp::Sub, Num::Whole(0), number)?;
        left -= 1;
    }
    Ok(number)
}
