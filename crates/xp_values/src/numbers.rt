//! Numbers: whole ones of at most 53 bits, and NaN (XPath 1.0, section 3.5).

ghost use Rattle.std.specs.Prelude.{◌≡◌, ℤ, IfOk, SomeIff, FitsSigned};
ghost use Rattle.std.specs.Int.{w64};
ghost use Rattle.xp_values.specs.Numbers.{InRange, arith, combined, remainder, whole_number};

use crate::values::EvalFault;
use xp_tree::{ArithOp, MAX_WHOLE};

/// A number: not a number, or a whole one, at most `MAX_WHOLE` in size.
///
/// A call of this crate answers no number outside this range.
#[derive(Clone, Copy, Debug, PartialEq, Eq)]
pub enum Num {
    NaN,
    Whole(i64),
}

/// Combines two numbers (XPath 1.0, section 3.5): NaN with a NaN operand or modulo 0; `Mod` has the dividend's sign.
///
/// The fault is NumberRange, where the result lies outside the range.
pub fn arith(op: ArithOp, a: Num, b: Num) -> Result<Num, EvalFault>
    ensures value { result ≡ arith op a b }
    ensures in_range { IfOk result InRange }
{
    match (a, b) {
        (Num::Whole(x), Num::Whole(y)) => combined(op, x, y),
        _ => Ok(Num::NaN),
    }
}

/// Combines two whole numbers.
fn combined(op: ArithOp, x: i64, y: i64) -> Result<Num, EvalFault>
    ensures value { result ≡ combined op x y }
    ensures in_range { IfOk result InRange }
{
    match op {
        ArithOp::Add => ranged(x.checked_add(y)),
        ArithOp::Sub => ranged(x.checked_sub(y)),
        ArithOp::Mul => ranged(x.checked_mul(y)),
        ArithOp::Mod => remainder(x, y),
    }
}

/// The remainder of a division that drops the fraction; NaN modulo 0.
fn remainder(x: i64, y: i64) -> Result<Num, EvalFault>
    ensures value { result ≡ remainder x y }
    ensures in_range { IfOk result InRange }
{
    if y == 0 {
        Ok(Num::NaN)
    } else {
        whole_number(x.wrapping_rem(y))
    }
}

/// A result of checked arithmetic as a number.
fn ranged(computed: Option<i64>) -> Result<Num, EvalFault>
    ensures value { (z : ℤ) → SomeIff computed (FitsSigned w64 z) z → result ≡ whole_number z }
    ensures in_range { IfOk result InRange }
{
    match computed {
        Some(whole) => whole_number(whole),
        None => Err(EvalFault::NumberRange),
    }
}

/// A whole number, where it lies in the range.
pub(crate) fn whole_number(whole: i64) -> Result<Num, EvalFault>
    ensures value { result ≡ whole_number whole }
    ensures in_range { IfOk result InRange }
{
    if whole.unsigned_abs() <= MAX_WHOLE {
        Ok(Num::Whole(whole))
    } else {
        Err(EvalFault::NumberRange)
    }
}
