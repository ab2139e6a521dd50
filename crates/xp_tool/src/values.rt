//! Examples of values that no expression reaches.

use std::alloc::Global;
use std::test::Fail;
use test_rows::{copy, number, shown};
use xp_values::{Num, Value, concat, same_value};

/// Two texts as one.
pub fn joined(alloc: Global, first: &str, second: &str) -> Result<String, Fail> {
    let both = concat(alloc, first, second)?;
    copy(alloc, both.as_str())
}

/// Whether two values are the same.
pub fn are_same(alloc: Global, first: &str, second: &str) -> Result<String, Fail> {
    let (first, second) = (value_of(first)?, value_of(second)?);
    shown(alloc, &same_value(&first, &second))
}

/// The value that a word stands for.
fn value_of(word: &str) -> Result<Value, Fail> {
    if word == "true" {
        return Ok(Value::Truth(true));
    }
    Ok(Value::Number(if word == "NaN" {
        Num::NaN
    } else {
        Num::Whole(i64::try_from(number(word)?)?)
    }))
}
