//! Texts joined (XPath 1.0, section 4.2, `concat`).

ghost use Rattle.std.specs.Prelude.{◌≡◌, flat_map};
ghost use Rattle.xp_values.specs.Outcomes.{Gives};
ghost use Rattle.xp_values.specs.Texts.{limited};
ghost use Rattle.xp_meaning.specs.Functions.{text_of};

use crate::arguments::text_of;
use sch_base::{MAX_TEXT_BYTES, Text};
use std::alloc::Global;
use xp_values::{EvalError, EvalFault, Value};

/// The texts of the arguments joined.
///
/// The fault is TextLimit, where the text would have more than `MAX_TEXT_BYTES` bytes.
pub(crate) fn join(alloc: Global, args: &[Value]) -> Result<Text, EvalError>
    ensures { Gives result (limited (flat_map text_of args.now)) }
{
    let mut text = String::new(alloc);
    for arg in args {
        let part = text_of(arg);
        if part.len() > MAX_TEXT_BYTES - text.len() {
            return Err(EvalError::Fault(EvalFault::TextLimit));
        }
        text.push_str(part)?;
    }
    Ok(Text::from(text))
}
