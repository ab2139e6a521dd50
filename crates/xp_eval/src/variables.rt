//! The values of variables (XPath 1.0, section 3.1).

ghost use Rattle.std.specs.Prelude.{ℕ, Ok};
ghost use Rattle.xp_values.specs.Outcomes.{Gives};
ghost use Rattle.xp_outcome.specs.Evaluation.{reading, variable};
ghost use Rattle.xp_outcome.specs.Running.{Ran};
ghost use Rattle.xp_outcome.specs.Slots.{in_slot};
ghost use Rattle.xp_meaning.specs.Results.{shown};
ghost use Rattle.xp_meaning.specs.Evaluation.{slot_value};

use crate::answers::{allocated, set_value, text_value};
use crate::evaluator::Evaluator;
use doc_tree::NodeList;
use std::alloc::Global;
use xp_outcome::Recorder;
use xp_values::{EvalError, EvalFault, Value};

impl Evaluator<'_> {
    /// The value or the fault that the slot of a variable holds; the slot is recorded.
    pub(crate) fn variable(&self, slot: u32, reads: &mut Recorder) -> Result<Value, EvalError>
        ensures { (count : ℕ) → Ran (reading (variable slot) (slot_value (in_slot self.now.lets.now slot))) (shown result) reads.old reads.new count count }
    {
        reads.add_let(slot)?;
        match self.lets.get(slot) {
            Some(held) => held_in(self.caller.alloc, held),
            None => Ok(Value::NodeSet(NodeList::new(self.caller.alloc))),
        }
    }
}

/// What a slot holds: a value, of which a copy is made, or a fault.
fn held_in(alloc: Global, held: &Result<Value, EvalFault>) -> Result<Value, EvalError>
    ensures { Gives result held.now }
{
    match held {
        Ok(value) => copy_value(alloc, value),
        Err(fault) => Err(EvalError::Fault(*fault)),
    }
}

/// The same value once more.
fn copy_value(alloc: Global, value: &Value) -> Result<Value, EvalError>
    ensures { Gives result (Ok value.now) }
{
    match value {
        Value::NodeSet(nodes) => set_value(allocated(NodeList::copy_of(alloc, nodes.as_slice()))),
        Value::Truth(truth) => Ok(Value::Truth(*truth)),
        Value::Number(number) => Ok(Value::Number(*number)),
        Value::Chars(text) => text_value(alloc, text),
    }
}
