//! Values and the faults of their evaluation.

ghost use Rattle.std.specs.Prelude.{◌≡◌};
ghost use Rattle.xp_values.specs.FaultNames.{fault_name};

use crate::numbers::Num;
use doc_tree::NodeList;
use sch_base::Text;
use std::alloc::AllocError;
use thiserror::Error;

/// A value of one of the four types of XPath 1.0, section 1.
#[derive(Debug, Drop)]
pub enum Value {
    /// A node-set: live nodes of one tree in document order, each once.
    NodeSet(NodeList),
    /// A boolean.
    Truth(bool),
    Number(Num),
    /// A string.
    Chars(Text),
}

/// Why an evaluation has no value.
#[derive(Clone, Copy, Debug, PartialEq, Eq)]
pub enum EvalFault {
    /// A text was read as a number with a fraction.
    NotWhole,
    /// A number lies outside the range of whole numbers.
    NumberRange,
    /// A text would be longer than it may.
    TextLimit,
}

impl EvalFault {
    /// The fault's name, as messages tell it.
    pub fn name(self) -> &'static str
        ensures { result.now ≡ fault_name self }
    {
        match self {
            EvalFault::NotWhole => "NotWhole",
            EvalFault::NumberRange => "NumberRange",
            EvalFault::TextLimit => "TextLimit",
        }
    }
}

/// Why a call has no answer: a fault of the evaluation, or want of memory.
#[derive(Clone, Copy, Debug, PartialEq, Eq, Error)]
pub enum EvalError {
    #[error("fault of evaluation")]
    Fault(EvalFault),
    #[error("out of memory")]
    Memory,
}

impl From<AllocError> for EvalError {
    ghost use Rattle.std.specs.Prelude.{◌≡◌};
    ghost use Rattle.xp_values.specs.declared.values.EvalError.TheVariants as errors;

    ghost from_gives = { λ _ error. error ≡ errors.Memory };

    fn from(_error: AllocError) -> Self {
        EvalError::Memory
    }
}

impl From<EvalFault> for EvalError {
    ghost use Rattle.std.specs.Prelude.{◌≡◌};
    ghost use Rattle.xp_values.specs.declared.values.EvalError.TheVariants as errors;

    ghost from_gives = { λ fault error. error ≡ errors.Fault fault };

    fn from(fault: EvalFault) -> Self {
        EvalError::Fault(fault)
    }
}
