//! What may be wrong with the types of an expression.

ghost use Rattle.std.specs.Prelude.{◌≡◌};
ghost use Rattle.xp_types.specs.FaultNames.{kind_name};
ghost use Rattle.xp_types.specs.declared.faults.CheckError.TheVariants as errors;

use sch_base::Text;
use std::alloc::{AllocError, AllocFailed};
use thiserror::Error;

/// The kinds of faults.
#[derive(Debug, Drop)]
pub enum TypeKind {
    /// A function that isn't known.
    UnknownFunction,
    /// A number of arguments that the function doesn't take.
    Arity,
    /// Something else where a node-set is wanted.
    NodeSetWanted,
    /// A variable that isn't in scope.
    UnknownVariable,
    /// A name test's prefix that isn't bound.
    UnknownPrefix,
    /// A part of XPath 1.0 that is refused by its name.
    Refused { thing: Text },
    /// A number past `xp_tree::MAX_WHOLE`.
    NumberTooLarge,
}

impl TypeKind {
    /// The kind's name, as messages tell it.
    pub fn name(&self) -> &'static str
        ensures { result.now ≡ kind_name self.now }
    {
        match self {
            TypeKind::UnknownFunction => "UnknownFunction",
            TypeKind::Arity => "Arity",
            TypeKind::NodeSetWanted => "NodeSetWanted",
            TypeKind::UnknownVariable => "UnknownVariable",
            TypeKind::UnknownPrefix => "UnknownPrefix",
            TypeKind::Refused { .. } => "Refused",
            TypeKind::NumberTooLarge => "NumberTooLarge",
        }
    }
}

/// A fault, and where it stands, in bytes from the text's beginning.
#[derive(Debug, Drop)]
pub struct TypeFault {
    pub kind: TypeKind,
    pub offset: u32,
}

/// Why an expression got no types.
#[derive(Debug, Drop, Error)]
pub enum CheckError {
    /// The first fault.
    #[error("a fault of types")]
    Fault(TypeFault),
    #[error("out of memory")]
    Memory,
}

impl From<AllocError> for CheckError {
    ghost from_gives = { λ _ error. error ≡ errors.Memory };

    fn from(_error: AllocError) -> Self {
        CheckError::Memory
    }
}

impl<T: Drop> From<AllocFailed<T>> for CheckError {
    ghost from_gives = { λ _ error. error ≡ errors.Memory };

    fn from(_error: AllocFailed<T>) -> Self {
        CheckError::Memory
    }
}
