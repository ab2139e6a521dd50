//! Why a script is refused.

ghost use Rattle.std.specs.Prelude.{◌≡◌};
ghost use Rattle.edit_script.specs.declared.fault.ScriptError.TheVariants.{Memory};

use std::alloc::AllocError;
use thiserror::Error;

/// The rules that a command can break, in the order in which they are tested.
#[derive(Clone, Copy, Debug, PartialEq, Eq, Error)]
pub enum ScriptKind {
    /// The line isn't UTF-8, or holds a character that isn't a Char (XML 1.0, section 2.2).
    #[error("BadChar")]
    BadChar,
    /// The first word is none of a command, or the line has too few or too many fields.
    #[error("BadWord")]
    BadWord,
    /// The path isn't one.
    #[error("BadPath")]
    BadPath,
    /// The number of a kid isn't one from 1 to `MAX_PLACE`, decimal and without leading zeros.
    #[error("BadNumber")]
    BadNumber,
    /// The name isn't a QName (Namespaces in XML 1.0, section 4).
    #[error("BadName")]
    BadName,
    /// The lines behind an insert are no fragment, break a rule of names, or don't end.
    #[error("BadPayload")]
    BadPayload,
}

/// The first fault of a script.
#[derive(Clone, Copy, Debug, PartialEq, Eq)]
pub struct ScriptFault {
    /// The line, counted from 1, empty ones included.
    pub line: u64,
    pub kind: ScriptKind,
}

/// Why no command was read.
#[derive(Clone, Copy, Debug, PartialEq, Eq, Error)]
pub enum ScriptError {
    /// The script has this fault.
    #[error("line {}: {}", .0.line, .0.kind)]
    Fault(ScriptFault),
    #[error("out of memory")]
    Memory,
}

impl From<AllocError> for ScriptError {
    ghost from_gives = { λ _ error. error ≡ Memory };

    fn from(_error: AllocError) -> ScriptError {
        ScriptError::Memory
    }
}
