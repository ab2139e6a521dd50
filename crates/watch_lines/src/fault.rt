//! Why a file of watched expressions is refused.

ghost use Rattle.std.specs.Prelude.{◌≡◌};
ghost use Rattle.watch_lines.specs.declared.fault.LineError.TheVariants as inner;
ghost use Rattle.watch_lines.specs.declared.fault.WatchError.TheVariants as errors;

use std::alloc::AllocError;
use thiserror::Error;
use xp_syntax::SyntaxFault;
use xp_types::TypeFault;

/// The rules that a line can break, in the order in which they are tested.
#[derive(Debug, Drop)]
pub enum WatchKind {
    /// The line isn't UTF-8, or holds a character that isn't a Char (XML 1.0, section 2.2).
    BadChar,
    /// The first word is none of a line, or a space of its form is missing.
    BadWord,
    /// The prefix isn't an NCName, or may not be bound to the namespace, or is bound already; or the namespace is empty.
    BadPrefix,
    /// The expression has more than 65,536 bytes.
    TooLong,
    /// There are 1,024 expressions already.
    TooMany,
    /// The expression's first fault of syntax.
    Syntax(SyntaxFault),
    /// The expression's first fault of types.
    Types(TypeFault),
}

/// The first fault of a file of watched expressions.
#[derive(Debug, Drop)]
pub struct WatchFault {
    /// The line, counted from 1, empty ones included.
    pub line: u64,
    pub kind: WatchKind,
}

/// Why there are no watched expressions.
#[derive(Debug, Drop, Error)]
pub enum WatchError {
    /// The first fault of the first bad line.
    #[error("a bad line")]
    Fault(WatchFault),
    #[error("out of memory")]
    Memory,
}

/// Why a line says nothing.
#[derive(Debug, Drop)]
pub(crate) enum LineError {
    /// Its first fault.
    Kind(WatchKind),
    Memory,
}

impl From<AllocError> for LineError {
    ghost from_gives = { λ _ error. error ≡ inner.Memory };

    fn from(_error: AllocError) -> LineError {
        LineError::Memory
    }
}

impl From<AllocError> for WatchError {
    ghost from_gives = { λ _ error. error ≡ errors.Memory };

    fn from(_error: AllocError) -> WatchError {
        WatchError::Memory
    }
}
