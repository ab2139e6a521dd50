//! The fault where a parser stopped.

ghost use Rattle.std.specs.Prelude.{◌≡◌};
ghost use Rattle.xp_parse.specs.inner.Places.{rest_of};
ghost use Rattle.xp_parse.specs.inner.Stopped.{at_end_fault, stopped_fault, finished};

use crate::error::ParseError;
use crate::parser::Parser;
use crate::stop::Stop;
use xp_grammar::{SyntaxFault, SyntaxKind};

/// The fault where the tokens end, at the end of the text or where no token can be read.
fn fault_at_end(whole: bool, end: u32) -> SyntaxFault
    ensures { result ≡ at_end_fault whole end }
{
    if whole {
        SyntaxFault {
            kind: SyntaxKind::Unexpected,
            offset: end,
        }
    } else {
        SyntaxFault {
            kind: SyntaxKind::BadToken,
            offset: end,
        }
    }
}

/// The fault of a parser that stopped at these tokens.
pub(crate) fn fault_of(parser: &Parser, stop: Stop, whole: bool, end: u32) -> ParseError
    ensures { result ≡ stopped_fault stop (rest_of parser.now) whole end }
{
    match stop {
        Stop::Memory => ParseError::Memory,
        Stop::TooNested => {
            let offset = parser.offset();
            let kind = SyntaxKind::TooNested;
            ParseError::Fault(SyntaxFault { kind, offset })
        }
        Stop::Unexpected => {
            let offset = parser.offset();
            let kind = SyntaxKind::Unexpected;
            match parser.token() {
                Some(_) => ParseError::Fault(SyntaxFault { kind, offset }),
                None => ParseError::Fault(fault_at_end(whole, end)),
            }
        }
    }
}

/// What was read, if no token is left and the text was read whole; else the fault where the parser stopped.
pub(crate) fn finished<T: Drop>(
    read: Result<T, Stop>,
    parser: &Parser,
    whole: bool,
    end: u32,
) -> Result<T, ParseError>
    ensures { result ≡ finished read (rest_of parser.now) whole end }
{
    match read {
        Err(stop) => Err(fault_of(parser, stop, whole, end)),
        Ok(part) => match parser.token() {
            None if whole => Ok(part),
            _ => Err(fault_of(parser, Stop::Unexpected, whole, end)),
        },
    }
}
