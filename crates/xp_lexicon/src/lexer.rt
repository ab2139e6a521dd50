//! Texts as lists of tokens.

ghost use Rattle.std.specs.Prelude.{◌≡◌, ◌<◌, ◌^◌, ◌++◌, ◌∷◌, [], length, IfOk, MatchOption, OnOk};
ghost use Rattle.xp_lexicon.specs.Lexicon.{Tokenized};
ghost use Rattle.xp_lexicon.specs.inner.Scanning.{ReadAt, NoToken};

use crate::lexeme::scan;
use crate::run::{Class, after_run};
use crate::token::{ends_operand, token_of};
use std::alloc::{AllocError, Global};
use xp_grammar::{Placed, Token};

/// The tokens of a text, up to its end or to where no token can be read.
#[derive(Drop)]
pub struct Lexed<'a> {
    pub tokens: Vec<Placed<'a>>,
    /// Whether the whole text was read.
    pub whole: bool,
    /// The number of bytes before the place where reading ended: the text's length if all was read.
    pub end: u32,
}

/// A token and what follows it.
#[derive(Drop)]
struct Taken<'a> {
    token: Token<'a>,
    rest: &'a str,
}

/// The token that the text begins with.
fn take_token(behind_operand: bool, text: &str) -> Option<Taken>
    ensures { MatchOption result (NoToken behind_operand text.now) (λ t. ReadAt behind_operand text.now t.rest.now t.token) }
{
    match scan(text) {
        Some(scanned) => match token_of(behind_operand, scanned.lexeme, scanned.rest) {
            Some(token) => Some(Taken {
                token,
                rest: scanned.rest,
            }),
            None => None,
        },
        None => None,
    }
}

/// Puts a token at the end of the list.
fn push_token<'a>(
    tokens: &mut Vec<Placed<'a>>,
    offset: u32,
    token: Token<'a>,
) -> Result<(), AllocError>
    ensures { OnOk result (tokens.new.items ≡ tokens.old.items ++ record { offset = offset; token = token.entry } ∷ []) }
{
    tokens.push(Placed { offset, token })?;
    Ok(())
}

/// The tokens of the text (XPath 1.0, section 3.7).
///
/// The time grows with the text's length.
pub fn tokenize<'a>(alloc: Global, text: &'a str) -> Result<Lexed<'a>, AllocError>
    requires { length text.now < 2 ^ 32 }
    ensures { IfOk result (λ l. Tokenized text.now l.tokens.items l.whole l.end) }
{
    let mut tokens = Vec::new(alloc);
    let mut behind_operand = false;
    let mut rest = after_run(Class::Whitespace, text);
    while !rest.is_empty() {
        let offset = (text.len() - rest.len()) as u32;
        let Some(taken) = take_token(behind_operand, rest) else {
            return Ok(Lexed {
                tokens,
                whole: false,
                end: offset,
            });
        };
        behind_operand = ends_operand(&taken.token);
        rest = after_run(Class::Whitespace, taken.rest);
        push_token(&mut tokens, offset, taken.token)?;
    }
    Ok(Lexed {
        tokens,
        whole: true,
        end: text.len() as u32,
    })
}
