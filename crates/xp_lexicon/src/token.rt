//! Tokens: what lexemes are at their places.

ghost use Rattle.std.specs.Prelude.{◌≡◌, [], Some};
ghost use Rattle.std.specs.Option.{option_map};
ghost use Rattle.xp_grammar.specs.declared.token.Token.TheVariants as token;
ghost use Rattle.xp_lexicon.specs.Lexicon.{node_types, called, ends_operand, name_token, starred_token, token_of};
ghost use Rattle.sch_base.specs.Named.{named};
ghost use Rattle.xp_tree.specs.AxisNames.{axis_names};
ghost use Rattle.xp_lexicon.specs.declared.lexeme.Lexeme.TheVariants as lexeme;

use crate::lexeme::Lexeme;
use crate::run::{Class, after_run};
use crate::words::{node_type_named, operator_named};
use xp_grammar::{Token, Word};
use xp_tree::{AxisName, Operator};

/// Whether an operand may end with the token: `*` and names after it are operators (XPath 1.0, section 3.7).
pub(crate) fn ends_operand(token: &Token) -> bool
    ensures { result ≡ ends_operand token.now }
{
    !matches!(
        token,
        Token::OpenParen
            | Token::OpenBracket
            | Token::At
            | Token::Comma
            | Token::DoubleColon
            | Token::Slash
            | Token::DoubleSlash
            | Token::Operator(_)
    )
}

/// The token that a lexeme is, after an operand or not, with what follows it; None where no token can be read.
pub(crate) fn token_of<'a>(
    behind_operand: bool,
    lexeme: Lexeme<'a>,
    rest: &str,
) -> Option<Token<'a>>
    ensures { result ≡ token_of behind_operand lexeme.entry rest.now }
{
    match lexeme {
        Lexeme::Symbol(token) => Some(token),
        Lexeme::Star => Some(star(behind_operand)),
        Lexeme::Literal(value) => Some(Token::Literal(value)),
        Lexeme::Number(digits) => Some(Token::Number(digits)),
        Lexeme::Variable(name) => Some(Token::Variable(name)),
        Lexeme::Name(name) => {
            if behind_operand {
                operator_named(name.as_str())
            } else {
                name_token(name, rest)
            }
        }
        Lexeme::PrefixedName(name) => {
            if behind_operand {
                Some(Token::Name(name))
            } else {
                name_token(name, rest)
            }
        }
        Lexeme::PrefixStar(prefix) => {
            if behind_operand {
                Some(Token::PrefixStar(prefix))
            } else {
                starred_token(prefix, rest)
            }
        }
    }
}

fn star<'a>(behind_operand: bool) -> Token<'a>
    ensures { Some result ≡ token_of behind_operand lexeme.Star [] }
{
    if behind_operand {
        Token::Operator(Operator::Times)
    } else {
        Token::Star
    }
}

/// A name where no operand stands before it, with what follows it.
fn name_token<'a>(name: Word<'a>, rest: &str) -> Option<Token<'a>>
    ensures { result ≡ name_token name.entry rest.now }
{
    let follows = after_run(Class::Whitespace, rest);
    if follows.starts_with('(') {
        return Some(called(name));
    }
    if follows.starts_with("::") {
        return axis_token(name);
    }
    Some(Token::Name(name))
}

/// A prefix with a star where no operand stands before it, with what follows it: no axis is named so.
fn starred_token<'a>(prefix: Word<'a>, rest: &str) -> Option<Token<'a>>
    ensures { result ≡ starred_token prefix.entry rest.now }
{
    if after_run(Class::Whitespace, rest).starts_with("::") {
        return None;
    }
    Some(Token::PrefixStar(prefix))
}

/// A name before `(`.
fn called<'a>(name: Word<'a>) -> Token<'a>
    ensures { result ≡ called name.entry (named node_types name.entry) }
{
    match node_type_named(name.as_str()) {
        Some(node_type) => Token::NodeType(node_type),
        None => Token::Function(name),
    }
}

/// A name before `::`.
fn axis_token<'a>(name: Word<'a>) -> Option<Token<'a>>
    ensures { result ≡ option_map token.Axis (named axis_names name.entry) }
{
    match AxisName::named(name.as_str()) {
        Some(axis) => Some(Token::Axis(axis)),
        None => None,
    }
}
