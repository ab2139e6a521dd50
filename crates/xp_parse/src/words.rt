//! Single tokens that have to stand at a place.

ghost use Rattle.std.specs.Prelude.{◌≡◌, ◌∷◌, List, MatchResult, MatchOption, IfOk};
ghost use Rattle.xp_grammar.specs.declared.token.Placed.{Placed};
ghost use Rattle.xp_grammar.specs.Parts.{level_of};
ghost use Rattle.xp_parse.specs.inner.Places.{Took, Refused, StandsFirst, token_of, TookBehind, IsOperatorOf, NoOperatorOf, is_step_token, is_at_step, is_at_slash, rest_of};

use crate::mark::Mark;
use crate::parser::Parser;
use crate::stop::Stop;
use sch_base::Text;
use std::alloc::AllocError;
use xp_grammar::{Token, Word};
use xp_tree::{Level, Operator};

/// The level of the chains that an operator joins (XPath 1.0, sections 3.3 to 3.5).
pub(crate) fn level_of(operator: Operator) -> Level
    ensures { result ≡ level_of operator }
{
    match operator {
        Operator::Or => Level::Or,
        Operator::And => Level::And,
        Operator::Equal | Operator::NotEqual => Level::Equal,
        Operator::Less | Operator::AtMost | Operator::Greater | Operator::AtLeast => Level::Rel,
        Operator::Plus | Operator::Minus => Level::Sum,
        Operator::Times | Operator::Div | Operator::Mod => Level::Prod,
        Operator::Union => Level::Union,
    }
}

/// Whether a step may begin with the token (XPath 1.0, section 2.1).
pub(crate) fn begins_step(token: &Token) -> bool
    ensures { result ≡ is_step_token token.now }
{
    matches!(
        token,
        Token::Dot
            | Token::DoubleDot
            | Token::At
            | Token::Axis(_)
            | Token::Star
            | Token::PrefixStar(_)
            | Token::Name(_)
            | Token::NodeType(_)
    )
}

impl<'t, 'a> Parser<'t, 'a> {
    /// Takes the mark.
    pub(crate) fn take(&mut self, mark: Mark) -> Result<(), Stop>
        ensures { MatchResult result (λ _. Took (token_of mark) (rest_of self.old) (rest_of self.new)) (Refused (token_of mark) (rest_of self.old) (rest_of self.new)) }
    {
        if !self.is_at(mark) {
            return Err(Stop::Unexpected);
        }
        self.advance();
        Ok(())
    }

    /// Takes the mark behind a part that was read, and gives the part back.
    pub(crate) fn take_behind<T: Drop>(&mut self, mark: Mark, part: T) -> Result<T, Stop>
        ensures { MatchResult result (λ kept. TookBehind part (token_of mark) (rest_of self.old) (rest_of self.new) kept) (Refused (token_of mark) (rest_of self.old) (rest_of self.new)) }
    {
        self.take(mark)?;
        Ok(part)
    }

    /// Takes the token at the place, whose word this is, and copies the word.
    pub(crate) fn take_word(&mut self, word: &Word) -> Result<Text, AllocError>
        ensures took { (p : Placed) (rest : List Placed) → rest_of self.old ≡ p ∷ rest → rest_of self.new ≡ rest }
        ensures copied { IfOk result (λ text. text ≡ word.now) }
    {
        self.advance();
        Text::copy(self.alloc, word.as_str())
    }

    /// Whether the mark stands at the place.
    pub(crate) fn is_at(&self, mark: Mark) -> bool
        ensures { StandsFirst (token_of mark) (rest_of self.now) result }
    {
        match self.token() {
            Some(first) => mark.is(first),
            None => false,
        }
    }

    /// Whether a step may begin at the place.
    pub(crate) fn at_step(&self) -> bool
        ensures { result ≡ is_at_step (rest_of self.now) }
    {
        match self.token() {
            Some(first) => begins_step(first),
            None => false,
        }
    }

    /// Whether `/` or `//` stands at the place.
    pub(crate) fn at_slash(&self) -> bool
        ensures { result ≡ is_at_slash (rest_of self.now) }
    {
        match self.token() {
            Some(first) => matches!(first, Token::Slash | Token::DoubleSlash),
            None => false,
        }
    }

    /// The operator at the place, if its chains are those of the level.
    pub(crate) fn operator_of(&self, level: Level) -> Option<Operator>
        ensures { MatchOption result (NoOperatorOf level (rest_of self.now)) (λ o. IsOperatorOf level o (rest_of self.now)) }
    {
        let first = self.token()?;
        match first {
            Token::Operator(operator) if level_of(*operator) == level => Some(*operator),
            _ => None,
        }
    }
}
