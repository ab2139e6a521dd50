//! `id` and `key` at the beginning of a path pattern.

ghost use Rattle.std.specs.Prelude.{◌≡◌, MatchResult, codes};
ghost use Rattle.xp_grammar.specs.declared.token.Token.TheVariants as token;
ghost use Rattle.xp_parse.specs.inner.Places.{IsFirst, Took, rest_of, token_of};
ghost use Rattle.xp_grammar.specs.inner.PatternMachine.{want_path};
ghost use Rattle.xp_parse.specs.inner.PatternReading.{FailsAt, CallFound, LiteralTaken, NoLiteral, NotTaken};

use crate::mark::Mark;
use crate::parser::Parser;
use crate::stop::Stop;
use sch_base::{MAX_NESTING, Text};
use xp_grammar::Token;
use xp_tree::PatternStart;

impl<'t, 'a> Parser<'t, 'a> {
    /// `id` or `key` with its literals, whose name stands at the place.
    pub(crate) fn id_key_pattern(&mut self, name: &str) -> Result<PatternStart, Stop>
        requires { IsFirst (token.Function name.now) (rest_of self.old) }
        ensures { MatchResult result (CallFound MAX_NESTING (rest_of self.old) (rest_of self.new))
            (FailsAt MAX_NESTING want_path (rest_of self.old) (rest_of self.new)) }
    {
        match name {
            "id" => self.id_pattern(),
            "key" => self.key_pattern(),
            _ => Err(Stop::Unexpected),
        }
    }

    /// `id` with its literal.
    fn id_pattern(&mut self) -> Result<PatternStart, Stop>
        requires { IsFirst (token.Function (codes "id")) (rest_of self.old) }
        ensures { MatchResult result (CallFound MAX_NESTING (rest_of self.old) (rest_of self.new))
            (FailsAt MAX_NESTING want_path (rest_of self.old) (rest_of self.new)) }
    {
        self.advance();
        self.take(Mark::OpenParen)?;
        let value = self.literal_before(Mark::CloseParen)?;
        Ok(PatternStart::Id { value })
    }

    /// `key` with its literals.
    fn key_pattern(&mut self) -> Result<PatternStart, Stop>
        requires { IsFirst (token.Function (codes "key")) (rest_of self.old) }
        ensures { MatchResult result (CallFound MAX_NESTING (rest_of self.old) (rest_of self.new))
            (FailsAt MAX_NESTING want_path (rest_of self.old) (rest_of self.new)) }
    {
        self.advance();
        self.take(Mark::OpenParen)?;
        let name = self.literal_before(Mark::Comma)?;
        match self.literal_before(Mark::CloseParen) {
            Ok(value) => Ok(PatternStart::Key { name, value }),
            Err(stop) => {
                drop(name);
                Err(stop)
            }
        }
    }

    /// Takes a literal and the mark behind it.
    fn literal_before(&mut self, mark: Mark) -> Result<Text, Stop>
        ensures { MatchResult result (LiteralTaken (token_of mark) (rest_of self.old) (rest_of self.new))
            (NotTaken (token_of mark) (rest_of self.old) (rest_of self.new)) }
    {
        let value = self.literal()?;
        self.take_behind(mark, value)
    }

    /// Takes a literal.
    fn literal(&mut self) -> Result<Text, Stop>
        ensures { MatchResult result (λ value. Took (token.Literal value) (rest_of self.old) (rest_of self.new))
            (NoLiteral (rest_of self.old) (rest_of self.new)) }
    {
        let Some(first) = self.token() else {
            return Err(Stop::Unexpected);
        };
        match first {
            Token::Literal(value) => Ok(self.take_word(value)?),
            _ => Err(Stop::Unexpected),
        }
    }
}
