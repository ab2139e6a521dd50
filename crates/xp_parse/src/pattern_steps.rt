//! Steps of a path pattern.

ghost use Rattle.std.specs.Prelude.{◌≡◌, MatchResult, MatchOption};
ghost use Rattle.xp_grammar.specs.declared.token.Token.TheVariants as token;
ghost use Rattle.xp_grammar.specs.Parts.{offset_at};
ghost use Rattle.xp_grammar.specs.PatternGrammar.{pattern_axis};
ghost use Rattle.xp_parse.specs.inner.Places.{IsFirst, rest_of};
ghost use Rattle.xp_parse.specs.inner.Parsing.{PredicatesRead};
ghost use Rattle.xp_grammar.specs.inner.PatternMachine.{Place, want_step, behind_step, in_test, test};
ghost use Rattle.xp_parse.specs.inner.PatternReading.{FailsAt, IsClosedAt, TestedFound, StepFound, StepsFound, MoreStepsFound, TookJoin, NoJoin};

use crate::mark::Mark;
use crate::parser::Parser;
use crate::stop::Stop;
use sch_base::MAX_NESTING;
use xp_grammar::Token;
use xp_tree::{AxisName, Expr, Join, PatternStep};

/// Whether the axis of a step in a pattern is attribute, and not child (XSLT 1.0, section 5.2); None for the axes that
/// a pattern may not name.
fn pattern_axis(axis: AxisName) -> Option<bool>
    ensures { result ≡ pattern_axis axis }
{
    match axis {
        AxisName::Child => Some(false),
        AxisName::Attribute => Some(true),
        _ => None,
    }
}

impl<'t, 'a> Parser<'t, 'a> {
    /// Steps, the first one behind this join.
    pub(crate) fn step_patterns(&mut self, join: Join) -> Result<Vec<PatternStep>, Stop>
        ensures { MatchResult result (λ all. StepsFound MAX_NESTING join (rest_of self.old) (rest_of self.new) all.items)
            (FailsAt MAX_NESTING want_step (rest_of self.old) (rest_of self.new)) }
    {
        let first = self.step_pattern(join)?;
        let mut found = Vec::new(self.alloc);
        found.push(first)?;
        self.more_step_patterns(found)
    }

    /// The steps behind `/` and `//`, put behind the steps that were found.
    pub(crate) fn more_step_patterns(
        &mut self,
        mut found: Vec<PatternStep>,
    ) -> Result<Vec<PatternStep>, Stop>
        ensures { (a : Place) → IsClosedAt a (rest_of self.old) → MatchResult result
            (λ all. MoreStepsFound MAX_NESTING a found.items (rest_of self.old) (rest_of self.new) all.items)
            (FailsAt MAX_NESTING a (rest_of self.old) (rest_of self.new)) }
    {
        while let Some(join) = self.join() {
            let step = self.step_pattern(join)?;
            found.push(step)?;
        }
        Ok(found)
    }

    /// Takes `/` or `//`, if one of them stands at the place.
    fn join(&mut self) -> Option<Join>
        ensures { MatchOption result (NoJoin (rest_of self.old) (rest_of self.new))
            (λ join. TookJoin join (rest_of self.old) (rest_of self.new)) }
    {
        let first = self.token()?;
        match first {
            Token::Slash => {
                self.advance();
                Some(Join::Slash)
            }
            Token::DoubleSlash => {
                self.advance();
                Some(Join::DoubleSlash)
            }
            _ => None,
        }
    }

    /// A step behind this join.
    fn step_pattern(&mut self, join: Join) -> Result<PatternStep, Stop>
        ensures { MatchResult result (StepFound MAX_NESTING join (rest_of self.old) (rest_of self.new))
            (FailsAt MAX_NESTING want_step (rest_of self.old) (rest_of self.new)) }
    {
        let Some(first) = self.token() else {
            return Err(Stop::Unexpected);
        };
        match first {
            Token::At => {
                let offset = self.offset();
                self.advance();
                self.tested_step_pattern(join, offset, true)
            }
            Token::Axis(axis) => self.step_pattern_on(join, *axis),
            _ => {
                let offset = self.offset();
                self.tested_step_pattern(join, offset, false)
            }
        }
    }

    /// A step whose axis stands at the place.
    fn step_pattern_on(&mut self, join: Join, axis: AxisName) -> Result<PatternStep, Stop>
        requires { IsFirst (token.Axis axis) (rest_of self.old) }
        ensures { MatchResult result (StepFound MAX_NESTING join (rest_of self.old) (rest_of self.new))
            (FailsAt MAX_NESTING want_step (rest_of self.old) (rest_of self.new)) }
    {
        let offset = self.offset();
        let Some(is_attribute) = pattern_axis(axis) else {
            return Err(Stop::Unexpected);
        };
        self.advance();
        self.take(Mark::DoubleColon)?;
        self.tested_step_pattern(join, offset, is_attribute)
    }

    /// A node test with its predicates, as a step with this offset.
    fn tested_step_pattern(
        &mut self,
        join: Join,
        offset: u32,
        is_attribute: bool,
    ) -> Result<PatternStep, Stop>
        ensures { MatchResult result
            (TestedFound MAX_NESTING join offset is_attribute (rest_of self.old) (rest_of self.new))
            (FailsAt MAX_NESTING (in_test test) (rest_of self.old) (rest_of self.new)) }
    {
        let test_offset = self.offset();
        let test = self.test()?;
        match self.pattern_predicates() {
            Ok(predicates) => Ok(PatternStep {
                join,
                offset,
                is_attribute,
                test,
                test_offset,
                predicates,
            }),
            Err(stop) => {
                drop(test);
                Err(stop)
            }
        }
    }

    /// The predicates at the place.
    fn pattern_predicates(&mut self) -> Result<Vec<Expr>, Stop>
        ensures { MatchResult result (λ found. PredicatesRead MAX_NESTING 0 (rest_of self.old) (rest_of self.new) found.items)
            (FailsAt MAX_NESTING behind_step (rest_of self.old) (rest_of self.new)) }
    {
        let mut found = Vec::new(self.alloc);
        while self.is_at(Mark::OpenBracket) {
            let predicate = self.enclosed(Mark::CloseBracket, 0)?;
            found.push(predicate)?;
        }
        Ok(found)
    }
}
