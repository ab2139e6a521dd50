//! Path patterns, and patterns that join them.

ghost use Rattle.std.specs.Prelude.{◌≡◌, MatchResult};
ghost use Rattle.xp_grammar.specs.declared.token.Token.TheVariants as token;
ghost use Rattle.xp_parse.specs.inner.Places.{IsFirst, rest_of};
ghost use Rattle.xp_grammar.specs.inner.PatternMachine.{Place, want_path};
ghost use Rattle.xp_parse.specs.inner.PatternReading.{IsEndedAt, IsStepPlace, FailsAt, PathFound, MorePathsFound, PatternFound};

use crate::parser::Parser;
use crate::stop::Stop;
use sch_base::MAX_NESTING;
use xp_grammar::Token;
use xp_tree::{Join, Level, PathPattern, PatternStart};

impl<'t, 'a> Parser<'t, 'a> {
    /// Path patterns joined by `|`.
    pub(crate) fn pattern(&mut self) -> Result<Vec<PathPattern>, Stop>
        ensures { MatchResult result (λ all. PatternFound MAX_NESTING (rest_of self.old) (rest_of self.new) all.items)
            (FailsAt MAX_NESTING want_path (rest_of self.old) (rest_of self.new)) }
    {
        let first = self.path_pattern()?;
        let mut found = Vec::new(self.alloc);
        found.push(first)?;
        self.more_path_patterns(found)
    }

    /// The path patterns behind the first one, put behind those that were found.
    fn more_path_patterns(&mut self, mut found: Vec<PathPattern>) -> Result<Vec<PathPattern>, Stop>
        ensures { (a : Place) → IsEndedAt a (rest_of self.old) → MatchResult result
            (λ all. MorePathsFound MAX_NESTING a found.items (rest_of self.old) (rest_of self.new) all.items)
            (FailsAt MAX_NESTING a (rest_of self.old) (rest_of self.new)) }
    {
        while let Some(_) = self.operator_of(Level::Union) {
            self.advance();
            let path = self.path_pattern()?;
            found.push(path)?;
        }
        Ok(found)
    }

    /// A path pattern.
    fn path_pattern(&mut self) -> Result<PathPattern, Stop>
        ensures { MatchResult result (PathFound MAX_NESTING (rest_of self.old) (rest_of self.new))
            (FailsAt MAX_NESTING want_path (rest_of self.old) (rest_of self.new)) }
    {
        let Some(first) = self.token() else {
            return Err(Stop::Unexpected);
        };
        match first {
            Token::Slash => self.pattern_from_root(),
            Token::DoubleSlash => self.pattern_from_anywhere(),
            Token::Function(name) => self.pattern_from_call(name.as_str()),
            _ => self.pattern_from_here(),
        }
    }

    /// A path pattern that begins with `/`.
    fn pattern_from_root(&mut self) -> Result<PathPattern, Stop>
        requires { IsFirst token.Slash (rest_of self.old) }
        ensures { MatchResult result (PathFound MAX_NESTING (rest_of self.old) (rest_of self.new))
            (FailsAt MAX_NESTING want_path (rest_of self.old) (rest_of self.new)) }
    {
        let offset = self.offset();
        self.advance();
        if !self.at_step() {
            return Ok(PathPattern {
                offset,
                start: PatternStart::Root,
                steps: Vec::new(self.alloc),
            });
        }
        let steps = self.step_patterns(Join::Slash)?;
        Ok(PathPattern {
            offset,
            start: PatternStart::Root,
            steps,
        })
    }

    /// A path pattern that begins with `//`.
    fn pattern_from_anywhere(&mut self) -> Result<PathPattern, Stop>
        requires { IsFirst token.DoubleSlash (rest_of self.old) }
        ensures { MatchResult result (PathFound MAX_NESTING (rest_of self.old) (rest_of self.new))
            (FailsAt MAX_NESTING want_path (rest_of self.old) (rest_of self.new)) }
    {
        let offset = self.offset();
        self.advance();
        let steps = self.step_patterns(Join::DoubleSlash)?;
        Ok(PathPattern {
            offset,
            start: PatternStart::Root,
            steps,
        })
    }

    /// A path pattern that begins with a step.
    fn pattern_from_here(&mut self) -> Result<PathPattern, Stop>
        requires { IsStepPlace want_path (rest_of self.old) }
        ensures { MatchResult result (PathFound MAX_NESTING (rest_of self.old) (rest_of self.new))
            (FailsAt MAX_NESTING want_path (rest_of self.old) (rest_of self.new)) }
    {
        let offset = self.offset();
        let steps = self.step_patterns(Join::Nothing)?;
        Ok(PathPattern {
            offset,
            start: PatternStart::Here,
            steps,
        })
    }

    /// A path pattern that begins with a function's name.
    fn pattern_from_call(&mut self, name: &str) -> Result<PathPattern, Stop>
        requires { IsFirst (token.Function name.now) (rest_of self.old) }
        ensures { MatchResult result (PathFound MAX_NESTING (rest_of self.old) (rest_of self.new))
            (FailsAt MAX_NESTING want_path (rest_of self.old) (rest_of self.new)) }
    {
        let offset = self.offset();
        let start = self.id_key_pattern(name)?;
        match self.more_step_patterns(Vec::new(self.alloc)) {
            Ok(steps) => Ok(PathPattern {
                offset,
                start,
                steps,
            }),
            Err(stop) => {
                drop(start);
                Err(stop)
            }
        }
    }
}
