//! Steps of a path (XPath 1.0, sections 2.1 to 2.5).

ghost use Rattle.std.specs.Prelude.{◌≡◌, ◌≤◌, ◌∷◌, ℕ, List, MatchResult, IfOk};
ghost use Rattle.xp_parse.specs.declared.stop.Stop.TheVariants as stop;
ghost use Rattle.xp_tree.specs.Tree.{Steps, step, no_trees};
ghost use Rattle.xp_tree.specs.View.{step_of};
ghost use Rattle.xp_grammar.specs.declared.token.NodeType.TheVariants as node_type;
ghost use Rattle.xp_grammar.specs.declared.token.Placed.{Placed};
ghost use Rattle.xp_tree.specs.declared.terms.StepTest.TheVariants as test;
ghost use Rattle.xp_grammar.specs.Parts.{everywhere, name_test, type_test};
ghost use Rattle.xp_grammar.specs.inner.Machine.{Ending, after, full, need_step, need_test, type_open, type_inner};
ghost use Rattle.xp_parse.specs.inner.Places.{rest_of};
ghost use Rattle.xp_parse.specs.inner.Parsing.{Fails, StepsRead, MoreStepsRead, StepRead, TestedRead, TestRead, TypeRead, PredicatesRead, IsClosed, TestFails, TargetRead, Leads};

use crate::mark::Mark;
use crate::parser::Parser;
use crate::stop::Stop;
use sch_base::{MAX_NESTING, Text};
use std::alloc::{AllocError, Global};
use xp_grammar::{NodeType, Token, Word};
use xp_tree::{AxisName, Expr, Step, StepTest};

/// The step `descendant-or-self::node()` that `//` stands for.
pub(crate) fn everywhere(alloc: Global, offset: u32) -> Step
    ensures { (rest : Steps) → step_of result rest ≡ everywhere offset rest }
{
    Step::new(
        offset,
        AxisName::DescendantOrSelf,
        StepTest::Node,
        offset,
        Vec::new(alloc),
    )
}

/// A node type as a node test.
pub(crate) fn type_test(node_type: NodeType) -> StepTest
    ensures { result ≡ type_test node_type }
{
    match node_type {
        NodeType::Comment => StepTest::Comment,
        NodeType::Chars => StepTest::Chars,
        NodeType::Pi => StepTest::Pi,
        NodeType::Node => StepTest::Node,
    }
}

/// A name as a node test.
#[tactic(auto, using(sch_base::proofs::Lists::none_passes))]
fn name_test(alloc: Global, name: &str) -> Result<StepTest, AllocError>
    ensures { IfOk result (λ test. test ≡ name_test name.now) }
{
    match name.split_once(':') {
        Some((prefix, local)) => {
            let prefix = Text::copy(alloc, prefix)?;
            let local = Text::copy(alloc, local)?;
            let prefix = Some(prefix);
            Ok(StepTest::Named { prefix, local })
        }
        None => {
            let local = Text::copy(alloc, name)?;
            Ok(StepTest::Named {
                prefix: None,
                local,
            })
        }
    }
}

impl<'t, 'a> Parser<'t, 'a> {
    /// A step and those behind it, put behind the steps that were found.
    #[cycle(parser)]
    pub(crate) fn steps(&mut self, mut found: Vec<Step>, depth: usize) -> Result<Vec<Step>, Stop>
        requires { depth ≤ MAX_NESTING }
        ensures { MatchResult result (λ all. StepsRead MAX_NESTING depth found.items (rest_of self.old) (rest_of self.new) all.items)
            (Fails MAX_NESTING need_step depth (rest_of self.old) (rest_of self.new)) }
    {
        let first = self.step(depth)?;
        found.push(first)?;
        self.more_steps(found, depth)
    }

    /// The steps behind an operand, put behind the steps that were found.
    #[cycle(parser)]
    pub(crate) fn more_steps(
        &mut self,
        mut found: Vec<Step>,
        depth: usize,
    ) -> Result<Vec<Step>, Stop>
        requires { depth ≤ MAX_NESTING }
        ensures { (e : Ending) → IsClosed e (rest_of self.old) → MatchResult result
            (λ all. MoreStepsRead MAX_NESTING depth e found.items (rest_of self.old) (rest_of self.new) all.items)
            (Fails MAX_NESTING (after e) depth (rest_of self.old) (rest_of self.new)) }
    {
        while self.lead(&mut found)? {
            let step = self.step(depth)?;
            found.push(step)?;
        }
        Ok(found)
    }

    /// Takes `/`, or `//` with the step that it stands for; answers whether one of them stood there.
    fn lead(&mut self, found: &mut Vec<Step>) -> Result<bool, Stop>
        ensures { MatchResult result (Leads (rest_of self.old) (rest_of self.new) found.old.items found.new.items) (λ why. why ≡ stop.Memory) }
    {
        let offset = self.offset();
        let Some(first) = self.token() else {
            return Ok(false);
        };
        match first {
            Token::Slash => {
                self.advance();
                Ok(true)
            }
            Token::DoubleSlash => {
                self.advance();
                found.push(everywhere(self.alloc, offset))?;
                Ok(true)
            }
            _ => Ok(false),
        }
    }

    /// A step.
    #[cycle(parser)]
    fn step(&mut self, depth: usize) -> Result<Step, Stop>
        requires { depth ≤ MAX_NESTING }
        ensures { MatchResult result (StepRead MAX_NESTING depth (rest_of self.old) (rest_of self.new))
            (Fails MAX_NESTING need_step depth (rest_of self.old) (rest_of self.new)) }
    {
        let offset = self.offset();
        let Some(first) = self.token() else {
            return Err(Stop::Unexpected);
        };
        match first {
            Token::Dot => {
                self.advance();
                Ok(self.whole_node(offset, AxisName::SelfNode))
            }
            Token::DoubleDot => {
                self.advance();
                Ok(self.whole_node(offset, AxisName::Parent))
            }
            Token::At => {
                self.advance();
                self.tested(offset, AxisName::Attribute, depth)
            }
            Token::Axis(axis) => {
                self.advance();
                self.take(Mark::DoubleColon)?;
                self.tested(offset, *axis, depth)
            }
            Token::Star | Token::PrefixStar(_) | Token::Name(_) | Token::NodeType(_) => {
                self.tested(offset, AxisName::Child, depth)
            }
            _ => Err(Stop::Unexpected),
        }
    }

    /// The step that `.` or `..` stands for.
    fn whole_node(&self, offset: u32, axis: AxisName) -> Step
        ensures { (rest : Steps) → step_of result rest ≡ step offset axis test.Node offset no_trees rest }
    {
        Step::new(offset, axis, StepTest::Node, offset, Vec::new(self.alloc))
    }

    /// A node test with its predicates, as a step on the axis.
    #[cycle(parser)]
    fn tested(&mut self, offset: u32, axis: AxisName, depth: usize) -> Result<Step, Stop>
        requires { depth ≤ MAX_NESTING }
        ensures { MatchResult result (TestedRead MAX_NESTING depth offset axis (rest_of self.old) (rest_of self.new))
            (Fails MAX_NESTING need_test depth (rest_of self.old) (rest_of self.new)) }
    {
        let test_offset = self.offset();
        let test = self.test()?;
        match self.predicates(depth) {
            Ok(predicates) => Ok(Step::new(offset, axis, test, test_offset, predicates)),
            Err(stop) => {
                drop(test);
                Err(stop)
            }
        }
    }

    /// A node test.
    pub(crate) fn test(&mut self) -> Result<StepTest, Stop>
        ensures { MatchResult result (TestRead (rest_of self.old) (rest_of self.new))
            (TestFails need_test (rest_of self.old) (rest_of self.new)) }
    {
        let Some(first) = self.token() else {
            return Err(Stop::Unexpected);
        };
        match first {
            Token::Star => {
                self.advance();
                Ok(StepTest::Star)
            }
            Token::PrefixStar(prefix) => self.take_prefix(prefix),
            Token::Name(name) => self.take_name(name),
            Token::NodeType(node_type) => {
                self.advance();
                self.typed(*node_type)
            }
            _ => Err(Stop::Unexpected),
        }
    }

    /// Takes the token at the place, whose prefix this is, as a node test.
    fn take_prefix(&mut self, prefix: &Word) -> Result<StepTest, Stop>
        ensures took { (p : Placed) (rest : List Placed) → rest_of self.old ≡ p ∷ rest → rest_of self.new ≡ rest }
        ensures test { MatchResult result (λ it. it ≡ test.InPrefix prefix.now) (λ why. why ≡ stop.Memory) }
    {
        let prefix = self.take_word(prefix)?;
        Ok(StepTest::InPrefix { prefix })
    }

    /// Takes the token at the place, whose name this is, as a node test.
    fn take_name(&mut self, name: &Word) -> Result<StepTest, Stop>
        ensures took { (p : Placed) (rest : List Placed) → rest_of self.old ≡ p ∷ rest → rest_of self.new ≡ rest }
        ensures test { MatchResult result (λ it. it ≡ name_test name.now) (λ why. why ≡ stop.Memory) }
    {
        self.advance();
        let test = name_test(self.alloc, name.as_str())?;
        Ok(test)
    }

    /// What stands behind a node type.
    fn typed(&mut self, node_type: NodeType) -> Result<StepTest, Stop>
        ensures { MatchResult result (TypeRead node_type (rest_of self.old) (rest_of self.new))
            (TestFails (type_open node_type) (rest_of self.old) (rest_of self.new)) }
    {
        self.take(Mark::OpenParen)?;
        match node_type {
            NodeType::Pi => self.target(),
            _ => {
                self.take(Mark::CloseParen)?;
                Ok(type_test(node_type))
            }
        }
    }

    /// What stands in the parentheses of `processing-instruction`.
    fn target(&mut self) -> Result<StepTest, Stop>
        ensures { MatchResult result (TargetRead (rest_of self.old) (rest_of self.new))
            (TestFails (type_inner node_type.Pi) (rest_of self.old) (rest_of self.new)) }
    {
        let Some(first) = self.token() else {
            return Err(Stop::Unexpected);
        };
        match first {
            Token::CloseParen => {
                self.advance();
                Ok(StepTest::Pi)
            }
            Token::Literal(word) => {
                let word = self.take_word(word)?;
                let target = self.take_behind(Mark::CloseParen, word)?;
                Ok(StepTest::PiNamed { target })
            }
            _ => Err(Stop::Unexpected),
        }
    }

    /// The predicates at the place.
    #[cycle(parser)]
    pub(crate) fn predicates(&mut self, depth: usize) -> Result<Vec<Expr>, Stop>
        requires { depth ≤ MAX_NESTING }
        ensures { MatchResult result (λ found. PredicatesRead MAX_NESTING depth (rest_of self.old) (rest_of self.new) found.items)
            (Fails MAX_NESTING (after full) depth (rest_of self.old) (rest_of self.new)) }
    {
        let mut found = Vec::new(self.alloc);
        while self.is_at(Mark::OpenBracket) {
            let predicate = self.enclosed(Mark::CloseBracket, depth)?;
            found.push(predicate)?;
        }
        Ok(found)
    }
}
