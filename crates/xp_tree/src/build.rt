//! The parts of expressions, made from what they hold.

ghost use Rattle.std.specs.Prelude.{◌≡◌, ℕ, List};
ghost use Rattle.xp_tree.specs.View.{tree_of, chain_of, step_of, steps_seen, operand_of, operands_seen, trees_seen};
ghost use Rattle.xp_tree.specs.Tree.{Operands, Steps, chain, operand, step, negated, path, filtered, variable, literal, number, call, root, here, from};
ghost use Rattle.xp_tree.specs.declared.terms.Level.{Level};

use crate::expr::{Chain, Expr, Operand, Start, Step};
use crate::terms::{AxisName, Level, Operator, StepTest};
use sch_base::Text;

impl Chain {
    /// A chain of a first operand and others, at least one.
    pub fn new(offset: u32, first: Box<Expr>, rest: Vec<Operand>) -> Chain
        ensures { (level : Level) → chain_of result level ≡ chain level offset (tree_of first.value) (operands_seen rest.items) }
    {
        Chain {
            offset,
            first,
            rest,
        }
    }

    /// The chain as an expression of the level.
    pub fn at_level(self, level: Level) -> Expr
        ensures { tree_of result ≡ chain_of self level }
    {
        match level {
            Level::Or => Expr::Or(self),
            Level::And => Expr::And(self),
            Level::Equal => Expr::Equal(self),
            Level::Rel => Expr::Rel(self),
            Level::Sum => Expr::Sum(self),
            Level::Prod => Expr::Prod(self),
            Level::Union => Expr::Union(self),
        }
    }
}

impl Operand {
    /// A later operand with its operator and that one's offset.
    pub fn new(operator: Operator, offset: u32, expr: Expr) -> Operand
        ensures { (rest : Operands) → operand_of result rest ≡ operand operator offset (tree_of expr) rest }
    {
        Operand {
            operator,
            offset,
            expr,
        }
    }
}

impl Step {
    /// A step with its offset and that of its node test.
    pub fn new(
        offset: u32,
        axis: AxisName,
        test: StepTest,
        test_offset: u32,
        predicates: Vec<Expr>,
    ) -> Step
        ensures { (rest : Steps) → step_of result rest ≡ step offset axis test test_offset (trees_seen predicates.items) rest }
    {
        Step {
            offset,
            axis,
            test,
            test_offset,
            predicates,
        }
    }
}

impl Expr {
    /// An operand under minus signs.
    pub fn negated(offset: u32, count: u32, operand: Box<Expr>) -> Expr
        ensures { tree_of result ≡ negated offset count (tree_of operand.value) }
    {
        Expr::Neg {
            offset,
            count,
            operand,
        }
    }

    /// A path from the root.
    pub fn from_root(offset: u32, steps: Vec<Step>) -> Expr
        ensures { tree_of result ≡ path offset root (steps_seen steps.items) }
    {
        Expr::Path {
            offset,
            start: Start::Root,
            steps,
        }
    }

    /// A path from the context node.
    pub fn from_here(offset: u32, steps: Vec<Step>) -> Expr
        ensures { tree_of result ≡ path offset here (steps_seen steps.items) }
    {
        Expr::Path {
            offset,
            start: Start::Here,
            steps,
        }
    }

    /// A path from the nodes of an expression.
    pub fn from_nodes(offset: u32, base: Box<Expr>, steps: Vec<Step>) -> Expr
        ensures { tree_of result ≡ path offset (from (tree_of base.value)) (steps_seen steps.items) }
    {
        Expr::Path {
            offset,
            start: Start::From(base),
            steps,
        }
    }

    /// An expression with predicates.
    pub fn filtered(offset: u32, base: Box<Expr>, predicates: Vec<Expr>) -> Expr
        ensures { tree_of result ≡ filtered offset (tree_of base.value) (trees_seen predicates.items) }
    {
        Expr::Filter {
            offset,
            base,
            predicates,
        }
    }

    /// A variable by its name.
    pub fn variable(offset: u32, name: Text) -> Expr
        ensures { tree_of result ≡ variable offset name }
    {
        Expr::Variable { offset, name }
    }

    /// A literal.
    pub fn literal(offset: u32, value: Text) -> Expr
        ensures { tree_of result ≡ literal offset value }
    {
        Expr::Literal { offset, value }
    }

    /// A number as it is spelled.
    pub fn number(offset: u32, digits: Text) -> Expr
        ensures { tree_of result ≡ number offset digits }
    {
        Expr::Number { offset, digits }
    }

    /// A call of a function.
    pub fn call(offset: u32, name: Text, args: Vec<Expr>) -> Expr
        ensures { tree_of result ≡ call offset name (trees_seen args.items) }
    {
        Expr::Call { offset, name, args }
    }
}
