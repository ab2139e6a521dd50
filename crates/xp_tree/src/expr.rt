//! Expressions of XPath 1.0.

use crate::terms::{AxisName, Operator, StepTest};
use sch_base::Text;

/// An expression as it is written (XPath 1.0, section 3).
///
/// An offset counts the bytes of the text before the part's first token. A chain has two or more operands; a
/// parenthesis without predicates and without a path after it is what it holds.
#[cycle(ast)]
#[derive(Debug, Drop)]
pub enum Expr {
    Or(Chain),
    And(Chain),
    /// Joined by `=` and `!=`.
    Equal(Chain),
    /// Joined by `<`, `<=`, `>` and `>=`.
    Rel(Chain),
    /// Joined by `+` and `-`.
    Sum(Chain),
    /// Joined by `*`, `div` and `mod`.
    Prod(Chain),
    /// A row of minus signs, at least one, before an operand.
    Neg {
        offset: u32,
        count: u32,
        operand: Box<Expr>,
    },
    /// Joined by `|`.
    Union(Chain),
    /// A location path (XPath 1.0, section 2), or steps that go on from an expression's nodes.
    Path {
        offset: u32,
        start: Start,
        steps: Vec<Step>,
    },
    /// An expression with predicates, at least one (XPath 1.0, section 3.3).
    Filter {
        offset: u32,
        base: Box<Expr>,
        predicates: Vec<Expr>,
    },
    /// `$name`, without the dollar sign.
    Variable {
        offset: u32,
        name: Text,
    },
    /// A text between quotes, without these.
    Literal {
        offset: u32,
        value: Text,
    },
    /// A number as it is spelled.
    Number {
        offset: u32,
        digits: Text,
    },
    /// A call of a function, whose name may have a prefix.
    Call {
        offset: u32,
        name: Text,
        args: Vec<Expr>,
    },
}

/// Operands of one level, the first one and the others each with the operator before it.
#[cycle(ast)]
#[derive(Debug, Drop)]
pub struct Chain {
    pub offset: u32,
    pub first: Box<Expr>,
    pub rest: Vec<Operand>,
}

/// A later operand of a chain, with its operator and the operator's own offset.
#[cycle(ast)]
#[derive(Debug, Drop)]
pub struct Operand {
    pub operator: Operator,
    pub offset: u32,
    pub expr: Expr,
}

/// Where a path begins.
#[cycle(ast)]
#[derive(Debug, Drop)]
pub enum Start {
    /// At the root: the path begins with `/` or `//`.
    Root,
    /// At the context node.
    Here,
    /// At the nodes of an expression.
    From(Box<Expr>),
}

/// A step of a path (XPath 1.0, section 2.1).
///
/// The abbreviations are written out: `//` is a step `descendant-or-self::node()` with the offset of `//`, `.` is
/// `self::node()`, `..` is `parent::node()`, `@` is the axis attribute, and no axis is the axis child.
#[cycle(ast)]
#[derive(Debug, Drop)]
pub struct Step {
    /// Where the step begins: at its axis, where that is written.
    pub offset: u32,
    pub axis: AxisName,
    pub test: StepTest,
    /// Where the node test begins, and with it a name's prefix.
    pub test_offset: u32,
    pub predicates: Vec<Expr>,
}
