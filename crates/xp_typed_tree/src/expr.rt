//! Typed expressions.

use crate::function::Function;
use crate::value_type::ValueType;
use doc_tree::{Axis, NodeTest};
use sch_base::Text;
use xp_tree::{ArithOp, Comparison};

/// An expression (XPath 1.0, section 3) whose names are resolved.
///
/// It has the parts of the expression as it was written, without their places in the text.
#[cycle(ast)]
#[derive(Drop)]
pub enum TypedExpr {
    /// Operands joined by `or`.
    Or(Vec<TypedExpr>),
    /// Operands joined by `and`.
    And(Vec<TypedExpr>),
    /// Operands of one level joined by comparisons.
    Compare {
        first: Box<TypedExpr>,
        rest: Vec<Compared>,
    },
    /// Operands of one level joined by operators on numbers.
    Arith {
        first: Box<TypedExpr>,
        rest: Vec<Combined>,
    },
    /// A row of minus signs before an operand.
    Negate {
        count: u32,
        operand: Box<TypedExpr>,
    },
    /// Node-sets joined by `|`.
    Union(Vec<TypedExpr>),
    /// A location path (XPath 1.0, section 2), or steps that go on from an expression's nodes.
    Path {
        start: TypedStart,
        steps: Vec<TypedStep>,
    },
    /// A node-set with predicates (XPath 1.0, section 3.3).
    Filter {
        base: Box<TypedExpr>,
        predicates: Vec<TypedExpr>,
    },
    /// The variable of a slot, which holds values of one type.
    Variable {
        slot: u32,
        ty: ValueType,
    },
    Literal {
        value: Text,
    },
    /// A whole number, at most `xp_tree::MAX_WHOLE`.
    Number {
        value: i64,
    },
    Call {
        function: Function,
        args: Vec<TypedExpr>,
    },
}

/// A later operand of comparisons, with the comparison before it.
#[cycle(ast)]
#[derive(Drop)]
pub struct Compared {
    pub operator: Comparison,
    pub expr: TypedExpr,
}

/// A later operand of operators on numbers, with the operator before it.
#[cycle(ast)]
#[derive(Drop)]
pub struct Combined {
    pub operator: ArithOp,
    pub expr: TypedExpr,
}

/// Where a path begins.
#[cycle(ast)]
#[derive(Drop)]
pub enum TypedStart {
    Root,
    /// At the context node.
    Here,
    /// At the nodes of an expression.
    From(Box<TypedExpr>),
}

/// A step of a path or of a pattern (XPath 1.0, section 2.1).
#[cycle(ast)]
#[derive(Drop)]
pub struct TypedStep {
    pub axis: Axis,
    pub test: NodeTest,
    pub predicates: Vec<TypedExpr>,
}
