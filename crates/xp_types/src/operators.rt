//! The operators of chains, each with a meaning at its own level alone.

ghost use Rattle.std.specs.Prelude.{◌≡◌};
ghost use Rattle.xp_types.specs.Terms.{comparison_of, arithmetic_of, joins, joins_nodes, spelling};
ghost use Rattle.xp_types.specs.declared.faults.TypeKind.TheVariants as kinds;
ghost use Rattle.xp_types.specs.inner.Checked.{ChecksAs, Tells};
ghost use Rattle.xp_types.specs.inner.Typing.{or_refused};

use crate::faults::CheckError;
use crate::terms::refusal;
use std::alloc::Global;
use xp_tree::{ArithOp, Comparison, Level, Operator};

/// The comparison that an operator is at a level.
fn comparison_of(level: Level, operator: Operator) -> Option<Comparison>
    ensures { result ≡ comparison_of level operator }
{
    match (level, operator) {
        (Level::Equal, Operator::Equal) => Some(Comparison::Eq),
        (Level::Equal, Operator::NotEqual) => Some(Comparison::Ne),
        (Level::Rel, Operator::Less) => Some(Comparison::Lt),
        (Level::Rel, Operator::AtMost) => Some(Comparison::Le),
        (Level::Rel, Operator::Greater) => Some(Comparison::Gt),
        (Level::Rel, Operator::AtLeast) => Some(Comparison::Ge),
        _ => None,
    }
}

/// The operator on numbers at a level; `div` is none.
fn arithmetic_of(level: Level, operator: Operator) -> Option<ArithOp>
    ensures { result ≡ arithmetic_of level operator }
{
    match (level, operator) {
        (Level::Sum, Operator::Plus) => Some(ArithOp::Add),
        (Level::Sum, Operator::Minus) => Some(ArithOp::Sub),
        (Level::Prod, Operator::Times) => Some(ArithOp::Mul),
        (Level::Prod, Operator::Mod) => Some(ArithOp::Mod),
        _ => None,
    }
}

/// Whether an operator joins the operands of a level that keeps no operators.
pub(crate) fn joins(level: Level, operator: Operator) -> bool
    ensures { result ≡ joins level operator }
{
    match (level, operator) {
        (Level::Or, Operator::Or) => true,
        (Level::And, Operator::And) => true,
        (Level::Union, Operator::Union) => true,
        _ => false,
    }
}

/// Whether the operands of a level are node-sets.
pub(crate) fn joins_nodes(level: Level) -> bool
    ensures { result ≡ joins_nodes level }
{
    match level {
        Level::Union => true,
        _ => false,
    }
}

/// How an operator is written.
fn spelling(operator: Operator) -> &'static str
    ensures { result.now ≡ spelling operator }
{
    match operator {
        Operator::Or => "or",
        Operator::And => "and",
        Operator::Equal => "=",
        Operator::NotEqual => "!=",
        Operator::Less => "<",
        Operator::AtMost => "<=",
        Operator::Greater => ">",
        Operator::AtLeast => ">=",
        Operator::Plus => "+",
        Operator::Minus => "-",
        Operator::Times => "*",
        Operator::Div => "div",
        Operator::Mod => "mod",
        Operator::Union => "|",
    }
}

/// The refusal of an operator that has no meaning where it stands.
pub(crate) fn refused_operator(alloc: Global, operator: Operator, offset: u32) -> CheckError
    ensures { Tells (kinds.Refused (spelling operator)) offset result }
{
    refusal(alloc, spelling(operator), offset)
}

/// The comparison of an operator; an operator of another level is refused.
pub(crate) fn compared_by(
    alloc: Global,
    level: Level,
    operator: Operator,
    offset: u32,
) -> Result<Comparison, CheckError>
    ensures { ChecksAs (or_refused (comparison_of level operator) operator offset) (λ o. o) result }
{
    match comparison_of(level, operator) {
        Some(comparison) => Ok(comparison),
        None => Err(refused_operator(alloc, operator, offset)),
    }
}

/// The operator on numbers; `div` and an operator of another level are refused.
pub(crate) fn combined_by(
    alloc: Global,
    level: Level,
    operator: Operator,
    offset: u32,
) -> Result<ArithOp, CheckError>
    ensures { ChecksAs (or_refused (arithmetic_of level operator) operator offset) (λ o. o) result }
{
    match arithmetic_of(level, operator) {
        Some(operator) => Ok(operator),
        None => Err(refused_operator(alloc, operator, offset)),
    }
}
