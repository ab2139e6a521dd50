//! Expressions and match patterns of a schema, each at the element that has its text.

ghost use Rattle.std.specs.Prelude.{◌≡◌, ◌≤◌, true, false, length};
ghost use Rattle.xp_tree.specs.PatternTree.{pattern_of};
ghost use Rattle.xp_tree.specs.View.{tree_of};
ghost use Rattle.sch_plan.specs.Expressions.{expression, match_pattern, path, pattern_typed_in, short_expression, short_pattern, typed_in};
ghost use Rattle.sch_phases.specs.Walk.{Answers};

use crate::faults::{broken, refusal, syntax_fault, type_fault};
use doc_tree::NodeId;
use sch_base::MAX_EXPRESSION_BYTES;
use sch_model::SchemaError;
use std::alloc::Global;
use xp_parse::ParseError;
use xp_syntax::{parse_expr, parse_pattern};
use xp_tree::{Expr, Pattern};
use xp_typed_tree::{Typed, TypedPattern, ValueType};
use xp_types::{CheckError, Env, check, check_pattern};

/// The typed tree of an expression, or its first fault.
fn typed(alloc: Global, env: &Env, node: NodeId, expr: Expr) -> Result<Typed, SchemaError>
    requires { env.now.in_pattern ≡ false }
    ensures { Answers (typed_in env.now node (tree_of expr)) result }
{
    match check(alloc, expr, env) {
        Ok(typed) => Ok(typed),
        Err(CheckError::Fault(fault)) => {
            let fault = type_fault(alloc, node, &fault)?;
            Err(SchemaError::Fault(fault))
        }
        Err(CheckError::Memory) => Err(SchemaError::Memory),
    }
}

/// The typed tree of a pattern, or its first fault.
fn pattern_typed(
    alloc: Global,
    env: &Env,
    node: NodeId,
    pattern: Pattern,
) -> Result<TypedPattern, SchemaError>
    requires { env.now.in_pattern ≡ true }
    ensures { Answers (pattern_typed_in env.now node (pattern_of pattern)) result }
{
    match check_pattern(alloc, pattern, env) {
        Ok(typed) => Ok(typed),
        Err(CheckError::Fault(fault)) => {
            let fault = type_fault(alloc, node, &fault)?;
            Err(SchemaError::Fault(fault))
        }
        Err(CheckError::Memory) => Err(SchemaError::Memory),
    }
}

/// An expression that isn't too long.
fn short_expression(
    alloc: Global,
    env: &Env,
    node: NodeId,
    text: &str,
) -> Result<Typed, SchemaError>
    requires short { length text.now ≤ MAX_EXPRESSION_BYTES }
    requires expression { env.now.in_pattern ≡ false }
    ensures { Answers (short_expression env.now node text.now) result }
{
    match parse_expr(alloc, text) {
        Ok(expr) => typed(alloc, env, node, expr),
        Err(ParseError::Fault(fault)) => {
            let fault = syntax_fault(alloc, node, fault)?;
            Err(SchemaError::Fault(fault))
        }
        Err(ParseError::Memory) => Err(SchemaError::Memory),
    }
}

/// A pattern that isn't too long.
fn short_pattern(
    alloc: Global,
    env: &Env,
    node: NodeId,
    text: &str,
) -> Result<TypedPattern, SchemaError>
    requires short { length text.now ≤ MAX_EXPRESSION_BYTES }
    requires pattern { env.now.in_pattern ≡ true }
    ensures { Answers (short_pattern env.now node text.now) result }
{
    match parse_pattern(alloc, text) {
        Ok(pattern) => pattern_typed(alloc, env, node, pattern),
        Err(ParseError::Fault(fault)) => {
            let fault = syntax_fault(alloc, node, fault)?;
            Err(SchemaError::Fault(fault))
        }
        Err(ParseError::Memory) => Err(SchemaError::Memory),
    }
}

/// The expression of a text, or the first of the rules 23 to 31 that it breaks.
///
/// Costs time linear in the text's length.
pub(crate) fn expression(
    alloc: Global,
    env: &Env,
    node: NodeId,
    text: &str,
) -> Result<Typed, SchemaError>
    requires { env.now.in_pattern ≡ false }
    ensures { Answers (expression env.now node text.now) result }
{
    if text.len() > MAX_EXPRESSION_BYTES {
        let fault = broken(alloc, 23, node, "65536")?;
        return Err(SchemaError::Fault(fault));
    }
    short_expression(alloc, env, node, text)
}

/// The pattern of a text, or the first of the rules 23 to 31 that it breaks.
///
/// Costs time linear in the text's length.
pub(crate) fn match_pattern(
    alloc: Global,
    env: &Env,
    node: NodeId,
    text: &str,
) -> Result<TypedPattern, SchemaError>
    requires { env.now.in_pattern ≡ true }
    ensures { Answers (match_pattern env.now node text.now) result }
{
    if text.len() > MAX_EXPRESSION_BYTES {
        let fault = broken(alloc, 23, node, "65536")?;
        return Err(SchemaError::Fault(fault));
    }
    short_pattern(alloc, env, node, text)
}

/// The path of a name, or a subject: an expression whose value is a node-set.
pub(crate) fn path(alloc: Global, env: &Env, node: NodeId, text: &str) -> Result<Typed, SchemaError>
    requires { env.now.in_pattern ≡ false }
    ensures { Answers (path env.now node text.now) result }
{
    let expr = expression(alloc, env, node, text)?;
    if expr.ty() == ValueType::NodeSet {
        return Ok(expr);
    }
    drop(expr);
    Err(refusal(alloc, 27, node, "NodeSetWanted 0"))
}
