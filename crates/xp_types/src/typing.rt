//! The types of expressions, part by part.
//!
//! Costs time linear in the expression's size.

ghost use Rattle.std.specs.Prelude.{◌≡◌};
ghost use Rattle.xp_tree.specs.View.{tree_of, start_of, trees_seen, steps_seen};
ghost use Rattle.xp_tree.specs.Tree.{offset_of};
ghost use Rattle.xp_typed_tree.specs.TypedView.{typed_tree_of, place_of, typed_seen, compared_list_seen, typed_steps_seen};
ghost use Rattle.xp_types.specs.inner.ChainParts.{first_in, rest_in, operator_in, place_in, expr_in};
ghost use Rattle.xp_types.specs.inner.Checked.{ChecksAs, after};
ghost use Rattle.xp_types.specs.Terms.{compared_with};
ghost use Rattle.xp_types.specs.inner.Typing.{typing, wanted, all_typed, chain_typed, joined_typed, comparison_typed, arithmetic_typed, place_typed, steps_typed};

use crate::env::Env;
use crate::faults::CheckError;
use crate::operators::{combined_by, compared_by, joins, joins_nodes, refused_operator};
use crate::terms::{as_wanted, axis_of, called, offset_of, resolve, type_number, type_variable};
use sch_base::Text;
use std::alloc::Global;
use xp_tree::{Chain, Expr, Level, Operand, Start, Step};
use xp_typed_tree::{Combined, Compared, TypedExpr, TypedStart, TypedStep};

/// The typed tree of an expression.
#[cycle(typing)]
pub(crate) fn type_expr(alloc: Global, expr: &Expr, env: &Env) -> Result<TypedExpr, CheckError>
    ensures { ChecksAs (typing env.now (tree_of expr.now)) typed_tree_of result }
{
    match expr {
        Expr::Or(chain) => Ok(TypedExpr::or(type_chain(alloc, chain, env, Level::Or)?)),
        Expr::And(chain) => Ok(TypedExpr::and(type_chain(alloc, chain, env, Level::And)?)),
        Expr::Equal(chain) => type_comparison(alloc, chain, env, Level::Equal),
        Expr::Rel(chain) => type_comparison(alloc, chain, env, Level::Rel),
        Expr::Sum(chain) => type_arithmetic(alloc, chain, env, Level::Sum),
        Expr::Prod(chain) => type_arithmetic(alloc, chain, env, Level::Prod),
        Expr::Union(chain) => Ok(TypedExpr::union(type_chain(alloc, chain, env, Level::Union)?)),
        Expr::Neg { count, operand, .. } => {
            let operand = type_boxed(alloc, operand, env, false)?;
            Ok(TypedExpr::negate(*count, operand))
        }
        Expr::Path { start, steps, .. } => {
            let place = type_start(alloc, start, env)?;
            Ok(TypedExpr::path(place, type_steps(alloc, steps, env)?))
        }
        Expr::Filter {
            base,
            predicates,
            ..
        } => {
            let base = type_boxed(alloc, base, env, true)?;
            let predicates = type_list(alloc, predicates, env, false)?;
            Ok(TypedExpr::filter(base, predicates))
        }
        Expr::Variable { offset, name } => type_variable(name, *offset, env),
        Expr::Literal { value, .. } => Ok(TypedExpr::literal(Text::copy(alloc, value.as_str())?)),
        Expr::Number { offset, digits } => type_number(alloc, digits, *offset),
        Expr::Call { offset, name, args } => {
            let function = called(alloc, name, *offset, args.len(), env)?;
            let args = type_list(alloc, args, env, function.wants_nodes())?;
            Ok(TypedExpr::call(function, args))
        }
    }
}

/// An operand, a node-set where one is wanted.
#[cycle(typing)]
fn type_operand(alloc: Global, expr: &Expr, env: &Env, nodes: bool) -> Result<TypedExpr, CheckError>
    ensures { ChecksAs (after (typing env.now (tree_of expr.now)) (wanted nodes (offset_of (tree_of expr.now)))) typed_tree_of result }
{
    let typed = type_expr(alloc, expr, env)?;
    as_wanted(typed, offset_of(expr), nodes)
}

/// An operand as a box holds it, a node-set where one is wanted.
#[cycle(typing)]
fn type_boxed(
    alloc: Global,
    expr: &Expr,
    env: &Env,
    nodes: bool,
) -> Result<Box<TypedExpr>, CheckError>
    ensures { ChecksAs (after (typing env.now (tree_of expr.now)) (wanted nodes (offset_of (tree_of expr.now)))) (λ b. typed_tree_of b.value) result }
{
    Ok(Box::new(alloc, type_operand(alloc, expr, env, nodes)?)?)
}

/// Expressions in a list, node-sets where these are wanted.
#[cycle(typing)]
pub(crate) fn type_list(
    alloc: Global,
    exprs: &[Expr],
    env: &Env,
    nodes: bool,
) -> Result<Vec<TypedExpr>, CheckError>
    ensures { ChecksAs (all_typed env.now nodes (trees_seen exprs.now)) (λ v. typed_seen v.items) result }
{
    let mut typed = Vec::new(alloc);
    for expr in exprs {
        typed.push(type_operand(alloc, expr, env, nodes)?)?;
    }
    Ok(typed)
}

/// The operands of a chain of a level that keeps no operators.
#[cycle(typing)]
fn type_chain(
    alloc: Global,
    chain: &Chain,
    env: &Env,
    level: Level,
) -> Result<Vec<TypedExpr>, CheckError>
    ensures { ChecksAs (chain_typed env.now level (first_in chain.now) (rest_in chain.now)) (λ v. typed_seen v.items) result }
{
    let mut typed = Vec::new(alloc);
    typed.push(type_operand(alloc, &chain.first, env, joins_nodes(level))?)?;
    for operand in &chain.rest {
        typed.push(type_joined(alloc, operand, env, level)?)?;
    }
    Ok(typed)
}

/// A later operand of a chain of a level that keeps no operators.
#[cycle(typing)]
fn type_joined(
    alloc: Global,
    operand: &Operand,
    env: &Env,
    level: Level,
) -> Result<TypedExpr, CheckError>
    ensures { ChecksAs (joined_typed env.now level (operator_in operand.now) (place_in operand.now) (expr_in operand.now)) typed_tree_of result }
{
    if joins(level, operand.operator) {
        type_operand(alloc, &operand.expr, env, joins_nodes(level))
    } else {
        Err(refused_operator(alloc, operand.operator, operand.offset))
    }
}

/// Comparisons of one level.
#[cycle(typing)]
fn type_comparison(
    alloc: Global,
    chain: &Chain,
    env: &Env,
    level: Level,
) -> Result<TypedExpr, CheckError>
    ensures { ChecksAs (comparison_typed env.now level (first_in chain.now) (rest_in chain.now)) typed_tree_of result }
{
    let first = type_boxed(alloc, &chain.first, env, false)?;
    let mut compared = Vec::new(alloc);
    for operand in &chain.rest {
        let operator = compared_by(alloc, level, operand.operator, operand.offset)?;
        let expr = type_expr(alloc, &operand.expr, env)?;
        compared.push(Compared::new(operator, expr))?;
    }
    Ok(compared_with(first, compared))
}

/// An operand that is compared with later ones. Where there are none it stands alone, as no text spells it.
fn compared_with(first: Box<TypedExpr>, rest: Vec<Compared>) -> TypedExpr
    ensures { typed_tree_of result ≡ compared_with (typed_tree_of first.value) (compared_list_seen rest.items) }
{
    if rest.is_empty() {
        return Box::into_inner(first);
    }
    TypedExpr::compare(first, rest)
}

/// Operators on numbers of one level.
#[cycle(typing)]
fn type_arithmetic(
    alloc: Global,
    chain: &Chain,
    env: &Env,
    level: Level,
) -> Result<TypedExpr, CheckError>
    ensures { ChecksAs (arithmetic_typed env.now level (first_in chain.now) (rest_in chain.now)) typed_tree_of result }
{
    let first = type_boxed(alloc, &chain.first, env, false)?;
    let mut combined = Vec::new(alloc);
    for operand in &chain.rest {
        let operator = combined_by(alloc, level, operand.operator, operand.offset)?;
        let expr = type_expr(alloc, &operand.expr, env)?;
        combined.push(Combined::new(operator, expr))?;
    }
    Ok(TypedExpr::arith(first, combined))
}

/// Where a path begins.
#[cycle(typing)]
fn type_start(alloc: Global, start: &Start, env: &Env) -> Result<TypedStart, CheckError>
    ensures { ChecksAs (place_typed env.now (start_of start.now)) place_of result }
{
    match start {
        Start::Root => Ok(TypedStart::at_root()),
        Start::Here => Ok(TypedStart::at_context()),
        Start::From(base) => {
            let base = type_boxed(alloc, base, env, true)?;
            Ok(TypedStart::from_nodes(base))
        }
    }
}

/// The steps of a path.
#[cycle(typing)]
fn type_steps(alloc: Global, steps: &[Step], env: &Env) -> Result<Vec<TypedStep>, CheckError>
    ensures { ChecksAs (steps_typed env.now (steps_seen steps.now)) (λ v. typed_steps_seen v.items) result }
{
    let mut typed = Vec::new(alloc);
    for step in steps {
        let axis = axis_of(alloc, step.axis, step.offset)?;
        let test = resolve(alloc, &step.test, step.test_offset, env)?;
        let predicates = type_list(alloc, &step.predicates, env, false)?;
        typed.push(TypedStep::new(axis, test, predicates))?;
    }
    Ok(typed)
}
