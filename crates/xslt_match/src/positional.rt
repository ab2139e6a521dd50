//! Predicates that ask for the position of a node (XPath 1.0, section 2.4; XSLT 1.0, section 5.2).

ghost use Rattle.std.specs.Prelude.{◌≡◌};
ghost use Rattle.xp_typed_tree.specs.TypedView.{combined_list_seen, compared_list_seen, place_of, typed_seen, typed_tree_of};
ghost use Rattle.xslt_match.specs.Positional.{asks_position, combinands_ask, comparands_ask, place_asks, some_asks};
ghost use Rattle.xslt_match.specs.Positional.{is_positional, some_positional, tells_position};

use xp_typed_tree::{Combined, Compared, Function, TypedExpr, TypedStart, ValueType};

/// Whether some predicate is positional. Costs the predicates' size at most.
pub(crate) fn some_positional(predicates: &[TypedExpr]) -> bool
    ensures { result ≡ some_positional (typed_seen predicates.now) }
{
    for predicate in predicates {
        if is_positional(predicate) {
            return true;
        }
    }
    false
}

/// Whether a predicate's value is a number, which is compared with the position, or it asks for the position.
fn is_positional(predicate: &TypedExpr) -> bool
    ensures { result ≡ is_positional (typed_tree_of predicate.now) }
{
    match predicate.ty() {
        ValueType::Number => true,
        _ => asks_position(predicate),
    }
}

/// Whether a function tells the position or the size of the context.
fn tells_position(function: Function) -> bool
    ensures { result ≡ tells_position function }
{
    matches!(function, Function::Last | Function::Position)
}

/// Whether an expression calls `last()` or `position()`, the predicates of its parts left out.
#[cycle(asking)]
fn asks_position(expr: &TypedExpr) -> bool
    ensures { result ≡ asks_position (typed_tree_of expr.now) }
{
    match expr {
        TypedExpr::Or(operands) => some_asks(operands),
        TypedExpr::And(operands) => some_asks(operands),
        TypedExpr::Compare { first, rest } => asks_position(first) || comparands_ask(rest),
        TypedExpr::Arith { first, rest } => asks_position(first) || combinands_ask(rest),
        TypedExpr::Negate { operand, .. } => asks_position(operand),
        TypedExpr::Union(operands) => some_asks(operands),
        TypedExpr::Path { start, .. } => place_asks(start),
        TypedExpr::Filter { base, .. } => asks_position(base),
        TypedExpr::Variable { .. } => false,
        TypedExpr::Literal { .. } => false,
        TypedExpr::Number { .. } => false,
        TypedExpr::Call { function, args } => tells_position(*function) || some_asks(args),
    }
}

/// Whether some expression asks for the position.
#[cycle(asking)]
fn some_asks(exprs: &[TypedExpr]) -> bool
    ensures { result ≡ some_asks (typed_seen exprs.now) }
{
    for expr in exprs {
        if asks_position(expr) {
            return true;
        }
    }
    false
}

/// Whether some later operand of comparisons asks for the position.
#[cycle(asking)]
fn comparands_ask(rest: &[Compared]) -> bool
    ensures { result ≡ comparands_ask (compared_list_seen rest.now) }
{
    for operand in rest {
        if asks_position(&operand.expr) {
            return true;
        }
    }
    false
}

/// Whether some later operand on numbers asks for the position.
#[cycle(asking)]
fn combinands_ask(rest: &[Combined]) -> bool
    ensures { result ≡ combinands_ask (combined_list_seen rest.now) }
{
    for operand in rest {
        if asks_position(&operand.expr) {
            return true;
        }
    }
    false
}

/// Whether the expression at whose nodes a path begins asks for the position.
#[cycle(asking)]
fn place_asks(start: &TypedStart) -> bool
    ensures { result ≡ place_asks (place_of start.now) }
{
    match start {
        TypedStart::Root => false,
        TypedStart::Here => false,
        TypedStart::From(base) => asks_position(base),
    }
}
