//! Printing an expression, part by part.
//!
//! Each part adds its text at the end, so that the time is linear in the text.

ghost use Rattle.std.specs.Prelude.{◌≡◌, ◌++◌, false, true, IfOk, OnOk, string_bytes};
ghost use Rattle.xp_tree.specs.View.{tree_of, start_of, trees_seen, operands_seen, steps_seen};
ghost use Rattle.xp_tree.specs.declared.expr.Chain.{out-Chain};
ghost use Rattle.xp_print.specs.Adding.{Added};
ghost use Rattle.xp_print.specs.Printed.{binding, operand_text, enclosed, printed, printed_rest, printed_start, printed_steps, printed_predicates, printed_args, printed_chain};

use crate::terms::{
    add, add_quoted, add_signs, add_test, add_unless, binding, binding_of, is_bare_path, is_base,
    is_name_like_next, is_path_base, operator_text,
};
use sch_base::Text;
use std::alloc::{AllocError, Global};
use xp_tree::{Chain, Expr, Level, Start, Step};

/// The text of an expression: axes in full, one space on each side of the operators between operands, parentheses
/// where the expression wouldn't be read back without them.
pub fn print_expr(alloc: Global, expr: &Expr) -> Result<Text, AllocError>
    ensures { IfOk result (λ text. text ≡ printed false (tree_of expr.now)) }
{
    let mut out = String::new(alloc);
    add_expr(&mut out, expr, false)?;
    Ok(Text::from(out))
}

/// Adds an expression; `behind` says whether an operator stands after it that would be read as a name test after `/`.
#[cycle(print)]
fn add_expr(out: &mut String, expr: &Expr, behind: bool) -> Result<(), AllocError>
    ensures { OnOk result (Added (string_bytes out.old) (printed behind (tree_of expr.now)) (string_bytes out.new)) }
{
    match expr {
        Expr::Or(chain) => add_chain(out, chain, Level::Or, behind),
        Expr::And(chain) => add_chain(out, chain, Level::And, behind),
        Expr::Equal(chain) => add_chain(out, chain, Level::Equal, behind),
        Expr::Rel(chain) => add_chain(out, chain, Level::Rel, behind),
        Expr::Sum(chain) => add_chain(out, chain, Level::Sum, behind),
        Expr::Prod(chain) => add_chain(out, chain, Level::Prod, behind),
        Expr::Union(chain) => add_chain(out, chain, Level::Union, behind),
        Expr::Neg { count, operand, .. } => {
            add_signs(out, *count)?;
            add_operand(out, operand, 6, behind)
        }
        Expr::Path { start, steps, .. } => {
            let bare = is_bare_path(start, steps, behind);
            add_unless(out, bare, "(")?;
            add_start(out, start)?;
            add_steps(out, steps)?;
            add_unless(out, bare, ")")
        }
        Expr::Filter {
            base,
            predicates,
            ..
        } => {
            add_base(out, base, is_base(base))?;
            add_predicates(out, predicates)
        }
        Expr::Variable { name, .. } => {
            add(out, "$")?;
            add(out, name.as_str())
        }
        Expr::Literal { value, .. } => add_quoted(out, value.as_str()),
        Expr::Number { digits, .. } => add(out, digits.as_str()),
        Expr::Call { name, args, .. } => {
            add(out, name.as_str())?;
            add(out, "(")?;
            add_args(out, args)?;
            add(out, ")")
        }
    }
}

/// Adds an operand, in parentheses where its operators bind no tighter than those round it.
#[cycle(print)]
fn add_operand(out: &mut String, expr: &Expr, around: u32, behind: bool) -> Result<(), AllocError>
    ensures { OnOk result (Added (string_bytes out.old) (operand_text around (tree_of expr.now) (printed false (tree_of expr.now)) (printed behind (tree_of expr.now))) (string_bytes out.new)) }
{
    if binding_of(expr) <= around {
        add_base(out, expr, false)
    } else {
        add_expr(out, expr, behind)
    }
}

/// Adds an expression as it is or in parentheses.
#[cycle(print)]
fn add_base(out: &mut String, expr: &Expr, bare: bool) -> Result<(), AllocError>
    ensures { OnOk result (Added (string_bytes out.old) (enclosed bare (printed false (tree_of expr.now))) (string_bytes out.new)) }
{
    if bare {
        return add_expr(out, expr, false);
    }
    add(out, "(")?;
    add_expr(out, expr, false)?;
    add(out, ")")
}

/// Adds the operands of a chain with the operators between them.
#[cycle(print)]
fn add_chain(out: &mut String, chain: &Chain, level: Level, behind: bool) -> Result<(), AllocError>
    ensures { OnOk result (Added (string_bytes out.old) (printed_chain (binding level) behind (tree_of (out-Chain chain.now).first.value) (operands_seen (out-Chain chain.now).rest.items)) (string_bytes out.new)) }
{
    let around = binding(level);
    let rest = &chain.rest;
    add_operand(
        out,
        &chain.first,
        around,
        is_name_like_next(rest, 0, behind),
    )?;
    let mut next = 0;
    for operand in rest {
        next += 1;
        add(out, operator_text(operand.operator))?;
        add_operand(
            out,
            &operand.expr,
            around,
            is_name_like_next(rest, next, behind),
        )?;
    }
    Ok(())
}

/// Adds where a path begins.
#[cycle(print)]
fn add_start(out: &mut String, start: &Start) -> Result<(), AllocError>
    ensures { OnOk result (Added (string_bytes out.old) (printed_start (start_of start.now)) (string_bytes out.new)) }
{
    match start {
        Start::Root => add(out, "/"),
        Start::Here => Ok(()),
        Start::From(base) => {
            add_base(out, base, is_path_base(base))?;
            add(out, "/")
        }
    }
}

/// Adds steps joined by `/`.
#[cycle(print)]
fn add_steps(out: &mut String, steps: &[Step]) -> Result<(), AllocError>
    ensures { OnOk result (Added (string_bytes out.old) (printed_steps true (steps_seen steps.now)) (string_bytes out.new)) }
{
    let mut first = true;
    for step in steps {
        add_unless(out, first, "/")?;
        add(out, step.axis.as_str())?;
        add(out, "::")?;
        add_test(out, &step.test)?;
        add_predicates(out, &step.predicates)?;
        first = false;
    }
    Ok(())
}

/// Adds predicates, each in brackets.
#[cycle(print)]
fn add_predicates(out: &mut String, predicates: &[Expr]) -> Result<(), AllocError>
    ensures { OnOk result (Added (string_bytes out.old) (printed_predicates (trees_seen predicates.now)) (string_bytes out.new)) }
{
    for predicate in predicates {
        add(out, "[")?;
        add_expr(out, predicate, false)?;
        add(out, "]")?;
    }
    Ok(())
}

/// Adds arguments joined by commas.
#[cycle(print)]
fn add_args(out: &mut String, args: &[Expr]) -> Result<(), AllocError>
    ensures { OnOk result (Added (string_bytes out.old) (printed_args true (trees_seen args.now)) (string_bytes out.new)) }
{
    let mut first = true;
    for arg in args {
        add_unless(out, first, ", ")?;
        add_expr(out, arg, false)?;
        first = false;
    }
    Ok(())
}
