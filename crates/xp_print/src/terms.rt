//! The texts of parts that hold no expression.

ghost use Rattle.std.specs.Prelude.{◌≡◌, ◌++◌, OnOk, string_bytes, replicate, drop};
ghost use Rattle.xp_tree.specs.View.{tree_of, start_of, operands_seen, steps_seen};
ghost use Rattle.xp_print.specs.Adding.{Added};
ghost use Rattle.xp_print.specs.Printed.{binding, binding_of, is_base, is_path_base, is_bare_path, operator_text, is_name_like, name_like_next, unless, quote_of, quoted, test_text};
ghost use Rattle.xp_tree.specs.declared.terms.StepTest.TheVariants as tests;

use sch_base::Text;
use std::alloc::AllocError;
use xp_tree::{Expr, Level, Operand, Operator, Start, Step, StepTest};

/// Adds a text at the end.
pub(crate) fn add(out: &mut String, text: &str) -> Result<(), AllocError>
    ensures { OnOk result (Added (string_bytes out.old) (text.now) (string_bytes out.new)) }
{
    out.push_str(text)
}

/// Adds a text but for one case.
pub(crate) fn add_unless(out: &mut String, case: bool, text: &str) -> Result<(), AllocError>
    ensures { OnOk result (Added (string_bytes out.old) (unless case text.now) (string_bytes out.new)) }
{
    if case {
        return Ok(());
    }
    add(out, text)
}

/// How tightly the operators of a level bind.
pub(crate) fn binding(level: Level) -> u32
    ensures { result ≡ binding level }
{
    match level {
        Level::Or => 0,
        Level::And => 1,
        Level::Equal => 2,
        Level::Rel => 3,
        Level::Sum => 4,
        Level::Prod => 5,
        Level::Union => 7,
    }
}

/// How tightly the outermost operators of an expression bind.
pub(crate) fn binding_of(expr: &Expr) -> u32
    ensures { result ≡ binding_of (tree_of expr.now) }
{
    match expr {
        Expr::Or(_) => binding(Level::Or),
        Expr::And(_) => binding(Level::And),
        Expr::Equal(_) => binding(Level::Equal),
        Expr::Rel(_) => binding(Level::Rel),
        Expr::Sum(_) => binding(Level::Sum),
        Expr::Prod(_) => binding(Level::Prod),
        Expr::Union(_) => binding(Level::Union),
        Expr::Neg { .. } => 6,
        Expr::Path { .. } => 8,
        Expr::Filter { .. } => 8,
        Expr::Variable { .. } => 8,
        Expr::Literal { .. } => 8,
        Expr::Number { .. } => 8,
        Expr::Call { .. } => 8,
    }
}

/// Whether an expression stands bare as the base of predicates.
pub(crate) fn is_base(expr: &Expr) -> bool
    ensures { result ≡ is_base (tree_of expr.now) }
{
    match expr {
        Expr::Or(_) => false,
        Expr::And(_) => false,
        Expr::Equal(_) => false,
        Expr::Rel(_) => false,
        Expr::Sum(_) => false,
        Expr::Prod(_) => false,
        Expr::Union(_) => false,
        Expr::Neg { .. } => false,
        Expr::Path { .. } => false,
        Expr::Filter { .. } => false,
        Expr::Variable { .. } => true,
        Expr::Literal { .. } => true,
        Expr::Number { .. } => true,
        Expr::Call { .. } => true,
    }
}

/// Whether an expression stands bare as the base of a path.
pub(crate) fn is_path_base(expr: &Expr) -> bool
    ensures { result ≡ is_path_base (tree_of expr.now) }
{
    match expr {
        Expr::Or(_) => false,
        Expr::And(_) => false,
        Expr::Equal(_) => false,
        Expr::Rel(_) => false,
        Expr::Sum(_) => false,
        Expr::Prod(_) => false,
        Expr::Union(_) => false,
        Expr::Neg { .. } => false,
        Expr::Path { .. } => false,
        Expr::Filter { .. } => true,
        Expr::Variable { .. } => true,
        Expr::Literal { .. } => true,
        Expr::Number { .. } => true,
        Expr::Call { .. } => true,
    }
}

/// The text of an operator, with a space on each side.
pub(crate) fn operator_text(operator: Operator) -> &'static str
    ensures { result.now ≡ operator_text operator }
{
    match operator {
        Operator::Or => " or ",
        Operator::And => " and ",
        Operator::Equal => " = ",
        Operator::NotEqual => " != ",
        Operator::Less => " < ",
        Operator::AtMost => " <= ",
        Operator::Greater => " > ",
        Operator::AtLeast => " >= ",
        Operator::Plus => " + ",
        Operator::Minus => " - ",
        Operator::Times => " * ",
        Operator::Div => " div ",
        Operator::Mod => " mod ",
        Operator::Union => " | ",
    }
}

/// Whether an operator would be read as a name test after a `/`.
pub(crate) fn is_name_like(operator: Operator) -> bool
    ensures { result ≡ is_name_like operator }
{
    matches!(
        operator,
        Operator::Or | Operator::And | Operator::Times | Operator::Div | Operator::Mod
    )
}

/// Whether a name-like operator stands before the operand at a place, or after the chain where there is none.
pub(crate) fn is_name_like_next(rest: &[Operand], at: usize, behind: bool) -> bool
    ensures { result ≡ name_like_next behind (operands_seen (drop at rest.now)) }
{
    match rest.get(at) {
        Some(operand) => is_name_like(operand.operator),
        None => behind,
    }
}

/// Whether a path stands without parentheses.
pub(crate) fn is_bare_path(start: &Start, steps: &[Step], behind: bool) -> bool
    ensures { result ≡ is_bare_path behind (start_of start.now) (steps_seen steps.now) }
{
    match start {
        Start::Root => !behind || !steps.is_empty(),
        Start::Here => true,
        Start::From(_) => true,
    }
}

/// Adds minus signs.
pub(crate) fn add_signs(out: &mut String, count: u32) -> Result<(), AllocError>
    ensures { OnOk result (Added (string_bytes out.old) (replicate count 45) (string_bytes out.new)) }
{
    for _sign in 0..count {
        add(out, "-")?;
    }
    Ok(())
}

/// Adds a text in quotes.
pub(crate) fn add_quoted(out: &mut String, value: &str) -> Result<(), AllocError>
    ensures { OnOk result (Added (string_bytes out.old) (quoted value.now) (string_bytes out.new)) }
{
    let quote = quote_of(value);
    add(out, quote)?;
    add(out, value)?;
    add(out, quote)
}

/// The quotes that a text doesn't hold.
fn quote_of(value: &str) -> &'static str
    ensures { result.now ≡ quote_of value.now }
{
    if value.as_bytes().contains(&b'\'') {
        "\""
    } else {
        "'"
    }
}

/// Adds a node test.
pub(crate) fn add_test(out: &mut String, test: &StepTest) -> Result<(), AllocError>
    ensures { OnOk result (Added (string_bytes out.old) (test_text test.now) (string_bytes out.new)) }
{
    match test {
        StepTest::Star => add(out, "*"),
        StepTest::InPrefix { prefix } => {
            add(out, prefix.as_str())?;
            add(out, ":*")
        }
        StepTest::Named { prefix, local } => add_name(out, prefix, local),
        StepTest::Node => add(out, "node()"),
        StepTest::Chars => add(out, "text()"),
        StepTest::Comment => add(out, "comment()"),
        StepTest::Pi => add(out, "processing-instruction()"),
        StepTest::PiNamed { target } => add_pi_test(out, target),
    }
}

/// Adds a test for processing instructions with this target.
fn add_pi_test(out: &mut String, target: &Text) -> Result<(), AllocError>
    ensures { OnOk result (Added (string_bytes out.old) (test_text (tests.PiNamed target.now)) (string_bytes out.new)) }
{
    add(out, "processing-instruction(")?;
    add_quoted(out, target.as_str())?;
    add(out, ")")
}

/// Adds a name, with its prefix where it has one.
fn add_name(out: &mut String, prefix: &Option<Text>, local: &Text) -> Result<(), AllocError>
    ensures { OnOk result (Added (string_bytes out.old) (test_text (tests.Named prefix.now local.now)) (string_bytes out.new)) }
{
    if let Some(prefix) = prefix {
        add(out, prefix.as_str())?;
        add(out, ":")?;
    }
    add(out, local.as_str())
}
