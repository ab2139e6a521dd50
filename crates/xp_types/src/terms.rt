//! The types of parts that hold no expression.

ghost use Rattle.std.specs.Prelude.{◌≡◌, ◌*◌, ◌+◌, ◌-◌, ◌≤◌, min};
ghost use Rattle.xp_tree.specs.Tree.{offset_of};
ghost use Rattle.xp_tree.specs.View.{tree_of};
ghost use Rattle.xp_tree.specs.Decimals.{decimal_value};
ghost use Rattle.xp_tree.specs.declared.numbers.TheConstants.{MAX_WHOLE};
ghost use Rattle.xp_typed_tree.specs.TypedView.{typed_tree_of};
ghost use Rattle.xp_types.specs.declared.faults.TypeKind.TheVariants as kinds;
ghost use Rattle.xp_types.specs.Scope.{namespace_of, variable_of};
ghost use Rattle.xp_types.specs.inner.Checked.{ChecksAs, Tells};
ghost use Rattle.xp_types.specs.inner.Typing.{number_typed, wanted, axis_of, known, resolved, variable_typed, called};
ghost use Rattle.xp_tree.specs.declared.terms.StepTest.TheVariants as written;

use crate::env::Env;
use crate::faults::{CheckError, TypeFault, TypeKind};
use crate::function_names::{function_named, is_left_out};
use sch_base::Text;
use std::alloc::Global;
use xp_tree::{AxisName, Expr, MAX_WHOLE, StepTest};
use xp_typed_tree::{Axis, Function, NodeTest, TypedExpr, ValueType};

/// A fault of a kind at a place.
pub(crate) fn fault_at(kind: TypeKind, offset: u32) -> CheckError
    ensures { Tells kind offset result }
{
    CheckError::Fault(TypeFault { kind, offset })
}

/// The refusal of a thing by its name.
pub(crate) fn refusal(alloc: Global, thing: &str, offset: u32) -> CheckError
    ensures { Tells (kinds.Refused thing.now) offset result }
{
    match Text::copy(alloc, thing) {
        Ok(thing) => fault_at(TypeKind::Refused { thing }, offset),
        Err(_) => CheckError::Memory,
    }
}

/// The expression, where it is a node-set or none is wanted.
pub(crate) fn as_wanted(typed: TypedExpr, offset: u32, nodes: bool) -> Result<TypedExpr, CheckError>
    ensures { ChecksAs (wanted nodes offset (typed_tree_of typed)) typed_tree_of result }
{
    if !nodes {
        return Ok(typed);
    }
    match typed.ty() {
        ValueType::NodeSet => Ok(typed),
        _ => {
            drop(typed);
            Err(fault_at(TypeKind::NodeSetWanted, offset))
        }
    }
}

/// The axis of a name; `namespace` is refused.
pub(crate) fn axis_of(alloc: Global, axis: AxisName, offset: u32) -> Result<Axis, CheckError>
    ensures { ChecksAs (axis_of axis offset) (λ a. a) result }
{
    match axis {
        AxisName::Ancestor => Ok(Axis::Ancestor),
        AxisName::AncestorOrSelf => Ok(Axis::AncestorOrSelf),
        AxisName::Attribute => Ok(Axis::Attribute),
        AxisName::Child => Ok(Axis::Child),
        AxisName::Descendant => Ok(Axis::Descendant),
        AxisName::DescendantOrSelf => Ok(Axis::DescendantOrSelf),
        AxisName::Following => Ok(Axis::Following),
        AxisName::FollowingSibling => Ok(Axis::FollowingSibling),
        AxisName::Namespace => Err(refusal(alloc, "namespace", offset)),
        AxisName::Parent => Ok(Axis::Parent),
        AxisName::Preceding => Ok(Axis::Preceding),
        AxisName::PrecedingSibling => Ok(Axis::PrecedingSibling),
        AxisName::SelfNode => Ok(Axis::SelfNode),
    }
}

/// The namespace of a name test's prefix.
fn namespace_at(alloc: Global, prefix: &Text, offset: u32, env: &Env) -> Result<Text, CheckError>
    ensures { ChecksAs (known (namespace_of env.now prefix.now) offset) (λ uri. uri) result }
{
    match env.namespace(prefix.as_str()) {
        Some(uri) => Ok(Text::copy(alloc, uri)?),
        None => Err(fault_at(TypeKind::UnknownPrefix, offset)),
    }
}

/// A node test with its prefix resolved.
pub(crate) fn resolve(
    alloc: Global,
    test: &StepTest,
    offset: u32,
    env: &Env,
) -> Result<NodeTest, CheckError>
    ensures { ChecksAs (resolved env.now test.now offset) (λ t. t) result }
{
    match test {
        StepTest::Star => Ok(NodeTest::Star),
        StepTest::InPrefix { prefix } => resolve_prefix(alloc, prefix, offset, env),
        StepTest::Named { prefix, local } => resolve_name(alloc, prefix, local, offset, env),
        StepTest::Node => Ok(NodeTest::Any),
        StepTest::Chars => Ok(NodeTest::Text),
        StepTest::Comment => Ok(NodeTest::Comment),
        StepTest::Pi => Ok(NodeTest::Pi),
        StepTest::PiNamed { target } => Ok(NodeTest::PiNamed {
            target: Text::copy(alloc, target.as_str())?,
        }),
    }
}

/// `p:*`.
fn resolve_prefix(
    alloc: Global,
    prefix: &Text,
    offset: u32,
    env: &Env,
) -> Result<NodeTest, CheckError>
    ensures { ChecksAs (resolved env.now (written.InPrefix prefix.now) offset) (λ t. t) result }
{
    let uri = namespace_at(alloc, prefix, offset, env)?;
    Ok(NodeTest::InNamespace { uri })
}

/// A name, with a prefix or without one.
fn resolve_name(
    alloc: Global,
    prefix: &Option<Text>,
    local: &Text,
    offset: u32,
    env: &Env,
) -> Result<NodeTest, CheckError>
    ensures { ChecksAs (resolved env.now (written.Named prefix.now local.now) offset) (λ t. t) result }
{
    match prefix {
        Some(prefix) => {
            let uri = namespace_at(alloc, prefix, offset, env)?;
            let local = Text::copy(alloc, local.as_str())?;
            Ok(NodeTest::Named { uri, local })
        }
        None => {
            let uri = Text::copy(alloc, "")?;
            let local = Text::copy(alloc, local.as_str())?;
            Ok(NodeTest::Named { uri, local })
        }
    }
}

/// The variable of a name.
pub(crate) fn type_variable(name: &Text, offset: u32, env: &Env) -> Result<TypedExpr, CheckError>
    ensures { ChecksAs (variable_typed (variable_of env.now.variables name.now) offset) typed_tree_of result }
{
    match env.variable(name.as_str()) {
        Some(variable) => Ok(TypedExpr::variable(variable.slot, variable.ty)),
        None => Err(fault_at(TypeKind::UnknownVariable, offset)),
    }
}

/// The value of digits with one more, or what is just too large.
fn with_digit(value: u64, digit: u8) -> u64
    requires { value ≤ MAX_WHOLE + 1 }
    ensures { result ≡ min (value * 10 + (digit - 48)) (MAX_WHOLE + 1) }
{
    (value * 10 + u64::from(digit.saturating_sub(b'0'))).min(MAX_WHOLE + 1)
}

/// The value of digits, or what is just too large.
fn value_of(digits: &str) -> u64
    ensures { result ≡ min (decimal_value digits.now) (MAX_WHOLE + 1) }
{
    let mut value = 0;
    for digit in digits.as_bytes() {
        value = with_digit(value, *digit);
    }
    value
}

/// A number by its digits.
pub(crate) fn type_number(
    alloc: Global,
    digits: &Text,
    offset: u32,
) -> Result<TypedExpr, CheckError>
    ensures { ChecksAs (number_typed digits.now offset) typed_tree_of result }
{
    let digits = digits.as_str();
    if digits.as_bytes().contains(&b'.') {
        return Err(refusal(alloc, "fraction", offset));
    }
    let value = value_of(digits);
    if value <= MAX_WHOLE {
        Ok(TypedExpr::number(value as i64))
    } else {
        Err(fault_at(TypeKind::NumberTooLarge, offset))
    }
}

/// The function that a call names, where it may be called with so many arguments.
pub(crate) fn called(
    alloc: Global,
    name: &Text,
    offset: u32,
    count: usize,
    env: &Env,
) -> Result<Function, CheckError>
    ensures { ChecksAs (called env.now name.now offset count) (λ f. f) result }
{
    let name = name.as_str();
    if name.as_bytes().contains(&b':') {
        return Err(refusal(alloc, name, offset));
    }
    match function_named(name) {
        Some(function) if !function.may_be_called(env.in_pattern()) => Err(refusal(
            alloc, name, offset,
        )),
        Some(function) if !function.takes(count) => Err(fault_at(TypeKind::Arity, offset)),
        Some(function) => Ok(function),
        None if is_left_out(name) => Err(refusal(alloc, name, offset)),
        None => Err(fault_at(TypeKind::UnknownFunction, offset)),
    }
}

/// Where an expression begins.
pub(crate) fn offset_of(expr: &Expr) -> u32
    ensures { result ≡ offset_of (tree_of expr.now) }
{
    match expr {
        Expr::Or(chain) => chain.offset,
        Expr::And(chain) => chain.offset,
        Expr::Equal(chain) => chain.offset,
        Expr::Rel(chain) => chain.offset,
        Expr::Sum(chain) => chain.offset,
        Expr::Prod(chain) => chain.offset,
        Expr::Union(chain) => chain.offset,
        Expr::Neg { offset, .. } => *offset,
        Expr::Path { offset, .. } => *offset,
        Expr::Filter { offset, .. } => *offset,
        Expr::Variable { offset, .. } => *offset,
        Expr::Literal { offset, .. } => *offset,
        Expr::Number { offset, .. } => *offset,
        Expr::Call { offset, .. } => *offset,
    }
}
