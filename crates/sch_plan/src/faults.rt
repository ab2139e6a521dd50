//! The rules that the walk tests, where they are broken.

ghost use Rattle.std.specs.Prelude.{◌≡◌, ◌⊎◌, IfOk};
ghost use Rattle.std.specs.Option.{option_copied};
ghost use Rattle.sch_model.specs.declared.fault.SchemaError.TheVariants.{Fault, Memory};
ghost use Rattle.sch_plan.specs.Broken.{broken, place_name, rule_of, syntax_fault, thing_of, type_fault};

use doc_tree::NodeId;
use sch_base::Text;
use sch_model::{SchemaError, SchemaFault};
use std::alloc::{AllocError, Global};
use xp_grammar::SyntaxFault;
use xp_types::{TypeFault, TypeKind};

/// A rule that is broken at an element, with the name that is told.
pub(crate) fn broken(
    alloc: Global,
    rule: u32,
    node: NodeId,
    name: &str,
) -> Result<SchemaFault, AllocError>
    ensures { IfOk result (λ fault. fault ≡ broken rule node name.now) }
{
    let name = Text::copy(alloc, name)?;
    Ok(SchemaFault { rule, node, name })
}

/// The error of a rule that is broken at an element; want of memory where the name that is told can't be copied.
pub(crate) fn refusal(alloc: Global, rule: u32, node: NodeId, name: &str) -> SchemaError
    ensures { (result ≡ Fault (broken rule node name.now)) ⊎ (result ≡ Memory) }
{
    match broken(alloc, rule, node, name) {
        Ok(fault) => SchemaError::Fault(fault),
        Err(AllocError) => SchemaError::Memory,
    }
}

/// A kind of fault with its offset in bytes, and the thing that is refused where there is one.
fn place_name(
    alloc: Global,
    kind: &str,
    offset: u32,
    thing: Option<&str>,
) -> Result<Text, AllocError>
    ensures { IfOk result (λ name. name ≡ place_name kind.now offset (option_copied thing.entry)) }
{
    let name = match thing {
        Some(thing) => format!(in alloc; "{kind} {offset} {thing}")?,
        None => format!(in alloc; "{kind} {offset}")?,
    };
    Ok(Text::from(name))
}

/// Rule 24: a text is no expression, or no pattern.
pub(crate) fn syntax_fault(
    alloc: Global,
    node: NodeId,
    fault: SyntaxFault,
) -> Result<SchemaFault, AllocError>
    ensures { IfOk result (λ f. f ≡ syntax_fault node fault.kind fault.offset) }
{
    let name = place_name(alloc, fault.kind.name(), fault.offset, None)?;
    Ok(SchemaFault {
        rule: 24,
        node,
        name,
    })
}

/// The number of the rule that a fault of types breaks.
fn rule_of(kind: &TypeKind) -> u32
    ensures { result ≡ rule_of kind.now }
{
    match kind {
        TypeKind::UnknownFunction => 25,
        TypeKind::Arity => 26,
        TypeKind::NodeSetWanted => 27,
        TypeKind::UnknownVariable => 28,
        TypeKind::UnknownPrefix => 29,
        TypeKind::Refused { .. } => 30,
        TypeKind::NumberTooLarge => 31,
    }
}

/// The thing that is refused, where one is.
fn thing_of(kind: &TypeKind) -> Option<&str>
    ensures { option_copied result ≡ thing_of kind.now }
{
    match kind {
        TypeKind::Refused { thing } => Some(thing.as_str()),
        TypeKind::UnknownFunction
        | TypeKind::Arity
        | TypeKind::NodeSetWanted
        | TypeKind::UnknownVariable
        | TypeKind::UnknownPrefix
        | TypeKind::NumberTooLarge => None,
    }
}

/// Rules 25 to 31: an expression has no type.
pub(crate) fn type_fault(
    alloc: Global,
    node: NodeId,
    fault: &TypeFault,
) -> Result<SchemaFault, AllocError>
    ensures { IfOk result (λ f. f ≡ type_fault node fault.now) }
{
    let rule = rule_of(&fault.kind);
    let name = place_name(
        alloc,
        fault.kind.name(),
        fault.offset,
        thing_of(&fault.kind),
    )?;
    Ok(SchemaFault { rule, node, name })
}
