//! How large a schema is without its abstract parts.

ghost use Rattle.std.specs.Prelude.{◌≡◌, List, Some, IfOk};
ghost use Rattle.std.specs.List.{flat_map};
ghost use Rattle.sch_expansion.specs.Filled.{filled};
ghost use Rattle.sch_expansion.specs.Flat.{flat_pattern, flat_schema, pattern_from};
ghost use Rattle.sch_expansion.specs.Stands.{ExtendsAreReplaced};
ghost use Rattle.sch_flat.specs.FlatDocument.{pattern_events};
ghost use Rattle.sch_flat.specs.FlatSize.{is_small, size_of};
ghost use Rattle.sch_model.specs.declared.flat.FlatPattern.{FlatPattern};
ghost use Rattle.sch_model.specs.declared.raw.RawRule.{RawRule};
ghost use Rattle.sch_references.specs.Ended.{Ended};
ghost use Rattle.sch_references.specs.Extends.{abstract_rules};
ghost use Rattle.sch_references.specs.Order.{IsOrderOf};
ghost use Rattle.sch_references.specs.Places.{first_among};
ghost use Rattle.sch_sizes.specs.inner.Amounts.{cap, of_events};
ghost use Rattle.sch_sizes.specs.inner.Schemas.{with_patterns};
ghost use Rattle.sch_sizes.specs.inner.Tables.{stands_amounts};
ghost use Rattle.sch_sizes.specs.inner.Weights.{changed, sizes};
ghost use Rattle.sch_sizes.specs.Sizes.{size_places};

use crate::amount::Amount;
use crate::counting::counts_of;
use crate::pattern::{Scale, Whole};
use crate::sizing::Sizing;
use crate::table::{amounts_for, amounts_of};
use doc_tree::MAX_LIVE_NODES;
use sch_base::{MAX_ASSERTIONS, MAX_LETS, MAX_RULES, MAX_TEXT_BYTES};
use sch_expansion::{Origins, extends_are_replaced};
use sch_flat::{FlatSize, SchemaParts, size_with_patterns};
use sch_model::{NodeId, RawPattern, RawSchema, SchemaError, SchemaFault, Text};
use sch_references::RuleOrder;
use std::alloc::{AllocError, Global};

/// How large an instance is in the document, with the lets and rules of its abstract pattern. What abstract rules amount to
/// is found once for it, if it extends one.
fn instance_size(
    alloc: Global,
    rules: &RuleOrder<'_>,
    pattern: &RawPattern,
    origin: &RawPattern,
) -> Result<Amount, AllocError>
    ensures { IfOk result (λ amount. (all : List RawRule) → IsOrderOf all rules.now → ExtendsAreReplaced all →
        amount ≡ cap (of_events (pattern_events (pattern_from all (filled pattern.now.params) pattern.now origin.now)))) }
{
    match Sizing::with_params(alloc, pattern.params.as_slice()) {
        Ok(sizing) => {
            let amounts = amounts_for(alloc, &sizing, &*rules, origin)?;
            let whole = Whole {
                scale: &sizing,
                rules: &*rules,
                amounts: amounts.as_slice(),
            };
            Ok(whole.of_pattern(pattern, origin))
        }
        Err(error) => Err(error),
    }
}

/// How large a pattern is in the document, where it is known what abstract rules amount to as they stand.
fn pattern_size<'a>(
    alloc: Global,
    schema: &RawSchema,
    origins: &Origins<'_>,
    rules: &'a RuleOrder<'_>,
    plain: &'a [Amount],
    pattern: &RawPattern,
) -> Result<Amount, AllocError>
    requires { origins.now ≡ schema.now.patterns }
    ensures { IfOk result (λ amount. IsOrderOf (abstract_rules schema.now) rules.now → ExtendsAreReplaced (abstract_rules schema.now) →
        plain.now ≡ stands_amounts (changed sizes (λ text. text)) (abstract_rules schema.now) rules.now →
        amount ≡ cap (of_events (pattern_events (flat_pattern schema.now pattern.now)))) }
{
    let scale = Sizing::plain();
    let Some(name) = &pattern.is_a else {
        let whole = Whole {
            scale: &scale,
            rules: &*rules,
            amounts: &*plain,
        };
        return Ok(whole.of_pattern(pattern, pattern));
    };
    match origins.named(name.as_str()) {
        Some(origin) => instance_size(alloc, rules, pattern, origin),
        None => Ok(scale.of_pattern(pattern)),
    }
}

/// How large the patterns are in the document.
fn patterns_size<'a>(
    alloc: Global,
    schema: &'a RawSchema,
    origins: &Origins<'_>,
    rules: &'a RuleOrder<'_>,
) -> Result<Amount, AllocError>
    requires { origins.now ≡ schema.now.patterns }
    ensures { IfOk result (λ amount. IsOrderOf (abstract_rules schema.now) rules.now → ExtendsAreReplaced (abstract_rules schema.now) →
        amount ≡ cap (of_events (flat_map pattern_events (flat_schema schema.now).patterns))) }
{
    let scale = Sizing::plain();
    let plain = amounts_of(alloc, &scale, &*rules)?;
    let mut sum = Amount::none();
    for pattern in schema.patterns.as_slice() {
        if !pattern.is_abstract {
            let amount = pattern_size(alloc, schema, origins, &*rules, plain.as_slice(), pattern)?;
            sum = sum.plus(amount);
        }
    }
    Ok(sum)
}

/// Whether the document is small enough, whose patterns have this size.
fn fits(schema: &RawSchema, patterns: FlatSize) -> bool
    ensures { (its : List FlatPattern) → patterns ≡ size_of (flat_map pattern_events its) → result ≡ is_small (with_patterns schema.now its) }
{
    let parts = SchemaParts {
        head: &schema.head,
        ns: &schema.ns,
        lets: &schema.lets,
        phases: &schema.phases,
        diagnostics: &schema.diagnostics,
        properties: &schema.properties,
    };
    let size = size_with_patterns(parts, patterns);
    size.bytes <= MAX_TEXT_BYTES as u64 && size.nodes < MAX_LIVE_NODES as u64
}

/// Refuses a schema by a rule at its element, and tells the limit.
fn refuse(alloc: Global, rule: u32, node: NodeId, limit: &str) -> Result<(), SchemaError>
    ensures { Ended (Some (record { rule = rule; node = node; name = limit.now })) result }
{
    let name = Text::copy(alloc, limit)?;
    Err(SchemaError::Fault(SchemaFault { rule, node, name }))
}

/// Refuses a schema that is too large without its abstract parts.
fn check_with(alloc: Global, schema: &RawSchema, rules: &RuleOrder<'_>) -> Result<(), SchemaError>
    requires { IsOrderOf (abstract_rules schema.now) rules.now }
    ensures { ExtendsAreReplaced (abstract_rules schema.now) → Ended (first_among (size_places schema.now)) result }
{
    let node = schema.head.node;
    let origins = Origins::new(alloc, schema.patterns.as_slice())?;
    let counts = counts_of(alloc, &*schema, &origins, &*rules)?;
    if counts.rule_count > MAX_RULES as u64 {
        return refuse(alloc, 16, node, "4096");
    }
    if counts.assertion_count > MAX_ASSERTIONS as u64 {
        return refuse(alloc, 17, node, "16384");
    }
    if counts.let_count > MAX_LETS as u64 {
        return refuse(alloc, 18, node, "1024");
    }
    let patterns = patterns_size(alloc, &*schema, &origins, &*rules)?;
    if fits(schema, patterns.size()) {
        return Ok(());
    }
    refuse(alloc, 19, node, "16777216")
}

/// Refuses a schema that is too large without its abstract parts: it would have more than 4096 rules, 16384 assertions or 1024
/// lets, or a document larger than a document may be. It is told at the schema's element, by the first of these limits.
///
/// Nothing is expanded. Time is linear in the schema and, for each instance, in the texts of its abstract pattern and, where a
/// rule of that extends one, of the abstract rules.
pub fn check_sizes(
    alloc: Global,
    schema: &RawSchema,
    rules: &RuleOrder<'_>,
) -> Result<(), SchemaError>
    requires ordered { IsOrderOf (abstract_rules schema.now) rules.now }
    ensures { Ended (first_among (size_places schema.now)) result }
{
    extends_are_replaced(schema, rules);
    check_with(alloc, schema, rules)
}
