//! What abstract rules amount to.

ghost use Rattle.std.specs.Prelude.{◌≡◌, List, IfOk};
ghost use Rattle.std.specs.List.{list_any};
ghost use Rattle.sch_model.specs.declared.raw.RawPattern.{RawPattern};
ghost use Rattle.sch_model.specs.declared.raw.RawRule.{RawRule};
ghost use Rattle.sch_expansion.specs.Stands.{ExtendsAreReplaced};
ghost use Rattle.sch_references.specs.Order.{IsOrderOf};
ghost use Rattle.sch_sizes.specs.inner.Sums.{extends_some, is_extends, looked, pattern_found};
ghost use Rattle.sch_sizes.specs.inner.Tables.{stands_amounts};

use crate::amount::Amount;
use crate::pattern::{Scale, Whole};
use sch_model::{RawItem, RawPattern, RawRule};
use sch_references::RuleOrder;
use std::alloc::{AllocError, Global};

/// What each abstract rule amounts to with all that it extends. Each is found once, by those before it in their order.
pub(crate) fn amounts_of<'a, S: Scale>(
    alloc: Global,
    scale: &'a S,
    rules: &'a RuleOrder<'_>,
) -> Result<Vec<Amount>, AllocError>
    ensures { IfOk result (λ amounts. (all : List RawRule) → IsOrderOf all rules.now → ExtendsAreReplaced all →
        amounts.items ≡ stands_amounts (S.weights scale.now) all rules.now) }
{
    let mut amounts = Vec::new(alloc);
    for place in 0..rules.len() {
        let rule = rules.rule(place);
        let whole = Whole {
            scale,
            rules,
            amounts: amounts.as_slice(),
        };
        let amount = whole.of_items(rule.items.as_slice());
        amounts.push(amount)?;
    }
    Ok(amounts)
}

/// What abstract rules amount to, if a rule of the pattern extends one; else the list is empty.
pub(crate) fn amounts_for<'a, S: Scale>(
    alloc: Global,
    scale: &'a S,
    rules: &'a RuleOrder<'_>,
    origin: &RawPattern,
) -> Result<Vec<Amount>, AllocError>
    ensures { IfOk result (λ amounts. (all : List RawRule) → IsOrderOf all rules.now → ExtendsAreReplaced all → (pattern : RawPattern) →
        pattern_found (S.weights scale.now) (looked amounts.items rules.now) pattern origin.now
        ≡ pattern_found (S.weights scale.now) (looked (stands_amounts (S.weights scale.now) all rules.now) rules.now) pattern origin.now) }
{
    if !some_extends(origin.rules.as_slice()) {
        return Ok(Vec::new(alloc));
    }
    let amounts = amounts_of(alloc, scale, rules)?;
    Ok(amounts)
}

/// Whether one of the rules that aren't abstract extends another.
fn some_extends(rules: &[RawRule]) -> bool
    ensures { result ≡ list_any extends_some rules.now }
{
    for rule in rules {
        if !rule.is_abstract && has_extends(rule.items.as_slice()) {
            return true;
        }
    }
    false
}

/// Whether one of the items is an `extends`.
fn has_extends(items: &[RawItem]) -> bool
    ensures { result ≡ list_any is_extends items.now }
{
    for item in items {
        if let RawItem::Extends { .. } = item {
            return true;
        }
    }
    false
}
