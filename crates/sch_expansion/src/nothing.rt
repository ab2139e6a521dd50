//! Which abstract rules stand for nothing, and what stands in the place of an `extends`.

ghost use Rattle.std.specs.Prelude.{◌≡◌, ◌≤◌, [], true, length, IfOk};
ghost use Rattle.std.specs.List.{list_all};
ghost use Rattle.sch_model.specs.Items.{extended_in};
ghost use Rattle.sch_references.specs.Extends.{is_named};
ghost use Rattle.sch_references.specs.Order.{extends_only, is_sorted};
ghost use Rattle.sch_expansion.specs.Stands.{replaced, stands_for};
ghost use Rattle.sch_expansion.specs.inner.Walks.{IsInPlaceOf, Nothings, are_none, expanded, told_at, told_rules};

use sch_model::RawItem;
use sch_references::RuleOrder;
use std::alloc::{AllocError, Global};

/// Whether the table says so of a place.
fn says_nothing(table: &[bool], place: usize) -> bool
    ensures { result ≡ told_at table.now place }
{
    match table.get(place) {
        Some(nothing) => *nothing,
        None => false,
    }
}

/// The items of the rule with an id, and none where the rule stands for nothing, or there is no such rule.
pub(crate) fn items_of<'a>(rules: &RuleOrder<'a>, table: &[bool], name: &str) -> &'a [RawItem]
    requires sorted { is_sorted [] rules.now ≡ true }
    requires told { Nothings rules.now table.now }
    ensures place { IsInPlaceOf rules.now name.now result.now }
    ensures nothing { is_named (told_rules rules.now table.now) name.now ≡ true → are_none result.now ≡ are_none (stands_for rules.now name.now) }
{
    match rules.place_of(name) {
        Some(place) if !says_nothing(table, place) => rules.rule(place).items.as_slice(),
        _ => &[],
    }
}

/// Whether an item stands for nothing, where it extends rules of the table alone.
fn is_nothing(rules: &RuleOrder<'_>, table: &[bool], item: &RawItem) -> bool
    requires sorted { is_sorted [] rules.now ≡ true }
    requires told { Nothings rules.now table.now }
    requires known { list_all (is_named (told_rules rules.now table.now)) (extended_in item.now) ≡ true }
    ensures { result ≡ are_none (replaced (stands_for rules.now) item.now) }
{
    match item {
        RawItem::Extends { rule, .. } => items_of(rules, table, rule.as_str()).is_empty(),
        RawItem::Let(_) | RawItem::Assertion(_) => false,
    }
}

/// Whether all items stand for nothing, where they extend rules of the table alone.
fn are_nothing(rules: &RuleOrder<'_>, table: &[bool], items: &[RawItem]) -> bool
    requires sorted { is_sorted [] rules.now ≡ true }
    requires told { Nothings rules.now table.now }
    requires known { extends_only (told_rules rules.now table.now) items.now ≡ true }
    ensures { result ≡ are_none (expanded rules.now items.now) }
{
    for item in items {
        if !is_nothing(rules, table, item) {
            return false;
        }
    }
    true
}

/// For each rule whether it stands for nothing.
pub(crate) fn nothings(alloc: Global, rules: &RuleOrder<'_>) -> Result<Vec<bool>, AllocError>
    requires { is_sorted [] rules.now ≡ true }
    ensures told { IfOk result (λ table. Nothings rules.now table.items) }
    ensures all { IfOk result (λ table. length table.items ≡ length rules.now) }
{
    let mut table = Vec::new(alloc);
    for place in 0..rules.len() {
        let nothing = are_nothing(rules, table.as_slice(), rules.rule(place).items.as_slice());
        table.push(nothing)?;
    }
    Ok(table)
}
