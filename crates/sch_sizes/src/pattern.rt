//! What a pattern amounts to.

ghost use Rattle.std.specs.Prelude.{◌≡◌};
ghost use Rattle.std.specs.Option.{option_copied};
ghost use Rattle.sch_sizes.specs.inner.Amounts.{cap};
ghost use Rattle.sch_sizes.specs.inner.Schemas.{found_from};
ghost use Rattle.sch_sizes.specs.inner.Sums.{amount_at, item_found, items_found, looked, pattern_found, rule_found};
ghost use Rattle.sch_sizes.specs.inner.Weights.{Weights};

use crate::amount::Amount;
use crate::sum::{Weighing, sum_over};
use sch_model::{Assertion, LetDecl, RawItem, RawPattern, RawRule, Text};
use sch_references::RuleOrder;

/// A scale on which parts of a schema are weighed, each without what it holds of other parts.
pub(crate) trait Scale {
    // what each part amounts to
    ghost weights: { Self → Weights };

    /// What a let amounts to.
    fn of_let(&self, decl: &LetDecl) -> Amount
        ensures { result ≡ cap ((weights self.now).let_weight decl.now) };

    /// What an assertion amounts to.
    fn of_assertion(&self, assertion: &Assertion) -> Amount
        ensures { result ≡ cap ((weights self.now).assertion_weight assertion.now) };

    /// What a rule amounts to.
    fn of_rule(&self, rule: &RawRule) -> Amount
        ensures { result ≡ cap ((weights self.now).rule_weight rule.now) };

    /// What a pattern amounts to.
    fn of_pattern(&self, pattern: &RawPattern) -> Amount
        ensures { result ≡ cap ((weights self.now).pattern_weight pattern.now) };
}

/// What parts amount to with all that they hold, where it is known what abstract rules amount to: the first of them in
/// their order.
#[derive(Drop)]
pub(crate) struct Whole<'a, 'r, S> {
    pub(crate) scale: &'a S,
    pub(crate) rules: &'a RuleOrder<'r>,
    pub(crate) amounts: &'a [Amount],
}

impl<'a, 'r, S: Scale> Whole<'a, 'r, S> {
    /// What the rule amounts to that is extended by this name.
    fn extended(&self, name: &Text) -> Amount
        ensures { result ≡ looked self.now.amounts.now self.now.rules.now name.now }
    {
        match self.rules.place_of(name.as_str()) {
            Some(place) => amount_at(self.amounts, place),
            None => Amount::none(),
        }
    }

    /// What the pattern amounts to with the lets and rules of `origin`.
    pub(crate) fn of_pattern(&self, pattern: &RawPattern, origin: &RawPattern) -> Amount
        ensures { result ≡ pattern_found (S.weights self.now.scale.now) (looked self.now.amounts.now self.now.rules.now) pattern.now origin.now }
    {
        let lets = sum_over::<LetDecl, _>(self, origin.lets.as_slice());
        let rules = sum_over::<RawRule, _>(self, origin.rules.as_slice());
        self.scale.of_pattern(pattern).plus(lets.plus(rules))
    }

    /// What the pattern amounts to with the lets and rules of `origin`, if there is one.
    pub(crate) fn of_origin(&self, pattern: &RawPattern, origin: Option<&RawPattern>) -> Amount
        ensures { result ≡ found_from (S.weights self.now.scale.now) (looked self.now.amounts.now self.now.rules.now) pattern.now (option_copied origin.entry) }
    {
        match origin {
            Some(origin) => self.of_pattern(pattern, origin),
            None => self.scale.of_pattern(pattern),
        }
    }

    /// What the items of a rule amount to.
    pub(crate) fn of_items(&self, items: &[RawItem]) -> Amount
        ensures { result ≡ items_found (S.weights self.now.scale.now) (looked self.now.amounts.now self.now.rules.now) items.now }
    {
        sum_over::<RawItem, _>(self, items)
    }
}

/// The amount at a place, and none past the end.
fn amount_at(amounts: &[Amount], place: usize) -> Amount
    ensures { result ≡ amount_at amounts.now place }
{
    match amounts.get(place) {
        Some(amount) => *amount,
        None => Amount::none(),
    }
}

impl<'a, 'r, S: Scale> Weighing<LetDecl> for Whole<'a, 'r, S> {
    ghost amount = { λ whole decl. cap ((S.weights whole.scale.now).let_weight decl) };

    fn amount_of(&self, item: &LetDecl) -> Amount {
        self.scale.of_let(item)
    }
}

impl<'a, 'r, S: Scale> Weighing<RawItem> for Whole<'a, 'r, S> {
    ghost amount = { λ whole item. item_found (S.weights whole.scale.now) (looked whole.amounts.now whole.rules.now) item };

    fn amount_of(&self, item: &RawItem) -> Amount {
        match item {
            RawItem::Let(decl) => self.scale.of_let(decl),
            RawItem::Assertion(assertion) => self.scale.of_assertion(assertion),
            RawItem::Extends { rule, .. } => self.extended(rule),
        }
    }
}

impl<'a, 'r, S: Scale> Weighing<RawRule> for Whole<'a, 'r, S> {
    ghost amount = { λ whole rule. rule_found (S.weights whole.scale.now) (looked whole.amounts.now whole.rules.now) rule };

    fn amount_of(&self, item: &RawRule) -> Amount {
        if item.is_abstract {
            return Amount::none();
        }
        let held = self.of_items(item.items.as_slice());
        self.scale.of_rule(item).plus(held)
    }
}
