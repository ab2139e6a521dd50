//! How many rules, assertions and lets a schema has without its abstract parts.

ghost use Rattle.std.specs.Prelude.{◌≡◌, List, IfOk};
ghost use Rattle.sch_model.specs.declared.raw.RawRule.{RawRule};
ghost use Rattle.sch_expansion.specs.Flat.{flat_schema};
ghost use Rattle.sch_expansion.specs.Stands.{ExtendsAreReplaced};
ghost use Rattle.sch_references.specs.Extends.{abstract_rules};
ghost use Rattle.sch_references.specs.Order.{IsOrderOf};
ghost use Rattle.sch_sizes.specs.inner.Amounts.{cap};
ghost use Rattle.sch_sizes.specs.inner.Schemas.{base_counts, concrete_found, phase_lets, schema_counts};
ghost use Rattle.sch_sizes.specs.inner.Sums.{looked};
ghost use Rattle.sch_sizes.specs.inner.Weights.{changed, counts};

use crate::amount::Amount;
use crate::origin::origin_of;
use crate::pattern::{Scale, Whole};
use crate::sum::{Weighing, sum_over};
use crate::table::amounts_of;
use sch_expansion::Origins;
use sch_model::{Assertion, LetDecl, Phase, RawPattern, RawRule, RawSchema};
use sch_references::RuleOrder;
use std::alloc::{AllocError, Global};

/// The scale that counts.
#[derive(Clone, Copy)]
struct Counting;

impl Scale for Counting {
    ghost weights = { λ _. changed counts (λ text. text) };

    fn of_let(&self, _decl: &LetDecl) -> Amount {
        Amount::counted(0, 0, 1)
    }

    fn of_assertion(&self, _assertion: &Assertion) -> Amount {
        Amount::counted(0, 1, 0)
    }

    fn of_rule(&self, _rule: &RawRule) -> Amount {
        Amount::counted(1, 0, 0)
    }

    fn of_pattern(&self, _pattern: &RawPattern) -> Amount {
        Amount::none()
    }
}

impl Weighing<Phase> for Counting {
    ghost amount = { λ _ phase. phase_lets phase };

    fn amount_of(&self, item: &Phase) -> Amount {
        Amount::counted(0, 0, item.lets.len() as u64)
    }
}

/// The patterns of a schema that aren't abstract, as they are counted.
#[derive(Drop)]
struct Patterns<'a, 'r> {
    origins: &'a Origins<'a>,
    whole: Whole<'a, 'r, Counting>,
}

impl<'a, 'r> Weighing<RawPattern> for Patterns<'a, 'r> {
    ghost amount = { λ patterns pattern. concrete_found (changed counts (λ text. text)) (looked patterns.whole.amounts.now patterns.whole.rules.now) patterns.origins.now pattern };

    fn amount_of(&self, item: &RawPattern) -> Amount {
        if item.is_abstract {
            return Amount::none();
        }
        self.whole.of_origin(item, origin_of(self.origins, item))
    }
}

/// The lets of a schema beside its patterns.
fn base_counts(schema: &RawSchema) -> Amount
    ensures { result ≡ base_counts schema.now }
{
    let own = Amount::counted(0, 0, schema.lets.len() as u64);
    own.plus(sum_over::<Phase, _>(&Counting, schema.phases.as_slice()))
}

/// How many rules, assertions and lets the schema has without its abstract parts. No text but names is read.
pub(crate) fn counts_of<'a>(
    alloc: Global,
    schema: &'a RawSchema,
    origins: &'a Origins<'a>,
    rules: &'a RuleOrder<'_>,
) -> Result<Amount, AllocError>
    requires { origins.now ≡ schema.now.patterns }
    ensures { IfOk result (λ amount. IsOrderOf (abstract_rules schema.now) rules.now → ExtendsAreReplaced (abstract_rules schema.now) →
        amount ≡ cap (schema_counts (flat_schema schema.now))) }
{
    let scale = Counting;
    let amounts = amounts_of(alloc, &scale, &*rules)?;
    let whole = Whole {
        scale: &scale,
        rules: &*rules,
        amounts: amounts.as_slice(),
    };
    let patterns = Patterns {
        origins: &*origins,
        whole,
    };
    let sum = sum_over::<RawPattern, _>(&patterns, schema.patterns.as_slice());
    Ok(base_counts(schema).plus(sum))
}
