//! What holds of rules that extend one another.

ghost use Rattle.sch_references.specs.Extends.{abstract_rules};
ghost use Rattle.sch_references.specs.Order.{IsOrderOf};
ghost use Rattle.sch_expansion.specs.Stands.{ExtendsAreReplaced};

use sch_model::RawSchema;
use sch_references::RuleOrder;

/// Where the abstract rules of a schema stand in an order, each stands for its items with each `extends` replaced.
pub fn extends_are_replaced(schema: &RawSchema, rules: &RuleOrder<'_>)
    requires { IsOrderOf (abstract_rules schema.now) rules.now }
    ensures { ExtendsAreReplaced (abstract_rules schema.now) }
{}
