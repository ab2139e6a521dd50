//! The rules on names to which a schema refers.

ghost use Rattle.std.specs.Prelude.{◌≡◌, ◌∷◌, [], None, Some, IfErr, IfOk, OnOk};
ghost use Rattle.std.specs.List.{flat_map};
ghost use Rattle.sch_references.specs.Places.{first_among};
ghost use Rattle.sch_references.specs.References.{active_place, assertion_place, extends_place, head_place, item_places, origin_place, pattern_places, phase_places, places_with, reference_places, rule_places, unknown_phase, unknown_property};
ghost use Rattle.sch_references.specs.Ended.{Ended, Refuses};
ghost use Rattle.sch_references.specs.Extends.{abstract_rules};
ghost use Rattle.sch_references.specs.Order.{IsOrderOf};
ghost use Rattle.sch_references.specs.inner.Order.{Found};
ghost use Rattle.sch_references.specs.inner.KnownIds.{known_by};
ghost use Rattle.sch_references.specs.inner.Onto.{onto};

use crate::ids::Ids;
use crate::order::RuleOrder;
use sch_first_fault::FirstFault;
use sch_model::{
    Active, Assertion, Head, NodeId, Phase, RawItem, RawPattern, RawRule, RawSchema, SchemaError,
};
use std::alloc::{AllocError, Global};

/// Refuses a schema that refers to a name that isn't there, or whose abstract rules extend one another in a cycle. Else its
/// abstract rules, each after those that it extends.
///
/// A schema without cycles costs time linear in it. Another one, which is refused, costs the number of its `extends` times the
/// number of its rules and their items at most.
pub fn check_references<'a>(
    alloc: Global,
    schema: &'a RawSchema,
) -> Result<RuleOrder<'a>, SchemaError>
    ensures refused { IfErr result (Refuses (first_among (reference_places schema.now))) }
    ensures unbroken { OnOk result (first_among (reference_places schema.now) ≡ None) }
    ensures ordered { IfOk result (IsOrderOf (abstract_rules schema.now)) }
{
    let ids = Ids::of(alloc, schema)?;
    match ids.refuse(alloc, schema) {
        Ok(()) => Ok(ids.into_order()),
        Err(error) => {
            drop(ids);
            Err(error)
        }
    }
}

impl Ids<'_> {
    /// Refuses a schema that breaks a rule on names.
    fn refuse(&self, alloc: Global, schema: &RawSchema) -> Result<(), SchemaError>
        requires { Found self.now.rules self.now.order }
        ensures { Ended (first_among (places_with (known_by self.now) self.now.rules schema.now)) result }
    {
        let mut first = FirstFault::new(alloc);
        self.check(&mut first, schema)?;
        first.end()
    }

    /// Tells where a schema breaks a rule on names.
    fn check(&self, first: &mut FirstFault, schema: &RawSchema) -> Result<(), AllocError>
        requires { Found self.now.rules self.now.order }
        ensures { OnOk result (first.new ≡ onto first.old (places_with (known_by self.now) self.now.rules schema.now)) }
    {
        self.check_head(first, &schema.head)?;
        self.check_phases(first, schema.phases.as_slice())?;
        self.check_patterns(first, schema.patterns.as_slice())?;
        Ok(())
    }

    /// Rule 14: the default phase isn't there.
    fn check_default(
        &self,
        first: &mut FirstFault,
        head: &Head,
        name: &str,
    ) -> Result<(), AllocError>
        ensures { OnOk result (first.new ≡ onto first.old (record { node = head.now.node; rules = (14, unknown_phase (known_by self.now) (Some name.now)) ∷ [] } ∷ [])) }
    {
        if name != "#ALL" && !self.phases.has(name) {
            first.tell(14, head.node, name)?;
        }
        Ok(())
    }

    /// The same, where there is a default phase.
    fn check_head(&self, first: &mut FirstFault, head: &Head) -> Result<(), AllocError>
        ensures { OnOk result (first.new ≡ onto first.old (head_place (known_by self.now) head.now ∷ [])) }
    {
        match &head.default_phase {
            Some(name) => self.check_default(first, head, name.as_str()),
            None => Ok(()),
        }
    }

    /// Rule 13: there is no such pattern that isn't abstract.
    fn check_active(&self, first: &mut FirstFault, active: &Active) -> Result<(), AllocError>
        ensures { OnOk result (first.new ≡ onto first.old (active_place (known_by self.now) active.now ∷ [])) }
    {
        if !self.patterns.has(active.pattern.as_str()) {
            first.tell(13, active.node, active.pattern.as_str())?;
        }
        Ok(())
    }

    /// The same of each pattern that a phase makes active.
    fn check_phase(&self, first: &mut FirstFault, phase: &Phase) -> Result<(), AllocError>
        ensures { OnOk result (first.new ≡ onto first.old (phase_places (known_by self.now) phase.now)) }
    {
        for active in phase.active.as_slice() {
            self.check_active(first, active)?;
        }
        Ok(())
    }

    /// The same of each phase.
    fn check_phases(&self, first: &mut FirstFault, phases: &[Phase]) -> Result<(), AllocError>
        ensures { OnOk result (first.new ≡ onto first.old (flat_map (phase_places (known_by self.now)) phases.now)) }
    {
        for phase in phases {
            self.check_phase(first, phase)?;
        }
        Ok(())
    }

    /// Rule 15: there is no such diagnostic. Rule 32, where it keeps that one: there is no such property.
    fn check_assertion(
        &self,
        first: &mut FirstFault,
        assertion: &Assertion,
    ) -> Result<(), AllocError>
        ensures { OnOk result (first.new ≡ onto first.old (assertion_place (known_by self.now) assertion.now ∷ [])) }
    {
        let named = assertion.diagnostics.as_slice();
        match self.diagnostics.first_unknown(named) {
            Some(name) => first.tell(15, assertion.node, name),
            None => self.check_properties(first, assertion),
        }
    }

    /// Rule 32: there is no such property.
    fn check_properties(
        &self,
        first: &mut FirstFault,
        assertion: &Assertion,
    ) -> Result<(), AllocError>
        ensures { OnOk result (first.new ≡ onto first.old (record { node = assertion.now.node; rules = (32, unknown_property (known_by self.now) assertion.now.properties) ∷ [] } ∷ [])) }
    {
        let named = assertion.properties.as_slice();
        match self.properties.first_unknown(named) {
            Some(name) => first.tell(32, assertion.node, name),
            None => Ok(()),
        }
    }

    /// Rules 10 and 11: there is no such abstract rule, or it leads back to the rule that extends it.
    fn check_extends(
        &self,
        first: &mut FirstFault,
        rule: &RawRule,
        node: NodeId,
        name: &str,
    ) -> Result<(), AllocError>
        requires { Found self.now.rules self.now.order }
        ensures { OnOk result (first.new ≡ onto first.old (extends_place (known_by self.now) self.now.rules rule.now node name.now ∷ [])) }
    {
        if self.rules.place_of(name).is_none() {
            return first.tell(10, node, name);
        }
        if self.leads_back(rule, name)? {
            first.tell(11, node, name)?;
        }
        Ok(())
    }

    /// Checks what a rule holds.
    fn check_item(
        &self,
        first: &mut FirstFault,
        rule: &RawRule,
        item: &RawItem,
    ) -> Result<(), AllocError>
        requires { Found self.now.rules self.now.order }
        ensures { OnOk result (first.new ≡ onto first.old (item_places (known_by self.now) self.now.rules rule.now item.now)) }
    {
        match item {
            RawItem::Assertion(assertion) => self.check_assertion(first, assertion),
            RawItem::Extends { node, rule: name } => {
                self.check_extends(first, rule, *node, name.as_str())
            }
            RawItem::Let(_) => Ok(()),
        }
    }

    /// Checks a rule.
    fn check_rule(&self, first: &mut FirstFault, rule: &RawRule) -> Result<(), AllocError>
        requires { Found self.now.rules self.now.order }
        ensures { OnOk result (first.new ≡ onto first.old (rule_places (known_by self.now) self.now.rules rule.now)) }
    {
        for item in rule.items.as_slice() {
            self.check_item(first, rule, item)?;
        }
        Ok(())
    }

    /// Checks rules.
    fn check_rules(&self, first: &mut FirstFault, rules: &[RawRule]) -> Result<(), AllocError>
        requires { Found self.now.rules self.now.order }
        ensures { OnOk result (first.new ≡ onto first.old (flat_map (rule_places (known_by self.now) self.now.rules) rules.now)) }
    {
        for rule in rules {
            self.check_rule(first, rule)?;
        }
        Ok(())
    }

    /// Rule 12: there is no such abstract pattern.
    fn check_origin(&self, first: &mut FirstFault, pattern: &RawPattern) -> Result<(), AllocError>
        ensures { OnOk result (first.new ≡ onto first.old (origin_place (known_by self.now) pattern.now ∷ [])) }
    {
        match &pattern.is_a {
            Some(name) if !self.abstract_patterns.has(name.as_str()) => {
                first.tell(12, pattern.node, name.as_str())
            }
            Some(_) | None => Ok(()),
        }
    }

    /// Checks a pattern.
    fn check_pattern(&self, first: &mut FirstFault, pattern: &RawPattern) -> Result<(), AllocError>
        requires { Found self.now.rules self.now.order }
        ensures { OnOk result (first.new ≡ onto first.old (pattern_places (known_by self.now) self.now.rules pattern.now)) }
    {
        self.check_origin(first, pattern)?;
        self.check_rules(first, pattern.rules.as_slice())
    }

    /// Checks patterns.
    fn check_patterns(
        &self,
        first: &mut FirstFault,
        patterns: &[RawPattern],
    ) -> Result<(), AllocError>
        requires { Found self.now.rules self.now.order }
        ensures { OnOk result (first.new ≡ onto first.old (flat_map (pattern_places (known_by self.now) self.now.rules) patterns.now)) }
    {
        for pattern in patterns {
            self.check_pattern(first, pattern)?;
        }
        Ok(())
    }
}
