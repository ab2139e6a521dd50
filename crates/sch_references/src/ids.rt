//! The ids of a schema.

ghost use Rattle.std.specs.Prelude.{◌≡◌, ◌∷◌, [], Some, map, IsSome, OnOk, IfOk};
ghost use Rattle.std.specs.List.{flat_map};
ghost use Rattle.std.specs.Option.{option_copied};
ghost use Rattle.sch_references.specs.Cycles.{leads_back, leads_to};
ghost use Rattle.sch_references.specs.Extends.{abstract_rules};
ghost use Rattle.sch_references.specs.References.{abstract_id, concrete_id, first_unknown, is_among, known_in};
ghost use Rattle.sch_references.specs.inner.Firsts.{with_rules};
ghost use Rattle.sch_references.specs.inner.Order.{Found};
ghost use Rattle.sch_references.specs.inner.KnownIds.{known_by, no_parts, with_ids, with_parts};

use crate::order::RuleOrder;
use indexmap::IndexSet;
use sch_base::Text;
use sch_model::{Diagnostic, Phase, RawPattern, RawRule, RawSchema};
use std::alloc::{AllocError, Global};
use std::marker::Model;

/// Some ids, seen by contracts as their list.
///
/// A name is found in constant time.
#[derive(Drop)]
pub(crate) struct IdSet {
    alloc: Global,
    ids: IndexSet<String>,
}

impl Model for IdSet {
    ghost use Rattle.std.specs.Prelude.{ℕ, List, map, string_bytes};

    ghost Value = { List (List ℕ) };

    ghost view = { λ s. map string_bytes s.ids.keys };
}

impl IdSet {
    /// No id.
    fn new(alloc: Global) -> IdSet
        ensures { result ≡ [] }
    {
        IdSet {
            alloc,
            ids: IndexSet::new(alloc),
        }
    }

    /// Adds an id, which may be there already.
    fn add(&mut self, id: &str) -> Result<(), AllocError>
        ensures { OnOk result (is_among self.new ≡ with_ids (is_among self.old) (id.now ∷ [])) }
    {
        let id = String::from_str(self.alloc, id)?;
        self.ids.insert_full(id)?;
        Ok(())
    }

    /// Adds the id of a pattern, where it has one and isn't abstract.
    fn add_pattern(&mut self, pattern: &RawPattern) -> Result<(), AllocError>
        ensures { OnOk result (is_among self.new ≡ with_ids (is_among self.old) (concrete_id pattern.now)) }
    {
        if pattern.is_abstract {
            return Ok(());
        }
        match &pattern.id {
            Some(id) => self.add(id.as_str()),
            None => Ok(()),
        }
    }

    /// Adds the id of a pattern, where it has one and is abstract.
    fn add_abstract_pattern(&mut self, pattern: &RawPattern) -> Result<(), AllocError>
        ensures { OnOk result (is_among self.new ≡ with_ids (is_among self.old) (abstract_id pattern.now)) }
    {
        if !pattern.is_abstract {
            return Ok(());
        }
        match &pattern.id {
            Some(id) => self.add(id.as_str()),
            None => Ok(()),
        }
    }

    /// Adds the ids of abstract patterns.
    fn add_abstract_patterns(&mut self, patterns: &[RawPattern]) -> Result<(), AllocError>
        ensures { OnOk result (is_among self.new ≡ with_ids (is_among self.old) (flat_map abstract_id patterns.now)) }
    {
        for pattern in patterns {
            self.add_abstract_pattern(pattern)?;
        }
        Ok(())
    }

    /// Adds the ids of patterns that aren't abstract.
    fn add_patterns(&mut self, patterns: &[RawPattern]) -> Result<(), AllocError>
        ensures { OnOk result (is_among self.new ≡ with_ids (is_among self.old) (flat_map concrete_id patterns.now)) }
    {
        for pattern in patterns {
            self.add_pattern(pattern)?;
        }
        Ok(())
    }

    /// Adds the ids of phases.
    fn add_phases(&mut self, phases: &[Phase]) -> Result<(), AllocError>
        ensures { OnOk result (is_among self.new ≡ with_ids (is_among self.old) (map (λ phase. phase.id) phases.now)) }
    {
        for phase in phases {
            self.add(phase.id.as_str())?;
        }
        Ok(())
    }

    /// Adds the ids of diagnostics, or of properties.
    fn add_diagnostics(&mut self, diagnostics: &[Diagnostic]) -> Result<(), AllocError>
        ensures { OnOk result (is_among self.new ≡ with_ids (is_among self.old) (map (λ diagnostic. diagnostic.id) diagnostics.now)) }
    {
        for diagnostic in diagnostics {
            self.add(diagnostic.id.as_str())?;
        }
        Ok(())
    }

    /// The first of some names that is none of the ids.
    pub(crate) fn first_unknown<'a>(&self, names: &'a [Text]) -> Option<&'a str>
        ensures { option_copied result ≡ first_unknown (is_among self.now) names.now }
    {
        for name in names {
            if !self.has(name.as_str()) {
                return Some(name.as_str());
            }
        }
        None
    }

    /// Whether the name is one of the ids.
    pub(crate) fn has(&self, name: &str) -> bool
        ensures { result ≡ is_among self.now name.now }
    {
        self.ids.contains(name)
    }
}

/// The ids of a schema to which its attributes refer, with the order in which its abstract rules extend one another.
#[derive(Drop)]
pub(crate) struct Ids<'a> {
    /// The abstract rules, each the first with its id.
    pub(crate) rules: RuleOrder<'a>,
    /// The same, each after those that it extends; none where there is a cycle.
    pub(crate) order: Option<RuleOrder<'a>>,
    pub(crate) abstract_patterns: IdSet,
    pub(crate) patterns: IdSet,
    pub(crate) phases: IdSet,
    pub(crate) diagnostics: IdSet,
    pub(crate) properties: IdSet,
}

impl<'a> Ids<'a> {
    /// The ids of a schema.
    pub(crate) fn of(alloc: Global, schema: &'a RawSchema) -> Result<Ids<'a>, AllocError>
        ensures known { IfOk result (λ ids. known_by ids ≡ known_in schema.now) }
        ensures rules { IfOk result (λ ids. ids.rules ≡ with_rules [] (abstract_rules schema.now)) }
        ensures ordered { IfOk result (λ ids. Found ids.rules ids.order) }
    {
        let rules = RuleOrder::of(alloc, schema)?;
        match rules.sorted() {
            Ok(order) => Ids::with_order(alloc, rules, order, schema),
            Err(error) => {
                drop(rules);
                Err(error)
            }
        }
    }

    /// The ids of a schema with these abstract rules, in this order.
    fn with_order(
        alloc: Global,
        rules: RuleOrder<'a>,
        order: Option<RuleOrder<'a>>,
        schema: &RawSchema,
    ) -> Result<Ids<'a>, AllocError>
        ensures known { IfOk result (λ ids. known_by ids ≡ with_parts (no_parts rules.entry) schema.now) }
        ensures rules { IfOk result (λ ids. ids.rules ≡ rules.entry) }
        ensures ordered { IfOk result (λ ids. ids.order ≡ order.entry) }
    {
        let mut ids = Ids {
            rules,
            order,
            abstract_patterns: IdSet::new(alloc),
            patterns: IdSet::new(alloc),
            phases: IdSet::new(alloc),
            diagnostics: IdSet::new(alloc),
            properties: IdSet::new(alloc),
        };
        match ids.fill(schema) {
            Ok(()) => Ok(ids),
            Err(error) => {
                drop(ids);
                Err(error)
            }
        }
    }

    /// Adds the ids of a schema besides those of its rules.
    fn fill(&mut self, schema: &RawSchema) -> Result<(), AllocError>
        ensures added { OnOk result (known_by self.new ≡ with_parts (known_by self.old) schema.now) }
        ensures rules { OnOk result (self.new.rules ≡ self.old.rules) }
        ensures ordered { OnOk result (self.new.order ≡ self.old.order) }
    {
        let patterns = schema.patterns.as_slice();
        self.abstract_patterns.add_abstract_patterns(patterns)?;
        self.patterns.add_patterns(patterns)?;
        self.phases.add_phases(schema.phases.as_slice())?;
        self.diagnostics
            .add_diagnostics(schema.diagnostics.as_slice())?;
        self.properties
            .add_diagnostics(schema.properties.as_slice())?;
        Ok(())
    }

    /// The order, where there is one.
    pub(crate) fn into_order(mut self) -> RuleOrder<'a>
        requires { IsSome self.order }
        ensures { self.entry.order ≡ Some result }
    {
        let order = self.order.take().unwrap();
        drop(self);
        order
    }

    /// Whether a name leads to an id by `extends`.
    ///
    /// Where the name stands before the id in the order, it does not, which is found in constant time.
    fn leads_to(&self, name: &str, id: &str) -> Result<bool, AllocError>
        requires { Found self.now.rules self.now.order }
        ensures { IfOk result (λ leads. leads ≡ leads_to self.now.rules name.now id.now) }
    {
        if let Some(order) = &self.order {
            if order.stands_before(name, id) {
                return Ok(false);
            }
        }
        self.rules.leads_to(name, id)
    }

    /// Whether what an `extends` of a rule names leads back to that rule, an abstract one.
    pub(crate) fn leads_back(&self, rule: &RawRule, name: &str) -> Result<bool, AllocError>
        requires { Found self.now.rules self.now.order }
        ensures { IfOk result (λ leads. leads ≡ leads_back self.now.rules rule.now name.now) }
    {
        if !rule.is_abstract {
            return Ok(false);
        }
        match &rule.id {
            Some(id) => self.leads_to(name, id.as_str()),
            None => Ok(false),
        }
    }
}
