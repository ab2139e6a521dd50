//! Abstract rules by their ids, in an order.

ghost use Rattle.std.specs.Prelude.{◌≡◌, ◌<◌, [], ◌∷◌, ◌++◌, false, filter, length, slice_get, is_some, IsSome, IsTrue, IfSome, IfOk, OnOk, OnErr};
ghost use Rattle.std.specs.List.{list_any};
ghost use Rattle.std.specs.Option.{option_to_list};
ghost use Rattle.sch_references.specs.Extends.{abstract_rules, is_named};
ghost use Rattle.sch_references.specs.Placed.{IsPlaceOf};
ghost use Rattle.sch_references.specs.inner.Firsts.{with_rule, with_rules};
ghost use Rattle.sch_references.specs.inner.Order.{StandsBefore};

use indexmap::IndexSet;
use sch_model::{RawRule, RawSchema};
use std::alloc::{AllocError, Global};
use std::marker::Model;

/// Rules with ids of their own in some order, seen by contracts as the list of these rules.
///
/// A rule is lent from the schema. A name is found in constant time.
pub struct RuleOrder<'a> {
    alloc: Global,
    ids: IndexSet<String>,
    rules: Vec<&'a RawRule>,
}

impl<'a> Model for RuleOrder<'a> {
    ghost use Rattle.std.specs.Prelude.{◌≡◌, List, Some, map, string_bytes};
    ghost use Rattle.sch_model.specs.declared.raw.RawRule.{RawRule};

    ghost Value = { List RawRule };

    ghost view = { λ o. map (λ rule. rule.now) o.rules.items };

    ghost invariant = { λ o. map (λ rule. rule.id) (map (λ rule. rule.now) o.rules.items) ≡ map (λ id. Some (string_bytes id)) o.ids.keys };
}

impl Drop for RuleOrder<'_> {
    fn drop(self) {
        let RuleOrder {
            alloc: _,
            ids,
            rules,
        } = self;
        drop(ids);
        drop(rules);
    }
}

impl<'a> RuleOrder<'a> {
    /// No rule.
    pub fn new(alloc: Global) -> RuleOrder<'a>
        ensures { result ≡ [] }
    {
        RuleOrder {
            alloc,
            ids: IndexSet::new(alloc),
            rules: Vec::new(alloc),
        }
    }

    /// Where the rules are kept.
    pub(crate) fn allocator(&self) -> Global {
        self.alloc
    }

    /// No rule, in the same memory.
    pub(crate) fn empty(&self) -> RuleOrder<'a>
        ensures { result ≡ [] }
    {
        RuleOrder::new(self.alloc)
    }

    /// How many rules there are.
    pub fn len(&self) -> usize
        ensures { result ≡ length self.now }
    {
        self.rules.len()
    }

    /// The rule at a place, counted from 0.
    pub fn rule(&self, place: usize) -> &'a RawRule
        requires { place < length self.now }
        ensures { slice_get self.now place ≡ Some result.now }
    {
        self.rules[place]
    }

    /// The place of the rule with an id, where there is one.
    pub fn place_of(&self, name: &str) -> Option<usize>
        ensures found { is_some result ≡ is_named self.now name.now }
        ensures place { IfSome result (IsPlaceOf self.now name.now) }
    {
        self.ids.get_index_of(name)
    }

    /// Whether the rule with a name stands before the one with an id.
    pub(crate) fn stands_before(&self, name: &str, id: &str) -> bool
        ensures { IsTrue result → StandsBefore self.now name.now id.now }
    {
        let Some(place) = self.place_of(name) else {
            return false;
        };
        let Some(end) = self.place_of(id) else {
            return false;
        };
        place < end
    }

    /// Adds a rule at the end; without memory the rules stay as they were.
    pub fn push(&mut self, rule: &'a RawRule) -> Result<(), AllocError>
        requires identified { IsSome rule.now.id }
        requires is_new { list_any (is_named self.old) (option_to_list rule.now.id) ≡ false }
        ensures pushed { OnOk result (self.new ≡ self.old ++ rule.now ∷ []) }
        ensures unchanged { OnErr result (self.new ≡ self.old) }
    {
        let Some(id) = &rule.id else {
            return Ok(());
        };
        self.rules.reserve(1)?;
        let id = String::from_str(self.alloc, id.as_str())?;
        self.ids.insert_full(id)?;
        self.rules.push(rule)?;
        Ok(())
    }

    /// Adds a rule at the end, if it has an id that none of the rules has.
    pub(crate) fn add(&mut self, rule: &'a RawRule) -> Result<(), AllocError>
        ensures { OnOk result (self.new ≡ with_rule self.old rule.now) }
    {
        let Some(id) = &rule.id else {
            return Ok(());
        };
        if self.place_of(id.as_str()).is_none() {
            self.push(rule)?;
        }
        Ok(())
    }

    /// Adds each of the rules that is abstract and has an id that none has before it.
    fn add_abstract(&mut self, rules: &'a [RawRule]) -> Result<(), AllocError>
        ensures { OnOk result (self.new ≡ with_rules self.old (filter (λ rule. rule.is_abstract) rules.now)) }
    {
        for rule in rules {
            if rule.is_abstract {
                self.add(rule)?;
            }
        }
        Ok(())
    }

    /// The abstract rules of a schema, each the first with its id.
    pub(crate) fn of(alloc: Global, schema: &'a RawSchema) -> Result<RuleOrder<'a>, AllocError>
        ensures { IfOk result (λ rules. rules ≡ with_rules [] (abstract_rules schema.now)) }
    {
        let mut rules = RuleOrder::new(alloc);
        for pattern in schema.patterns.as_slice() {
            rules.add_abstract(pattern.rules.as_slice())?;
        }
        Ok(rules)
    }
}
