//! The plan of a validation: a schema compiled for one phase.

ghost use Rattle.std.specs.Prelude.{◌≡◌, ◌<◌, ◌^◌, [], ◌∷◌, ◌++◌, Some, length, option_map, slice_get, OnOk, OnErr};
ghost use Rattle.std.specs.Option.{option_copied};
ghost use Rattle.sch_compiled.specs.Patterns.{with_last_rule};
ghost use Rattle.sch_compiled.specs.Plan.{empty_plan, rules_of};

use crate::parts::{LetInForce, LetInForceList, PlanNs, PlanNsList, PlanRule};
use crate::patterns::PlanPatternList;
use sch_base::{ItemList, Text};
use std::alloc::{AllocError, Global};
use xp_typed_tree::Typed;

/// A schema compiled for one phase (ISO/IEC 19757-3, clause 6): what the report says of it, its lets in force and its
/// active patterns with their rules.
pub struct Plan {
    pub title: Option<Text>,
    pub schema_version: Option<Text>,
    /// The id of the chosen phase; None where all patterns are active.
    pub phase: Option<Text>,
    /// The prefixes of the schema, in its order.
    pub namespaces: PlanNsList,
    /// The lets of the schema, then those of the phase, then those of the active patterns: each at its slot.
    pub lets: LetInForceList,
    /// The active patterns, in the order of the schema.
    pub patterns: PlanPatternList,
}

impl Drop for Plan {
    fn drop(self) {
        let Plan {
            title,
            schema_version,
            phase,
            namespaces,
            lets,
            patterns,
        } = self;
        drop(title);
        drop(schema_version);
        drop(phase);
        drop(namespaces);
        drop(lets);
        drop(patterns);
    }
}

impl Plan {
    /// The plan that holds nothing.
    pub fn new(alloc: Global) -> Plan
        ensures { result ≡ empty_plan }
    {
        Plan {
            title: None,
            schema_version: None,
            phase: None,
            namespaces: ItemList::new(alloc),
            lets: ItemList::new(alloc),
            patterns: PlanPatternList::new(alloc),
        }
    }

    /// The title of the schema, where it has one.
    pub fn title(&self) -> Option<&str>
        ensures { option_copied result ≡ self.now.title }
    {
        lent(&self.title)
    }

    /// The version that the schema says it has.
    pub fn schema_version(&self) -> Option<&str>
        ensures { option_copied result ≡ self.now.schema_version }
    {
        lent(&self.schema_version)
    }

    /// The id of the chosen phase; None where all patterns are active.
    pub fn phase(&self) -> Option<&str>
        ensures { option_copied result ≡ self.now.phase }
    {
        lent(&self.phase)
    }

    /// How many prefixes the schema has.
    pub fn ns_count(&self) -> u32
        requires { length self.now.namespaces < 2 ^ 32 }
        ensures { result ≡ length self.now.namespaces }
    {
        self.namespaces.len() as u32
    }

    /// A prefix, by its place counted from 0.
    pub fn ns_prefix(&self, i: u32) -> &str
        requires { i < length self.now.namespaces }
        ensures { option_map (λ ns. ns.prefix) (slice_get self.now.namespaces i) ≡ Some result.now }
    {
        self.namespaces.as_slice()[i as usize].prefix.as_str()
    }

    /// The namespace of a prefix, by the place of the prefix counted from 0.
    pub fn ns_uri(&self, i: u32) -> &str
        requires { i < length self.now.namespaces }
        ensures { option_map (λ ns. ns.uri) (slice_get self.now.namespaces i) ≡ Some result.now }
    {
        self.namespaces.as_slice()[i as usize].uri.as_str()
    }

    /// How many lets are in force.
    pub fn let_count(&self) -> u32
        requires { length self.now.lets < 2 ^ 32 }
        ensures { result ≡ length self.now.lets }
    {
        self.lets.len() as u32
    }

    /// The name of the let in force with a slot.
    pub fn let_name(&self, l: u32) -> &str
        requires { l < length self.now.lets }
        ensures { option_map (λ t. t.name) (slice_get self.now.lets l) ≡ Some result.now }
    {
        self.lets.as_slice()[l as usize].name.as_str()
    }

    /// Which active pattern, counted from 0, the let in force with a slot belongs to; None where it belongs to the schema
    /// or the phase.
    pub fn let_pattern(&self, l: u32) -> Option<u32>
        requires { l < length self.now.lets }
        ensures { option_map (λ t. t.pattern) (slice_get self.now.lets l) ≡ Some result }
    {
        self.lets.as_slice()[l as usize].pattern
    }

    /// The expression of the let in force with a slot.
    pub fn let_expr(&self, l: u32) -> &Typed
        requires { l < length self.now.lets }
        ensures { option_map (λ t. t.expr) (slice_get self.now.lets l) ≡ Some result.now }
    {
        &self.lets.as_slice()[l as usize].expr
    }

    /// How many patterns are active.
    pub fn pattern_count(&self) -> u32
        requires { length self.now.patterns < 2 ^ 32 }
        ensures { result ≡ length self.now.patterns }
    {
        self.patterns.len() as u32
    }

    /// The id of an active pattern, counted from 0, where it has one.
    pub fn pattern_id(&self, p: u32) -> Option<&str>
        requires { p < length self.now.patterns }
        ensures { option_map (λ pattern. pattern.id) (slice_get self.now.patterns p) ≡ Some (option_copied result) }
    {
        lent(&self.patterns.as_slice()[p as usize].id)
    }

    /// How many rules an active pattern has; patterns are counted from 0.
    pub fn rule_count(&self, p: u32) -> u32
        requires active { p < length self.now.patterns }
        requires few { length (rules_of self.now p) < 2 ^ 32 }
        ensures { result ≡ length (rules_of self.now p) }
    {
        self.patterns.as_slice()[p as usize].rules.len() as u32
    }

    /// A rule of an active pattern, both counted from 0.
    pub fn rule(&self, p: u32, r: u32) -> &PlanRule
        requires active { p < length self.now.patterns }
        requires there { r < length (rules_of self.now p) }
        ensures { slice_get (rules_of self.now p) r ≡ Some result.now }
    {
        &self.patterns.as_slice()[p as usize].rules.as_slice()[r as usize]
    }

    /// Says what the report tells of the schema, in place of what was said before.
    pub fn set_head(
        &mut self,
        title: Option<Text>,
        schema_version: Option<Text>,
        phase: Option<Text>,
    )
        ensures { self.new ≡ record self.old { title = title; schema_version = schema_version; phase = phase } }
    {
        self.title = title;
        self.schema_version = schema_version;
        self.phase = phase;
    }

    /// Puts a prefix at the end.
    pub fn push_ns(&mut self, prefix: Text, uri: Text) -> Result<(), AllocError>
        ensures pushed { OnOk result (self.new ≡ record self.old { namespaces = self.old.namespaces ++ record { prefix = prefix; uri = uri } ∷ [] }) }
        ensures unchanged { OnErr result (self.new ≡ self.old) }
    {
        self.namespaces.push(PlanNs { prefix, uri })
    }

    /// Puts a let in force at the end.
    pub fn push_let(
        &mut self,
        pattern: Option<u32>,
        name: Text,
        expr: Typed,
    ) -> Result<(), AllocError>
        ensures pushed { OnOk result (self.new ≡ record self.old { lets = self.old.lets ++ record { pattern = pattern; name = name; expr = expr } ∷ [] }) }
        ensures unchanged { OnErr result (self.new ≡ self.old) }
    {
        self.lets.push(LetInForce {
            pattern,
            name,
            expr,
        })
    }

    /// Puts an active pattern without rules at the end.
    pub fn push_pattern(&mut self, id: Option<Text>) -> Result<(), AllocError>
        ensures pushed { OnOk result (self.new ≡ record self.old { patterns = self.old.patterns ++ record { id = id; rules = [] } ∷ [] }) }
        ensures unchanged { OnErr result (self.new ≡ self.old) }
    {
        self.patterns.push(id)
    }

    /// Puts a rule at the end of the last active pattern.
    pub fn push_rule(&mut self, rule: PlanRule) -> Result<(), AllocError>
        requires { 0 < length self.old.patterns }
        ensures pushed { OnOk result (self.new ≡ record self.old { patterns = with_last_rule self.old.patterns rule }) }
        ensures unchanged { OnErr result (self.new ≡ self.old) }
    {
        self.patterns.push_rule(rule)
    }
}

/// The text itself, lent, where there is one.
fn lent(text: &Option<Text>) -> Option<&str>
    ensures { option_copied result ≡ text.now }
{
    match text {
        Some(text) => Some(text.as_str()),
        None => None,
    }
}
