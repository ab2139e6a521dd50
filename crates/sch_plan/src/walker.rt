//! The walk over patterns, rules and assertions.

ghost use Rattle.std.specs.Prelude.{◌≡◌, ℕ, List, Option, OnOk};
ghost use Rattle.sch_plan.specs.Rules.{all_patterns, named, one_assertion, one_pattern, one_rule, texts};
ghost use Rattle.sch_phases.specs.Walk.{Answers, every};
ghost use Rattle.sch_plan.specs.inner.Ids.{found_in, kept_in};
ghost use Rattle.sch_plan.specs.inner.Moved.{moved};
ghost use Rattle.sch_plan.specs.inner.Parts.{asserted, ruled, written_rule};

use crate::ids::NotesById;
use crate::scopes::Scopes;
use doc_tree::NodeId;
use indexmap::IndexMap;
use sch_base::{ItemList, Text};
use sch_compiled::{
    PlanAssert, PlanAssertList, PlanDiagnosticList, PlanLetList, PlanPartList, PlanRule,
    PlanRuleList,
};
use sch_model::{
    Assertion, AssertionList, Diagnostic, FlatPattern, FlatPatternList, FlatRule, FlatRuleList,
    LetDeclList, SchemaError,
};
use std::alloc::Global;
use xp_typed_tree::{Typed, TypedPattern};

/// An active pattern with its lets.
#[derive(Drop)]
pub(crate) struct PatternParts {
    pub(crate) id: Option<Text>,
    pub(crate) lets: PlanLetList,
    pub(crate) rules: PlanRuleList,
}

pub(crate) type PatternPartsList = ItemList<PatternParts>;

/// What the texts of an assertion are compiled to.
#[derive(Drop)]
pub(crate) struct AssertionTexts {
    pub(crate) diagnostics: PlanDiagnosticList,
    pub(crate) properties: PlanDiagnosticList,
    pub(crate) message: PlanPartList,
}

/// What the expressions of an assertion are compiled to.
#[derive(Drop)]
struct AssertionParts {
    test: Typed,
    subject: Option<Typed>,
    texts: AssertionTexts,
}

/// What the expressions of a rule are compiled to.
#[derive(Drop)]
struct RuleParts {
    context: TypedPattern,
    lets: PlanLetList,
    subject: Option<Typed>,
    assertions: PlanAssertList,
}

/// A walk over patterns: what is seen, the diagnostics and properties by their ids, and the number of lets in force.
///
/// Costs time linear in the texts of what is met, those of a diagnostic or a property for each assertion that names it.
#[derive(Drop)]
pub(crate) struct Walker {
    pub(crate) alloc: Global,
    pub(crate) seen: Scopes,
    pub(crate) notes: NotesById,
    pub(crate) count: u32,
}

impl Walker {
    /// Those that an assertion names, of the diagnostics or the properties.
    fn named(
        &self,
        found: &IndexMap<String, Diagnostic>,
        ids: &[Text],
    ) -> Result<PlanDiagnosticList, SchemaError>
        ensures { Answers (named self.now.seen (found_in found.now.entries) ids.now) result }
    {
        let mut list = ItemList::new(self.alloc);
        for id in ids {
            match found.get(id.as_str()) {
                Some(note) => list.push(self.seen.one_diagnostic(self.alloc, note)?)?,
                None => {}
            }
        }
        Ok(list)
    }

    /// What the texts of an assertion are compiled to.
    fn texts(&self, its: &Assertion) -> Result<AssertionTexts, SchemaError>
        ensures { Answers (texts (kept_in self.now.notes) self.now.seen its.now) result }
    {
        let diagnostics = self.named(&self.notes.diagnostics, its.diagnostics.as_slice())?;
        match self.named(&self.notes.properties, its.properties.as_slice()) {
            Ok(properties) => match self.seen.message(self.alloc, its.message.as_slice()) {
                Ok(message) => Ok(AssertionTexts {
                    diagnostics,
                    properties,
                    message,
                }),
                Err(error) => {
                    drop(properties);
                    drop(diagnostics);
                    Err(error)
                }
            },
            Err(error) => {
                drop(diagnostics);
                Err(error)
            }
        }
    }

    /// What an assertion is compiled to.
    fn assertion_parts(&self, its: &Assertion) -> Result<AssertionParts, SchemaError>
        ensures { Answers (one_assertion (kept_in self.now.notes) self.now.seen its.now) (asserted its.now result) }
    {
        let test = self.seen.expression(its.node, its.test.as_str())?;
        match self.seen.optional_path(its.node, &its.subject) {
            Ok(subject) => match self.texts(its) {
                Ok(texts) => Ok(AssertionParts {
                    test,
                    subject,
                    texts,
                }),
                Err(error) => {
                    drop(subject);
                    drop(test);
                    Err(error)
                }
            },
            Err(error) => {
                drop(test);
                Err(error)
            }
        }
    }

    /// An assertion. Its texts are moved, but for those of its message.
    fn one_assertion(&self, its: Assertion) -> Result<PlanAssert, SchemaError>
        ensures { Answers (one_assertion (kept_in self.now.notes) self.now.seen its) result }
    {
        match self.assertion_parts(&its) {
            Ok(parts) => Ok(PlanAssert {
                report: its.report,
                id: its.id,
                role: its.role,
                flag: its.flag,
                test_text: its.test,
                test: parts.test,
                subject: parts.subject,
                diagnostics: parts.texts.diagnostics,
                properties: parts.texts.properties,
                message: parts.texts.message,
            }),
            Err(error) => {
                drop(its);
                Err(error)
            }
        }
    }

    /// The assertions of a rule.
    fn all_assertions(&self, assertions: AssertionList) -> Result<PlanAssertList, SchemaError>
        ensures { Answers (every (one_assertion (kept_in self.now.notes) self.now.seen) assertions) result }
    {
        let mut list = ItemList::new(self.alloc);
        for its in assertions.into_vec() {
            list.push(self.one_assertion(its)?)?;
        }
        Ok(list)
    }

    /// What a rule is compiled to. Its lets are seen no more after it.
    fn rule_parts(
        &mut self,
        node: NodeId,
        text: &str,
        subject: &Option<Text>,
        lets: LetDeclList,
        assertions: AssertionList,
    ) -> Result<RuleParts, SchemaError>
        ensures compiled { (id role flag : Option (List ℕ)) → Answers (one_rule (kept_in self.old.notes) self.old.count self.old.seen (written_rule node text.now subject.now lets assertions id role flag)) (ruled text.now id role flag result) }
        ensures kept { OnOk result (self.new ≡ self.old) }
    {
        let mark = self.seen.mark();
        let next = self.seen.next();
        let context = self.seen.match_pattern(node, text)?;
        self.seen.go_on_at(self.count);
        let lets = self.seen.all_lets(self.alloc, lets)?;
        let subject = self.seen.optional_path(node, subject)?;
        let assertions = self.all_assertions(assertions)?;
        self.seen.cut(mark);
        self.seen.go_on_at(next);
        Ok(RuleParts {
            context,
            lets,
            subject,
            assertions,
        })
    }

    /// A rule, whose lets are seen no more after it. Its texts are moved.
    fn one_rule(&mut self, rule: FlatRule) -> Result<PlanRule, SchemaError>
        ensures compiled { Answers (one_rule (kept_in self.old.notes) self.old.count self.old.seen rule) result }
        ensures kept { OnOk result (self.new ≡ self.old) }
    {
        let FlatRule {
            node,
            id,
            context,
            subject,
            role,
            flag,
            lets,
            assertions,
        } = rule;
        match self.rule_parts(node, context.as_str(), &subject, lets, assertions) {
            Ok(parts) => {
                drop(subject);
                Ok(PlanRule {
                    id,
                    context_text: context,
                    context: parts.context,
                    subject: parts.subject,
                    role,
                    flag,
                    lets: parts.lets,
                    assertions: parts.assertions,
                })
            }
            Err(error) => {
                drop(flag);
                drop(role);
                drop(subject);
                drop(context);
                drop(id);
                Err(error)
            }
        }
    }

    /// The rules of a pattern.
    fn all_rules(&mut self, rules: FlatRuleList) -> Result<PlanRuleList, SchemaError>
        ensures compiled { Answers (every (one_rule (kept_in self.old.notes) self.old.count self.old.seen) rules) result }
        ensures kept { OnOk result (self.new ≡ self.old) }
    {
        let mut list = ItemList::new(self.alloc);
        for rule in rules.into_vec() {
            list.push(self.one_rule(rule)?)?;
        }
        Ok(list)
    }

    /// A pattern, whose lets are seen no more after it.
    fn one_pattern(&mut self, pattern: FlatPattern) -> Result<PatternParts, SchemaError>
        ensures compiled { Answers (one_pattern (kept_in self.old.notes) self.old.count self.old.seen pattern) (moved self.new.seen result) }
        ensures kept { OnOk result (self.new ≡ record self.old { seen = self.new.seen }) }
    {
        let mark = self.seen.mark();
        let lets = self.seen.all_lets(self.alloc, pattern.lets)?;
        let rules = self.all_rules(pattern.rules)?;
        self.seen.cut(mark);
        Ok(PatternParts {
            id: pattern.id,
            lets,
            rules,
        })
    }

    /// The active patterns.
    pub(crate) fn all_patterns(
        &mut self,
        patterns: FlatPatternList,
    ) -> Result<PatternPartsList, SchemaError>
        ensures { Answers (all_patterns (kept_in self.old.notes) self.old.count self.old.seen patterns) (moved self.new.seen result) }
    {
        let mut list = ItemList::new(self.alloc);
        for pattern in patterns.into_vec() {
            list.push(self.one_pattern(pattern)?)?;
        }
        Ok(list)
    }
}
