//! The patterns of a schema without abstract parts.

ghost use Rattle.std.specs.Prelude.{◌≡◌, Some, filter, map, not, IfOk, option_map};
ghost use Rattle.sch_references.specs.Extends.{abstract_rules};
ghost use Rattle.sch_references.specs.Order.{IsOrderOf};
ghost use Rattle.sch_expansion.specs.Flat.{bare_pattern, concrete_patterns, flat_pattern, flat_rule, instance_of, pattern_among, pattern_from, text_or_empty};
ghost use Rattle.sch_expansion.specs.inner.Copies.{change_of};
ghost use Rattle.sch_expansion.specs.inner.FlatBy.{flat_by};

use crate::copies::{Copier, copy_labels, copy_option};
use crate::expansion::Expansion;
use crate::filling::Filling;
use crate::origins::Origins;
use sch_base::{ItemList, Text};
use sch_model::{
    FlatPattern, FlatPatternList, FlatRule, FlatRuleList, RawPattern, RawRule, RawSchema,
};
use sch_references::RuleOrder;
use std::alloc::{AllocError, Global};

/// What patterns refer to: the abstract rules of their schema, and its abstract patterns.
#[derive(Drop)]
struct Flattener<'s, 'o, 'a> {
    alloc: Global,
    expansion: Expansion<'o, 'a>,
    origins: Origins<'s>,
}

/// What a rule has beside its lets and assertions.
#[derive(Drop)]
struct RuleHead {
    id: Option<Text>,
    context: Text,
    subject: Option<Text>,
    role: Option<Text>,
    flag: Option<Text>,
}

impl<'s, 'o, 'a> Flattener<'s, 'o, 'a> {
    /// The context, the subject and the labels of a rule.
    fn rule_head(&self, copier: &Copier<'_>, rule: &RawRule) -> Result<RuleHead, AllocError>
        ensures context { IfOk result (λ head. head.context ≡ change_of copier.now (text_or_empty rule.now.context)) }
        ensures subject { IfOk result (λ head. head.subject ≡ option_map (change_of copier.now) rule.now.subject) }
        ensures id { IfOk result (λ head. head.id ≡ rule.now.id) }
        ensures role { IfOk result (λ head. head.role ≡ rule.now.role) }
        ensures flag { IfOk result (λ head. head.flag ≡ rule.now.flag) }
    {
        let context = copier.expression_or_empty(&rule.context)?;
        match copier.optional_expression(&rule.subject) {
            Ok(subject) => match copy_labels(self.alloc, &rule.id, &rule.role, &rule.flag) {
                Ok(labels) => Ok(RuleHead {
                    id: labels.id,
                    context,
                    subject,
                    role: labels.role,
                    flag: labels.flag,
                }),
                Err(error) => {
                    drop(subject);
                    drop(context);
                    Err(error)
                }
            },
            Err(error) => {
                drop(context);
                Err(error)
            }
        }
    }

    /// A rule, with what it extends.
    fn rule(&self, copier: &Copier<'_>, rule: &RawRule) -> Result<FlatRule, AllocError>
        ensures { IfOk result (λ flat. flat ≡ flat_rule self.now.expansion (change_of copier.now) rule.now) }
    {
        let head = self.rule_head(copier, rule)?;
        match self.expansion.parts(copier, rule.items.as_slice()) {
            Ok(parts) => Ok(FlatRule {
                node: rule.node,
                id: head.id,
                context: head.context,
                subject: head.subject,
                role: head.role,
                flag: head.flag,
                lets: parts.lets,
                assertions: parts.assertions,
            }),
            Err(error) => {
                drop(head);
                Err(error)
            }
        }
    }

    /// The rules that aren't abstract.
    fn rules(&self, copier: &Copier<'_>, rules: &[RawRule]) -> Result<FlatRuleList, AllocError>
        ensures { IfOk result (λ flat. flat ≡ map (flat_rule self.now.expansion (change_of copier.now)) (filter (λ rule. not rule.is_abstract) rules.now)) }
    {
        let mut flat = ItemList::new(self.alloc);
        for rule in rules {
            if !rule.is_abstract {
                flat.push(self.rule(copier, rule)?)?;
            }
        }
        Ok(flat)
    }

    /// A pattern with the lets and the rules of another one, or its own.
    fn pattern_from(
        &self,
        copier: &Copier<'_>,
        pattern: &RawPattern,
        origin: &RawPattern,
    ) -> Result<FlatPattern, AllocError>
        ensures { IfOk result (λ flat. flat ≡ pattern_from self.now.expansion (change_of copier.now) pattern.now origin.now) }
    {
        let id = copy_option(self.alloc, &pattern.id)?;
        let lets = copier.lets(origin.lets.as_slice())?;
        let rules = self.rules(copier, origin.rules.as_slice())?;
        Ok(FlatPattern {
            node: pattern.node,
            id,
            lets,
            rules,
        })
    }

    /// A pattern without lets and rules.
    fn bare_pattern(&self, pattern: &RawPattern) -> Result<FlatPattern, AllocError>
        ensures { IfOk result (λ flat. flat ≡ bare_pattern pattern.now) }
    {
        Ok(FlatPattern {
            node: pattern.node,
            id: copy_option(self.alloc, &pattern.id)?,
            lets: ItemList::new(self.alloc),
            rules: ItemList::new(self.alloc),
        })
    }

    /// An instance of an abstract pattern.
    fn filled_pattern(
        &self,
        pattern: &RawPattern,
        origin: &RawPattern,
    ) -> Result<FlatPattern, AllocError>
        ensures { IfOk result (λ flat. flat ≡ instance_of self.now.expansion pattern.now (Some origin.now)) }
    {
        match Filling::new(self.alloc, pattern.params.as_slice()) {
            Ok(filling) => {
                let copier = Copier::new(self.alloc, Some(filling));
                self.pattern_from(&copier, pattern, origin)
            }
            Err(error) => Err(error),
        }
    }

    /// An instance of the abstract pattern with an id.
    fn instance(&self, pattern: &RawPattern, name: &str) -> Result<FlatPattern, AllocError>
        ensures { IfOk result (λ flat. flat ≡ instance_of self.now.expansion pattern.now (pattern_among self.now.origins name.now)) }
    {
        match self.origins.named(name) {
            Some(origin) => self.filled_pattern(pattern, origin),
            None => self.bare_pattern(pattern),
        }
    }

    /// A pattern.
    fn pattern(&self, pattern: &RawPattern) -> Result<FlatPattern, AllocError>
        ensures { IfOk result (λ flat. flat ≡ flat_by self.now.expansion self.now.origins pattern.now) }
    {
        match &pattern.is_a {
            Some(name) => self.instance(pattern, name.as_str()),
            None => self.pattern_from(&Copier::new(self.alloc, None), pattern, pattern),
        }
    }

    /// The patterns that aren't abstract.
    fn patterns(&self, patterns: &[RawPattern]) -> Result<FlatPatternList, AllocError>
        ensures { IfOk result (λ flat. flat ≡ map (flat_by self.now.expansion self.now.origins) (filter (λ pattern. not pattern.is_abstract) patterns.now)) }
    {
        let mut flat = ItemList::new(self.alloc);
        for pattern in patterns {
            if !pattern.is_abstract {
                flat.push(self.pattern(pattern)?)?;
            }
        }
        Ok(flat)
    }
}

/// The patterns of a schema without abstract parts: each `extends` is replaced by what the abstract rule stands for, each
/// instance takes the lets and rules of its abstract pattern with the parameters replaced, and what is abstract is left out
/// (ISO/IEC 19757-3, section 5.4). Only want of memory fails.
pub fn flat_patterns(
    alloc: Global,
    schema: &RawSchema,
    rules: &RuleOrder<'_>,
) -> Result<FlatPatternList, AllocError>
    requires ordered { IsOrderOf (abstract_rules schema.now) rules.now }
    ensures { IfOk result (λ flat. flat ≡ map (flat_pattern schema.now) (concrete_patterns schema.now)) }
{
    match (
        Expansion::new(alloc, rules),
        Origins::new(alloc, schema.patterns.as_slice()),
    ) {
        (Ok(expansion), Ok(origins)) => {
            let flattener = Flattener {
                alloc,
                expansion,
                origins,
            };
            flattener.patterns(schema.patterns.as_slice())
        }
        (Err(error), _) | (_, Err(error)) => Err(error),
    }
}
