//! Parts of a schema, copied with their expressions as they are or with the parameters of an instance replaced.

ghost use Rattle.std.specs.Prelude.{◌≡◌, ◌++◌, [], map, IfOk, OnOk, option_map};
ghost use Rattle.sch_expansion.specs.Flat.{assertion_in, assertion_with, let_in, let_with, part_with, text_or_empty};
ghost use Rattle.sch_expansion.specs.inner.Copies.{change_of};

use crate::filling::Filling;
use sch_base::{ItemList, Text};
use sch_model::{
    Assertion, AssertionList, LetDecl, LetDeclList, Part, PartList, RawItem, TextList,
};
use std::alloc::{AllocError, Global};
use std::marker::Model;

/// How expressions are copied, seen by contracts as the parameters that are replaced, if any are.
#[derive(Drop)]
pub(crate) struct Copier<'a> {
    alloc: Global,
    filling: Option<Filling<'a>>,
}

impl<'a> Model for Copier<'a> {
    ghost use Rattle.std.specs.Prelude.{List, Option};
    ghost use Rattle.sch_model.specs.declared.raw.Param.{Param};

    ghost Value = { Option (List Param) };

    ghost view = { λ c. c.filling };
}

/// A text of its own, where there is one.
pub(crate) fn copy_option(alloc: Global, text: &Option<Text>) -> Result<Option<Text>, AllocError>
    ensures { IfOk result (λ its. its ≡ text.now) }
{
    match text {
        Some(text) => Ok(Some(Text::copy(alloc, text.as_str())?)),
        None => Ok(None),
    }
}

/// An id, a role and a flag, as rules and assertions have them.
#[derive(Drop)]
pub(crate) struct Labels {
    pub(crate) id: Option<Text>,
    pub(crate) role: Option<Text>,
    pub(crate) flag: Option<Text>,
}

/// An id, a role and a flag of their own.
pub(crate) fn copy_labels(
    alloc: Global,
    id: &Option<Text>,
    role: &Option<Text>,
    flag: &Option<Text>,
) -> Result<Labels, AllocError>
    ensures id { IfOk result (λ its. its.id ≡ id.now) }
    ensures role { IfOk result (λ its. its.role ≡ role.now) }
    ensures flag { IfOk result (λ its. its.flag ≡ flag.now) }
{
    let id = copy_option(alloc, id)?;
    match copy_option(alloc, role) {
        Ok(role) => match copy_option(alloc, flag) {
            Ok(flag) => Ok(Labels { id, role, flag }),
            Err(error) => {
                drop(role);
                drop(id);
                Err(error)
            }
        },
        Err(error) => {
            drop(id);
            Err(error)
        }
    }
}

/// Texts of their own.
fn copy_texts(alloc: Global, texts: &[Text]) -> Result<TextList, AllocError>
    ensures { IfOk result (λ its. its ≡ texts.now) }
{
    let mut its = ItemList::new(alloc);
    for text in texts {
        its.push(Text::copy(alloc, text.as_str())?)?;
    }
    Ok(its)
}

/// What an assertion tells besides its message, copied: where it tells it, and the ids that it names.
#[derive(Drop)]
struct Named {
    subject: Option<Text>,
    diagnostics: TextList,
    properties: TextList,
}

/// What an assertion tests and tells, copied.
#[derive(Drop)]
struct Told {
    test: Text,
    named: Named,
    message: PartList,
}

impl<'a> Copier<'a> {
    /// Expressions are copied like this.
    pub(crate) fn new(alloc: Global, filling: Option<Filling<'a>>) -> Copier<'a>
        ensures { result ≡ filling.entry }
    {
        Copier { alloc, filling }
    }

    /// An expression.
    fn expression(&self, text: &str) -> Result<Text, AllocError>
        ensures { IfOk result (λ its. its ≡ change_of self.now text.now) }
    {
        match &self.filling {
            Some(filling) => filling.fill(self.alloc, text),
            None => Text::copy(self.alloc, text),
        }
    }

    /// An expression, empty where there is none.
    pub(crate) fn expression_or_empty(&self, text: &Option<Text>) -> Result<Text, AllocError>
        ensures { IfOk result (λ its. its ≡ change_of self.now (text_or_empty text.now)) }
    {
        match text {
            Some(text) => self.expression(text.as_str()),
            None => self.expression(""),
        }
    }

    /// An expression, where there is one.
    pub(crate) fn optional_expression(
        &self,
        text: &Option<Text>,
    ) -> Result<Option<Text>, AllocError>
        ensures { IfOk result (λ its. its ≡ option_map (change_of self.now) text.now) }
    {
        match text {
            Some(text) => Ok(Some(self.expression(text.as_str())?)),
            None => Ok(None),
        }
    }

    /// A let.
    fn let_decl(&self, decl: &LetDecl) -> Result<LetDecl, AllocError>
        ensures { IfOk result (λ its. its ≡ let_with (change_of self.now) decl.now) }
    {
        let name = Text::copy(self.alloc, decl.name.as_str())?;
        let value = self.expression(decl.value.as_str())?;
        Ok(LetDecl {
            node: decl.node,
            name,
            value,
        })
    }

    /// Lets.
    pub(crate) fn lets(&self, decls: &[LetDecl]) -> Result<LetDeclList, AllocError>
        ensures { IfOk result (λ its. its ≡ map (let_with (change_of self.now)) decls.now) }
    {
        let mut its = ItemList::new(self.alloc);
        for decl in decls {
            its.push(self.let_decl(decl)?)?;
        }
        Ok(its)
    }

    /// A part of a message.
    fn part(&self, part: &Part) -> Result<Part, AllocError>
        ensures { IfOk result (λ its. its ≡ part_with (change_of self.now) part.now) }
    {
        match part {
            Part::Chars(text) => Ok(Part::Chars(Text::copy(self.alloc, text.as_str())?)),
            Part::ValueOf { node, select } => Ok(Part::ValueOf {
                node: *node,
                select: self.expression(select.as_str())?,
            }),
            Part::Name { node, path } => Ok(Part::Name {
                node: *node,
                path: self.optional_expression(path)?,
            }),
        }
    }

    /// A message.
    fn parts(&self, parts: &[Part]) -> Result<PartList, AllocError>
        ensures { IfOk result (λ its. its ≡ map (part_with (change_of self.now)) parts.now) }
    {
        let mut its = ItemList::new(self.alloc);
        for part in parts {
            its.push(self.part(part)?)?;
        }
        Ok(its)
    }

    /// What an assertion tells besides its message.
    fn named(&self, assertion: &Assertion) -> Result<Named, AllocError>
        ensures subject { IfOk result (λ its. its.subject ≡ option_map (change_of self.now) assertion.now.subject) }
        ensures diagnostics { IfOk result (λ its. its.diagnostics ≡ assertion.now.diagnostics) }
        ensures properties { IfOk result (λ its. its.properties ≡ assertion.now.properties) }
    {
        let subject = self.optional_expression(&assertion.subject)?;
        match copy_texts(self.alloc, assertion.diagnostics.as_slice()) {
            Ok(diagnostics) => match copy_texts(self.alloc, assertion.properties.as_slice()) {
                Ok(properties) => Ok(Named {
                    subject,
                    diagnostics,
                    properties,
                }),
                Err(error) => {
                    drop(diagnostics);
                    drop(subject);
                    Err(error)
                }
            },
            Err(error) => {
                drop(subject);
                Err(error)
            }
        }
    }

    /// What an assertion tests and tells.
    fn told(&self, assertion: &Assertion) -> Result<Told, AllocError>
        ensures test { IfOk result (λ its. its.test ≡ change_of self.now assertion.now.test) }
        ensures subject { IfOk result (λ its. its.named.subject ≡ option_map (change_of self.now) assertion.now.subject) }
        ensures diagnostics { IfOk result (λ its. its.named.diagnostics ≡ assertion.now.diagnostics) }
        ensures properties { IfOk result (λ its. its.named.properties ≡ assertion.now.properties) }
        ensures message { IfOk result (λ its. its.message ≡ map (part_with (change_of self.now)) assertion.now.message) }
    {
        let test = self.expression(assertion.test.as_str())?;
        match self.named(assertion) {
            Ok(named) => match self.parts(assertion.message.as_slice()) {
                Ok(message) => Ok(Told {
                    test,
                    named,
                    message,
                }),
                Err(error) => {
                    drop(named);
                    drop(test);
                    Err(error)
                }
            },
            Err(error) => {
                drop(test);
                Err(error)
            }
        }
    }

    /// An assertion.
    fn assertion(&self, assertion: &Assertion) -> Result<Assertion, AllocError>
        ensures { IfOk result (λ its. its ≡ assertion_with (change_of self.now) assertion.now) }
    {
        let told = self.told(assertion)?;
        match copy_labels(self.alloc, &assertion.id, &assertion.role, &assertion.flag) {
            Ok(labels) => Ok(Assertion {
                node: assertion.node,
                report: assertion.report,
                id: labels.id,
                role: labels.role,
                flag: labels.flag,
                test: told.test,
                subject: told.named.subject,
                diagnostics: told.named.diagnostics,
                properties: told.named.properties,
                message: told.message,
            }),
            Err(error) => {
                drop(told);
                Err(error)
            }
        }
    }
}

/// What a rule holds: its lets in order, and its assertions in order.
#[derive(Drop)]
pub(crate) struct RuleParts {
    pub(crate) lets: LetDeclList,
    pub(crate) assertions: AssertionList,
}

impl RuleParts {
    /// No let and no assertion.
    pub(crate) fn new(alloc: Global) -> RuleParts
        ensures lets { result.lets ≡ [] }
        ensures assertions { result.assertions ≡ [] }
    {
        RuleParts {
            lets: ItemList::new(alloc),
            assertions: ItemList::new(alloc),
        }
    }

    /// Copies an item to its end, but for an `extends`.
    pub(crate) fn push(&mut self, copier: &Copier<'_>, item: &RawItem) -> Result<(), AllocError>
        ensures lets { OnOk result (self.new.lets ≡ self.old.lets ++ map (let_with (change_of copier.now)) (let_in item.now)) }
        ensures assertions { OnOk result (self.new.assertions ≡ self.old.assertions ++ map (assertion_with (change_of copier.now)) (assertion_in item.now)) }
    {
        match item {
            RawItem::Let(its) => self.lets.push(copier.let_decl(its)?),
            RawItem::Assertion(its) => self.assertions.push(copier.assertion(its)?),
            RawItem::Extends { .. } => Ok(()),
        }
    }
}
