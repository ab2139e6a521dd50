//! The patterns that a document says, with their rules and assertions, and its diagnostics and properties.

ghost use Rattle.std.specs.Prelude.{◌≡◌, ◌∷◌, [], ◌++◌, codes, IfOk, OnOk};
ghost use Rattle.std.specs.List.{flat_map};
ghost use Rattle.doc_tree.specs.Table.{kids_of};
ghost use Rattle.sch_model.specs.declared.raw.RawItem.TheVariants as item;
ghost use Rattle.sch_rules.specs.Attributes.{said, said_text};
ghost use Rattle.sch_rules.specs.declared.word.Word.TheVariants as word;
ghost use Rattle.sch_rules.specs.RawSchema.{assertion_of, diagnostic_of, ids_in, item_at, let_of, message_of, notes_at, pattern_of, read_if, read_kids, rule_of};
ghost use Rattle.sch_source.specs.Counts.{Counts, Stands};

use crate::ids::ids_in;
use crate::source::Source;
use crate::values::put;
use crate::words::is_word;
use doc_tree::NodeId;
use sch_base::{ItemList, Text};
use sch_model::{
    Assertion, Diagnostic, DiagnosticList, RawItem, RawItemList, RawPattern, RawPatternList,
    RawRule, RawRuleList, TextList,
};
use sch_rules::Word;
use std::alloc::AllocError;

impl Source<'_> {
    /// Reads the labels of a rule or an assertion into their places.
    fn read_labels(
        &self,
        id: &mut Option<Text>,
        role: &mut Option<Text>,
        flag: &mut Option<Text>,
        n: NodeId,
    ) -> Result<(), AllocError>
        ensures id { OnOk result (id.new ≡ said self.now.tree.now.nodes n (codes "id")) }
        ensures role { OnOk result (role.new ≡ said self.now.tree.now.nodes n (codes "role")) }
        ensures flag { OnOk result (flag.new ≡ said self.now.tree.now.nodes n (codes "flag")) }
    {
        self.read_optional(id, n, "id")?;
        self.read_optional(role, n, "role")?;
        self.read_optional(flag, n, "flag")
    }

    /// An assert, or a report.
    fn assertion(&self, report: bool, n: NodeId) -> Result<Assertion, AllocError>
        requires { Stands self.now.tree.now.nodes n }
        ensures { IfOk result (λ assertion. assertion ≡ assertion_of self.now.tree.now.nodes report n) }
    {
        let test = self.text(n, "test")?;
        let mut assertion = Assertion {
            node: n,
            report,
            id: None,
            role: None,
            flag: None,
            test,
            subject: None,
            diagnostics: ItemList::new(self.alloc),
            properties: ItemList::new(self.alloc),
            message: ItemList::new(self.alloc),
        };
        match self.read_assertion(&mut assertion, n) {
            Ok(()) => Ok(assertion),
            Err(error) => {
                drop(assertion);
                Err(error)
            }
        }
    }

    /// The ids in an attribute.
    fn ids(&self, n: NodeId, name: &str) -> Result<TextList, AllocError>
        ensures { IfOk result (λ ids. ids ≡ ids_in (said_text self.now.tree.now.nodes n name.now)) }
    {
        ids_in(self.alloc, self.said_text(n, name))
    }

    /// Reads what an assertion says besides its test.
    fn read_assertion(&self, assertion: &mut Assertion, n: NodeId) -> Result<(), AllocError>
        requires { Stands self.now.tree.now.nodes n }
        ensures { OnOk result (assertion.new ≡ record (assertion_of self.now.tree.now.nodes assertion.old.report n) { node = assertion.old.node; test = assertion.old.test }) }
    {
        self.read_labels(
            &mut assertion.id,
            &mut assertion.role,
            &mut assertion.flag,
            n,
        )?;
        self.read_optional(&mut assertion.subject, n, "subject")?;
        self.read_told(assertion, n)
    }

    /// Reads what an assertion tells: the ids of its diagnostics and properties, and its message.
    fn read_told(&self, assertion: &mut Assertion, n: NodeId) -> Result<(), AllocError>
        requires { Stands self.now.tree.now.nodes n }
        ensures { OnOk result (assertion.new ≡ record assertion.old {
          diagnostics = ids_in (said_text self.now.tree.now.nodes n (codes "diagnostics"));
          properties = ids_in (said_text self.now.tree.now.nodes n (codes "properties"));
          message = message_of self.now.tree.now.nodes n;
        }) }
    {
        put(&mut assertion.diagnostics, self.ids(n, "diagnostics")?);
        put(&mut assertion.properties, self.ids(n, "properties")?);
        put(&mut assertion.message, self.message(n)?);
        Ok(())
    }

    /// Puts a let, an assertion or an `extends` at the end, where the node is one.
    fn push_item(&self, list: &mut RawItemList, n: NodeId) -> Result<(), AllocError>
        requires { Stands self.now.tree.now.nodes n }
        ensures { OnOk result (list.new ≡ list.old ++ item_at self.now.tree.now.nodes n) }
    {
        match self.word_at(n) {
            Some(Word::Let) => self.push_let_item(list, n),
            Some(Word::Assert) => self.push_assertion(list, false, n),
            Some(Word::Report) => self.push_assertion(list, true, n),
            Some(Word::Extends) => self.push_extends(list, n),
            _ => Ok(()),
        }
    }

    /// Puts a let at the end.
    fn push_let_item(&self, list: &mut RawItemList, n: NodeId) -> Result<(), AllocError>
        ensures { OnOk result (list.new ≡ list.old ++ item.Let (let_of self.now.tree.now.nodes n) ∷ []) }
    {
        let decl = self.let_decl(n)?;
        list.push(RawItem::Let(decl))
    }

    /// Puts an assertion at the end.
    fn push_assertion(
        &self,
        list: &mut RawItemList,
        report: bool,
        n: NodeId,
    ) -> Result<(), AllocError>
        requires { Stands self.now.tree.now.nodes n }
        ensures { OnOk result (list.new ≡ list.old ++ item.Assertion (assertion_of self.now.tree.now.nodes report n) ∷ []) }
    {
        let assertion = self.assertion(report, n)?;
        list.push(RawItem::Assertion(assertion))
    }

    /// Puts an `extends` at the end.
    fn push_extends(&self, list: &mut RawItemList, n: NodeId) -> Result<(), AllocError>
        ensures { OnOk result (list.new ≡ list.old ++ item.Extends n (said_text self.now.tree.now.nodes n (codes "rule")) ∷ []) }
    {
        let rule = self.text(n, "rule")?;
        list.push(RawItem::Extends { node: n, rule })
    }

    /// What a rule holds, in its order.
    fn items(&self, n: NodeId) -> Result<RawItemList, AllocError>
        requires { Counts self.now.tree.now.nodes n }
        ensures { IfOk result (λ list. list ≡ flat_map (item_at self.now.tree.now.nodes) (kids_of self.now.tree.now.nodes n)) }
    {
        self.tree.laws();
        let mut list = ItemList::new(self.alloc);
        for kid in self.tree.kids(n) {
            self.push_item(&mut list, *kid)?;
        }
        Ok(list)
    }

    /// A rule.
    fn rule(&self, n: NodeId) -> Result<RawRule, AllocError>
        requires { Counts self.now.tree.now.nodes n }
        ensures { IfOk result (λ rule. rule ≡ rule_of self.now.tree.now.nodes n) }
    {
        let mut rule = RawRule {
            node: n,
            is_abstract: self.is_abstract(n),
            id: None,
            context: None,
            subject: None,
            role: None,
            flag: None,
            items: ItemList::new(self.alloc),
        };
        match self.read_rule(&mut rule, n) {
            Ok(()) => Ok(rule),
            Err(error) => {
                drop(rule);
                Err(error)
            }
        }
    }

    /// Reads what a rule says and holds.
    fn read_rule(&self, rule: &mut RawRule, n: NodeId) -> Result<(), AllocError>
        requires { Counts self.now.tree.now.nodes n }
        ensures { OnOk result (rule.new ≡ record (rule_of self.now.tree.now.nodes n) { node = rule.old.node; is_abstract = rule.old.is_abstract }) }
    {
        self.read_labels(&mut rule.id, &mut rule.role, &mut rule.flag, n)?;
        self.read_optional(&mut rule.context, n, "context")?;
        self.read_optional(&mut rule.subject, n, "subject")?;
        put(&mut rule.items, self.items(n)?);
        Ok(())
    }

    /// A pattern.
    fn pattern(&self, n: NodeId) -> Result<RawPattern, AllocError>
        requires { Counts self.now.tree.now.nodes n }
        ensures { IfOk result (λ pattern. pattern ≡ pattern_of self.now.tree.now.nodes n) }
    {
        let mut pattern = RawPattern {
            node: n,
            is_abstract: self.is_abstract(n),
            id: None,
            is_a: None,
            params: ItemList::new(self.alloc),
            lets: ItemList::new(self.alloc),
            rules: ItemList::new(self.alloc),
        };
        match self.read_pattern(&mut pattern, n) {
            Ok(()) => Ok(pattern),
            Err(error) => {
                drop(pattern);
                Err(error)
            }
        }
    }

    /// Reads what a pattern says and holds.
    fn read_pattern(&self, pattern: &mut RawPattern, n: NodeId) -> Result<(), AllocError>
        requires { Counts self.now.tree.now.nodes n }
        ensures { OnOk result (pattern.new ≡ record (pattern_of self.now.tree.now.nodes n) { node = pattern.old.node; is_abstract = pattern.old.is_abstract }) }
    {
        self.read_optional(&mut pattern.id, n, "id")?;
        self.read_optional(&mut pattern.is_a, n, "is-a")?;
        self.read_held(pattern, n)
    }

    /// Reads what a pattern holds.
    fn read_held(&self, pattern: &mut RawPattern, n: NodeId) -> Result<(), AllocError>
        requires { Counts self.now.tree.now.nodes n }
        ensures { OnOk result (pattern.new ≡ record (pattern_of self.now.tree.now.nodes n) { node = pattern.old.node; is_abstract = pattern.old.is_abstract; id = pattern.old.id; is_a = pattern.old.is_a }) }
    {
        put(&mut pattern.params, self.params(n)?);
        put(&mut pattern.lets, self.lets(n)?);
        put(&mut pattern.rules, self.rules(n)?);
        Ok(())
    }

    /// A diagnostic, or a property.
    fn diagnostic(&self, n: NodeId) -> Result<Diagnostic, AllocError>
        requires { Stands self.now.tree.now.nodes n }
        ensures { IfOk result (λ diagnostic. diagnostic ≡ diagnostic_of self.now.tree.now.nodes n) }
    {
        let id = self.text(n, "id")?;
        let message = self.message(n)?;
        Ok(Diagnostic {
            node: n,
            id,
            message,
        })
    }

    /// Puts a rule at the end, where the node is one.
    fn push_rule(&self, list: &mut RawRuleList, n: NodeId) -> Result<(), AllocError>
        requires { Stands self.now.tree.now.nodes n }
        ensures { OnOk result (list.new ≡ list.old ++ read_if self.now.tree.now.nodes word.Rule (rule_of self.now.tree.now.nodes) n) }
    {
        if is_word(Word::Rule, self.word_at(n)) {
            list.push(self.rule(n)?)?;
        }
        Ok(())
    }

    /// The rules among a node's kids.
    fn rules(&self, n: NodeId) -> Result<RawRuleList, AllocError>
        requires { Counts self.now.tree.now.nodes n }
        ensures { IfOk result (λ list. list ≡ read_kids self.now.tree.now.nodes word.Rule (rule_of self.now.tree.now.nodes) n) }
    {
        self.tree.laws();
        let mut list = ItemList::new(self.alloc);
        for kid in self.tree.kids(n) {
            self.push_rule(&mut list, *kid)?;
        }
        Ok(list)
    }

    /// Puts a pattern at the end, where the node is one.
    fn push_pattern(&self, list: &mut RawPatternList, n: NodeId) -> Result<(), AllocError>
        requires { Stands self.now.tree.now.nodes n }
        ensures { OnOk result (list.new ≡ list.old ++ read_if self.now.tree.now.nodes word.Pattern (pattern_of self.now.tree.now.nodes) n) }
    {
        if is_word(Word::Pattern, self.word_at(n)) {
            list.push(self.pattern(n)?)?;
        }
        Ok(())
    }

    /// The patterns among a node's kids.
    pub(crate) fn patterns(&self, n: NodeId) -> Result<RawPatternList, AllocError>
        requires { Counts self.now.tree.now.nodes n }
        ensures { IfOk result (λ list. list ≡ read_kids self.now.tree.now.nodes word.Pattern (pattern_of self.now.tree.now.nodes) n) }
    {
        self.tree.laws();
        let mut list = ItemList::new(self.alloc);
        for kid in self.tree.kids(n) {
            self.push_pattern(&mut list, *kid)?;
        }
        Ok(list)
    }

    /// Puts a diagnostic or a property at the end, where the node is this element.
    fn push_note(&self, list: &mut DiagnosticList, note: Word, n: NodeId) -> Result<(), AllocError>
        requires { Stands self.now.tree.now.nodes n }
        ensures { OnOk result (list.new ≡ list.old ++ read_if self.now.tree.now.nodes note (diagnostic_of self.now.tree.now.nodes) n) }
    {
        if is_word(note, self.word_at(n)) {
            list.push(self.diagnostic(n)?)?;
        }
        Ok(())
    }

    /// Puts what such an element holds of such elements at the end, where the node is one.
    fn push_notes(
        &self,
        list: &mut DiagnosticList,
        group: Word,
        note: Word,
        n: NodeId,
    ) -> Result<(), AllocError>
        requires { Stands self.now.tree.now.nodes n }
        ensures { OnOk result (list.new ≡ list.old ++ notes_at self.now.tree.now.nodes group note n) }
    {
        if !is_word(group, self.word_at(n)) {
            return Ok(());
        }
        self.tree.laws();
        for kid in self.tree.kids(n) {
            self.push_note(list, note, *kid)?;
        }
        Ok(())
    }

    /// The diagnostics of a schema, or its properties, by the elements that hold them and their own.
    pub(crate) fn notes(
        &self,
        group: Word,
        note: Word,
        n: NodeId,
    ) -> Result<DiagnosticList, AllocError>
        requires { Counts self.now.tree.now.nodes n }
        ensures { IfOk result (λ list. list ≡ flat_map (notes_at self.now.tree.now.nodes group note) (kids_of self.now.tree.now.nodes n)) }
    {
        self.tree.laws();
        let mut list = ItemList::new(self.alloc);
        for kid in self.tree.kids(n) {
            self.push_notes(&mut list, group, note, *kid)?;
        }
        Ok(list)
    }
}
