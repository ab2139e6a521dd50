//! The rules that a place of a schema can break.

ghost use Rattle.std.specs.Prelude.{◌≡◌, ◌∷◌, []};
ghost use Rattle.std.specs.Option.{option_copied, option_map};
ghost use Rattle.doc_tree.specs.Table.{attrs_of, name_of, value_of};
ghost use Rattle.sch_rules.specs.FirstBroken.{least};
ghost use Rattle.sch_rules.specs.Rules.{bad_attribute, first_bad, first_missing, has_bad_form, ill_formed, is_bad_ns, misplaced, missing, mixed, mixed_instance, mixed_pattern, said_name, unknown, unsupported, wrong_binding, wrong_document};
ghost use Rattle.sch_read.specs.inner.Found.{attribute_rules, element_rules, fault_seen, pattern_rules};

use crate::check::Checker;
use crate::words::{is_bad_binding, is_name_attribute, is_truth, is_truth_attribute, may_hold};
use doc_tree::NodeId;
use sch_base::is_ncname;
use sch_rules::Word;
use sch_source::{is_word, word_of};

/// A broken rule, and the name that is told.
#[derive(Clone, Copy)]
pub(crate) struct Found<'a> {
    pub(crate) rule: u32,
    pub(crate) name: &'a str,
}

impl<'a> Checker<'a> {
    /// The first broken rule on the element and its place.
    pub(crate) fn element_fault(&self, n: NodeId, word: Option<Word>) -> Option<Found<'a>>
        ensures { option_map (fault_seen n) result ≡ least n (element_rules self.now.source.tree.now.nodes n word) }
    {
        if let Some(name) = self.wrong_document(n, word) {
            return Some(Found { rule: 1, name });
        }
        if let Some(name) = self.wrong_binding(n, word) {
            return Some(Found { rule: 2, name });
        }
        if let Some(name) = self.unknown(n) {
            return Some(Found { rule: 3, name });
        }
        if let Some(name) = self.misplaced(n, word) {
            return Some(Found { rule: 4, name });
        }
        None
    }

    /// The first broken rule on the element's attributes.
    pub(crate) fn attribute_fault(&self, n: NodeId, word: Option<Word>) -> Option<Found<'a>>
        ensures { option_map (fault_seen n) result ≡ least n (attribute_rules self.now.source.tree.now.nodes n word) }
    {
        if let Some(name) = self.unsupported(n, word) {
            return Some(Found { rule: 5, name });
        }
        if let Some(name) = self.missing(n, word) {
            return Some(Found { rule: 6, name });
        }
        if let Some(name) = self.ill_formed(n, word) {
            return Some(Found { rule: 7, name });
        }
        None
    }

    /// The broken rule on what a pattern holds.
    pub(crate) fn pattern_fault(&self, n: NodeId, word: Option<Word>) -> Option<Found<'a>>
        ensures { option_map (fault_seen n) result ≡ least n (pattern_rules self.now.source.tree.now.nodes n word) }
    {
        match self.mixed(n, word) {
            Some(name) => Some(Found { rule: 9, name }),
            None => None,
        }
    }

    /// Rule 1: the document element isn't `schema`.
    fn wrong_document(&self, n: NodeId, word: Option<Word>) -> Option<&'a str>
        ensures { option_copied result ≡ wrong_document self.now.source.tree.now.nodes n word }
    {
        if self.source.is_at_top(n) && !is_word(Word::Schema, word) {
            self.source.any_local(n)
        } else {
            None
        }
    }

    /// Rule 2: the query binding isn't `xslt`.
    fn wrong_binding(&self, n: NodeId, word: Option<Word>) -> Option<&'a str>
        ensures { option_copied result ≡ wrong_binding self.now.source.tree.now.nodes n word }
    {
        if !is_word(Word::Schema, word) {
            return None;
        }
        match self.source.said(n, "queryBinding") {
            Some(value) if !value.eq_ignore_ascii_case("xslt") => Some(value),
            _ => None,
        }
    }

    /// Rule 3: an element of the namespace that isn't known.
    fn unknown(&self, n: NodeId) -> Option<&'a str>
        ensures { option_copied result ≡ unknown self.now.source.tree.now.nodes n }
    {
        match self.source.local_at(n) {
            Some(local) if word_of(local).is_none() => Some(local),
            _ => None,
        }
    }

    /// Rule 4: an element stands where none of its name may stand.
    fn misplaced(&self, n: NodeId, word: Option<Word>) -> Option<&'a str>
        ensures { option_copied result ≡ misplaced self.now.source.tree.now.nodes n word }
    {
        if word.is_some()
            && !(self.source.is_at_top(n) || may_hold(self.source.word_above(n), word))
        {
            self.source.local_at(n)
        } else {
            None
        }
    }

    /// Rule 5: an attribute that is not supported.
    fn unsupported(&self, n: NodeId, word: Option<Word>) -> Option<&'a str>
        ensures { option_copied result ≡ unsupported self.now.source.tree.now.nodes n word }
    {
        match word {
            Some(Word::Extends) => self.said_name(n, "href"),
            Some(Word::Pattern) => self.said_name(n, "documents"),
            _ => None,
        }
    }

    /// The name, where the element has an attribute with it.
    fn said_name(&self, n: NodeId, name: &'a str) -> Option<&'a str>
        ensures { option_copied result ≡ said_name self.now.source.tree.now.nodes n name.now }
    {
        if self.source.said(n, name).is_some() {
            Some(name)
        } else {
            None
        }
    }

    /// Rule 6: the first required attribute that is missing.
    fn missing(&self, n: NodeId, word: Option<Word>) -> Option<&'a str>
        ensures { option_copied result ≡ missing self.now.source.tree.now.nodes n word }
    {
        match word {
            Some(Word::Ns) => self.missing_of(n, "prefix", "uri"),
            Some(Word::Let | Word::Param) => self.missing_of(n, "name", "value"),
            Some(Word::Phase | Word::Diagnostic | Word::Property) => self.lacking(n, "id"),
            Some(Word::Active) => self.lacking(n, "pattern"),
            Some(Word::Pattern) if self.source.is_abstract(n) => self.lacking(n, "id"),
            Some(Word::Rule) if self.source.is_abstract(n) => self.lacking(n, "id"),
            Some(Word::Rule) => self.lacking(n, "context"),
            Some(Word::Extends) => self.lacking(n, "rule"),
            Some(Word::Assert | Word::Report) => self.lacking(n, "test"),
            Some(Word::ValueOf) => self.lacking(n, "select"),
            _ => None,
        }
    }

    /// The name, where the element has no attribute with it.
    fn lacking(&self, n: NodeId, name: &'a str) -> Option<&'a str>
        ensures { option_copied result ≡ first_missing self.now.source.tree.now.nodes n (name.now ∷ []) }
    {
        if self.source.said(n, name).is_none() {
            Some(name)
        } else {
            None
        }
    }

    /// The first of two names with which the element has no attribute.
    fn missing_of(&self, n: NodeId, first: &'a str, second: &'a str) -> Option<&'a str>
        ensures { option_copied result ≡ first_missing self.now.source.tree.now.nodes n (first.now ∷ second.now ∷ []) }
    {
        if self.source.said(n, first).is_none() {
            Some(first)
        } else {
            self.lacking(n, second)
        }
    }

    /// Rule 7: the first attribute that has not its form.
    fn ill_formed(&self, n: NodeId, word: Option<Word>) -> Option<&'a str>
        ensures { option_copied result ≡ ill_formed self.now.source.tree.now.nodes n word }
    {
        match word {
            Some(word) => self.first_bad(n, word),
            None => None,
        }
    }

    /// The first attribute of this element that has not its form.
    fn first_bad(&self, n: NodeId, word: Word) -> Option<&'a str>
        ensures { option_copied result ≡ first_bad self.now.source.tree.now.nodes n word (attrs_of self.now.source.tree.now.nodes n) }
    {
        for a in self.source.tree.attrs(n) {
            if let Some(name) = self.bad_attribute(n, word, *a) {
                return Some(name);
            }
        }
        None
    }

    /// The name of an attribute that has not its form.
    fn bad_attribute(&self, n: NodeId, word: Word, a: NodeId) -> Option<&'a str>
        ensures { option_copied result ≡ bad_attribute self.now.source.tree.now.nodes n word (name_of self.now.source.tree.now.nodes a) (value_of self.now.source.tree.now.nodes a) }
    {
        let id = self.source.tree.name(a)?;
        let name = self.source.tree.local_of(id);
        if self.source.tree.uri_of(id) == ""
            && self.has_bad_form(n, word, name, self.source.tree.value(a))
        {
            Some(name)
        } else {
            None
        }
    }

    /// Whether an attribute without a namespace has not its form.
    fn has_bad_form(&self, n: NodeId, word: Word, name: &str, value: &str) -> bool
        ensures { result ≡ has_bad_form self.now.source.tree.now.nodes n word name.now value.now }
    {
        is_name_attribute(word, self.source.is_abstract(n), name) && !is_ncname(value)
            || is_truth_attribute(word, name) && !is_truth(value)
            || self.is_bad_ns(n, word, name, value)
    }

    /// Whether a value of `prefix` or `uri` of `ns` may not be.
    fn is_bad_ns(&self, n: NodeId, word: Word, name: &str, value: &str) -> bool
        ensures { result ≡ is_bad_ns self.now.source.tree.now.nodes n word name.now value.now }
    {
        match word {
            Word::Ns => {
                name == "uri" && value == ""
                    || name == "prefix" && is_bad_binding(value, self.source.said_text(n, "uri"))
            }
            _ => false,
        }
    }

    /// Rule 9: a pattern holds what it may not.
    fn mixed(&self, n: NodeId, word: Option<Word>) -> Option<&'a str>
        ensures { option_copied result ≡ mixed self.now.source.tree.now.nodes n word }
    {
        if is_word(Word::Pattern, word) {
            self.mixed_pattern(n)
        } else {
            None
        }
    }

    /// What a pattern holds, or is, that it may not.
    fn mixed_pattern(&self, n: NodeId) -> Option<&'a str>
        ensures { option_copied result ≡ mixed_pattern self.now.source.tree.now.nodes n }
    {
        if self.source.said(n, "is-a").is_some() {
            self.mixed_instance(n)
        } else if self.source.has_kid(n, Word::Param) {
            Some("param")
        } else {
            None
        }
    }

    /// What an instance of an abstract pattern holds, or is, that it may not.
    fn mixed_instance(&self, n: NodeId) -> Option<&'a str>
        ensures { option_copied result ≡ mixed_instance self.now.source.tree.now.nodes n }
    {
        if self.source.is_abstract(n) {
            Some("is-a")
        } else if self.source.has_kid(n, Word::Let) {
            Some("let")
        } else if self.source.has_kid(n, Word::Rule) {
            Some("rule")
        } else {
            None
        }
    }
}
