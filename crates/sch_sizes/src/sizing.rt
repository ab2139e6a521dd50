//! How large the parts of a pattern are in the document of the schema without its abstract parts.

ghost use Rattle.std.specs.Prelude.{◌≡◌, None, Some, IfOk, option_map};
ghost use Rattle.sch_expansion.specs.Flat.{part_with, text_or_empty};
ghost use Rattle.sch_flat.specs.FlatDocument.{part_events};
ghost use Rattle.sch_flat.specs.FlatSize.{escapes_len, size_of};
ghost use Rattle.sch_sizes.specs.inner.Amounts.{cap, of_events};
ghost use Rattle.sch_sizes.specs.inner.Weights.{change_by, changed, sizes};

use crate::amount::Amount;
use crate::filled_len::FilledLen;
use crate::pattern::Scale;
use crate::sum::{Weighing, sum_over};
use sch_flat::{
    FlatSize, RuleLabels, assertion_size, characters_size, escaped_len, let_size, name_size,
    pattern_size, rule_size, value_of_size,
};
use sch_model::{Assertion, LetDecl, Param, Part, RawPattern, RawRule, Text};
use std::alloc::{AllocError, Global};

/// The scale that measures: texts as they are, or with the parameters of an instance replaced.
pub(crate) struct Sizing<'a> {
    filled: Option<FilledLen<'a>>,
}

impl Drop for Sizing<'_> {
    fn drop(self) {
        let Sizing { filled } = self;
        drop(filled);
    }
}

impl<'a> Sizing<'a> {
    /// Texts as they are.
    pub(crate) fn plain() -> Sizing<'a>
        ensures { result.filled ≡ None }
    {
        Sizing { filled: None }
    }

    /// Texts with these parameters replaced.
    pub(crate) fn with_params(alloc: Global, params: &'a [Param]) -> Result<Sizing<'a>, AllocError>
        ensures { IfOk result (λ sizing. sizing.filled ≡ Some params.now) }
    {
        match FilledLen::new(alloc, params) {
            Ok(filled) => Ok(Sizing {
                filled: Some(filled),
            }),
            Err(error) => Err(error),
        }
    }

    /// The bytes of a text, with its escapes.
    fn len(&self, text: &str) -> u64
        ensures { result ≡ escapes_len (change_by self.now.filled text.now) }
    {
        match &self.filled {
            Some(filled) => filled.len(text),
            None => escaped_len(text),
        }
    }

    /// The bytes of a text, with its escapes; those of the empty one where there is none.
    fn len_or_empty(&self, text: &Option<Text>) -> u64
        ensures { result ≡ escapes_len (change_by self.now.filled (text_or_empty text.now)) }
    {
        match text {
            Some(text) => self.len(text.as_str()),
            None => self.len(""),
        }
    }

    /// The bytes of a text, with its escapes, where there is one.
    fn optional_len(&self, text: &Option<Text>) -> Option<u64>
        ensures { result ≡ option_map escapes_len (option_map (change_by self.now.filled) text.now) }
    {
        match text {
            Some(text) => Some(self.len(text.as_str())),
            None => None,
        }
    }

    /// How large a part of a message is.
    fn part_size(&self, part: &Part) -> FlatSize
        ensures { result ≡ size_of (part_events (part_with (change_by self.now.filled) part.now)) }
    {
        match part {
            Part::Chars(text) => characters_size(text),
            Part::ValueOf { select, .. } => value_of_size(self.len(select.as_str())),
            Part::Name { path, .. } => name_size(self.optional_len(path)),
        }
    }
}

impl<'a> Weighing<Part> for Sizing<'a> {
    ghost amount = { λ sizing part. cap (of_events (part_events (part_with (change_by sizing.filled) part))) };

    fn amount_of(&self, item: &Part) -> Amount {
        Amount::of_size(self.part_size(item))
    }
}

impl<'a> Scale for Sizing<'a> {
    ghost weights = { λ sizing. changed sizes (change_by sizing.filled) };

    fn of_let(&self, decl: &LetDecl) -> Amount {
        Amount::of_size(let_size(&decl.name, self.len(decl.value.as_str())))
    }

    fn of_assertion(&self, assertion: &Assertion) -> Amount {
        let held = sum_over::<Part, _>(self, assertion.message.as_slice());
        let test_len = self.len(assertion.test.as_str());
        let subject_len = self.optional_len(&assertion.subject);
        Amount::of_size(assertion_size(assertion, test_len, subject_len, held.size()))
    }

    fn of_rule(&self, rule: &RawRule) -> Amount {
        let context_len = self.len_or_empty(&rule.context);
        let subject_len = self.optional_len(&rule.subject);
        let labels = RuleLabels {
            id: &rule.id,
            role: &rule.role,
            flag: &rule.flag,
        };
        let size = rule_size(labels, context_len, subject_len, FlatSize::none());
        Amount::of_size(size)
    }

    fn of_pattern(&self, pattern: &RawPattern) -> Amount {
        Amount::of_size(pattern_size(&pattern.id, FlatSize::none()))
    }
}
