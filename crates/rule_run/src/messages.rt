//! The texts of messages, of diagnostics and of properties (ISO/IEC 19757-3, clauses 5.4 and 5.5).

ghost use Rattle.std.specs.Prelude.{◌≡◌, Some, string_bytes};
ghost use Rattle.xp_outcome.specs.Evaluation.{bind, given};
ghost use Rattle.xp_outcome.specs.Running.{Ran};
ghost use Rattle.xp_values.specs.Outcomes.{Gives};
ghost use Rattle.xp_values.specs.Texts.{concat};
ghost use Rattle.xp_meaning.specs.Conversions.{text_in};
ghost use Rattle.xp_meaning.specs.Evaluation.{meaning};
ghost use Rattle.xp_meaning.specs.Functions.{named_node, text_of};
ghost use Rattle.xp_meaning.specs.Results.{shown};
ghost use Rattle.sch_units.specs.Messages.{alone, diagnostic_texts, message, name_text, part_text, written_name};
ghost use Rattle.rule_run.specs.inner.Joining.{with_text};

use crate::validator::{Validator, alone};
use sch_base::{ItemList, MAX_TEXT_BYTES, Text};
use sch_compiled::{PlanDiagnostic, PlanPart, TextList};
use std::alloc::Global;
use std::slice;
use std::sync::ledger::Ledger;
use xp_meaning::{Lets, Want};
use xp_outcome::{Recorder, Steps};
use xp_typed_tree::{Function, Typed};
use xp_values::{EvalError, EvalFault, Value};

impl Validator<'_> {
    /// The texts of diagnostics, or of properties, in order.
    pub(crate) fn diagnostic_texts<L: Ledger>(
        &self,
        diagnostics: &[PlanDiagnostic],
        lets: &Lets,
        reads: &mut Recorder,
        steps: &mut Steps<L>,
    ) -> Result<TextList, EvalError>
        ensures { Ran (diagnostic_texts self.now.caller.tree.now.nodes lets.now self.now.node diagnostics.now)
            (shown result) reads.old reads.new steps.old steps.new }
    {
        let mut texts = ItemList::new(self.caller.alloc);
        for diagnostic in diagnostics {
            let text = self.message(diagnostic.message.as_slice(), lets, reads, steps)?;
            texts.push(text)?;
        }
        Ok(texts)
    }

    /// The text of a message: its parts joined, each before the next one is evaluated.
    pub(crate) fn message<L: Ledger>(
        &self,
        parts: &[PlanPart],
        lets: &Lets,
        reads: &mut Recorder,
        steps: &mut Steps<L>,
    ) -> Result<Text, EvalError>
        ensures { Ran (message self.now.caller.tree.now.nodes lets.now self.now.node parts.now)
            (shown result) reads.old reads.new steps.old steps.new }
    {
        let mut text = String::new(self.caller.alloc);
        for part in parts {
            self.append_part(&mut text, part, lets, reads, steps)?;
        }
        Ok(Text::from(text))
    }

    /// Puts what a part of a message says of the node at the end of a text.
    fn append_part<L: Ledger>(
        &self,
        text: &mut String,
        part: &PlanPart,
        lets: &Lets,
        reads: &mut Recorder,
        steps: &mut Steps<L>,
    ) -> Result<(), EvalError>
        ensures { Ran (bind (part_text self.now.caller.tree.now.nodes lets.now self.now.node part.now) (λ more. given (concat (string_bytes text.old) more)))
            (shown (with_text result (string_bytes text.new))) reads.old reads.new steps.old steps.new }
    {
        let more = self.part_text(part, lets, reads, steps)?;
        let appended = append(text, more.as_str());
        drop(more);
        appended
    }

    /// What a part of a message says of the node.
    fn part_text<L: Ledger>(
        &self,
        part: &PlanPart,
        lets: &Lets,
        reads: &mut Recorder,
        steps: &mut Steps<L>,
    ) -> Result<Text, EvalError>
        ensures { Ran (part_text self.now.caller.tree.now.nodes lets.now self.now.node part.now)
            (shown result) reads.old reads.new steps.old steps.new }
    {
        match part {
            PlanPart::Chars(text) => Ok(Text::copy(self.caller.alloc, text.as_str())?),
            PlanPart::ValueOf(expr) => self.value_text(expr, lets, reads, steps),
            PlanPart::Name(path) => self.name_text(path, lets, reads, steps),
        }
    }

    /// The text of an expression's value at the node.
    fn value_text<L: Ledger>(
        &self,
        expr: &Typed,
        lets: &Lets,
        reads: &mut Recorder,
        steps: &mut Steps<L>,
    ) -> Result<Text, EvalError>
        ensures { Ran (bind (meaning self.now.caller.tree.now.nodes lets.now expr.now (alone self.now.node)) (λ v. text_in self.now.caller.tree.now.nodes v))
            (shown result) reads.old reads.new steps.old steps.new }
    {
        let value = self.value(expr, lets, reads, steps)?;
        self.text_in(value, reads, steps)
    }

    /// The name of the path's first node, or of the node itself where there is no path.
    fn name_text<L: Ledger>(
        &self,
        path: &Option<Typed>,
        lets: &Lets,
        reads: &mut Recorder,
        steps: &mut Steps<L>,
    ) -> Result<Text, EvalError>
        ensures { Ran (name_text self.now.caller.tree.now.nodes lets.now self.now.node path.now)
            (shown result) reads.old reads.new steps.old steps.new }
    {
        match path {
            Some(path) => self.path_name(path, lets, reads, steps),
            None => self.name_for(&[], reads, steps),
        }
    }

    /// The name of a path's first node, empty where there is none.
    fn path_name<L: Ledger>(
        &self,
        path: &Typed,
        lets: &Lets,
        reads: &mut Recorder,
        steps: &mut Steps<L>,
    ) -> Result<Text, EvalError>
        ensures { Ran (name_text self.now.caller.tree.now.nodes lets.now self.now.node (Some path.now))
            (shown result) reads.old reads.new steps.old steps.new }
    {
        let value = self.value(path, lets, reads, steps)?;
        let name = self.name_for(slice::from_ref(&value), reads, steps);
        drop(value);
        name
    }

    /// What `name` gives at the node for an argument or none, with the name that it reads (XPath 1.0, section 4.1).
    fn name_for<L: Ledger>(
        &self,
        args: &[Value],
        reads: &mut Recorder,
        steps: &mut Steps<L>,
    ) -> Result<Text, EvalError>
        ensures { Ran (written_name self.now.caller.tree.now.nodes (named_node (alone self.now.node) args.now))
            (shown result) reads.old reads.new steps.old steps.new }
    {
        let at = alone(self.node);
        let name = self.caller.apply(Function::Name, &at, args, reads, steps)?;
        Ok(text_of(self.caller.alloc, name))
    }

    /// The text of a value.
    fn text_in<L: Ledger>(
        &self,
        value: Value,
        reads: &mut Recorder,
        steps: &mut Steps<L>,
    ) -> Result<Text, EvalError>
        ensures { Ran (text_in self.now.caller.tree.now.nodes value) (shown result) reads.old reads.new steps.old steps.new }
    {
        let text = self.caller.as_wanted(Want::AsText, value, reads, steps)?;
        Ok(text_of(self.caller.alloc, text))
    }
}

/// The text of a value that is one, empty for others.
fn text_of(alloc: Global, value: Value) -> Text
    ensures { result ≡ text_of value }
{
    match value {
        Value::Chars(text) => text,
        _ => Text::from(String::new(alloc)),
    }
}

/// Puts a text at the end of another one.
///
/// The fault is TextLimit, where the text would have more than `MAX_TEXT_BYTES` bytes.
fn append(text: &mut String, more: &str) -> Result<(), EvalError>
    ensures { Gives (with_text result (string_bytes text.new)) (concat (string_bytes text.old) more.now) }
{
    if more.len() > MAX_TEXT_BYTES || text.len() > MAX_TEXT_BYTES - more.len() {
        return Err(EvalError::Fault(EvalFault::TextLimit));
    }
    text.push_str(more)?;
    Ok(())
}
