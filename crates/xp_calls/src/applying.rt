//! The application of functions (XPath 1.0, section 4; XSLT 1.0, section 12.4).

ghost use Rattle.std.specs.Prelude.{◌≡◌, ℕ, [], ◌∷◌, length};
ghost use Rattle.xp_typed_tree.specs.WellTyped.{result_type};
ghost use Rattle.xp_typed_tree.specs.declared.value_type.ValueType.TheVariants as types;
ghost use Rattle.xp_outcome.specs.Evaluation.{bind, done};
ghost use Rattle.xp_outcome.specs.Running.{Ran};
ghost use Rattle.xp_meaning.specs.Results.{shown};
ghost use Rattle.xp_values.specs.Outcomes.{Gives};
ghost use Rattle.xp_values.specs.declared.values.Value.TheVariants as values;
ghost use Rattle.xp_values.specs.Texts.{normalize_space, string_length};
ghost use Rattle.xp_meaning.specs.Conversions.{number_in, sum_in, text_in};
ghost use Rattle.xp_meaning.specs.Functions.{applied, as_number, as_text, as_truth, counted, nodes_at, number_or_own, text_at, text_or_own};
ghost use Rattle.xp_meaning.specs.Language.{in_language};

use crate::arguments::{nodes_at, number_at, number_of, text_at, text_of, truth_at};
use crate::caller::Caller;
use crate::converting::{allocated, number_value, text_value};
use crate::language::in_language;
use crate::text_functions::{
    as_chars, concat, contains, starts_with, substring, substring_after, substring_before,
    translate,
};
use doc_tree::{NodeId, NodeList};
use sch_base::Text;
use std::alloc::Global;
use std::sync::ledger::Ledger;
use xp_meaning::Context;
use xp_outcome::{Recorder, Steps};
use xp_typed_tree::{Function, ValueType};
use xp_values::{EvalError, Num, Value, normalize_space, string_length};

impl Caller<'_> {
    /// What the function gives for arguments that are evaluated and converted as it wants them.
    ///
    /// The faults are TextLimit of `concat` and `translate`, and those of `sum` and of `number` without an argument.
    pub fn apply<L: Ledger>(
        &self,
        function: Function,
        at: &Context,
        args: &[Value],
        reads: &mut Recorder,
        steps: &mut Steps<L>,
    ) -> Result<Value, EvalError>
        ensures { Ran (applied self.now.tree.now.nodes function at.now args.now) (shown result) reads.old reads.new steps.old steps.new }
    {
        match function.result_type() {
            ValueType::NodeSet => node_set_of(self.alloc, at.current),
            ValueType::Truth => self.truth_given(function, at, args, reads),
            ValueType::Number => self.number_given(function, at, args, reads, steps),
            ValueType::Chars => self.text_given(function, at, args, reads, steps),
        }
    }

    /// `apply` of a function that gives a boolean.
    fn truth_given(
        &self,
        function: Function,
        at: &Context,
        args: &[Value],
        reads: &mut Recorder,
    ) -> Result<Value, EvalError>
        requires { result_type function ≡ types.Truth }
        ensures { (count : ℕ) → Ran (applied self.now.tree.now.nodes function at.now args.now) (shown result) reads.old reads.new count count }
    {
        match function {
            Function::Boolean => Ok(Value::Truth(truth_at(args, 0))),
            Function::Not => Ok(Value::Truth(!truth_at(args, 0))),
            Function::True => Ok(Value::Truth(true)),
            Function::False => Ok(Value::Truth(false)),
            Function::StartsWith => Ok(starts_with(args)),
            Function::Contains => Ok(contains(args)),
            Function::Lang => self.is_in_language(at, args, reads),
            _ => unreachable!(),
        }
    }

    /// `apply` of a function that gives a number.
    fn number_given<L: Ledger>(
        &self,
        function: Function,
        at: &Context,
        args: &[Value],
        reads: &mut Recorder,
        steps: &mut Steps<L>,
    ) -> Result<Value, EvalError>
        requires { result_type function ≡ types.Number }
        ensures { Ran (applied self.now.tree.now.nodes function at.now args.now) (shown result) reads.old reads.new steps.old steps.new }
    {
        match function {
            Function::Last => Ok(counted(at.size)),
            Function::Position => Ok(counted(at.position)),
            Function::Count => Ok(count(args)),
            Function::Sum => self.sum(args, reads, steps),
            Function::Number => self.number(at, args, reads, steps),
            Function::StringLength => self.length_of(at, args, reads, steps),
            Function::Floor | Function::Ceiling | Function::Round => {
                Ok(Value::Number(number_at(args, 0)))
            }
            _ => unreachable!(),
        }
    }

    /// `apply` of a function that gives a text.
    fn text_given<L: Ledger>(
        &self,
        function: Function,
        at: &Context,
        args: &[Value],
        reads: &mut Recorder,
        steps: &mut Steps<L>,
    ) -> Result<Value, EvalError>
        requires { result_type function ≡ types.Chars }
        ensures { Ran (applied self.now.tree.now.nodes function at.now args.now) (shown result) reads.old reads.new steps.old steps.new }
    {
        match function {
            Function::LocalName => self.local_name(at, args, reads),
            Function::NamespaceUri => self.namespace_uri(at, args, reads),
            Function::Name => self.name(at, args, reads),
            Function::String => self.string(at, args, reads, steps),
            Function::Concat => concat(self.alloc, args),
            Function::SubstringBefore => substring_before(self.alloc, args),
            Function::SubstringAfter => substring_after(self.alloc, args),
            Function::Substring => substring(self.alloc, args),
            Function::NormalizeSpace => self.normalize(at, args, reads, steps),
            Function::Translate => translate(self.alloc, args),
            _ => unreachable!(),
        }
    }

    /// `sum`.
    fn sum<L: Ledger>(
        &self,
        args: &[Value],
        reads: &mut Recorder,
        steps: &mut Steps<L>,
    ) -> Result<Value, EvalError>
        ensures { Ran (as_number (sum_in self.now.tree.now.nodes (nodes_at args.now 0))) (shown result) reads.old reads.new steps.old steps.new }
    {
        number_value(self.sum_in(nodes_at(args, 0), reads, steps))
    }

    /// `string`.
    fn string<L: Ledger>(
        &self,
        at: &Context,
        args: &[Value],
        reads: &mut Recorder,
        steps: &mut Steps<L>,
    ) -> Result<Value, EvalError>
        ensures { Ran (as_text (text_or_own self.now.tree.now.nodes at.now args.now)) (shown result) reads.old reads.new steps.old steps.new }
    {
        text_value(self.text_or_own(at, args, reads, steps))
    }

    /// `number`.
    fn number<L: Ledger>(
        &self,
        at: &Context,
        args: &[Value],
        reads: &mut Recorder,
        steps: &mut Steps<L>,
    ) -> Result<Value, EvalError>
        ensures { Ran (as_number (number_or_own self.now.tree.now.nodes at.now args.now)) (shown result) reads.old reads.new steps.old steps.new }
    {
        number_value(self.number_or_own(at, args, reads, steps))
    }

    /// The text of the argument, or the string-value of the context node without one.
    fn text_or_own<L: Ledger>(
        &self,
        at: &Context,
        args: &[Value],
        reads: &mut Recorder,
        steps: &mut Steps<L>,
    ) -> Result<Text, EvalError>
        ensures { Ran (text_or_own self.now.tree.now.nodes at.now args.now) (shown result) reads.old reads.new steps.old steps.new }
    {
        match args.first() {
            Some(value) => allocated(Text::copy(self.alloc, text_of(value))),
            None => self.own_text(at.node, reads, steps),
        }
    }

    /// The string-value of a node.
    fn own_text<L: Ledger>(
        &self,
        n: NodeId,
        reads: &mut Recorder,
        steps: &mut Steps<L>,
    ) -> Result<Text, EvalError>
        ensures { Ran (text_in self.now.tree.now.nodes (values.NodeSet (n ∷ []))) (shown result) reads.old reads.new steps.old steps.new }
    {
        match node_set_of(self.alloc, n) {
            Ok(own) => self.text_in(&own, reads, steps),
            Err(error) => Err(error),
        }
    }

    /// The number of the argument, or that of the context node without one.
    fn number_or_own<L: Ledger>(
        &self,
        at: &Context,
        args: &[Value],
        reads: &mut Recorder,
        steps: &mut Steps<L>,
    ) -> Result<Num, EvalError>
        ensures { Ran (number_or_own self.now.tree.now.nodes at.now args.now) (shown result) reads.old reads.new steps.old steps.new }
    {
        match args.first() {
            Some(value) => Ok(number_of(value)),
            None => self.own_number(at.node, reads, steps),
        }
    }

    /// The number that a node's string-value is.
    fn own_number<L: Ledger>(
        &self,
        n: NodeId,
        reads: &mut Recorder,
        steps: &mut Steps<L>,
    ) -> Result<Num, EvalError>
        ensures { Ran (number_in self.now.tree.now.nodes (values.NodeSet (n ∷ []))) (shown result) reads.old reads.new steps.old steps.new }
    {
        match node_set_of(self.alloc, n) {
            Ok(own) => self.number_in(&own, reads, steps),
            Err(error) => Err(error),
        }
    }

    /// `string-length`.
    fn length_of<L: Ledger>(
        &self,
        at: &Context,
        args: &[Value],
        reads: &mut Recorder,
        steps: &mut Steps<L>,
    ) -> Result<Value, EvalError>
        ensures { Ran (bind (text_or_own self.now.tree.now.nodes at.now args.now) (λ text. done (values.Number (string_length text)))) (shown result) reads.old reads.new steps.old steps.new }
    {
        match self.text_or_own(at, args, reads, steps) {
            Ok(text) => Ok(Value::Number(string_length(text.as_str()))),
            Err(error) => Err(error),
        }
    }

    /// `normalize-space`.
    fn normalize<L: Ledger>(
        &self,
        at: &Context,
        args: &[Value],
        reads: &mut Recorder,
        steps: &mut Steps<L>,
    ) -> Result<Value, EvalError>
        ensures { Ran (bind (text_or_own self.now.tree.now.nodes at.now args.now) (λ text. done (values.Chars (normalize_space text)))) (shown result) reads.old reads.new steps.old steps.new }
    {
        match self.text_or_own(at, args, reads, steps) {
            Ok(text) => as_chars(normalize_space(self.alloc, text.as_str())),
            Err(error) => Err(error),
        }
    }

    /// `lang`.
    fn is_in_language(
        &self,
        at: &Context,
        args: &[Value],
        reads: &mut Recorder,
    ) -> Result<Value, EvalError>
        ensures { (count : ℕ) → Ran (as_truth (in_language self.now.tree.now.nodes at.now.node (text_at args.now 0))) (shown result) reads.old reads.new count count }
    {
        match in_language(self.tree, at.node, text_at(args, 0), reads) {
            Ok(truth) => Ok(Value::Truth(truth)),
            Err(_) => Err(EvalError::Memory),
        }
    }
}

/// A position or a size as a number.
fn counted(count: u32) -> Value
    ensures { result ≡ counted count }
{
    Value::Number(Num::Whole(i64::from(count)))
}

/// `count`.
fn count(args: &[Value]) -> Value
    ensures { result ≡ counted (length (nodes_at args.now 0)) }
{
    Value::Number(Num::Whole(nodes_at(args, 0).len() as i64))
}

/// The node-set of one node.
fn node_set_of(alloc: Global, n: NodeId) -> Result<Value, EvalError>
    ensures { Gives result (Ok (values.NodeSet (n ∷ []))) }
{
    let nodes = NodeList::of_one(alloc, n)?;
    Ok(Value::NodeSet(nodes))
}
