//! Functions of the values of variables, which are lent to them and not copied (XPath 1.0, sections 3.1 and 3.2).

ghost use Rattle.std.specs.Prelude.{[], ◌∷◌};
ghost use Rattle.xp_outcome.specs.Evaluation.{bind, given};
ghost use Rattle.xp_outcome.specs.Running.{Ran};
ghost use Rattle.xp_outcome.specs.Slots.{in_slot};
ghost use Rattle.xp_values.specs.declared.values.Value.TheVariants as value_kinds;
ghost use Rattle.xp_meaning.specs.Evaluation.{slot_value};
ghost use Rattle.xp_meaning.specs.Functions.{applied};
ghost use Rattle.xp_meaning.specs.Results.{shown};
ghost use Rattle.xp_eval.specs.inner.Wants.{lone_let};

use crate::evaluator::Evaluator;
use doc_tree::NodeList;
use std::sync::ledger::Ledger;
use xp_meaning::Context;
use xp_outcome::{Recorder, Steps};
use xp_typed_tree::Function;
use xp_values::{EvalError, EvalFault, Value};

impl Evaluator<'_> {
    /// What a function gives for the value that a slot holds, which isn't copied; the slot is recorded.
    pub(crate) fn call_on_let<L: Ledger>(
        &self,
        function: Function,
        slot: u32,
        at: &Context,
        reads: &mut Recorder,
        steps: &mut Steps<L>,
    ) -> Result<Value, EvalError>
        ensures { Ran (bind (lone_let self.now.lets.now slot) (λ vs. applied self.now.caller.tree.now.nodes function at.now vs)) (shown result) reads.old reads.new steps.old steps.new }
    {
        steps.tick();
        reads.add_let(slot)?;
        self.call_on_slot(function, slot, at, reads, steps)
    }

    /// What a function gives for the value that a slot holds, and for no nodes where there is no such slot.
    fn call_on_slot<L: Ledger>(
        &self,
        function: Function,
        slot: u32,
        at: &Context,
        reads: &mut Recorder,
        steps: &mut Steps<L>,
    ) -> Result<Value, EvalError>
        ensures { Ran (bind (slot_value (in_slot self.now.lets.now slot)) (λ v. applied self.now.caller.tree.now.nodes function at.now (v ∷ []))) (shown result) reads.old reads.new steps.old steps.new }
    {
        match self.lets.get(slot) {
            Some(held) => self.call_on_held(function, held, at, reads, steps),
            None => self.call_on_no_nodes(function, at, reads, steps),
        }
    }

    /// What a function gives for what a slot holds.
    fn call_on_held<L: Ledger>(
        &self,
        function: Function,
        held: &Result<Value, EvalFault>,
        at: &Context,
        reads: &mut Recorder,
        steps: &mut Steps<L>,
    ) -> Result<Value, EvalError>
        ensures { Ran (bind (given held.now) (λ v. applied self.now.caller.tree.now.nodes function at.now (v ∷ []))) (shown result) reads.old reads.new steps.old steps.new }
    {
        match held {
            Ok(value) => self.call_on(function, value, at, reads, steps),
            Err(fault) => Err(EvalError::Fault(*fault)),
        }
    }

    /// What a function gives for no nodes.
    fn call_on_no_nodes<L: Ledger>(
        &self,
        function: Function,
        at: &Context,
        reads: &mut Recorder,
        steps: &mut Steps<L>,
    ) -> Result<Value, EvalError>
        ensures { Ran (applied self.now.caller.tree.now.nodes function at.now (value_kinds.NodeSet [] ∷ [])) (shown result) reads.old reads.new steps.old steps.new }
    {
        let none = Value::NodeSet(NodeList::new(self.caller.alloc));
        self.call_on(function, &none, at, reads, steps)
    }

    /// What a function gives for a value as its lone argument.
    fn call_on<L: Ledger>(
        &self,
        function: Function,
        value: &Value,
        at: &Context,
        reads: &mut Recorder,
        steps: &mut Steps<L>,
    ) -> Result<Value, EvalError>
        ensures { Ran (applied self.now.caller.tree.now.nodes function at.now (value.now ∷ [])) (shown result) reads.old reads.new steps.old steps.new }
    {
        self.caller
            .apply(function, at, std::slice::from_ref(value), reads, steps)
    }
}
