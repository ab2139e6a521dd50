//! What stays the same in the evaluation of a node under a pattern.

ghost use Rattle.std.specs.Prelude.{◌≡◌};
ghost use Rattle.xp_outcome.specs.Running.{Ran};
ghost use Rattle.xp_meaning.specs.Evaluation.{meaning};
ghost use Rattle.xp_meaning.specs.Results.{shown};
ghost use Rattle.sch_units.specs.Messages.{alone};

use doc_tree::NodeId;
use std::sync::ledger::Ledger;
use xp_eval::{Caller, eval};
use xp_meaning::{Context, Lets};
use xp_outcome::{Recorder, Steps};
use xp_typed_tree::Typed;
use xp_values::{EvalError, Value};

/// The tree and the allocator, the node, and how many lets are in force: a rule's first let has this number as its slot.
#[derive(Clone, Copy)]
pub(crate) struct Validator<'r> {
    pub(crate) caller: Caller<'r>,
    pub(crate) node: NodeId,
    pub(crate) count: u32,
}

impl Validator<'_> {
    /// The value of an expression at the node.
    pub(crate) fn value<L: Ledger>(
        &self,
        expr: &Typed,
        lets: &Lets,
        reads: &mut Recorder,
        steps: &mut Steps<L>,
    ) -> Result<Value, EvalError>
        ensures { Ran (meaning self.now.caller.tree.now.nodes lets.now expr.now (alone self.now.node))
            (shown result) reads.old reads.new steps.old steps.new }
    {
        let Caller { alloc, tree } = self.caller;
        eval(alloc, tree, expr, &alone(self.node), lets, reads, steps)
    }
}

/// A node as the context node, the first of one.
pub(crate) fn alone(n: NodeId) -> Context
    ensures { result ≡ alone n }
{
    Context {
        node: n,
        position: 1,
        size: 1,
        current: n,
    }
}
