//! Where findings are (ISO/IEC 19757-3:2016, on `subject`).

ghost use Rattle.std.specs.Prelude.{◌≡◌, Some, slice_index_or};
ghost use Rattle.std.specs.Option.{option_or};
ghost use Rattle.xp_outcome.specs.Running.{Ran};
ghost use Rattle.xp_meaning.specs.Conversions.{nodes_of};
ghost use Rattle.xp_meaning.specs.Results.{shown};
ghost use Rattle.sch_units.specs.Firing.{placed_at};

use crate::validator::Validator;
use doc_tree::NodeId;
use std::sync::ledger::Ledger;
use xp_meaning::Lets;
use xp_outcome::{Recorder, Steps};
use xp_typed_tree::Typed;
use xp_values::{EvalError, Value};

impl Validator<'_> {
    /// The node that a finding is at: the first that the subject selects, or the node itself.
    pub(crate) fn placed_at<L: Ledger>(
        &self,
        subject: &Option<Typed>,
        lets: &Lets,
        reads: &mut Recorder,
        steps: &mut Steps<L>,
    ) -> Result<NodeId, EvalError>
        ensures { Ran (placed_at self.now.caller.tree.now.nodes lets.now self.now.node subject.now)
            (shown result) reads.old reads.new steps.old steps.new }
    {
        match subject {
            Some(subject) => self.first_selected(subject, lets, reads, steps),
            None => Ok(self.node),
        }
    }

    /// The first node that a subject selects, or the node itself where it selects none.
    fn first_selected<L: Ledger>(
        &self,
        subject: &Typed,
        lets: &Lets,
        reads: &mut Recorder,
        steps: &mut Steps<L>,
    ) -> Result<NodeId, EvalError>
        ensures { Ran (placed_at self.now.caller.tree.now.nodes lets.now self.now.node (Some subject.now))
            (shown result) reads.old reads.new steps.old steps.new }
    {
        let value = self.value(subject, lets, reads, steps)?;
        let first = first_or(&value, self.node);
        drop(value);
        Ok(first)
    }
}

/// The subject of an assertion: its own, or else that of its rule.
pub(crate) fn own_or<'a>(own: &'a Option<Typed>, of_rule: &'a Option<Typed>) -> &'a Option<Typed>
    ensures { result.now ≡ option_or own.now of_rule.now }
{
    match own {
        Some(_) => own,
        None => of_rule,
    }
}

/// The first node of a value, or the other one where it has none.
fn first_or(value: &Value, other: NodeId) -> NodeId
    ensures { result ≡ slice_index_or (nodes_of value.now) 0 other }
{
    match value {
        Value::NodeSet(nodes) => match nodes.as_slice().first() {
            Some(node) => *node,
            None => other,
        },
        _ => other,
    }
}
