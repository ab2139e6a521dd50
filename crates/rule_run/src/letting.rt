//! The evaluation of lets in force.

ghost use Rattle.std.specs.Prelude.{◌<◌, length, IfSome, slice_get};
ghost use Rattle.xp_outcome.specs.Recorded.{nothing_read};
ghost use Rattle.xp_outcome.specs.Running.{Ran};
ghost use Rattle.sch_units.specs.Units.{unit_let};
ghost use Rattle.rule_run.specs.Kept.{let_reads, let_shown};

use crate::kept::{KeptLet, keep_let};
use crate::validator::alone;
use doc_tree::Tree;
use sch_compiled::Plan;
use std::alloc::{AllocError, Global};
use std::sync::ledger::Ledger;
use xp_eval::eval;
use xp_meaning::Lets;
use xp_outcome::{Recorder, Steps};

/// Evaluates the let in force that has the slot `l`, at the root and under the given lets.
///
/// A fault of the evaluation is kept as the let's value. The only error is want of memory, after which the count has risen
/// by at most the visits.
pub fn run_let<L: Ledger>(
    alloc: Global,
    plan: &Plan,
    tree: &Tree,
    l: u32,
    lets: &Lets,
    steps: &mut Steps<L>,
) -> Result<KeptLet, AllocError>
    requires in_force { l < length plan.now.lets }
    ensures ran { IfSome (slice_get plan.now.lets l) (λ t. Ran (unit_let tree.now.nodes lets.now t.expr)
        (let_shown result) nothing_read (let_reads result) steps.old steps.new) }
    ensures counted { steps.old < steps.new }
{
    let mut reads = Recorder::new(alloc);
    steps.tick();
    let at = alone(tree.root());
    let value = eval(alloc, tree, plan.let_expr(l), &at, lets, &mut reads, steps);
    keep_let(value, reads)
}
