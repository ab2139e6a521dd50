//! The tests of the nodes that stand at a step of a path pattern, by the step's predicates.

ghost use Rattle.std.specs.Prelude.{◌≡◌, ◌+◌, ◌++◌, ◌∷◌, [], ◌<◌, ℕ, Bool, List, IfSome, if◌then◌else◌};
ghost use Rattle.doc_tree.specs.Lists.{mem};
ghost use Rattle.doc_tree.specs.Table.{Contents, parent_of};
ghost use Rattle.xp_outcome.specs.Evaluation.{Evaluation, bind, done};
ghost use Rattle.xp_outcome.specs.Recorded.{nothing_read};
ghost use Rattle.xp_outcome.specs.Running.{Ran};
ghost use Rattle.xp_values.specs.declared.values.EvalFault.{EvalFault};
ghost use Rattle.xp_meaning.specs.Evaluation.{Lets};
ghost use Rattle.xp_meaning.specs.Results.{shown};
ghost use Rattle.xp_typed_tree.specs.TypedTree.{TypedPathTree};
ghost use Rattle.xp_typed_tree.specs.TypedView.{pattern_step_seen};
ghost use Rattle.xslt_match.specs.Kept.{IsKeptFor, IsOutcomeAt, told};
ghost use Rattle.xslt_match.specs.inner.Keeping.{IsPlacedIn, nodes_told, reads_of, told_of, with_list};
ghost use Rattle.xslt_match.specs.Matching.{is_left, step_of, survives, survivors};

use crate::kept::{KeptSteps, Selected, StepKey};
use crate::matching::Matcher;
use crate::nodes::NodeIndex;
use crate::positional::some_positional;
use doc_tree::{NodeId, NodeList};
use std::alloc::{AllocError, Global};
use std::sync::ledger::Ledger;
use xp_eval::Context;
use xp_meaning_laws::patterns_need_no_current;
use xp_outcome::{Recorder, Steps};
use xp_typed_tree::TypedPatternStep;
use xp_values::EvalError;

/// A step of the pattern, with the number of its path pattern and its number there.
#[derive(Clone, Copy)]
pub(crate) struct PlacedStep<'r> {
    pub(crate) step: &'r TypedPatternStep,
    pub(crate) path: usize,
    pub(crate) number: usize,
}

impl Matcher<'_> {
    /// Those of some nodes that survive a step's test.
    pub(crate) fn survivors<L: Ledger>(
        &self,
        at: &PlacedStep<'_>,
        nodes: &[NodeId],
        kept: &mut KeptSteps,
        reads: &mut Recorder,
        steps: &mut Steps<L>,
    ) -> Result<NodeList, EvalError>
        requires placed { IsPlacedIn self.now.pattern.now at.now }
        requires kept { IsKeptFor self.now.evaluator.caller.tree.now self.now.evaluator.lets.now self.now.pattern.now kept.old }
        ensures ran { Ran (survivors self.now.evaluator.caller.tree.now.nodes self.now.evaluator.lets.now (pattern_step_seen at.now.step.now) self.now.node nodes.now)
            (shown result) reads.old reads.new steps.old steps.new }
        ensures kept { IsKeptFor self.now.evaluator.caller.tree.now self.now.evaluator.lets.now self.now.pattern.now kept.new }
    {
        let mut left = NodeList::new(self.evaluator.caller.alloc);
        for k in nodes {
            self.push_survivor(&mut left, at, *k, kept, reads, steps)?;
        }
        Ok(left)
    }

    /// Puts a node that survives a step's test at the end of a list.
    fn push_survivor<L: Ledger>(
        &self,
        left: &mut NodeList,
        at: &PlacedStep<'_>,
        k: NodeId,
        kept: &mut KeptSteps,
        reads: &mut Recorder,
        steps: &mut Steps<L>,
    ) -> Result<(), EvalError>
        requires placed { IsPlacedIn self.now.pattern.now at.now }
        requires kept { IsKeptFor self.now.evaluator.caller.tree.now self.now.evaluator.lets.now self.now.pattern.now kept.old }
        ensures ran { Ran (bind (survives self.now.evaluator.caller.tree.now.nodes self.now.evaluator.lets.now (pattern_step_seen at.now.step.now) self.now.node k)
            (λ stays. done (left.old ++ (if stays then k ∷ [] else []))))
            (with_list (shown result) left.new) reads.old reads.new steps.old steps.new }
        ensures kept { IsKeptFor self.now.evaluator.caller.tree.now self.now.evaluator.lets.now self.now.pattern.now kept.new }
    {
        let stays = self.survives(at, k, kept, reads, steps)?;
        left.push_if(k, stays)?;
        Ok(())
    }

    /// Whether a node survives a step's test: by its place among the step's nodes at its parent where a predicate is
    /// positional, else by the predicates at the node alone.
    pub(crate) fn survives<L: Ledger>(
        &self,
        at: &PlacedStep<'_>,
        k: NodeId,
        kept: &mut KeptSteps,
        reads: &mut Recorder,
        steps: &mut Steps<L>,
    ) -> Result<bool, EvalError>
        requires placed { IsPlacedIn self.now.pattern.now at.now }
        requires kept { IsKeptFor self.now.evaluator.caller.tree.now self.now.evaluator.lets.now self.now.pattern.now kept.old }
        ensures ran { Ran (survives self.now.evaluator.caller.tree.now.nodes self.now.evaluator.lets.now (pattern_step_seen at.now.step.now) self.now.node k)
            (shown result) reads.old reads.new steps.old steps.new }
        ensures kept { IsKeptFor self.now.evaluator.caller.tree.now self.now.evaluator.lets.now self.now.pattern.now kept.new }
    {
        let step = at.step;
        if some_positional(&step.step.predicates) {
            return self.is_left(at, k, kept, reads, steps);
        }
        steps.tick();
        let here = Context {
            node: k,
            position: 1,
            size: 1,
            current: self.node,
        };
        self.evaluator
            .all_true(&step.step.predicates, &here, reads, steps)
    }

    /// Whether a node is among those that a step selects at the node's parent.
    fn is_left<L: Ledger>(
        &self,
        at: &PlacedStep<'_>,
        k: NodeId,
        kept: &mut KeptSteps,
        reads: &mut Recorder,
        steps: &mut Steps<L>,
    ) -> Result<bool, EvalError>
        requires placed { IsPlacedIn self.now.pattern.now at.now }
        requires kept { IsKeptFor self.now.evaluator.caller.tree.now self.now.evaluator.lets.now self.now.pattern.now kept.old }
        ensures ran { Ran (is_left self.now.evaluator.caller.tree.now.nodes (step_of self.now.evaluator.caller.tree.now.nodes self.now.evaluator.lets.now (pattern_step_seen at.now.step.now)) self.now.node k
            (parent_of self.now.evaluator.caller.tree.now.nodes k))
            (shown result) reads.old reads.new steps.old steps.new }
        ensures kept { IsKeptFor self.now.evaluator.caller.tree.now self.now.evaluator.lets.now self.now.pattern.now kept.new }
    {
        match self.evaluator.caller.tree.parent(k) {
            Some(parent) => self.left_at(at, k, parent, kept, reads, steps),
            None => Ok(false),
        }
    }

    /// Whether a node is among those that a step selects at another node. The step is evaluated there once; its visits and
    /// reads count each time.
    fn left_at<L: Ledger>(
        &self,
        at: &PlacedStep<'_>,
        k: NodeId,
        parent: NodeId,
        kept: &mut KeptSteps,
        reads: &mut Recorder,
        steps: &mut Steps<L>,
    ) -> Result<bool, EvalError>
        requires placed { IsPlacedIn self.now.pattern.now at.now }
        requires kept { IsKeptFor self.now.evaluator.caller.tree.now self.now.evaluator.lets.now self.now.pattern.now kept.old }
        ensures ran { Ran (is_left self.now.evaluator.caller.tree.now.nodes (step_of self.now.evaluator.caller.tree.now.nodes self.now.evaluator.lets.now (pattern_step_seen at.now.step.now)) self.now.node k (Some parent))
            (shown result) reads.old reads.new steps.old steps.new }
        ensures kept { IsKeptFor self.now.evaluator.caller.tree.now self.now.evaluator.lets.now self.now.pattern.now kept.new }
    {
        if let Some(found) = kept.find(key_at(at, parent)) {
            steps.tick_times(found.visits);
            return found.selected.tell(k, reads);
        }
        self.left_anew(at, k, parent, kept, reads, steps)
    }

    /// `left_at` by an evaluation of the step, whose outcome is kept.
    fn left_anew<L: Ledger>(
        &self,
        at: &PlacedStep<'_>,
        k: NodeId,
        parent: NodeId,
        kept: &mut KeptSteps,
        reads: &mut Recorder,
        steps: &mut Steps<L>,
    ) -> Result<bool, EvalError>
        requires placed { IsPlacedIn self.now.pattern.now at.now }
        requires kept { IsKeptFor self.now.evaluator.caller.tree.now self.now.evaluator.lets.now self.now.pattern.now kept.old }
        ensures ran { Ran (is_left self.now.evaluator.caller.tree.now.nodes (step_of self.now.evaluator.caller.tree.now.nodes self.now.evaluator.lets.now (pattern_step_seen at.now.step.now)) self.now.node k (Some parent))
            (shown result) reads.old reads.new steps.old steps.new }
        ensures kept { IsKeptFor self.now.evaluator.caller.tree.now self.now.evaluator.lets.now self.now.pattern.now kept.new }
    {
        patterns_need_no_current();
        let before = steps.taken();
        let selected = self.select(at.step, parent, steps)?;
        let visits = visits_between(before, steps.taken());
        let key = key_at(at, parent);
        selected.tell_and_keep(k, reads, kept, key, visits)
    }

    /// What a step selects at a node, with what is read for it.
    fn select<L: Ledger>(
        &self,
        step: &TypedPatternStep,
        parent: NodeId,
        steps: &mut Steps<L>,
    ) -> Result<Selected, AllocError>
        ensures { (k : ℕ) →
            Ran (is_left self.now.evaluator.caller.tree.now.nodes (step_of self.now.evaluator.caller.tree.now.nodes self.now.evaluator.lets.now (pattern_step_seen step.now)) self.now.node k (Some parent))
            (told_of result k) nothing_read (reads_of result) steps.old steps.new }
    {
        let alloc = self.evaluator.caller.alloc;
        let mut reads = Recorder::new(alloc);
        let nodes = self
            .evaluator
            .step_at(&step.step, self.node, parent, &mut reads, steps);
        reads.settle();
        selected(alloc, nodes, reads)
    }
}

/// By what the outcome of a step at a node is kept.
fn key_at(at: &PlacedStep<'_>, parent: NodeId) -> StepKey
    ensures { result ≡ record { path = at.now.path; step = at.now.number; parent = parent } }
{
    StepKey {
        path: at.path,
        step: at.number,
        parent: parent.index(),
    }
}

/// What a step selected that ended so.
fn selected(
    alloc: Global,
    nodes: Result<NodeList, EvalError>,
    reads: Recorder,
) -> Result<Selected, AllocError>
    ensures { (m : Evaluation EvalFault Bool) (k before after : ℕ) →
        Ran m (nodes_told (shown nodes) k) nothing_read reads before after → Ran m (told_of result k) nothing_read (reads_of result) before after }
{
    match nodes {
        Ok(nodes) => {
            let index = NodeIndex::of(alloc, nodes.as_slice())?;
            Ok(Selected {
                nodes: Ok(index),
                reads,
            })
        }
        Err(EvalError::Fault(fault)) => Ok(Selected {
            nodes: Err(fault),
            reads,
        }),
        Err(EvalError::Memory) => Err(AllocError),
    }
}

impl Selected {
    /// Whether a node is among those selected, or the fault; adds what was read.
    fn tell(&self, k: NodeId, reads: &mut Recorder) -> Result<bool, EvalError>
        ensures { (m : Evaluation EvalFault Bool) (before after : ℕ) →
            Ran m (told self.now.nodes k) nothing_read self.now.reads before after → Ran m (shown result) reads.old reads.new before after }
    {
        reads.join(&self.reads)?;
        match &self.nodes {
            Ok(nodes) => Ok(nodes.has(k)),
            Err(fault) => Err(EvalError::Fault(*fault)),
        }
    }

    /// `tell`, and keeps by a key what was selected, where its visits are known.
    fn tell_and_keep(
        self,
        k: NodeId,
        reads: &mut Recorder,
        kept: &mut KeptSteps,
        key: StepKey,
        visits: Option<usize>,
    ) -> Result<bool, EvalError>
        ensures told { (m : Evaluation EvalFault Bool) (before after : ℕ) →
            Ran m (told self.nodes k) nothing_read self.reads before after → Ran m (shown result) reads.old reads.new before after }
        ensures kept { (C : Contents) (L : Lets) (pattern : List TypedPathTree) → IsKeptFor C L pattern kept.old →
            IfSome visits (λ count. IsOutcomeAt C.nodes L pattern key (record { selected = self; visits = count })) → IsKeptFor C L pattern kept.new }
    {
        let told = self.tell(k, reads);
        kept.keep(key, self, visits)?;
        told
    }
}

/// How many steps were counted between two counts, where the later one isn't the greatest that there is.
fn visits_between(before: u64, after: u64) -> Option<usize>
    ensures { IfSome result (λ visits. (after ≡ before + visits) × (after < 18446744073709551615)) }
{
    if after < u64::MAX && before <= after {
        Some((after - before) as usize)
    } else {
        None
    }
}

/// Whether a node is among some nodes.
pub(crate) fn is_among(nodes: &[NodeId], n: NodeId) -> bool
    ensures { result ≡ mem n nodes.now }
{
    nodes.contains(&n)
}
