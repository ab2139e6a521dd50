//! The chains of a path pattern's steps to a node, and the tests of the nodes in them (XSLT 1.0, section 5.2).

ghost use Rattle.std.specs.Prelude.{◌≡◌, ◌∷◌, Some, true, false, map};
ghost use Rattle.doc_tree.specs.Table.{is_live};
ghost use Rattle.doc_axes.specs.NodeTests.{passes};
ghost use Rattle.xp_outcome.specs.Running.{Ran};
ghost use Rattle.xp_meaning.specs.Results.{shown};
ghost use Rattle.xp_typed_tree.specs.TypedView.{path_seen, pattern_step_seen};
ghost use Rattle.xslt_match.specs.inner.Ends.{ends_elsewhere};
ghost use Rattle.xslt_match.specs.inner.Keeping.{IsFrontIn, IsPathIn};
ghost use Rattle.xslt_match.specs.inner.OneChain.{all_from_parents};
ghost use Rattle.xslt_match.specs.Kept.{IsKeptFor, last_step};
ghost use Rattle.xslt_match.specs.Matching.{chains, path_matches, starts};

use crate::kept::KeptSteps;
use crate::leading::{led_to, starts, way_to};
use crate::matching::Matcher;
use crate::one_chain::{all_from_parents, has_chain, is_start};
use crate::testing::{PlacedStep, is_among};
use doc_axes::passes;
use doc_tree::NodeId;
use std::sync::ledger::Ledger;
use xp_eval::Caller;
use xp_outcome::{Recorder, Steps};
use xp_typed_tree::{TypedPath, TypedPatternStep};
use xp_values::EvalError;

/// A path of the pattern, with its number there.
#[derive(Clone, Copy)]
pub(crate) struct PlacedPath<'r> {
    pub(crate) path: &'r TypedPath,
    pub(crate) number: usize,
}

/// How far the chains of a path to a node have been followed.
#[derive(Clone, Copy)]
pub(crate) struct Front<'r> {
    pub(crate) at: PlacedPath<'r>,
    /// The steps of the path that are left.
    pub(crate) later: &'r [TypedPatternStep],
    /// The nodes that stand before them.
    pub(crate) nodes: &'r [NodeId],
    /// Those of the nodes to which a chain leads whose nodes all survived.
    pub(crate) alive: &'r [NodeId],
}

impl Matcher<'_> {
    /// Whether a live node matches a path pattern. Most paths end at another kind of node or another name: these are
    /// refused at once.
    pub(crate) fn path_matches<L: Ledger>(
        &self,
        at: &PlacedPath<'_>,
        kept: &mut KeptSteps,
        reads: &mut Recorder,
        steps: &mut Steps<L>,
    ) -> Result<bool, EvalError>
        requires lives { is_live self.now.evaluator.caller.tree.now.nodes self.now.node ≡ true }
        requires placed { IsPathIn self.now.pattern.now at.now }
        requires kept { IsKeptFor self.now.evaluator.caller.tree.now self.now.evaluator.lets.now self.now.pattern.now kept.old }
        ensures ran { Ran (path_matches self.now.evaluator.caller.tree.now.nodes self.now.evaluator.lets.now self.now.node (path_seen at.now.path.now))
            (shown result) reads.old reads.new steps.old steps.new }
        ensures kept { IsKeptFor self.now.evaluator.caller.tree.now self.now.evaluator.lets.now self.now.pattern.now kept.new }
    {
        if self.ends_elsewhere(at, kept) {
            return Ok(false);
        }
        self.chain_matches(at, kept, reads, steps)
    }

    /// Whether the node test at which a path ends refuses a live node.
    fn ends_elsewhere(&self, at: &PlacedPath<'_>, kept: &mut KeptSteps) -> bool
        requires lives { is_live self.now.evaluator.caller.tree.now.nodes self.now.node ≡ true }
        requires placed { IsPathIn self.now.pattern.now at.now }
        requires kept { IsKeptFor self.now.evaluator.caller.tree.now self.now.evaluator.lets.now self.now.pattern.now kept.old }
        ensures ends { result ≡ ends_elsewhere self.now.evaluator.caller.tree.now.nodes (path_seen at.now.path.now).steps self.now.node }
        ensures kept { IsKeptFor self.now.evaluator.caller.tree.now self.now.evaluator.lets.now self.now.pattern.now kept.new }
    {
        match at.path.steps.split_last() {
            Some((last, _)) => !self.passes_last(at, last, kept),
            None => false,
        }
    }

    /// Whether a live node passes the node test at which a path ends, by what is known of the names that this accepts.
    fn passes_last(
        &self,
        at: &PlacedPath<'_>,
        last: &TypedPatternStep,
        kept: &mut KeptSteps,
    ) -> bool
        requires lives { is_live self.now.evaluator.caller.tree.now.nodes self.now.node ≡ true }
        requires placed { IsPathIn self.now.pattern.now at.now }
        requires last { last_step (path_seen at.now.path.now).steps ≡ Some (pattern_step_seen last.now) }
        requires kept { IsKeptFor self.now.evaluator.caller.tree.now self.now.evaluator.lets.now self.now.pattern.now kept.old }
        ensures passes { result ≡ passes self.now.evaluator.caller.tree.now.nodes (pattern_step_seen last.now).axis (pattern_step_seen last.now).test self.now.node }
        ensures kept { IsKeptFor self.now.evaluator.caller.tree.now self.now.evaluator.lets.now self.now.pattern.now kept.new }
    {
        let tree = self.evaluator.caller.tree;
        let step = &last.step;
        match kept.paths.get_mut(at.number) {
            Some(known) => known.test.passes(tree, self.node, step.axis, &step.test),
            None => passes(tree, self.node, step.axis, &step.test),
        }
    }

    /// `path_matches` where the last node test lets the node pass: the chain is followed alone where there is one at most.
    fn chain_matches<L: Ledger>(
        &self,
        at: &PlacedPath<'_>,
        kept: &mut KeptSteps,
        reads: &mut Recorder,
        steps: &mut Steps<L>,
    ) -> Result<bool, EvalError>
        requires lives { is_live self.now.evaluator.caller.tree.now.nodes self.now.node ≡ true }
        requires placed { IsPathIn self.now.pattern.now at.now }
        requires kept { IsKeptFor self.now.evaluator.caller.tree.now self.now.evaluator.lets.now self.now.pattern.now kept.old }
        ensures ran { Ran (path_matches self.now.evaluator.caller.tree.now.nodes self.now.evaluator.lets.now self.now.node (path_seen at.now.path.now))
            (shown result) reads.old reads.new steps.old steps.new }
        ensures kept { IsKeptFor self.now.evaluator.caller.tree.now self.now.evaluator.lets.now self.now.pattern.now kept.new }
    {
        let path = at.path;
        match path.steps.split_first() {
            None => Ok(is_start(self.evaluator.caller.tree, path.from_root, self.node)),
            Some((first, later)) if all_from_parents(later) => {
                self.one_chain_matches(at, first, later, kept, reads, steps)
            }
            Some(_) => self.chains_on_way(at, kept, reads, steps),
        }
    }

    /// `path_matches` where each step but the first is one from parents, so that there is one chain at most.
    fn one_chain_matches<L: Ledger>(
        &self,
        at: &PlacedPath<'_>,
        first: &TypedPatternStep,
        later: &[TypedPatternStep],
        kept: &mut KeptSteps,
        reads: &mut Recorder,
        steps: &mut Steps<L>,
    ) -> Result<bool, EvalError>
        requires lives { is_live self.now.evaluator.caller.tree.now.nodes self.now.node ≡ true }
        requires placed { IsPathIn self.now.pattern.now at.now }
        requires parted { at.now.path.now.steps.items ≡ first.now ∷ later.now }
        requires from_parents { all_from_parents (map pattern_step_seen later.now) ≡ true }
        requires kept { IsKeptFor self.now.evaluator.caller.tree.now self.now.evaluator.lets.now self.now.pattern.now kept.old }
        ensures ran { Ran (path_matches self.now.evaluator.caller.tree.now.nodes self.now.evaluator.lets.now self.now.node (path_seen at.now.path.now))
            (shown result) reads.old reads.new steps.old steps.new }
        ensures kept { IsKeptFor self.now.evaluator.caller.tree.now self.now.evaluator.lets.now self.now.pattern.now kept.new }
    {
        let tree = self.evaluator.caller.tree;
        tree.laws();
        if has_chain(tree, at.path.from_root, first, later, self.node) {
            return self.tests(at, kept, reads, steps);
        }
        Ok(false)
    }

    /// `path_matches` by the way from the root to the node, on which all nodes of chains stand.
    fn chains_on_way<L: Ledger>(
        &self,
        at: &PlacedPath<'_>,
        kept: &mut KeptSteps,
        reads: &mut Recorder,
        steps: &mut Steps<L>,
    ) -> Result<bool, EvalError>
        requires lives { is_live self.now.evaluator.caller.tree.now.nodes self.now.node ≡ true }
        requires placed { IsPathIn self.now.pattern.now at.now }
        requires kept { IsKeptFor self.now.evaluator.caller.tree.now self.now.evaluator.lets.now self.now.pattern.now kept.old }
        ensures ran { Ran (path_matches self.now.evaluator.caller.tree.now.nodes self.now.evaluator.lets.now self.now.node (path_seen at.now.path.now))
            (shown result) reads.old reads.new steps.old steps.new }
        ensures kept { IsKeptFor self.now.evaluator.caller.tree.now self.now.evaluator.lets.now self.now.pattern.now kept.new }
    {
        let Caller { alloc, tree } = self.evaluator.caller;
        let way = way_to(alloc, tree, self.node)?;
        let first = starts(tree, at.path.from_root, way.as_slice(), self.node);
        let front = Front {
            at: *at,
            later: at.path.steps.as_slice(),
            nodes: first,
            alive: first,
        };
        let has_chain = self.chains(&front, way.as_slice(), kept, reads, steps);
        drop(way);
        has_chain
    }

    /// Whether all nodes of some chain of a path to a live node survive their tests, step by step from the left. Where no
    /// node stands at a step there is no chain, and no more node is tested.
    ///
    /// Beside the tests it costs, for each two steps, the square of the way's length at most. It calls itself for each step
    /// at which some node stands, and so at most as often as there are nodes on the way, since each step leads downwards.
    fn chains<L: Ledger>(
        &self,
        front: &Front<'_>,
        way: &[NodeId],
        kept: &mut KeptSteps,
        reads: &mut Recorder,
        steps: &mut Steps<L>,
    ) -> Result<bool, EvalError>
        requires lives { is_live self.now.evaluator.caller.tree.now.nodes self.now.node ≡ true }
        requires way { way.now ≡ starts self.now.evaluator.caller.tree.now.nodes false self.now.node }
        requires placed { IsFrontIn self.now.pattern.now front.now }
        requires kept { IsKeptFor self.now.evaluator.caller.tree.now self.now.evaluator.lets.now self.now.pattern.now kept.old }
        ensures ran { Ran (chains self.now.evaluator.caller.tree.now.nodes self.now.evaluator.lets.now self.now.node (map pattern_step_seen front.now.later.now) front.now.nodes.now front.now.alive.now)
            (shown result) reads.old reads.new steps.old steps.new }
        ensures kept { IsKeptFor self.now.evaluator.caller.tree.now self.now.evaluator.lets.now self.now.pattern.now kept.new }
    {
        let Some((step, rest)) = front.later.split_first() else {
            return Ok(is_among(front.alive, self.node));
        };
        let Caller { alloc, tree } = self.evaluator.caller;
        let nodes = self.standing(step, rest, front.nodes, way)?;
        if nodes.is_empty() {
            return Ok(false);
        }
        let here = PlacedStep {
            step,
            path: front.at.number,
            number: front.at.path.steps.len() - front.later.len(),
        };
        let left = self.survivors(&here, nodes.as_slice(), kept, reads, steps)?;
        let alive = led_to(alloc, tree, step, front.alive, left.as_slice())?;
        let next = Front {
            at: front.at,
            later: rest,
            nodes: nodes.as_slice(),
            alive: alive.as_slice(),
        };
        self.chains(&next, way, kept, reads, steps)
    }
}
