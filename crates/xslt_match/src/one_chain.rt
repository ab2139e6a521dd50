//! The chain of a path pattern of which each step but the first leads from a parent (XSLT 1.0, section 5.2): there is one at
//! most, so that it is followed with no list of nodes.

ghost use Rattle.std.specs.Prelude.{◌≡◌, ◌∷◌, true, map};
ghost use Rattle.doc_tree.specs.Lists.{mem};
ghost use Rattle.doc_tree.specs.Table.{is_live};
ghost use Rattle.xp_outcome.specs.Running.{Ran};
ghost use Rattle.xp_meaning.specs.Results.{shown};
ghost use Rattle.xp_typed_tree.specs.TypedView.{path_seen, pattern_step_seen};
ghost use Rattle.xp_typed_tree.specs.WellTyped.{PatternStepsTyped};
ghost use Rattle.xslt_match.specs.Kept.{IsKeptFor};
ghost use Rattle.xslt_match.specs.Matching.{starts};
ghost use Rattle.xslt_match.specs.Names.{ancestor_over};
ghost use Rattle.xslt_ways.specs.Ways.{is_anywhere};
ghost use Rattle.xslt_match.specs.inner.Keeping.{IsPathIn, IsPlacedIn};
ghost use Rattle.xslt_match.specs.inner.OneChain.{all_from_parents, leads_there, origin, survives_there, tests};

use crate::chains::PlacedPath;
use crate::kept::KeptSteps;
use crate::leading::{holder, is_led_to};
use crate::matching::Matcher;
use crate::names::ancestor_at;
use crate::testing::PlacedStep;
use doc_tree::{NodeId, Tree};
use std::slice;
use std::sync::ledger::Ledger;
use xp_outcome::{Recorder, Steps};
use xp_typed_tree::{Join, TypedPatternStep};
use xp_values::EvalError;

impl Matcher<'_> {
    /// Whether all nodes of the chain of such a path survive their tests; all are tested, from the left. Costs beside the tests
    /// the square of the number of steps.
    pub(crate) fn tests<L: Ledger>(
        &self,
        at: &PlacedPath<'_>,
        kept: &mut KeptSteps,
        reads: &mut Recorder,
        steps: &mut Steps<L>,
    ) -> Result<bool, EvalError>
        requires placed { IsPathIn self.now.pattern.now at.now }
        requires kept { IsKeptFor self.now.evaluator.caller.tree.now self.now.evaluator.lets.now self.now.pattern.now kept.old }
        ensures ran { Ran (tests self.now.evaluator.caller.tree.now.nodes self.now.evaluator.lets.now self.now.node (path_seen at.now.path.now).steps true)
            (shown result) reads.old reads.new steps.old steps.new }
        ensures kept { IsKeptFor self.now.evaluator.caller.tree.now self.now.evaluator.lets.now self.now.pattern.now kept.new }
    {
        let all = at.path.steps.as_slice();
        let mut passed = true;
        let mut later = all;
        while let Some((step, rest)) = later.split_first() {
            let here = PlacedStep {
                step,
                path: at.number,
                number: all.len() - later.len(),
            };
            let node = ancestor_over(self.evaluator.caller.tree, rest, self.node);
            let stays = self.survives_there(&here, node, kept, reads, steps)?;
            passed &= stays;
            later = rest;
        }
        Ok(passed)
    }

    /// Whether a node survives a step's test, which none does where there is none.
    fn survives_there<L: Ledger>(
        &self,
        at: &PlacedStep<'_>,
        node: Option<NodeId>,
        kept: &mut KeptSteps,
        reads: &mut Recorder,
        steps: &mut Steps<L>,
    ) -> Result<bool, EvalError>
        requires placed { IsPlacedIn self.now.pattern.now at.now }
        requires kept { IsKeptFor self.now.evaluator.caller.tree.now self.now.evaluator.lets.now self.now.pattern.now kept.old }
        ensures ran { Ran (survives_there self.now.evaluator.caller.tree.now.nodes self.now.evaluator.lets.now (pattern_step_seen at.now.step.now) self.now.node node)
            (shown result) reads.old reads.new steps.old steps.new }
        ensures kept { IsKeptFor self.now.evaluator.caller.tree.now self.now.evaluator.lets.now self.now.pattern.now kept.new }
    {
        match node {
            Some(k) => self.survives(at, k, kept, reads, steps),
            None => Ok(false),
        }
    }
}

/// Whether no step stands after `//`.
pub(crate) fn all_from_parents(path_steps: &[TypedPatternStep]) -> bool
    ensures { result ≡ all_from_parents (map pattern_step_seen path_steps.now) }
{
    match path_steps.split_first() {
        Some((step, rest)) => !is_anywhere(step.join) && all_from_parents(rest),
        None => true,
    }
}

/// Whether a step stands after `//`.
pub(crate) fn is_anywhere(join: Join) -> bool
    ensures { result ≡ is_anywhere join }
{
    matches!(join, Join::DoubleSlash)
}

/// Whether a path's first step leads from where the chains to a live node begin to the node from which its later steps,
/// which all lead from parents, lead on to it. Costs the number of steps, and for `//` at the root the depth.
pub(crate) fn has_chain(
    tree: &Tree,
    from_root: bool,
    first: &TypedPatternStep,
    later: &[TypedPatternStep],
    n: NodeId,
) -> bool
    requires lives { is_live tree.now.nodes n ≡ true }
    requires typed { PatternStepsTyped (pattern_step_seen first.now ∷ map pattern_step_seen later.now) }
    requires parents { all_from_parents (map pattern_step_seen later.now) ≡ true }
    ensures { result ≡ leads_there tree.now.nodes (pattern_step_seen first.now) (starts tree.now.nodes from_root n)
        (origin tree.now.nodes (map pattern_step_seen later.now) n) }
{
    tree.laws();
    match origin(tree, later, n) {
        Some(k) if from_root => is_led_to(tree, first, slice::from_ref(&tree.root()), k),
        Some(k) => holder(tree, first, k).is_some(),
        None => false,
    }
}

/// The node from which steps that all lead from parents lead on to a node.
fn origin(tree: &Tree, path_steps: &[TypedPatternStep], n: NodeId) -> Option<NodeId>
    ensures { result ≡ origin tree.now.nodes (map pattern_step_seen path_steps.now) n }
{
    match path_steps.split_first() {
        Some((step, rest)) => {
            let k = origin(tree, rest, n)?;
            holder(tree, step, k)
        }
        None => Some(n),
    }
}

/// The ancestor of a node as many levels above it as there are steps.
pub(crate) fn ancestor_over(
    tree: &Tree,
    path_steps: &[TypedPatternStep],
    n: NodeId,
) -> Option<NodeId>
    ensures { result ≡ ancestor_over tree.now.nodes (map pattern_step_seen path_steps.now) n }
{
    ancestor_at(tree, n, path_steps.len())
}

/// Whether a live node is one where the chains of a path to it begin.
pub(crate) fn is_start(tree: &Tree, from_root: bool, n: NodeId) -> bool
    requires { is_live tree.now.nodes n ≡ true }
    ensures { result ≡ mem n (starts tree.now.nodes from_root n) }
{
    tree.laws();
    !from_root || n == tree.root()
}
