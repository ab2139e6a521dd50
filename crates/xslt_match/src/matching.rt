//! The matching of nodes against match patterns (XSLT 1.0, section 5.2).

ghost use Rattle.std.specs.Prelude.{◌≡◌, ◌∷◌, [], true, false, Ok, OnOk};
ghost use Rattle.doc_tree.specs.Table.{is_live};
ghost use Rattle.xp_outcome.specs.Evaluation.{all_reading};
ghost use Rattle.xp_outcome.specs.Running.{Ran};
ghost use Rattle.xp_meaning.specs.Results.{shown};
ghost use Rattle.xp_typed_tree.specs.TypedView.{path_seen};
ghost use Rattle.xslt_match.specs.inner.Keeping.{IsPathIn};
ghost use Rattle.xslt_match.specs.Kept.{IsKeptFor};
ghost use Rattle.xslt_match.specs.Matching.{matching, path_matches, some_path};
ghost use Rattle.xslt_match.specs.Names.{HoldsNames, pattern_names, step_names};

use crate::chains::PlacedPath;
use crate::kept::KeptSteps;
use crate::names::{NamesUp, read_names_up};
use doc_tree::{NodeId, Tree};
use std::alloc::Global;
use std::sync::ledger::Ledger;
use xp_eval::{Caller, Evaluator};
use xp_meaning::Lets;
use xp_outcome::{Recorder, Steps};
use xp_typed_tree::TypedPattern;
use xp_values::EvalError;

/// Whether a live node matches a pattern (XSLT 1.0, section 5.2), or the first fault of the tests.
///
/// First the names are read that the steps' tests look at, of the nodes at which a step can stand, whether or not there is a chain.
/// Then the nodes that stand at a step in some chain to the node are tested, path by path, step by step from the left, from
/// the root downwards. It is one visit, and those of the tests: one for each node that is tested with no positional
/// predicate, else those of the step at the node's parent.
///
/// Beside what it held, the recorder holds these names and what the tests read; see `Ran` for what stands where memory is wanting. A
/// path whose last node test refuses the node costs one look, and one for each name that is read. One in which no step but the first stands after
/// `//` costs, beside the tests, the square of the number of its steps and no memory, and where it begins by `//` the depth
/// besides. Another costs, beside the tests, for each two of its steps at most the square of the depth. Each path takes a place in memory, for what is
/// known of it.
pub fn matches<L: Ledger>(
    alloc: Global,
    tree: &Tree,
    pattern: &TypedPattern,
    n: NodeId,
    lets: &Lets,
    reads: &mut Recorder,
    steps: &mut Steps<L>,
) -> Result<bool, EvalError>
    requires { is_live tree.now.nodes n ≡ true }
    ensures { Ran (matching tree.now.nodes lets.now pattern.now n)
        (shown result) reads.old reads.new steps.old steps.new }
{
    let caller = Caller { alloc, tree };
    let mut kept = KeptSteps::new(alloc);
    let evaluator = Evaluator { caller, lets };
    let mut at = NamesUp::none(n);
    matches_with(&evaluator, pattern, &mut at, &mut kept, reads, steps)
}

/// `matches`, with what is kept of the pattern's steps for the same tree and the same lets, and with what is known of the names that are recorded for the
/// node already.
///
/// A step with a positional predicate is evaluated once at each node, and what it gave there is kept for the other nodes
/// below it; its visits and its reads count each time. So it costs for each of these nodes what the step reads, and a
/// look-up. What the last node test of a path says of names is kept too, so that most nodes cost it a comparison of numbers.
pub fn matches_with<L: Ledger>(
    evaluator: &Evaluator<'_>,
    pattern: &TypedPattern,
    at: &mut NamesUp,
    kept: &mut KeptSteps,
    reads: &mut Recorder,
    steps: &mut Steps<L>,
) -> Result<bool, EvalError>
    requires live { is_live evaluator.now.caller.tree.now.nodes at.old.node ≡ true }
    requires kept { IsKeptFor evaluator.now.caller.tree.now evaluator.now.lets.now pattern.now kept.old }
    requires named { HoldsNames evaluator.now.caller.tree.now.nodes at.old.node at.old.levels reads.old }
    ensures ran { Ran (matching evaluator.now.caller.tree.now.nodes evaluator.now.lets.now pattern.now at.old.node)
        (shown result) reads.old reads.new steps.old steps.new }
    ensures kept { IsKeptFor evaluator.now.caller.tree.now evaluator.now.lets.now pattern.now kept.new }
    ensures named { OnOk result (HoldsNames evaluator.now.caller.tree.now.nodes at.new.node at.new.levels reads.new) }
    ensures same { at.new.node ≡ at.old.node }
{
    steps.tick();
    let node = at.node;
    kept.reach(pattern)?;
    let matcher = Matcher {
        evaluator: *evaluator,
        pattern,
        node,
    };
    match pattern.paths() {
        [path] => {
            let path = PlacedPath { path, number: 0 };
            matcher.one_path(&path, kept, &mut at.levels, reads, steps)
        }
        _ => matcher.several_paths(kept, reads, steps),
    }
}

/// What stays the same in the matching of a node: the evaluator of the predicates, the pattern, and the node.
#[derive(Clone, Copy)]
pub(crate) struct Matcher<'r> {
    pub(crate) evaluator: Evaluator<'r>,
    pub(crate) pattern: &'r TypedPattern,
    /// The node that is matched, which is live.
    pub(crate) node: NodeId,
}

impl Matcher<'_> {
    /// Records the names that the pattern's steps look at, and tells whether a live node matches some path.
    fn several_paths<L: Ledger>(
        &self,
        kept: &mut KeptSteps,
        reads: &mut Recorder,
        steps: &mut Steps<L>,
    ) -> Result<bool, EvalError>
        requires lives { is_live self.now.evaluator.caller.tree.now.nodes self.now.node ≡ true }
        requires kept { IsKeptFor self.now.evaluator.caller.tree.now self.now.evaluator.lets.now self.now.pattern.now kept.old }
        ensures ran { Ran (all_reading (pattern_names self.now.evaluator.caller.tree.now.nodes self.now.node self.now.pattern.now)
            (some_path self.now.evaluator.caller.tree.now.nodes self.now.evaluator.lets.now self.now.node self.now.pattern.now))
            (shown result) reads.old reads.new steps.old steps.new }
        ensures kept { IsKeptFor self.now.evaluator.caller.tree.now self.now.evaluator.lets.now self.now.pattern.now kept.new }
    {
        self.read_names(reads)?;
        self.some_path(kept, reads, steps)
    }

    /// The same for the only path of the pattern, where the names of so many nodes from the one upwards may be recorded already.
    fn one_path<L: Ledger>(
        &self,
        at: &PlacedPath<'_>,
        kept: &mut KeptSteps,
        levels: &mut usize,
        reads: &mut Recorder,
        steps: &mut Steps<L>,
    ) -> Result<bool, EvalError>
        requires lives { is_live self.now.evaluator.caller.tree.now.nodes self.now.node ≡ true }
        requires placed { IsPathIn self.now.pattern.now at.now }
        requires only { self.now.pattern.now ≡ path_seen at.now.path.now ∷ [] }
        requires kept { IsKeptFor self.now.evaluator.caller.tree.now self.now.evaluator.lets.now self.now.pattern.now kept.old }
        requires named { HoldsNames self.now.evaluator.caller.tree.now.nodes self.now.node levels.old reads.old }
        ensures ran { Ran (all_reading (step_names self.now.evaluator.caller.tree.now.nodes self.now.node (path_seen at.now.path.now).steps)
            (path_matches self.now.evaluator.caller.tree.now.nodes self.now.evaluator.lets.now self.now.node (path_seen at.now.path.now)))
            (shown result) reads.old reads.new steps.old steps.new }
        ensures kept { IsKeptFor self.now.evaluator.caller.tree.now self.now.evaluator.lets.now self.now.pattern.now kept.new }
        ensures named { OnOk result (HoldsNames self.now.evaluator.caller.tree.now.nodes self.now.node levels.new reads.new) }
    {
        let tree = self.evaluator.caller.tree;
        let named = kept.all_named(at);
        read_names_up(tree, &at.path.steps, named, self.node, levels, reads)?;
        self.path_matches(at, kept, reads, steps)
    }

    /// Whether a live node matches some path of the pattern; all are tested.
    fn some_path<L: Ledger>(
        &self,
        kept: &mut KeptSteps,
        reads: &mut Recorder,
        steps: &mut Steps<L>,
    ) -> Result<bool, EvalError>
        requires lives { is_live self.now.evaluator.caller.tree.now.nodes self.now.node ≡ true }
        requires kept { IsKeptFor self.now.evaluator.caller.tree.now self.now.evaluator.lets.now self.now.pattern.now kept.old }
        ensures ran { Ran (some_path self.now.evaluator.caller.tree.now.nodes self.now.evaluator.lets.now self.now.node self.now.pattern.now)
            (shown result) reads.old reads.new steps.old steps.new }
        ensures kept { IsKeptFor self.now.evaluator.caller.tree.now self.now.evaluator.lets.now self.now.pattern.now kept.new }
    {
        let mut matched = false;
        for (number, path) in self.pattern.paths().iter().enumerate() {
            let here = self.path_matches(&PlacedPath { path, number }, kept, reads, steps)?;
            matched |= here;
        }
        Ok(matched)
    }
}
