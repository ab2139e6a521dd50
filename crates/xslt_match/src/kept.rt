//! What steps with positional predicates selected at nodes, and what is known of paths, kept for the matching of other nodes.

ghost use Rattle.std.specs.Prelude.{◌≡◌, ◌<◌, List, None, Some, IfSome};
ghost use Rattle.std.specs.Option.{option_copied};
ghost use Rattle.doc_tree.specs.Table.{Contents};
ghost use Rattle.xp_typed_tree.specs.TypedTree.{TypedPathTree};
ghost use Rattle.xp_typed_tree.specs.TypedView.{path_seen};
ghost use Rattle.xp_meaning.specs.Evaluation.{Lets};
ghost use Rattle.xslt_match.specs.inner.Keeping.{IsPathIn};
ghost use Rattle.xslt_match.specs.inner.Named.{all_named};
ghost use Rattle.xslt_match.specs.Kept.{IsKeptFor, IsOutcomeAt};
ghost use Rattle.xslt_match.specs.Matching.{matching};

use crate::chains::PlacedPath;
use crate::known_test::KnownTest;
use crate::names::all_named;
use crate::nodes::NodeIndex;
use indexmap::IndexMap;
use std::alloc::{AllocError, Global};
use xp_outcome::Recorder;
use xp_typed_tree::TypedPattern;
use xp_values::EvalFault;

/// How many outcomes are kept at most: when there are so many, all are let go, and kept anew.
const MOST_KEPT: usize = 65536;

/// A step of a pattern at a node: the number of its path pattern, its number there, and the node.
#[derive(Clone, Copy, PartialEq, Eq, Hash)]
pub(crate) struct StepKey {
    pub(crate) path: usize,
    pub(crate) step: usize,
    pub(crate) parent: usize,
}

/// What a step selected at a node: the nodes, or the first fault, and what was read for it.
#[derive(Drop)]
pub(crate) struct Selected {
    pub(crate) nodes: Result<NodeIndex, EvalFault>,
    pub(crate) reads: Recorder,
}

/// What a step selected at a node, and how many visits it took.
#[derive(Drop)]
pub(crate) struct KeptStep {
    pub(crate) selected: Selected,
    pub(crate) visits: usize,
}

/// What is known of a path of a pattern.
#[derive(Clone, Copy)]
pub(crate) struct KnownPath {
    /// What is known of the node test at which it ends.
    pub(crate) test: KnownTest,
    /// Whether each of its steps looks at the names of elements, and at one place.
    pub(crate) named: bool,
}

/// What is kept of the steps of one pattern with positional predicates, what each selected at which node; and of its paths, by their numbers,
/// what is known of each.
///
/// It is kept for one tree and one table of lets, as `IsKeptFor` says.
#[derive(Drop)]
pub struct KeptSteps {
    steps: IndexMap<StepKey, KeptStep>,
    pub(crate) paths: Vec<KnownPath>,
}

impl KeptSteps {
    /// Nothing is kept.
    pub fn new(alloc: Global) -> KeptSteps
        ensures { (C : Contents) (L : Lets) (pattern : List TypedPathTree) → IsKeptFor C L pattern result }
    {
        KeptSteps {
            steps: IndexMap::new(alloc),
            paths: Vec::new(alloc),
        }
    }

    /// Makes a place for what is known of each path of the pattern, where there is none yet.
    pub(crate) fn reach(&mut self, pattern: &TypedPattern) -> Result<(), AllocError>
        ensures { (C : Contents) (L : Lets) → IsKeptFor C L pattern.now self.old → IsKeptFor C L pattern.now self.new }
    {
        let paths = pattern.paths();
        while self.paths.len() < paths.len() {
            let path = &paths[self.paths.len()];
            self.paths.push(KnownPath {
                test: KnownTest::nothing(),
                named: all_named(&path.steps),
            })?;
        }
        Ok(())
    }

    /// Whether each step of a path of the pattern looks at the names of elements, and at one place.
    pub(crate) fn all_named(&self, at: &PlacedPath<'_>) -> bool
        ensures { (C : Contents) (L : Lets) (pattern : List TypedPathTree) → IsKeptFor C L pattern self.now → IsPathIn pattern at.now →
            result ≡ all_named (path_seen at.now.path.now).steps }
    {
        match self.paths.get(at.number) {
            Some(known) => known.named,
            None => all_named(&at.path.steps),
        }
    }

    /// What is kept of a step at a node.
    pub(crate) fn find(&self, key: StepKey) -> Option<&KeptStep>
        ensures { (C : Contents) (L : Lets) (pattern : List TypedPathTree) → IsKeptFor C L pattern self.now →
            IfSome (option_copied result) (IsOutcomeAt C.nodes L pattern key) }
    {
        self.steps.get(&key)
    }

    /// Keeps what a step selected at a node, where its visits are known.
    pub(crate) fn keep(
        &mut self,
        key: StepKey,
        selected: Selected,
        visits: Option<usize>,
    ) -> Result<(), AllocError>
        ensures { (C : Contents) (L : Lets) (pattern : List TypedPathTree) → IsKeptFor C L pattern self.old →
            IfSome visits (λ count. IsOutcomeAt C.nodes L pattern key (record { selected = selected; visits = count })) → IsKeptFor C L pattern self.new }
    {
        match visits {
            Some(visits) => self.put(key, KeptStep { selected, visits }),
            None => {
                drop(selected);
                Ok(())
            }
        }
    }

    /// Keeps what a step selected at a node, in place of all that is kept where this is too much.
    fn put(&mut self, key: StepKey, kept: KeptStep) -> Result<(), AllocError>
        ensures { (C : Contents) (L : Lets) (pattern : List TypedPathTree) → IsKeptFor C L pattern self.old →
            IsOutcomeAt C.nodes L pattern key kept → IsKeptFor C L pattern self.new }
    {
        self.make_room();
        drop(self.steps.insert(key, kept)?);
        Ok(())
    }

    /// Lets all go where there is too much.
    fn make_room(&mut self)
        ensures { (C : Contents) (L : Lets) (pattern : List TypedPathTree) → IsKeptFor C L pattern self.old → IsKeptFor C L pattern self.new }
    {
        if self.steps.len() >= MOST_KEPT {
            self.steps.clear();
        }
    }
}
