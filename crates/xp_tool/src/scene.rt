//! Evaluations and matches with their visits counted.

ghost use Rattle.std.specs.Prelude.{◌≡◌, ◌<◌, true};
ghost use Rattle.doc_tree.specs.Table.{is_live};

use doc_tree::{NodeId, Tree};
use std::alloc::Global;
use std::marker::Brand;
use std::sync::ledger::{Blank, Ledger};
use xp_eval::{Context, Lets, Recorder, Steps, eval};
use xp_typed_tree::{Typed, TypedPattern};
use xp_values::{EvalError, Value};
use xslt_match::matches;

/// A document, and the values of variables.
#[derive(Clone, Copy)]
pub struct Scene<'r> {
    pub alloc: Global,
    pub tree: &'r Tree,
    pub lets: &'r Lets,
}

/// An answer and the visits that it took.
#[derive(Drop)]
pub struct Counted<T> {
    pub answer: Result<T, EvalError>,
    pub visits: u64,
}

impl Scene<'_> {
    /// An expression evaluated at a node, at position 1 of 1.
    pub fn value_at(&self, node: NodeId, expr: &Typed, reads: &mut Recorder) -> Counted<Value> {
        self.value_counted::<Brand>(node, expr, reads, Blank::new(1))
    }

    /// The same, the visits being counted by a ledger.
    fn value_counted<L: Ledger>(
        &self,
        node: NodeId,
        expr: &Typed,
        reads: &mut Recorder,
        blank: Blank,
    ) -> Counted<Value>
        requires name { blank.name ≡ L.name }
        requires parts { blank.parts ≡ L.parts }
        requires some { 0 < L.parts }
    {
        let mut steps: Steps<L> = Steps::start(blank);
        let at = Context {
            node,
            position: 1,
            size: 1,
            current: node,
        };
        let answer = eval(
            self.alloc, self.tree, expr, &at, self.lets, reads, &mut steps,
        );
        let visits = steps.taken();
        Counted { answer, visits }
    }

    /// Whether a live node matches a pattern.
    pub fn match_at(
        &self,
        node: NodeId,
        pattern: &TypedPattern,
        reads: &mut Recorder,
    ) -> Counted<bool>
        requires { is_live self.now.tree.now.nodes node ≡ true }
    {
        self.match_counted::<Brand>(node, pattern, reads, Blank::new(1))
    }

    /// The same, the visits being counted by a ledger.
    fn match_counted<L: Ledger>(
        &self,
        node: NodeId,
        pattern: &TypedPattern,
        reads: &mut Recorder,
        blank: Blank,
    ) -> Counted<bool>
        requires name { blank.name ≡ L.name }
        requires parts { blank.parts ≡ L.parts }
        requires some { 0 < L.parts }
        requires live { is_live self.now.tree.now.nodes node ≡ true }
    {
        let mut steps: Steps<L> = Steps::start(blank);
        let answer = matches(
            self.alloc, self.tree, pattern, node, self.lets, reads, &mut steps,
        );
        let visits = steps.taken();
        Counted { answer, visits }
    }
}
