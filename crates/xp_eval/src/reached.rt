//! The nodes that a location path has come to (XPath 1.0, section 2).

ghost use Rattle.std.specs.Prelude.{◌≡◌, [], ◌∷◌, Ok, IfSome};
ghost use Rattle.xp_values.specs.Outcomes.{Gives};
ghost use Rattle.xp_eval.specs.inner.Reaching.{nodes_reached};

use crate::answers::allocated;
use crate::choosing::lone;
use doc_tree::{NodeId, NodeList};
use std::alloc::Global;
use std::slice;
use xp_typed_tree::TypedStep;
use xp_values::EvalError;

/// The nodes that a path has come to: the one at which it begins, of which no list is made, or those that an expression or
/// a step has selected.
#[derive(Drop)]
pub(crate) enum Reached {
    One(NodeId),
    Set(NodeList),
}

impl Reached {
    /// The nodes in order, lent.
    pub(crate) fn as_slice(&self) -> &[NodeId]
        ensures { result.now ≡ nodes_reached self.now }
    {
        match self {
            Reached::One(n) => slice::from_ref(n),
            Reached::Set(nodes) => nodes.as_slice(),
        }
    }

    /// The nodes as a list. Takes memory where it is made of one node.
    pub(crate) fn into_list(self, alloc: Global) -> Result<NodeList, EvalError>
        ensures { Gives result (Ok (nodes_reached self)) }
    {
        match self {
            Reached::One(n) => allocated(NodeList::of_one(alloc, n)),
            Reached::Set(nodes) => Ok(nodes),
        }
    }
}

/// A step, and the one node from which it is taken.
#[derive(Clone, Copy)]
pub(crate) struct LoneStep<'e> {
    pub(crate) step: &'e TypedStep,
    pub(crate) n: NodeId,
}

/// The step that is alone in a path which begins at one node.
pub(crate) fn lone_step<'e>(path_steps: &'e [TypedStep], begin: &Reached) -> Option<LoneStep<'e>>
    ensures step { IfSome result (λ only. path_steps.now ≡ only.step.now ∷ []) }
    ensures node { IfSome result (λ only. nodes_reached begin.now ≡ only.n ∷ []) }
{
    match begin {
        Reached::One(n) => {
            let step = lone(path_steps)?;
            Some(LoneStep { step, n: *n })
        }
        Reached::Set(_) => None,
    }
}
