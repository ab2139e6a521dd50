//! Typed path patterns.

ghost use Rattle.std.specs.Prelude.{◌≡◌};
ghost use Rattle.xp_typed_tree.specs.TypedView.{typed_seen, pattern_step_seen};

use crate::expr::{TypedExpr, TypedStep};
use doc_tree::{Axis, NodeTest};
use xp_tree::Join;

/// A path pattern (XSLT 1.0, section 5.2): whether it begins at the root, and its steps from the left to the right.
#[derive(Drop)]
pub struct TypedPath {
    pub from_root: bool,
    pub steps: Vec<TypedPatternStep>,
}

/// A step of a path pattern, with what stands before it.
#[derive(Drop)]
pub struct TypedPatternStep {
    pub join: Join,
    pub step: TypedStep,
}

impl TypedPatternStep {
    /// A step of a path pattern, with what stands before it.
    pub fn new(
        join: Join,
        axis: Axis,
        test: NodeTest,
        predicates: Vec<TypedExpr>,
    ) -> TypedPatternStep
        ensures { pattern_step_seen result ≡ record { join = join; axis = axis; test = test; predicates = typed_seen predicates.items } }
    {
        TypedPatternStep {
            join,
            step: TypedStep {
                axis,
                test,
                predicates,
            },
        }
    }
}
