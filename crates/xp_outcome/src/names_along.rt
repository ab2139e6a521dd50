//! The names along an axis from a node.

ghost use Rattle.std.specs.Prelude.{◌≡◌};
ghost use Rattle.std.proofs.Common.{rules};
ghost use Rattle.std.specs.Cmp.{partial_order_from_own_ties};
ghost use Rattle.std.specs.Cmp.Rules.{comparing};
ghost use Rattle.std.specs.Ordering.{as_partial_cmp, eq_by_cmp, nat_cmp, on, then_cmp};
ghost use Rattle.xp_outcome.specs.Recorded.{axis_number};

use doc_tree::{Axis, NodeId};
use std::cmp::Ordering;

/// The names of the nodes on an axis from a node that are of its principal kind (XPath 1.0, section 2.3): what a step whose
/// test is a name reads there. They are one item, however many they are.
#[derive(Clone, Copy, Debug)]
pub struct NamesAlong {
    pub axis: Axis,
    pub node: NodeId,
}

impl PartialEq for NamesAlong {
    ghost eq = { eq_by_cmp (then_cmp (on (λ a. axis_number a.axis) nat_cmp) (on (λ a. a.node) nat_cmp)) };

    ghost laws = { Prim.search (comparing, rules) };

    fn eq(&self, other: &NamesAlong) -> bool {
        self.node == other.node && axis_number(self.axis) == axis_number(other.axis)
    }
}

impl Eq for NamesAlong {
    ghost laws = { Prim.search (comparing, rules) };
}

impl Ord for NamesAlong {
    ghost cmp = { then_cmp (on (λ a. axis_number a.axis) nat_cmp) (on (λ a. a.node) nat_cmp) };

    ghost total = { Prim.search (comparing, rules) };

    ghost matches_partial_cmp = { Prim.search (comparing, rules) };

    ghost matches_eq = { Prim.search (comparing, rules) };

    fn cmp(&self, other: &NamesAlong) -> Ordering {
        axis_number(self.axis)
            .cmp(&axis_number(other.axis))
            .then(self.node.cmp(&other.node))
    }
}

impl PartialOrd for NamesAlong {
    ghost partial_cmp = { as_partial_cmp (then_cmp (on (λ a. axis_number a.axis) nat_cmp) (on (λ a. a.node) nat_cmp)) };

    ghost laws = { partial_order_from_own_ties (Prim.search (comparing, rules)) (Prim.search (comparing, rules)) };

    fn partial_cmp(&self, other: &NamesAlong) -> Option<Ordering> {
        Some(self.cmp(other))
    }
}

/// The place of an axis in the order of axes.
fn axis_number(axis: Axis) -> u8
    ensures { result ≡ axis_number axis }
{
    match axis {
        Axis::Ancestor => 0,
        Axis::AncestorOrSelf => 1,
        Axis::Attribute => 2,
        Axis::Child => 3,
        Axis::Descendant => 4,
        Axis::DescendantOrSelf => 5,
        Axis::Following => 6,
        Axis::FollowingSibling => 7,
        Axis::Parent => 8,
        Axis::Preceding => 9,
        Axis::PrecedingSibling => 10,
        Axis::SelfNode => 11,
    }
}
