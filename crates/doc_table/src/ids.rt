//! The numbers of nodes.

ghost use Rattle.std.specs.Prelude.{◌≡◌, ◌<◌, ◌^◌};

use std::marker::Model;

/// The number of a node in its tree: the root has 0, and a number is never used again.
#[derive(Clone, Copy, Debug, PartialEq, Eq, PartialOrd, Ord, Default)]
pub struct NodeId {
    number: u32,
}

impl Model for NodeId {
    ghost use Rattle.std.specs.Prelude.{ℕ};

    ghost Value = { ℕ };

    ghost view = { λ n. n.number };

    ghost inverse = { λ n. record { number = n } };
}

impl NodeId {
    /// The node with this number.
    pub fn from_number(number: u32) -> NodeId
        ensures { result ≡ number }
    {
        NodeId { number }
    }

    /// The number as a place in a list.
    pub fn index(self) -> usize
        ensures value { result ≡ self }
        ensures small { result < 2 ^ 32 }
    {
        self.number as usize
    }
}
