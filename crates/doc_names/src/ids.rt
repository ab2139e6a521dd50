//! The numbers of names.

ghost use Rattle.std.specs.Prelude.{◌≡◌};

use std::marker::Model;

/// The number of a name in its table, counted from 0 in the order of first use.
#[derive(Clone, Copy, Debug, PartialEq, Eq)]
pub struct NameId {
    number: usize,
}

impl Model for NameId {
    ghost use Rattle.std.specs.Prelude.{ℕ};

    ghost Value = { ℕ };

    ghost view = { λ n. n.number };

    ghost inverse = { λ n. record { number = n } };
}

impl NameId {
    /// The name with this number.
    pub(crate) fn from_index(number: usize) -> NameId
        ensures { result ≡ number }
    {
        NameId { number }
    }

    /// The number as a place in a list.
    pub fn index(self) -> usize
        ensures { result ≡ self }
    {
        self.number
    }
}
