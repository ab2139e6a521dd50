//! Amounts of what stands in a schema.

ghost use Rattle.std.specs.Prelude.{◌≡◌};
ghost use Rattle.sch_sizes.specs.inner.Amounts.{cap, many, nothing, plus, sized_amount};

use sch_flat::FlatSize;

/// How many rules, assertions and lets there are, and how many bytes and nodes they have in the document of the schema. A
/// count that would pass the last value of its type stands still there.
#[derive(Clone, Copy)]
pub(crate) struct Amount {
    pub(crate) rule_count: u64,
    pub(crate) assertion_count: u64,
    pub(crate) let_count: u64,
    pub(crate) byte_count: u64,
    pub(crate) node_count: u64,
}

impl Amount {
    /// Nothing.
    pub(crate) fn none() -> Amount
        ensures { result ≡ nothing }
    {
        Amount {
            rule_count: 0,
            assertion_count: 0,
            let_count: 0,
            byte_count: 0,
            node_count: 0,
        }
    }

    /// So many rules, assertions and lets.
    pub(crate) fn counted(rule_count: u64, assertion_count: u64, let_count: u64) -> Amount
        ensures { result ≡ many rule_count assertion_count let_count }
    {
        Amount {
            rule_count,
            assertion_count,
            let_count,
            byte_count: 0,
            node_count: 0,
        }
    }

    /// A size alone.
    pub(crate) fn of_size(size: FlatSize) -> Amount
        ensures { result ≡ sized_amount size }
    {
        Amount {
            rule_count: 0,
            assertion_count: 0,
            let_count: 0,
            byte_count: size.bytes,
            node_count: size.nodes,
        }
    }

    /// Its bytes and nodes.
    pub(crate) fn size(self) -> FlatSize
        ensures { result ≡ record { bytes = self.byte_count; nodes = self.node_count } }
    {
        FlatSize {
            bytes: self.byte_count,
            nodes: self.node_count,
        }
    }

    /// Both amounts together.
    pub(crate) fn plus(self, more: Amount) -> Amount
        ensures { result ≡ cap (plus self more) }
    {
        Amount {
            rule_count: self.rule_count.saturating_add(more.rule_count),
            assertion_count: self.assertion_count.saturating_add(more.assertion_count),
            let_count: self.let_count.saturating_add(more.let_count),
            byte_count: self.byte_count.saturating_add(more.byte_count),
            node_count: self.node_count.saturating_add(more.node_count),
        }
    }
}
