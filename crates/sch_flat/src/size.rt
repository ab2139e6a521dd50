//! How large documents are.

ghost use Rattle.std.specs.Prelude.{◌≡◌, ◌++◌, List, [], ℕ};
ghost use Rattle.pyx_core.specs.declared.event.Event.{Event};
ghost use Rattle.sch_flat.specs.FlatSize.{size_of};
ghost use Rattle.sch_flat.specs.inner.Sizes.{sum_of};

/// How large events are. A count that would pass the last value of its type stands still there.
#[derive(Clone, Copy, Debug, PartialEq, Eq)]
pub struct FlatSize {
    /// The bytes of their lines of PYX.
    pub bytes: u64,
    /// The nodes that they make, without the root.
    pub nodes: u64,
}

impl FlatSize {
    /// How large nothing is.
    pub fn none() -> FlatSize
        ensures { result ≡ size_of [] }
    {
        FlatSize { bytes: 0, nodes: 0 }
    }

    /// How large events are with those that stand after them.
    pub fn then(self, next: FlatSize) -> FlatSize
        ensures { (events more : List Event) → self ≡ size_of events → next ≡ size_of more → result ≡ size_of (events ++ more) }
    {
        self.plus(next)
    }

    /// The sums of both counts.
    pub(crate) fn plus(self, next: FlatSize) -> FlatSize
        ensures { result ≡ sum_of self next }
    {
        FlatSize {
            bytes: self.bytes.saturating_add(next.bytes),
            nodes: self.nodes.saturating_add(next.nodes),
        }
    }
}
