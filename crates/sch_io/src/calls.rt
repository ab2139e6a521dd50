//! Calls that are counted, some of which are to fail.

ghost use Rattle.std.specs.Prelude.{◌≡◌, [], ◌∷◌, ◌++◌, OnOk, OnErr};
ghost use Rattle.sch_io.specs.Calls.{fails_next, made_next};

use std::alloc::{AllocError, Global};
use std::marker::Model;

/// How many calls were made, and the numbers of those that fail, the first call being 1. Calls after number 2^64 - 1
/// have no number and never fail. To ask costs a look at each number given.
#[derive(Drop)]
pub(crate) struct Calls {
    made: u64,
    failing: Vec<u64>,
}

impl Model for Calls {
    ghost use Rattle.sch_io.specs.Calls.{CallPlan};

    ghost Value = { CallPlan };

    ghost view = { λ c. record { made = c.made; failing = c.failing.items } };
}

impl Calls {
    /// No call so far, and none that fails.
    pub(crate) fn new(alloc: Global) -> Calls
        ensures { result ≡ record { made = 0; failing = [] } }
    {
        Calls {
            made: 0,
            failing: Vec::new(alloc),
        }
    }

    /// Lets the call of that number fail.
    pub(crate) fn fail_at(&mut self, call: u64) -> Result<(), AllocError>
        ensures planned { OnOk result (self.new ≡ record self.old { failing = self.old.failing ++ call ∷ [] }) }
        ensures unchanged { OnErr result (self.new ≡ self.old) }
    {
        self.failing.push(call)?;
        Ok(())
    }

    /// Counts one more call and answers whether it fails.
    pub(crate) fn next(&mut self) -> bool
        ensures fails { result ≡ fails_next self.old }
        ensures counted { self.new ≡ made_next self.old }
    {
        match self.made.checked_add(1) {
            Some(call) => {
                self.made = call;
                self.failing.contains(&call)
            }
            None => false,
        }
    }
}
