//! What was done to a shelf, which only clauses read.

ghost use Rattle.std.specs.Prelude.{◌≡◌, ℕ, List, [], ◌∷◌, ◌++◌};
ghost use Rattle.std.specs.Borrow.{ftrue};
ghost use Rattle.sch_io.specs.Ends.{told_end};

use std::marker::{Model, PhantomData};

/// The names that were opened, and of the files whose end was told. It has no bytes, and its calls do nothing at run
/// time.
#[derive(Drop)]
pub(crate) struct History {
    marker: PhantomData<u8>,
    ghost opened: { List (List ℕ) },
    ghost ends: { List (List ℕ) },
}

impl Model for History {
    ghost also_owns = { λ _. ftrue };
}

impl History {
    /// Nothing was done.
    pub(crate) fn new() -> History
        ensures { (result.opened ≡ []) × (result.ends ≡ []) }
    {
        History {
            marker: PhantomData,
        }
    }

    /// A name was opened, or was to be, by its bytes.
    pub(crate) fn open(&mut self, _name: &[u8])
        ensures { (self.new.opened ≡ self.old.opened ++ _name.now ∷ []) × (self.new.ends ≡ self.old.ends) }
    {}

    /// A read told the end of the file that was opened last.
    pub(crate) fn end(&mut self)
        ensures { (self.new.opened ≡ self.old.opened) × (self.new.ends ≡ told_end self.old.opened self.old.ends) }
    {}
}
