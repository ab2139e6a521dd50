//! Names and their places in a list.

ghost use Rattle.std.specs.Prelude.{◌≡◌, ◌∷◌, [], ℕ, List, IfOk, OnOk, None, Some};
ghost use Rattle.std.specs.Option.{option_or};
ghost use Rattle.sch_expansion.specs.inner.Places.{kept_in, place_in};

use indexmap::IndexMap;
use std::alloc::{AllocError, Global};

/// Places by names. The first place that is kept for a name stays, and is found in constant time.
#[derive(Drop)]
pub(crate) struct Places {
    alloc: Global,
    entries: IndexMap<String, usize>,
}

impl Places {
    /// No name has a place.
    pub(crate) fn new(alloc: Global) -> Places
        ensures { (name : List ℕ) → kept_in result name ≡ None }
    {
        Places {
            alloc,
            entries: IndexMap::new(alloc),
        }
    }

    /// Keeps the place for the name, where there is none yet.
    pub(crate) fn add(&mut self, name: &str, place: usize) -> Result<(), AllocError>
        ensures { OnOk result ((its : List ℕ) → kept_in self.new its ≡ option_or (kept_in self.old its) (place_in (Some name.now ∷ []) place its)) }
    {
        if self.entries.contains_key(name) {
            return Ok(());
        }
        let name = String::from_str(self.alloc, name)?;
        self.entries.insert(name, place)?;
        Ok(())
    }

    /// The place that is kept for the name.
    pub(crate) fn find(&self, name: &str) -> Option<usize>
        ensures { result ≡ kept_in self.now name.now }
    {
        self.entries.get(name).copied()
    }
}
