//! The ids of patterns that are looked up.

ghost use Rattle.std.specs.Prelude.{◌≡◌, IfOk};
ghost use Rattle.sch_phases.specs.Phases.{is_active};
ghost use Rattle.sch_phases.specs.inner.Ids.{has_id};

use indexmap::IndexSet;
use sch_model::Active;
use std::alloc::{AllocError, Global};

/// The patterns that a phase names. A name is found in constant time.
pub(crate) fn active_ids(alloc: Global, active: &[Active]) -> Result<IndexSet<String>, AllocError>
    ensures { IfOk result (λ ids. has_id ids.keys ≡ is_active active.now) }
{
    let mut ids = IndexSet::new(alloc);
    for its in active {
        let id = String::from_str(alloc, its.pattern.as_str())?;
        ids.insert_full(id)?;
    }
    Ok(ids)
}
