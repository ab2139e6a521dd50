//! What holds of every pair cap, and of stale units.

ghost use Rattle.edit_session.specs.Laws.{StaleAfterEdit};
ghost use Rattle.edit_session.specs.Pairs.{CapIsForPairs};

/// The pair cap of a plan keeps the pairs within their limit, and is the greatest that does.
pub fn pair_cap_is_for_pairs()
    ensures { CapIsForPairs }
{}

/// After an edit those units are stale that were so before, of which something that is kept is touched, or that are new.
pub fn stale_after_edit()
    ensures { StaleAfterEdit }
{}
