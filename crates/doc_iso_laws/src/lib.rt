//! Edits of trees that are the same: they give trees that are the same. Laws, as calls that do nothing.
#![tactic(auto)]

ghost use Rattle.doc_iso_laws.specs.EditsMove.{AdditionsMove, ChangesMove};

/// Texts, names, and nodes that go.
pub fn changes_move()
    ensures { ChangesMove }
{}

/// Attributes and pieces that come.
pub fn additions_move()
    ensures { AdditionsMove }
{}
