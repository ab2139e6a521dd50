//! What keeps the way through an edit script open. Laws, as calls that do nothing.
#![tactic(auto)]

ghost use Rattle.edit_way_laws.specs.Items.{ItemsAreWellFormed};
ghost use Rattle.edit_way_laws.specs.Staying.{EditsStayInScope, NumbersGrow};

use name_scopes_laws::edits_keep_scope;
use pyx_core::events_nest;

/// A document in scope stays in scope, whatever command is accepted.
pub fn edits_stay_in_scope()
    ensures { EditsStayInScope }
{
    edits_keep_scope();
}

/// No number of a node is given up, whatever command is accepted.
pub fn numbers_grow()
    ensures { NumbersGrow }
{}

/// Each command of a script with undos is well formed.
pub fn items_are_well_formed()
    ensures { ItemsAreWellFormed }
{
    events_nest();
}
