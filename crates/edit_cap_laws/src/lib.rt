//! Commands of edit scripts leave no more live nodes than may be. A law, as a call that does nothing.
#![tactic(auto)]

ghost use Rattle.edit_cap_laws.specs.Within.{EditsStayWithin};

use edit_command_laws::edits_keep_trees;

/// A document with no more live nodes than its pair cap stays so, whatever command is accepted.
pub fn edits_stay_within()
    ensures { EditsStayWithin }
{
    edits_keep_trees();
}
