//! What holds of scripts in which edits may be taken back.

ghost use Rattle.edit_script.specs.Undos.{ItemsInTurn};

/// The undos that a reader takes, and between them the commands that it gives, are the items of the script, in turn.
pub fn items_in_turn()
    ensures { ItemsInTurn }
{}
