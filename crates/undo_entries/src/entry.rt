//! What takes an edit back.

use edit_script::Command;
use sch_base::ItemList;

/// Commands, in the order in which they are done.
pub type CommandList = ItemList<Command>;

/// The commands that take an edit back.
#[derive(Drop)]
pub struct Entry {
    pub commands: CommandList,
    /// How many new numbers of nodes they make.
    pub numbers: u32,
}
