//! The node that a command names.

ghost use Rattle.std.specs.Prelude.{◌≡◌};
ghost use Rattle.edit_script.specs.WellFormed.{WellFormedCommand};
ghost use Rattle.edit_commands.specs.Commands.{path_of};
ghost use Rattle.edit_commands.specs.Paths.{node_named};

use doc_tree::{NodeId, Tree};
use edit_commands::node_named;
use edit_script::Command;

/// The node that a command names; None where its path leads to none.
pub(crate) fn node_of(tree: &Tree, command: &Command) -> Option<NodeId>
    requires { WellFormedCommand command.now }
    ensures { result ≡ node_named tree.now.nodes (path_of command.now) }
{
    match command {
        Command::Insert {
            path,
            at: _,
            piece: _,
        } => node_named(tree, path.as_slice()),
        Command::Delete { path } => node_named(tree, path.as_slice()),
        Command::SetText { path, text: _ } => node_named(tree, path.as_slice()),
        Command::SetAttr {
            path,
            name: _,
            value: _,
        } => node_named(tree, path.as_slice()),
        Command::UnsetAttr { path, name: _ } => node_named(tree, path.as_slice()),
        Command::Rename { path, name: _ } => node_named(tree, path.as_slice()),
        Command::RenameAttr {
            path,
            old: _,
            name: _,
        } => node_named(tree, path.as_slice()),
    }
}
