//! What takes a command back.

ghost use Rattle.std.specs.Prelude.{◌≡◌, ◌≤◌, suc, true, [], ◌∷◌, ◌++◌, length, map, Some, IfOk, OnOk};
ghost use Rattle.doc_tree.specs.Changes.{meeting};
ghost use Rattle.doc_tree.specs.limits.TheConstants.{MAX_NODE_NUMBERS};
ghost use Rattle.doc_tree.specs.QNames.{written_in};
ghost use Rattle.doc_tree.specs.Table.{is_live, kids_above, name_of, parent_of, value_of};
ghost use Rattle.edit_script.specs.WellFormed.{WellFormedCommand};
ghost use Rattle.edit_script.specs.declared.command.Command.TheVariants.{Delete, Rename, RenameAttr, SetAttr, SetText, UnsetAttr};
ghost use Rattle.edit_commands.specs.Commands.{top_kind};
ghost use Rattle.edit_paths.specs.Entries.{attribute_comes, attribute_goes, comes_again, deletion_undone, numbers_met, step_under, undoing, undoing_at, undoing_numbers};
ghost use Rattle.undo_entries.specs.inner.Parts.{behind_undone, entry_at, entry_of, meeting_of, said_again};

use crate::entry::{CommandList, Entry};
use crate::events::subtree_events;
use crate::finding::node_of;
use crate::names::written_name;
use crate::paths::{path_above, path_with, step_to, step_under};
use crate::places::{Met, attrs, behind, count_below, kids_above, meeting, place_in};
use doc_tree::{Kind, NodeId, Tree};
use edit_script::{Command, PathStep};
use name_scopes::split;
use pyx_core::Event;
use sch_base::{ItemList, Text};
use std::alloc::{AllocError, Global};

/// What takes a command back once it was done on the document: it is told by the document from before it.
///
/// Costs the kids along the path, the attributes of an element that loses one, and the nodes that a delete lets go, with the copying
/// of their names and texts.
pub fn entry_for(alloc: Global, tree: &Tree, command: &Command) -> Result<Entry, AllocError>
    requires formed { WellFormedCommand command.now }
    ensures commands { IfOk result (λ entry. entry.commands ≡ undoing tree.now.nodes command.now) }
    ensures numbers { IfOk result (λ entry. entry.numbers ≡ undoing_numbers tree.now.nodes command.now) }
{
    tree.laws();
    match node_of(tree, command) {
        Some(n) => entry_at(alloc, tree, n, command),
        None => Ok(Entry {
            commands: ItemList::new(alloc),
            numbers: 0,
        }),
    }
}

/// What takes a command at its node back.
fn entry_at(alloc: Global, tree: &Tree, n: NodeId, command: &Command) -> Result<Entry, AllocError>
    requires lives { is_live tree.now.nodes n ≡ true }
    requires formed { WellFormedCommand command.now }
    ensures { IfOk result (λ entry. entry ≡ entry_at tree.now.nodes command.now n) }
{
    match command {
        Command::Insert { path, at, piece } => {
            let kind = top_kind(piece.as_slice());
            undo_insert(alloc, tree, n, path.as_slice(), *at, kind)
        }
        Command::Delete { path } => undo_delete(alloc, tree, n, path.as_slice()),
        Command::SetText { path, text: _ } => undo_text(alloc, tree, n, path.as_slice()),
        Command::SetAttr {
            path,
            name,
            value: _,
        } => undo_set(alloc, tree, n, path.as_slice(), name.as_str()),
        Command::UnsetAttr { path, name } => {
            undo_unset(alloc, tree, n, path.as_slice(), name.as_str())
        }
        Command::Rename { path, name: _ } => undo_rename(alloc, tree, n, path.as_slice()),
        Command::RenameAttr { path, old, name } => {
            undo_attribute_rename(alloc, tree, n, path.as_slice(), old.as_str(), name.as_str())
        }
    }
}

/// The kind of the one item of a fragment.
fn top_kind(events: &[Event]) -> Option<Kind>
    ensures { result ≡ top_kind events.now }
{
    if events.is_empty() {
        return None;
    }
    match &events[0] {
        Event::Start { name: _, attrs: _ } => Some(Kind::Element),
        Event::End { name: _ } => None,
        Event::Chars { text: _ } => Some(Kind::Text),
        Event::Pi { target: _, body: _ } => Some(Kind::Pi),
        Event::Comment { text: _ } => Some(Kind::Comment),
    }
}

/// The entry of one command that makes no new number.
fn entry_of(alloc: Global, command: Command) -> Result<Entry, AllocError>
    ensures { IfOk result (λ entry. entry ≡ entry_of (command ∷ []) 0) }
{
    let commands = ItemList::of_one(alloc, command)?;
    Ok(Entry {
        commands,
        numbers: 0,
    })
}

/// A node that came goes.
fn undo_insert(
    alloc: Global,
    tree: &Tree,
    n: NodeId,
    path: &[PathStep],
    at: u32,
    kind: Option<Kind>,
) -> Result<Entry, AllocError>
    requires { 1 ≤ at }
    ensures { IfOk result (λ entry. entry ≡ entry_of (Delete (path.now ++ step_under tree.now.nodes n at kind) ∷ []) 0) }
{
    let path = path_with(alloc, path, step_under(tree, n, at, kind))?;
    entry_of(alloc, Command::Delete { path })
}

/// A node says its text again.
fn undo_text(alloc: Global, tree: &Tree, n: NodeId, path: &[PathStep]) -> Result<Entry, AllocError>
    ensures { IfOk result (λ entry. entry ≡ entry_of (SetText path.now (value_of tree.now.nodes n) ∷ []) 0) }
{
    let command = text_again(alloc, tree, n, path)?;
    entry_of(alloc, command)
}

/// The command by which a node says its text.
fn text_again(
    alloc: Global,
    tree: &Tree,
    n: NodeId,
    path: &[PathStep],
) -> Result<Command, AllocError>
    ensures { IfOk result (λ command. command ≡ SetText path.now (value_of tree.now.nodes n)) }
{
    let text = Text::copy(alloc, tree.value(n))?;
    let path = ItemList::copy_of(alloc, path)?;
    Ok(Command::SetText { path, text })
}

/// An attribute has its value again, or goes where it came.
fn undo_set(
    alloc: Global,
    tree: &Tree,
    n: NodeId,
    path: &[PathStep],
    name: &str,
) -> Result<Entry, AllocError>
    ensures { IfOk result (λ entry. entry ≡ entry_at tree.now.nodes (SetAttr path.now name.now []) n) }
{
    let command = set_undone(alloc, tree, n, path, name)?;
    entry_of(alloc, command)
}

/// The command by which an attribute has its value again, or goes where it came.
fn set_undone(
    alloc: Global,
    tree: &Tree,
    n: NodeId,
    path: &[PathStep],
    name: &str,
) -> Result<Command, AllocError>
    ensures { IfOk result (λ command. command ∷ [] ≡ undoing_at tree.now.nodes (SetAttr path.now name.now []) n) }
{
    let qname = split(name);
    let name = Text::copy(alloc, name)?;
    match tree.attribute_at(n, qname.prefix, qname.local) {
        Some(a) => set_command(alloc, path, name, tree.value(a)),
        None => unset_command(alloc, path, name),
    }
}

/// The command by which an attribute has a value.
fn set_command(
    alloc: Global,
    path: &[PathStep],
    name: Text,
    value: &str,
) -> Result<Command, AllocError>
    ensures { IfOk result (λ command. command ≡ SetAttr path.now name value.now) }
{
    let value = Text::copy(alloc, value)?;
    let path = ItemList::copy_of(alloc, path)?;
    Ok(Command::SetAttr { path, name, value })
}

/// The command by which an attribute goes.
fn unset_command(alloc: Global, path: &[PathStep], name: Text) -> Result<Command, AllocError>
    ensures { IfOk result (λ command. command ≡ UnsetAttr path.now name) }
{
    let path = ItemList::copy_of(alloc, path)?;
    Ok(Command::UnsetAttr { path, name })
}

/// The attributes behind one that went go, and it and these come again.
fn undo_unset(
    alloc: Global,
    tree: &Tree,
    n: NodeId,
    path: &[PathStep],
    name: &str,
) -> Result<Entry, AllocError>
    ensures { IfOk result (λ entry. entry ≡ entry_at tree.now.nodes (UnsetAttr path.now name.now) n) }
{
    let qname = split(name);
    match tree.attribute_at(n, qname.prefix, qname.local) {
        Some(a) => unset_undone(alloc, tree, path, a, behind(a, attrs(tree, n))),
        None => Ok(Entry {
            commands: ItemList::new(alloc),
            numbers: 0,
        }),
    }
}

/// Those behind an attribute that went go, and it and these come again.
fn unset_undone(
    alloc: Global,
    tree: &Tree,
    path: &[PathStep],
    a: NodeId,
    behind: &[NodeId],
) -> Result<Entry, AllocError>
    requires { length behind.now ≤ MAX_NODE_NUMBERS }
    ensures { IfOk result (λ entry. entry ≡ entry_of (behind_undone path.now tree.now.nodes a behind.now) (suc (length behind.now))) }
{
    let mut commands = ItemList::new(alloc);
    push_all_going(alloc, tree, path, behind, &mut commands)?;
    push_coming(alloc, tree, path, a, &mut commands)?;
    push_all_coming(alloc, tree, path, behind, &mut commands)?;
    let numbers = behind.len() as u32 + 1;
    Ok(Entry { commands, numbers })
}

/// Puts the commands by which attributes go at the end of a list.
fn push_all_going(
    alloc: Global,
    tree: &Tree,
    path: &[PathStep],
    nodes: &[NodeId],
    commands: &mut CommandList,
) -> Result<(), AllocError>
    ensures { OnOk result (commands.new ≡ commands.old ++ map (attribute_goes path.now tree.now.nodes) nodes.now) }
{
    for a in nodes {
        push_going(alloc, tree, path, *a, commands)?;
    }
    Ok(())
}

/// Puts the command by which an attribute goes at the end of a list.
fn push_going(
    alloc: Global,
    tree: &Tree,
    path: &[PathStep],
    a: NodeId,
    commands: &mut CommandList,
) -> Result<(), AllocError>
    ensures { OnOk result (commands.new ≡ commands.old ++ attribute_goes path.now tree.now.nodes a ∷ []) }
{
    let command = unset_command(alloc, path, written_name(alloc, tree, a)?)?;
    commands.push(command)
}

/// Puts the commands by which attributes come again at the end of a list.
fn push_all_coming(
    alloc: Global,
    tree: &Tree,
    path: &[PathStep],
    nodes: &[NodeId],
    commands: &mut CommandList,
) -> Result<(), AllocError>
    ensures { OnOk result (commands.new ≡ commands.old ++ map (attribute_comes path.now tree.now.nodes) nodes.now) }
{
    for a in nodes {
        push_coming(alloc, tree, path, *a, commands)?;
    }
    Ok(())
}

/// Puts the command by which an attribute comes again at the end of a list.
fn push_coming(
    alloc: Global,
    tree: &Tree,
    path: &[PathStep],
    a: NodeId,
    commands: &mut CommandList,
) -> Result<(), AllocError>
    ensures { OnOk result (commands.new ≡ commands.old ++ attribute_comes path.now tree.now.nodes a ∷ []) }
{
    let name = written_name(alloc, tree, a)?;
    let command = set_command(alloc, path, name, tree.value(a))?;
    commands.push(command)
}

/// An element has its name again.
fn undo_rename(
    alloc: Global,
    tree: &Tree,
    n: NodeId,
    path: &[PathStep],
) -> Result<Entry, AllocError>
    ensures { IfOk result (λ entry. entry ≡ entry_of (Rename path.now (written_in (name_of tree.now.nodes n)) ∷ []) 0) }
{
    let name = written_name(alloc, tree, n)?;
    let path = ItemList::copy_of(alloc, path)?;
    entry_of(alloc, Command::Rename { path, name })
}

/// An attribute has its name again, in place of the new one.
fn undo_attribute_rename(
    alloc: Global,
    tree: &Tree,
    n: NodeId,
    path: &[PathStep],
    old: &str,
    name: &str,
) -> Result<Entry, AllocError>
    ensures { IfOk result (λ entry. entry ≡ entry_at tree.now.nodes (RenameAttr path.now old.now name.now) n) }
{
    let qname = split(old);
    match tree.attribute_at(n, qname.prefix, qname.local) {
        Some(a) => attribute_rename_undone(alloc, tree, path, a, name),
        None => Ok(Entry {
            commands: ItemList::new(alloc),
            numbers: 0,
        }),
    }
}

/// The attribute with the new name has its name again.
fn attribute_rename_undone(
    alloc: Global,
    tree: &Tree,
    path: &[PathStep],
    a: NodeId,
    name: &str,
) -> Result<Entry, AllocError>
    ensures { IfOk result (λ entry. entry ≡ entry_of (RenameAttr path.now name.now (written_in (name_of tree.now.nodes a)) ∷ []) 0) }
{
    let old = Text::copy(alloc, name)?;
    let name = written_name(alloc, tree, a)?;
    let path = ItemList::copy_of(alloc, path)?;
    entry_of(alloc, Command::RenameAttr { path, old, name })
}

/// A node that goes comes again; of two texts that meet the left one says its own text again, and the right one comes.
fn undo_delete(
    alloc: Global,
    tree: &Tree,
    n: NodeId,
    path: &[PathStep],
) -> Result<Entry, AllocError>
    requires { is_live tree.now.nodes n ≡ true }
    ensures { IfOk result (λ entry. entry ≡ entry_at tree.now.nodes (Delete path.now) n) }
{
    let above = path_above(alloc, path)?;
    let met = meeting(tree, n, kids_above(tree, n));
    let numbers = count_below(tree, n) + numbers_met(&met);
    let commands = delete_undone(alloc, tree, n, above.as_slice(), &met)?;
    Ok(Entry { commands, numbers })
}

/// How many new numbers two texts that met need to part.
fn numbers_met(met: &Option<Met>) -> u32
    ensures numbers { result ≡ numbers_met (meeting_of met.now) }
    ensures few { result ≤ 1 }
{
    match met {
        Some(_) => 1,
        None => 0,
    }
}

/// The commands by which a node comes again, and by which two texts that met part.
fn delete_undone(
    alloc: Global,
    tree: &Tree,
    n: NodeId,
    parent: &[PathStep],
    met: &Option<Met>,
) -> Result<CommandList, AllocError>
    requires lives { is_live tree.now.nodes n ≡ true }
    requires met { meeting_of met.now ≡ meeting tree.now.nodes n (kids_above tree.now.nodes (parent_of tree.now.nodes n)) }
    ensures { IfOk result (λ commands. commands ≡ deletion_undone parent.now tree.now.nodes n (meeting_of met.now)) }
{
    tree.laws();
    let mut commands = ItemList::new(alloc);
    match met {
        None => push_again(alloc, tree, parent, n, &mut commands)?,
        Some(texts) => push_parted(alloc, tree, parent, n, texts, &mut commands)?,
    }
    Ok(commands)
}

/// Puts the commands by which two texts that met part, with a node between them, at the end of a list.
fn push_parted(
    alloc: Global,
    tree: &Tree,
    parent: &[PathStep],
    n: NodeId,
    texts: &Met,
    commands: &mut CommandList,
) -> Result<(), AllocError>
    requires lives { is_live tree.now.nodes n ≡ true }
    requires right { is_live tree.now.nodes texts.now.right ≡ true }
    ensures { OnOk result (commands.new ≡ commands.old ++ deletion_undone parent.now tree.now.nodes n (meeting_of (Some texts.now))) }
{
    push_said(alloc, tree, parent, texts.left, commands)?;
    push_again(alloc, tree, parent, n, commands)?;
    push_again(alloc, tree, parent, texts.right, commands)
}

/// Puts the command by which a kid says its text again at the end of a list.
fn push_said(
    alloc: Global,
    tree: &Tree,
    parent: &[PathStep],
    n: NodeId,
    commands: &mut CommandList,
) -> Result<(), AllocError>
    ensures { OnOk result (commands.new ≡ commands.old ++ said_again parent.now tree.now.nodes n ∷ []) }
{
    let path = path_with(alloc, parent, step_to(tree, n))?;
    let command = text_again(alloc, tree, n, path.as_slice())?;
    commands.push(command)
}

/// Puts the command by which a node comes again at the end of a list.
fn push_again(
    alloc: Global,
    tree: &Tree,
    parent: &[PathStep],
    n: NodeId,
    commands: &mut CommandList,
) -> Result<(), AllocError>
    requires lives { is_live tree.now.nodes n ≡ true }
    ensures { OnOk result (commands.new ≡ commands.old ++ comes_again parent.now tree.now.nodes n ∷ []) }
{
    let at = place_in(n, kids_above(tree, n)) as u32 + 1;
    let piece = subtree_events(alloc, tree, n)?;
    let path = ItemList::copy_of(alloc, parent)?;
    commands.push(Command::Insert { path, at, piece })
}
