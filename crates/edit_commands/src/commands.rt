//! Commands, done on a document.

ghost use Rattle.std.specs.Prelude.{◌≡◌, ◌&&◌, List, true, None, Some, if◌then◌else◌, IfErr, IfOk, OnErr, OnOk};
ghost use Rattle.pyx_core.specs.Nesting.{is_name, of_chars};
ghost use Rattle.doc_tree.specs.cell.Cell.{Cell};
ghost use Rattle.doc_tree.specs.Changes.{meeting};
ghost use Rattle.doc_tree.specs.Edited.{NamesGrow};
ghost use Rattle.doc_tree.specs.Kinds.{is_document, is_text};
ghost use Rattle.doc_tree.specs.Table.{kind_of};
ghost use Rattle.doc_edit_laws.specs.Along.{Edit};
ghost use Rattle.name_scopes.specs.Scoping.{InScope};
ghost use Rattle.edit_script.specs.declared.command.Command.TheVariants.{Delete, SetAttr, SetText, UnsetAttr};
ghost use Rattle.edit_script.specs.declared.command.PathStep.{PathStep};
ghost use Rattle.edit_script.specs.WellFormed.{WellFormedCommand};
ghost use Rattle.edit_commands.specs.Commands.{IsEdited, RefusesCommand, command_refusal, path_of};
ghost use Rattle.edit_commands.specs.Touched.{holds_cell, left_of, touched_by};
ghost use Rattle.edit_commands.specs.inner.Done.{Done, Keeps, NotDone};

use crate::inserting::insert_piece;
use crate::paths::node_named;
use crate::refusal::ApplyError;
use crate::renaming::{rename_attribute, rename_element};
use crate::touched::Touched;
use doc_edit_laws::edits_leave_the_rest;
use doc_tree::{EditRefusal, Kind, NodeId, Tree};
use edit_script::{Command, Path};
use name_scopes::split;
use name_scopes_laws::edits_keep_scope;
use std::alloc::Global;

/// Does a command of an edit script on a document.
///
/// A refused command, and one that finds no memory, changes nothing, names included. A delete where no two texts meet takes
/// no memory, nor does an unset; another text, a set and another name want it only where nothing speaks against them, and an
/// insert only where its fragment may come at its place. Costs the kids along the path, and what the edit of the tree costs.
pub fn apply_to(alloc: Global, tree: &mut Tree, command: &Command) -> Result<Touched, ApplyError>
    requires document { is_document tree.old.nodes ≡ true }
    requires formed { WellFormedCommand command.now }
    ensures within { OnOk result (command_refusal tree.old command.now ≡ None) }
    ensures edited { OnOk result (IsEdited tree.old.nodes command.now tree.new.nodes) }
    ensures touched { IfOk result (λ touched. (c : Cell) → holds_cell tree.new.nodes touched c ≡ touched_by tree.old.nodes command.now c) }
    ensures edit { OnOk result (Edit tree.old.nodes tree.new.nodes (touched_by tree.old.nodes command.now)) }
    ensures scope { InScope tree.old.nodes → InScope tree.new.nodes }
    ensures document { is_document tree.new.nodes ≡ true }
    ensures names { NamesGrow tree.old.names tree.new.names }
    ensures cap { tree.new.pair_cap ≡ tree.old.pair_cap }
    ensures refused { IfErr result (RefusesCommand tree.old command.now) }
    ensures unchanged { OnErr result (tree.new ≡ tree.old) }
{
    let Some(n) = node_named(tree, path_of(command).as_slice()) else {
        return Err(ApplyError::Refused(EditRefusal::NoNode));
    };
    apply_at(alloc, tree, n, command)
}

/// Does a command at its node.
fn apply_at(
    alloc: Global,
    tree: &mut Tree,
    n: NodeId,
    command: &Command,
) -> Result<Touched, ApplyError>
    requires document { is_document tree.old.nodes ≡ true }
    requires formed { WellFormedCommand command.now }
    ensures done { IfOk result (Done tree.old tree.new command.now n) }
    ensures not_done { IfErr result (NotDone tree.old tree.new command.now n) }
    ensures keeps { Keeps tree.old tree.new }
{
    match command {
        Command::Insert { path: _, at, piece } => insert_piece(alloc, tree, n, *at, piece),
        Command::Delete { path: _ } => delete(tree, n),
        Command::SetText { path: _, text } => set_text(tree, n, text.as_str()),
        Command::SetAttr {
            path: _,
            name,
            value,
        } => set_attribute(tree, n, name.as_str(), value.as_str()),
        Command::UnsetAttr { path: _, name } => unset_attribute(tree, n, name.as_str()),
        Command::Rename { path: _, name } => rename_element(tree, n, name.as_str()),
        Command::RenameAttr { path: _, old, name } => {
            rename_attribute(tree, n, old.as_str(), name.as_str())
        }
    }
}

/// The path of a command.
fn path_of(command: &Command) -> &Path
    ensures { result.now ≡ path_of command.now }
{
    match command {
        Command::Insert {
            path,
            at: _,
            piece: _,
        } => path,
        Command::Delete { path } => path,
        Command::SetText { path, text: _ } => path,
        Command::SetAttr {
            path,
            name: _,
            value: _,
        } => path,
        Command::UnsetAttr { path, name: _ } => path,
        Command::Rename { path, name: _ } => path,
        Command::RenameAttr {
            path,
            old: _,
            name: _,
        } => path,
    }
}

/// Sets the text of a node.
fn set_text(tree: &mut Tree, n: NodeId, text: &str) -> Result<Touched, ApplyError>
    requires document { is_document tree.old.nodes ≡ true }
    requires made { of_chars text.now ≡ true }
    ensures done { IfOk result (λ touched. (path : List PathStep) → Done tree.old tree.new (SetText path text.now) n touched) }
    ensures not_done { IfErr result (λ error. (path : List PathStep) → NotDone tree.old tree.new (SetText path text.now) n error) }
    ensures keeps { Keeps tree.old tree.new }
{
    tree.laws();
    edits_keep_scope();
    let is_text = tree.is_kind(n, Kind::Text);
    tree.set_text(n, text)?;
    Ok(Touched::Said { node: n, is_text })
}

/// Deletes a node.
fn delete(tree: &mut Tree, n: NodeId) -> Result<Touched, ApplyError>
    requires document { is_document tree.old.nodes ≡ true }
    ensures done { IfOk result (λ touched. (path : List PathStep) → Done tree.old tree.new (Delete path) n touched) }
    ensures not_done { IfErr result (λ error. (path : List PathStep) → NotDone tree.old tree.new (Delete path) n error) }
    ensures keeps { Keeps tree.old tree.new }
{
    tree.laws();
    edits_keep_scope();
    edits_leave_the_rest();
    let Some(parent) = tree.parent(n) else {
        return Err(ApplyError::Refused(EditRefusal::WrongKind));
    };
    let left = left_of(tree, n, tree.kids(parent));
    tree.delete(n)?;
    Ok(Touched::Below { parent, left })
}

/// Of two texts that meet where a node goes from among some kids the left one.
fn left_of(tree: &Tree, n: NodeId, kids: &[NodeId]) -> Option<NodeId>
    ensures { result ≡ left_of (meeting tree.now.nodes n kids.now) }
{
    for i in 2..kids.len() {
        if kids[i - 1] == n {
            return left_text(tree, kids[i - 2], kids[i]);
        }
    }
    None
}

/// Of two nodes, where they are texts, the left one.
fn left_text(tree: &Tree, left: NodeId, right: NodeId) -> Option<NodeId>
    ensures { result ≡ (if is_text (kind_of tree.now.nodes left) && is_text (kind_of tree.now.nodes right) then Some left else None) }
{
    if tree.is_kind(left, Kind::Text) && tree.is_kind(right, Kind::Text) {
        Some(left)
    } else {
        None
    }
}

/// Sets an attribute of an element.
fn set_attribute(tree: &mut Tree, n: NodeId, name: &str, value: &str) -> Result<Touched, ApplyError>
    requires document { is_document tree.old.nodes ≡ true }
    requires named { is_name name.now ≡ true }
    requires made { of_chars value.now ≡ true }
    ensures done { IfOk result (λ touched. (path : List PathStep) → Done tree.old tree.new (SetAttr path name.now value.now) n touched) }
    ensures not_done { IfErr result (λ error. (path : List PathStep) → NotDone tree.old tree.new (SetAttr path name.now value.now) n error) }
    ensures keeps { Keeps tree.old tree.new }
{
    tree.laws();
    edits_keep_scope();
    let qname = split(name);
    let found = tree.attribute_at(n, qname.prefix, qname.local);
    tree.set_attr(n, qname.prefix, qname.local, value)?;
    match found {
        Some(attribute) => Ok(Touched::Said {
            node: attribute,
            is_text: false,
        }),
        None => Ok(Touched::Attributes { element: n }),
    }
}

/// Removes an attribute of an element.
fn unset_attribute(tree: &mut Tree, n: NodeId, name: &str) -> Result<Touched, ApplyError>
    requires document { is_document tree.old.nodes ≡ true }
    ensures done { IfOk result (λ touched. (path : List PathStep) → Done tree.old tree.new (UnsetAttr path name.now) n touched) }
    ensures not_done { IfErr result (λ error. (path : List PathStep) → NotDone tree.old tree.new (UnsetAttr path name.now) n error) }
    ensures keeps { Keeps tree.old tree.new }
{
    tree.laws();
    edits_keep_scope();
    let qname = split(name);
    tree.unset_attr(n, qname.prefix, qname.local)?;
    Ok(Touched::Attributes { element: n })
}
