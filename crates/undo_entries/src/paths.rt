//! Paths of commands, and steps to nodes.

ghost use Rattle.std.specs.Prelude.{◌≡◌, ◌-◌, ◌≤◌, ◌++◌, IfOk};
ghost use Rattle.doc_tree.specs.Table.{kind_of, parent_of};
ghost use Rattle.edit_paths.specs.PathTo.{step_to};
ghost use Rattle.edit_paths.specs.Entries.{path_above, step_under};
ghost use Rattle.undo_entries.specs.inner.Parts.{steps_of};

use crate::places::{count_of_kind, front, kids, place_in};
use doc_tree::{Kind, NodeId, Tree};
use edit_script::{Path, PathStep};
use sch_base::ItemList;
use std::alloc::{AllocError, Global};

/// All steps of a path but the last: the path to the parent.
pub(crate) fn path_above(alloc: Global, path: &[PathStep]) -> Result<Path, AllocError>
    ensures { IfOk result (λ above. above ≡ path_above path.now) }
{
    if path.is_empty() {
        return Ok(ItemList::new(alloc));
    }
    ItemList::copy_of(alloc, &path[..path.len() - 1])
}

/// A path, and a step behind it where there is one.
pub(crate) fn path_with(
    alloc: Global,
    path: &[PathStep],
    step: Option<PathStep>,
) -> Result<Path, AllocError>
    ensures { IfOk result (λ longer. longer ≡ path.now ++ steps_of step) }
{
    let mut longer = ItemList::copy_of(alloc, path)?;
    if let Some(last) = step {
        longer.push(last)?;
    }
    Ok(longer)
}

/// The step to a node from its parent; none where it has no parent.
pub(crate) fn step_to(tree: &Tree, n: NodeId) -> Option<PathStep>
    ensures { steps_of result ≡ step_to tree.now.nodes n (parent_of tree.now.nodes n) (kind_of tree.now.nodes n) }
{
    let parent = tree.parent(n)?;
    let kind = tree.kind_of(n)?;
    let kids = kids(tree, parent);
    let before = front(kids, place_in(n, kids));
    let index = count_of_kind(tree, kind, before) as u32 + 1;
    Some(PathStep { kind, index })
}

/// The step to what comes under a node as the kid with a number, counted from 1.
pub(crate) fn step_under(tree: &Tree, p: NodeId, at: u32, kind: Option<Kind>) -> Option<PathStep>
    requires { 1 ≤ at }
    ensures { steps_of result ≡ step_under tree.now.nodes p at kind }
{
    let kind = kind?;
    let before = front(kids(tree, p), at as usize - 1);
    let index = count_of_kind(tree, kind, before) as u32 + 1;
    Some(PathStep { kind, index })
}
