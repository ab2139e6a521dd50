//! Marks of the cells of a table of outcomes: a byte a cell, so that the few that tell something are found fast.

ghost use Rattle.std.specs.Prelude.{◌≡◌, ℕ, ◌*◌, ◌≤◌, ◌^◌, drop, length, slice_index_or, IfOk, OnOk, MatchOption};
ghost use Rattle.sch_compiled.specs.inner.Marks.{AreMarked, AreUnmarked, IsNextMark};

use doc_tree::{NodeId, NodeList};
use std::alloc::{AllocError, Global};

/// Puts marks of cells that tell nothing at the end until there are so many.
pub(crate) fn make_room(marks: &mut Vec<u8>, count: usize) -> Result<(), AllocError>
    ensures there { OnOk result (count ≤ length marks.new.items) }
    ensures more { length marks.old.items ≤ length marks.new.items }
    ensures few { (most : ℕ) → count ≤ most → length marks.old.items ≤ most → length marks.new.items ≤ most }
    ensures same { (place : ℕ) → slice_index_or marks.new.items place 0 ≡ slice_index_or marks.old.items place 0 }
{
    if count <= marks.len() {
        return Ok(());
    }
    marks.resize_with(count, || 0)?;
    Ok(())
}

/// The nodes of which a cell is marked, by their numbers, where the cells of a node stand together.
pub(crate) fn marked_nodes(
    alloc: Global,
    patterns: u32,
    marks: &[u8],
) -> Result<NodeList, AllocError>
    requires { length marks.now ≤ 2 ^ 32 * patterns }
    ensures { IfOk result (AreMarked patterns marks.now) }
{
    let mut nodes = NodeList::new(alloc);
    let mut from = 0;
    while let Some(place) = next_mark(marks, from) {
        let number = place / patterns as usize;
        nodes.push(NodeId::from_number(number as u32))?;
        from = (number + 1) * patterns as usize;
    }
    Ok(nodes)
}

/// The first place from that one on whose cell is marked.
fn next_mark(marks: &[u8], from: usize) -> Option<usize>
    ensures { MatchOption result (AreUnmarked marks.now from (length marks.now)) (IsNextMark marks.now from) }
{
    if from >= marks.len() {
        return None;
    }
    match memchr::memchr(1, behind(marks, from)) {
        Some(offset) => Some(from + offset),
        None => None,
    }
}

/// The marks from a place on.
fn behind(marks: &[u8], from: usize) -> &[u8]
    requires { from ≤ length marks.now }
    ensures { result.now ≡ drop from marks.now }
{
    &marks[from..]
}
