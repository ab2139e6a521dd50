//! Which units an edit touches.

ghost use Rattle.std.specs.Prelude.{◌≡◌, ◌/◌, ◌<◌, ◌⊎◌, ℕ, true, false, None, IfNone, IfSome, OnSome, slice_set};
ghost use Rattle.doc_tree.specs.cell.Cell.{Cell};
ghost use Rattle.edit_commands.specs.Touched.{holds_cell};
ghost use Rattle.xp_outcome.specs.Evaluation.{cell as of_cell, names_along};
ghost use Rattle.kept_reads.specs.Marking.{Marks};
ghost use Rattle.kept_reads.specs.Reads.{has_kept, kept_count, reads_at};
ghost use Rattle.kept_reads.specs.inner.Dropping.{DropsTouched, Flags, IsAround, IsAroundAbove, IsFreeOf, IsLeft};

use crate::kept_reads::{KeptReads, ROWS};
use doc_tree::{Axis, Cell, NodeId, Tree};
use edit_commands::Touched;
use xp_outcome::NamesAlong;

/// What stays the same while what units read is gone through: the tree that a command left, what it touched, and how many places a
/// row has.
#[derive(Clone, Copy)]
pub struct Marking<'r> {
    pub tree: &'r Tree,
    pub touched: &'r Touched,
    pub width: u32,
}

impl KeptReads {
    /// Forgets what each unit read that read a touched cell.
    ///
    /// Takes no memory. Goes to the units of each touched cell alone, so that it costs the way up from a node, and a look at the cells
    /// of these units. Of a rename also the siblings of the node; and where a unit has read names along `following`, `preceding` or an
    /// axis that leads upward, a look at each node that was made.
    pub fn mark(&mut self, at: &Marking<'_>)
        ensures { Marks at.now.tree.now.nodes (holds_cell at.now.tree.now.nodes at.now.touched.now) at.now.width self.old self.new }
    {
        match at.touched {
            Touched::Said { node, is_text } => self.mark_said(*node, *is_text, at),
            Touched::Attributes { element } => self.mark_readers(&Cell::Attrs(*element), at),
            Touched::Below { parent, left } => self.mark_below(*parent, left, at),
            Touched::Named { node } => self.mark_named(*node, at),
        }
    }

    /// Forgets what the readers of a node read that says another text.
    fn mark_said(&mut self, node: NodeId, is_text: bool, at: &Marking<'_>)
        ensures { DropsTouched at.now.tree.now.nodes (holds_cell at.now.tree.now.nodes at.now.touched.now) at.now.width
            (λ r. (r ≡ of_cell (Cell.Value node)) ⊎ ((is_text ≡ true) × IsAroundAbove at.now.tree.now.nodes node false r)) self.old self.new }
    {
        self.mark_readers(&Cell::Value(node), at);
        self.mark_texts_above(node, is_text, at);
    }

    /// Forgets what the readers of the texts above a node read, where it is a text.
    fn mark_texts_above(&mut self, node: NodeId, is_text: bool, at: &Marking<'_>)
        ensures { DropsTouched at.now.tree.now.nodes (holds_cell at.now.tree.now.nodes at.now.touched.now) at.now.width
            (λ r. (is_text ≡ true) × IsAroundAbove at.now.tree.now.nodes node false r) self.old self.new }
    {
        if is_text {
            self.mark_above(node, false, at);
        }
    }

    /// Forgets what the readers of a node read whose kids came or went, and those of a text that says more.
    fn mark_below(&mut self, parent: NodeId, left: &Option<NodeId>, at: &Marking<'_>)
        ensures { DropsTouched at.now.tree.now.nodes (holds_cell at.now.tree.now.nodes at.now.touched.now) at.now.width
            (λ r. (((r ≡ of_cell (Cell.Kids parent)) ⊎ IsAround parent true r) ⊎ IsAroundAbove at.now.tree.now.nodes parent true r) ⊎ IsLeft left.now r) self.old self.new }
    {
        self.mark_readers(&Cell::Kids(parent), at);
        self.mark_around(parent, true, at);
        self.mark_above(parent, true, at);
        self.mark_left(left, at);
    }

    /// Forgets what the readers of a text read that says more, where there is one.
    fn mark_left(&mut self, left: &Option<NodeId>, at: &Marking<'_>)
        ensures { DropsTouched at.now.tree.now.nodes (holds_cell at.now.tree.now.nodes at.now.touched.now) at.now.width
            (IsLeft left.now) self.old self.new }
    {
        if let Some(text) = left {
            self.mark_readers(&Cell::Value(*text), at);
        }
    }

    /// Forgets what the readers of the ancestors of a node read: of their texts, and maybe of what stands below them.
    fn mark_above(&mut self, node: NodeId, with_shapes: bool, at: &Marking<'_>)
        ensures { DropsTouched at.now.tree.now.nodes (holds_cell at.now.tree.now.nodes at.now.touched.now) at.now.width
            (IsAroundAbove at.now.tree.now.nodes node with_shapes) self.old self.new }
    {
        at.tree.laws();
        if let Some(parent) = at.tree.parent(node) {
            self.mark_around(parent, with_shapes, at);
            self.mark_above(parent, with_shapes, at);
        }
    }

    /// Forgets what the readers of a node's text read, and maybe of what stands below it.
    fn mark_around(&mut self, node: NodeId, with_shapes: bool, at: &Marking<'_>)
        ensures { DropsTouched at.now.tree.now.nodes (holds_cell at.now.tree.now.nodes at.now.touched.now) at.now.width
            (IsAround node with_shapes) self.old self.new }
    {
        self.mark_readers(&Cell::Text(node), at);
        self.mark_shape(node, with_shapes, at);
    }

    /// Forgets what the readers of what stands below a node read, where that is asked.
    fn mark_shape(&mut self, node: NodeId, with_shapes: bool, at: &Marking<'_>)
        ensures { DropsTouched at.now.tree.now.nodes (holds_cell at.now.tree.now.nodes at.now.touched.now) at.now.width
            (λ r. (with_shapes ≡ true) × (r ≡ of_cell (Cell.Shape node))) self.old self.new }
    {
        if with_shapes {
            self.mark_readers(&Cell::Shape(node), at);
        }
    }

    /// Forgets what the readers of a touched cell read.
    pub(crate) fn mark_readers(&mut self, cell: &Cell, at: &Marking<'_>)
        ensures { DropsTouched at.now.tree.now.nodes (holds_cell at.now.tree.now.nodes at.now.touched.now) at.now.width
            (λ r. r ≡ of_cell cell.now) self.old self.new }
    {
        while let Some(place) = self.take(cell) {
            self.flag(place, at.width);
        }
    }

    /// Forgets what a unit read that read a cell, and gives its place.
    fn take(&mut self, cell: &Cell) -> Option<usize>
        ensures took { IfSome result (λ place. has_kept (reads_at self.old.entries place) (of_cell cell.now) ≡ true) }
        ensures dropped { IfSome result (λ place. self.new.entries ≡ slice_set self.old.entries place None) }
        ensures falls { OnSome result (kept_count self.new.entries < kept_count self.old.entries) }
        ensures none { IfNone result (IsFreeOf (of_cell cell.now) self.old) }
        ensures unchanged { IfNone result (self.new ≡ self.old) }
        ensures blocks { self.new.stale_blocks ≡ self.old.stale_blocks }
    {
        self.entries.take(cell)
    }

    /// Forgets what the readers of the names along an axis from a node read.
    pub(crate) fn mark_names(&mut self, axis: Axis, node: NodeId, at: &Marking<'_>)
        ensures { DropsTouched at.now.tree.now.nodes (holds_cell at.now.tree.now.nodes at.now.touched.now) at.now.width
            (λ r. r ≡ names_along axis node) self.old self.new }
    {
        while let Some(place) = self.take_names(axis, node) {
            self.flag(place, at.width);
        }
    }

    /// Forgets what a unit read that read the names along an axis from a node, and gives its place.
    fn take_names(&mut self, axis: Axis, node: NodeId) -> Option<usize>
        ensures took { IfSome result (λ place. has_kept (reads_at self.old.entries place) (names_along axis node) ≡ true) }
        ensures dropped { IfSome result (λ place. self.new.entries ≡ slice_set self.old.entries place None) }
        ensures falls { OnSome result (kept_count self.new.entries < kept_count self.old.entries) }
        ensures none { IfNone result (IsFreeOf (names_along axis node) self.old) }
        ensures unchanged { IfNone result (self.new ≡ self.old) }
        ensures blocks { self.new.stale_blocks ≡ self.old.stale_blocks }
    {
        self.entries.take_names(&NamesAlong { axis, node })
    }

    /// Says that the row of a place may have a stale unit.
    fn flag(&mut self, place: usize, width: u32)
        ensures { Flags place width self.old self.new }
    {
        set_flag(&mut self.stale_blocks, row_of(place, width));
    }
}

/// The row of a place.
pub(crate) fn row_of(place: usize, width: u32) -> usize
    ensures { 0 < width → result ≡ place / width }
{
    if width == 0 {
        0
    } else {
        place / width as usize
    }
}

/// Says that a unit of a row may be stale.
pub(crate) fn set_flag(blocks: &mut Vec<bool>, row: usize)
    ensures { blocks.new.items ≡ slice_set blocks.old.items (row / 64) true }
{
    let block = row / ROWS;
    if block < blocks.len() {
        blocks[block] = true;
    }
}
