//! Under which cells names along axes are filed.

ghost use Rattle.std.specs.Prelude.{◌≡◌, ◌≢◌, ℕ, ◌==◌, ◌||◌, ◌&&◌, [], ◌∷◌, IfOk, OnOk};
ghost use Rattle.xp_outcome.specs.declared.names_along.NamesAlong.{NamesAlong};
ghost use Rattle.cell_index.specs.Cells.{is_among};
ghost use Rattle.cell_index.specs.Index.{has};
ghost use Rattle.read_index.specs.Names.{is_far, is_named};
ghost use Rattle.read_index.specs.inner.Filing.{AddsNames, StaysElsewhere, filed};

use cell_index::CellIndex;
use doc_tree::{Axis, Cell, NodeId};
use std::alloc::{AllocError, Global};
use xp_outcome::NamesAlong;

/// Whether the nodes from which a node stands on the axis are neither its parent, nor above it, nor beside it.
pub fn is_far(axis: Axis) -> bool
    ensures { result ≡ is_far axis }
{
    match axis {
        Axis::Attribute
        | Axis::Child
        | Axis::Descendant
        | Axis::DescendantOrSelf
        | Axis::FollowingSibling
        | Axis::PrecedingSibling => false,
        Axis::Ancestor
        | Axis::AncestorOrSelf
        | Axis::Following
        | Axis::Parent
        | Axis::Preceding
        | Axis::SelfNode => true,
    }
}

/// The cell of a node under which the names along an axis from it are filed.
///
/// An index of cells has six of them for each node. Of the twelve axes the far ones are filed in an index of their own, so that in each
/// index an axis has a kind of cell for itself; no more is meant by it.
pub(crate) fn filed(axis: Axis, node: NodeId) -> Cell
    ensures { result ≡ filed axis node }
{
    match axis {
        Axis::Child | Axis::Parent => Cell::Kids(node),
        Axis::Descendant | Axis::Ancestor => Cell::Shape(node),
        Axis::Attribute | Axis::SelfNode => Cell::Attrs(node),
        Axis::DescendantOrSelf | Axis::AncestorOrSelf => Cell::Text(node),
        Axis::FollowingSibling | Axis::Following => Cell::Value(node),
        Axis::PrecedingSibling | Axis::Preceding => Cell::Name(node),
    }
}

/// Gives a unit the names along the far axes among some, or those along the others.
pub(crate) fn add_names(
    alloc: Global,
    index: &mut CellIndex,
    unit: u64,
    names: &[NamesAlong],
    far: bool,
) -> Result<(), AllocError>
    ensures added { OnOk result (AddsNames far unit names.now index.old index.new) }
    ensures others { StaysElsewhere unit index.old index.new }
{
    let cells = cells_for(alloc, names, far)?;
    index.add(unit, cells.as_slice())
}

/// The cells under which the names along the far axes among some are filed, or those under which the others are.
fn cells_for(alloc: Global, names: &[NamesAlong], far: bool) -> Result<Vec<Cell>, AllocError>
    ensures { IfOk result (λ cells. (a : NamesAlong) → is_far a.axis ≡ far → is_among cells.items (filed a.axis a.node) ≡ is_named names.now a) }
{
    let mut cells = Vec::new(alloc);
    for item in names {
        push_for(&mut cells, *item, far)?;
    }
    Ok(cells)
}

/// Puts the cell for names along an axis at the end, where the axis is far or where it is not.
fn push_for(cells: &mut Vec<Cell>, item: NamesAlong, far: bool) -> Result<(), AllocError>
    ensures { OnOk result ((a : NamesAlong) → is_far a.axis ≡ far → is_among cells.new.items (filed a.axis a.node) ≡ (is_among cells.old.items (filed a.axis a.node) || is_named (item ∷ []) a)) }
{
    if is_far(item.axis) == far {
        cells.push(filed(item.axis, item.node))?;
    }
    Ok(())
}
