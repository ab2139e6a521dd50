//! The cells that evaluations read, one by one: the names along an axis, which a recorder holds as one item, are here the names of the
//! nodes on it.
#![tactic(auto)]

ghost use Rattle.std.specs.Prelude.{◌≡◌, ◌++◌, map, IfOk, OnOk};
ghost use Rattle.std.specs.FinSet.{from_list};
ghost use Rattle.std.specs.List.{flat_map};
ghost use Rattle.doc_tree.specs.cell.Cell.TheVariants.{Name};
ghost use Rattle.xp_cells.specs.EveryCell.{NotedCellsAreRead, every_cell, names_for};
ghost use Rattle.xp_cells.specs.inner.Named.{named_on};

use doc_axes::push_passing;
use doc_tree::{Cell, NodeId, NodeList, NodeTest, Tree};
use sch_base::ItemList;
use std::alloc::{AllocError, Global};
use xp_outcome::{NamesAlong, Recorder};

/// Every cell that was read over a tree, in no certain order and some perhaps more than once.
///
/// Costs the nodes on each axis along which names were read, and memory for a cell each.
pub fn cells_read(
    alloc: Global,
    tree: &Tree,
    reads: &Recorder,
) -> Result<ItemList<Cell>, AllocError>
    ensures { IfOk result (λ cells. from_list cells ≡ every_cell tree.now.nodes reads.now) }
{
    with_names(alloc, tree, reads.cells(), reads.names())
}

/// Once some reads were noted, these are the cells that the reads stand for.
pub fn noted_cells_are_read()
    ensures { NotedCellsAreRead }
{}

/// Some cells, and behind them the names that each of some items stands for.
fn with_names(
    alloc: Global,
    tree: &Tree,
    cells: &[Cell],
    items: &[NamesAlong],
) -> Result<ItemList<Cell>, AllocError>
    ensures { IfOk result (λ list. list ≡ cells.now ++ flat_map (names_for tree.now.nodes) items.now) }
{
    let mut list = ItemList::copy_of(alloc, cells)?;
    push_each_names(alloc, tree, items, &mut list)?;
    Ok(list)
}

/// Puts the names that each of some items stands for at the end of the list.
fn push_each_names(
    alloc: Global,
    tree: &Tree,
    items: &[NamesAlong],
    cells: &mut ItemList<Cell>,
) -> Result<(), AllocError>
    ensures { OnOk result (cells.new ≡ cells.old ++ flat_map (names_for tree.now.nodes) items.now) }
{
    for along in items {
        push_names(alloc, tree, *along, cells)?;
    }
    Ok(())
}

/// Puts the names along an axis from a node at the end of the list; there are none from a number at which no node lives.
fn push_names(
    alloc: Global,
    tree: &Tree,
    along: NamesAlong,
    cells: &mut ItemList<Cell>,
) -> Result<(), AllocError>
    ensures { OnOk result (cells.new ≡ cells.old ++ names_for tree.now.nodes along) }
{
    let named = named_nodes(alloc, tree, along)?;
    let pushed = push_each_name(named.as_slice(), cells);
    drop(named);
    pushed
}

/// The nodes on an axis that are of its principal kind.
fn named_nodes(alloc: Global, tree: &Tree, along: NamesAlong) -> Result<NodeList, AllocError>
    ensures { IfOk result (λ nodes. nodes ≡ named_on tree.now.nodes along) }
{
    let mut nodes = NodeList::new(alloc);
    push_named(alloc, tree, along, &mut nodes)?;
    Ok(nodes)
}

/// Puts the nodes on an axis that are of its principal kind at the end of the list.
fn push_named(
    alloc: Global,
    tree: &Tree,
    along: NamesAlong,
    nodes: &mut NodeList,
) -> Result<(), AllocError>
    ensures { OnOk result (nodes.new ≡ nodes.old ++ named_on tree.now.nodes along) }
{
    tree.laws();
    if tree.contains(along.node) {
        push_passing(alloc, tree, along.axis, &NodeTest::Star, along.node, nodes)?;
    }
    Ok(())
}

/// Puts the name of each of some nodes at the end of the list.
fn push_each_name(nodes: &[NodeId], cells: &mut ItemList<Cell>) -> Result<(), AllocError>
    ensures { OnOk result (cells.new ≡ cells.old ++ map Name nodes.now) }
{
    for n in nodes {
        cells.push(Cell::Name(*n))?;
    }
    Ok(())
}
