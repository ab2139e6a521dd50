//! Which cells the cells that were read cover.

ghost use Rattle.std.specs.Prelude.{◌≡◌, ◌++◌, IfOk, OnOk};
ghost use Rattle.std.specs.List.{flat_map};
ghost use Rattle.std.specs.FinSet.{from_list};
ghost use Rattle.cell_covers.specs.inner.Dropping.{StandsFor, is_covered, shape_in, text_in};

use crate::node_set::NodeSet;
use doc_tree::{Cell, Kind, Tree};
use std::alloc::{AllocError, Global};

/// The nodes of the cells that cover others: of each `Shape`, and of each `Text`.
#[derive(Drop)]
pub(crate) struct Covering {
    shapes: NodeSet,
    texts: NodeSet,
}

/// The numbers of these nodes as they come.
#[derive(Drop)]
struct Wide {
    shapes: Vec<usize>,
    texts: Vec<usize>,
}

impl Covering {
    /// What covers others among some cells.
    pub(crate) fn of(alloc: Global, cells: &[Cell]) -> Result<Covering, AllocError>
        ensures { IfOk result (λ covering. StandsFor (from_list cells.now) covering.shapes.numbers.items covering.texts.numbers.items) }
    {
        let Wide { shapes, texts } = wide_among(alloc, cells)?;
        Ok(Covering {
            shapes: NodeSet::of(shapes),
            texts: NodeSet::of(texts),
        })
    }

    /// Whether a cell is covered by one of another node. Costs a logarithm for each node on its way up.
    pub(crate) fn covers(&self, tree: &Tree, cell: Cell) -> bool
        ensures { result ≡ is_covered tree.now.nodes self.now.shapes.numbers.items self.now.texts.numbers.items cell }
    {
        match cell {
            Cell::Kids(n) => self.shapes.meets_above(tree, n),
            Cell::Shape(n) => self.shapes.meets_ancestors(tree, n),
            Cell::Attrs(_) | Cell::Name(_) => false,
            Cell::Value(n) => tree.is_kind(n, Kind::Text) && self.texts.meets_ancestors(tree, n),
            Cell::Text(n) => self.texts.meets_ancestors(tree, n),
        }
    }
}

/// The numbers of the nodes of each `Shape` and of each `Text` among some cells.
fn wide_among(alloc: Global, cells: &[Cell]) -> Result<Wide, AllocError>
    ensures shapes { IfOk result (λ wide. wide.shapes.items ≡ flat_map shape_in cells.now) }
    ensures texts { IfOk result (λ wide. wide.texts.items ≡ flat_map text_in cells.now) }
{
    let mut wide = Wide {
        shapes: Vec::new(alloc),
        texts: Vec::new(alloc),
    };
    for cell in cells {
        wide.note(*cell)?;
    }
    Ok(wide)
}

impl Wide {
    /// Notes the node of a cell that can cover others.
    fn note(&mut self, cell: Cell) -> Result<(), AllocError>
        ensures shapes { OnOk result (self.new.shapes.items ≡ self.old.shapes.items ++ shape_in cell) }
        ensures texts { OnOk result (self.new.texts.items ≡ self.old.texts.items ++ text_in cell) }
    {
        match cell {
            Cell::Shape(n) => self.shapes.push(n.index())?,
            Cell::Text(n) => self.texts.push(n.index())?,
            Cell::Kids(_) | Cell::Attrs(_) | Cell::Value(_) | Cell::Name(_) => (),
        }
        Ok(())
    }
}
