//! The numbers of cells.

ghost use Rattle.std.specs.Prelude.{◌≡◌};
ghost use Rattle.cell_index.specs.inner.CellNumbers.{cell_number};

use doc_tree::Cell;

/// The number of a cell: each node has six.
pub(crate) fn cell_number(cell: Cell) -> usize
    ensures { result ≡ cell_number cell }
{
    match cell {
        Cell::Kids(n) => 6 * n.index(),
        Cell::Shape(n) => 6 * n.index() + 1,
        Cell::Attrs(n) => 6 * n.index() + 2,
        Cell::Value(n) => 6 * n.index() + 3,
        Cell::Text(n) => 6 * n.index() + 4,
        Cell::Name(n) => 6 * n.index() + 5,
    }
}

/// One of so many places for a list of cells, spread evenly by the cells and their order; 0 where there is none.
///
/// Looks at each cell.
pub(crate) fn spread(cells: &[Cell], places: u32) -> u32 {
    let mut sum = 0;
    for cell in cells {
        sum = mixed(sum, cell_number(*cell) as u64);
    }
    (sum >> 32) as u32 % places.max(1)
}

/// A number that each bit of two numbers may change.
fn mixed(sum: u64, number: u64) -> u64 {
    (sum.rotate_left(32) ^ number).wrapping_mul(0x9E37_79B9_7F4A_7C15)
}
