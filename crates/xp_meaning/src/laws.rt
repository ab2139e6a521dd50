//! Laws of evaluation, for the proofs of callers.

ghost use Rattle.doc_tree.specs.Table.{Table};
ghost use Rattle.doc_tree.specs.Laws.{WellFormed};
ghost use Rattle.xp_meaning.specs.Laws.{NumberIsPosition, UnionCountsOnce, DotIsContext, ValuesAreProper};

use doc_tree::well_formed_is_enough;

/// A predicate that is a number keeps the node at that position, in the axis's own order (XPath 1.0, section 2.4).
pub fn number_is_position()
    ensures { NumberIsPosition }
{}

/// A union counts a node once that both operands have (XPath 1.0, section 3.3).
pub fn union_counts_once()
    ensures { UnionCountsOnce }
{}

/// In each well-formed tree `.` is the context node (XPath 1.0, section 2.5).
pub fn dot_is_context()
    ensures { (T : Table) → WellFormed T → DotIsContext T }
{
    well_formed_is_enough();
}

/// In each well-formed tree the node-sets among values are node-sets of it: live nodes in document order, each once.
pub fn values_are_proper()
    ensures { (T : Table) → WellFormed T → ValuesAreProper T }
{
    well_formed_is_enough();
}
