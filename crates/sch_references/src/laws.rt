//! The law of the first broken rule on names.

ghost use Rattle.sch_references.specs.InDocumentOrder.{FirstInOrder};

use doc_tree::order_is_by_number;

/// Where a document's node numbers stand in document order, the first rule on names that it breaks as a schema by these
/// numbers is the first in that order: a law, for the proofs of callers.
pub fn first_in_order()
    ensures { FirstInOrder }
{
    order_is_by_number();
}
