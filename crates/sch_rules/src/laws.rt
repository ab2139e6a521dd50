//! The law of the first broken rule.

ghost use Rattle.doc_tree.specs.Table.{Table};
ghost use Rattle.doc_tree.specs.Laws.{WellFormed};
ghost use Rattle.sch_rules.specs.FirstBroken.{FirstAgrees};

use doc_tree::well_formed_is_enough;

/// In each well-formed tree the function that gives the first broken rule gives just the rule that is the first: a law,
/// for the proofs of callers.
pub fn first_agrees()
    ensures { (T : Table) → WellFormed T → FirstAgrees T }
{
    well_formed_is_enough();
}
