//! Laws of match patterns: what they match is what they select, read as expressions (XSLT 1.0, section 5.2), and what of the
//! lets and of the tree matching depends on.
#![tactic(auto)]

ghost use Rattle.doc_tree.specs.Table.{Table};
ghost use Rattle.doc_tree.specs.Laws.{WellFormed};
ghost use Rattle.xslt_match_laws.specs.Laws.{MatchesAreSelected};
ghost use Rattle.xslt_match_laws.specs.Agreeing.{MatchingNeedsSlotsAlone};
ghost use Rattle.xslt_match_laws.specs.KnownReads.{MatchingReadsNamedLets, MatchingReadsLiveCells};

use doc_tree::well_formed_is_enough;

/// In each well-formed tree a node matches a pattern exactly where it is in the node-set that the pattern, read as an
/// expression, gives for the node or an ancestor as context. This holds where the slots that the pattern names are set with values of the types that
/// it takes them for, or with faults, unless one of these evaluations or a test has a fault (XSLT 1.0, section 5.2).
pub fn matches_are_selected()
    ensures { (T : Table) → WellFormed T → MatchesAreSelected T }
{
    well_formed_is_enough();
}

/// What matching gives, reads and costs depends on the slots that the pattern names, and on no other let.
pub fn matching_needs_slots_alone()
    ensures { MatchingNeedsSlotsAlone }
{}

/// The lets that are read are those in slots that the pattern names.
pub fn matching_reads_named_lets()
    ensures { MatchingReadsNamedLets }
{}

/// In each well-formed tree the cells that are read are of live nodes, where the node and those of the lets' values live.
pub fn matching_reads_live_cells()
    ensures { (T : Table) → WellFormed T → MatchingReadsLiveCells T }
{
    well_formed_is_enough();
}
