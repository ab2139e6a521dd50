//! Locality of matching: whether a node matches a pattern depends on what is read, and on nothing else.
#![tactic(auto)]

ghost use Rattle.xslt_locality_laws.specs.Locality.{PatternsAreLocal};

use xp_locality_laws::evaluations_are_local;

/// Where two trees agree outside some cells, and no cell that the matching of a node reads in the first is one of them, and
/// each let that it reads has the same value or fault, the node matches in both or in neither, with the same reads and at the
/// same cost (XSLT 1.0, section 5.2).
pub fn matches_are_local()
    ensures { PatternsAreLocal }
{
    evaluations_are_local();
}
