//! Locality: what an expression gives, reads and costs depends on what it reads, and on nothing else.
#![tactic(auto)]

ghost use Rattle.xp_locality_laws.specs.Locality.{ExpressionsAreLocal, PredicatesAreLocal, StepsAreLocal};

/// Where two trees agree outside some cells, and no cell that an expression reads in the first is one of them, and each let that
/// it reads has the same value or fault, it gives the same in both, reads the same and costs the same.
pub fn evaluations_are_local()
    ensures expressions { ExpressionsAreLocal }
    ensures steps { StepsAreLocal }
    ensures predicates { PredicatesAreLocal }
{}
