//! Laws of the definitions, for the proofs of callers.

ghost use Rattle.sch_include_laws.specs.SomeInclusion.{SomeInclusion};

use name_scopes_laws::documents_have_trees;

/// Each schema's file gives a tree in which the includes are replaced, or has a first fault.
pub fn each_inclusion_ends()
    ensures { SomeInclusion }
{
    documents_have_trees();
}
