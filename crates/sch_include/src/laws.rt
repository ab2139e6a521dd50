//! Laws of the definitions, for the proofs of callers.

ghost use Rattle.sch_include.specs.Included.{OneInclusion};

use doc_tree::one_table;
use name_scopes::one_tree;

/// Where the outside doesn't fail, the files decide which tree a schema's file gives, or which fault comes first, and which
/// files are opened.
pub fn one_inclusion()
    ensures { OneInclusion }
{
    one_tree();
    one_table();
}
