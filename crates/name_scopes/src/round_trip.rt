//! Laws of the definitions, for the proofs of callers.

ghost use Rattle.name_scopes.specs.RoundTrip.{NamespacesFollow, TextComesBack, TreeComesBack};
ghost use Rattle.name_scopes.specs.ScopedTree.{OneTree};

use doc_tree::{one_table, same_lines_same_tree, well_formed_is_enough};
use pyx_core::written_is_read_back;
use sch_base::qnames_split;

/// The text that `write_tree` writes of a document in scope has no fault, and its events say what the document says.
pub fn text_comes_back()
    ensures { TextComesBack }
{
    well_formed_is_enough();
    qnames_split();
    written_is_read_back();
}

/// A tree of the events of that text, as `load_tree` gives it, is the document again: the same tree, but for the numbers of nodes.
pub fn tree_comes_back()
    ensures { TreeComesBack }
{
    text_comes_back();
    namespaces_follow();
    same_lines_same_tree();
}

/// Trees in scope that say the same but for namespaces say the same.
pub fn namespaces_follow()
    ensures { NamespacesFollow }
{
    well_formed_is_enough();
}

/// The events of a document have one tree alone, with its numbers.
pub fn one_tree()
    ensures { OneTree }
{
    well_formed_is_enough();
    one_table();
}
