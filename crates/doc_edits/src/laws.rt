//! Laws of changes: the table of a tree stays one.

ghost use Rattle.doc_edits.specs.Documents.{EditsKeepDocuments};
ghost use Rattle.doc_edits.specs.Keeping.{DeletionsKeepTrees, InsertionsKeepTrees, GainsKeepTrees, RemovalsKeepTrees, RenamesKeepTrees, SayingsKeepTrees};

/// A node with another text is a node of a tree.
pub fn sayings_keep_trees()
    ensures { SayingsKeepTrees }
{}

/// A node with another name is a node of a tree, where no other attribute of its element has the name.
pub fn renames_keep_trees()
    ensures { RenamesKeepTrees }
{}

/// A tree without a node, and all below it, is a tree.
pub fn removals_keep_trees()
    ensures { RemovalsKeepTrees }
{}

/// A tree of which a node was deleted is a tree; two texts that meet become one.
pub fn deletions_keep_trees()
    ensures { DeletionsKeepTrees }
{
    sayings_keep_trees();
}

/// A tree with one attribute more, or with a piece more, is a tree.
pub fn additions_keep_trees()
    ensures gains { GainsKeepTrees }
    ensures insertions { InsertionsKeepTrees }
{}

/// A document stays one, where its document element is kept, and no element and no text comes beside it.
pub fn edits_keep_documents()
    ensures { EditsKeepDocuments }
{
    deletions_keep_trees();
}
