//! What holds of every text that is a document, and what edits keep of one: its names are in scope.
#![tactic(auto)]

ghost use Rattle.name_scopes_laws.specs.Documents.{DocumentsComeBack, DocumentsHaveTrees};
ghost use Rattle.name_scopes_laws.specs.Pieces.{FragmentsHavePieces};
ghost use Rattle.name_scopes_laws.specs.Scopes.{AdditionsKeepScope, DeletionsKeepScope, RenamesKeepScope, SayingsKeepScope};

use doc_edits::{
    additions_keep_trees, deletions_keep_trees, renames_keep_trees, sayings_keep_trees,
};
use name_scopes::{text_comes_back, tree_comes_back};
use pyx_core::events_nest;

/// Each text without fault has a tree.
pub fn documents_have_trees()
    ensures { DocumentsHaveTrees }
{
    events_nest();
}

/// The text of each document in scope has a tree, which is the document again, but for the numbers of its nodes.
pub fn documents_come_back()
    ensures { DocumentsComeBack }
{
    events_nest();
    text_comes_back();
    tree_comes_back();
}

/// Each fragment has a piece under each node under which no reason keeps it from coming.
pub fn fragments_have_pieces()
    ensures { FragmentsHavePieces }
{}

/// A tree in scope stays in scope, where what comes is in scope at its place.
pub fn edits_keep_scope()
    ensures sayings { SayingsKeepScope }
    ensures renames { RenamesKeepScope }
    ensures deletions { DeletionsKeepScope }
    ensures additions { AdditionsKeepScope }
{
    sayings_keep_trees();
    renames_keep_trees();
    deletions_keep_trees();
    additions_keep_trees();
}
