//! What takes an edit of the bare table back: the laws of undoing, as calls that do nothing.
#![tactic(auto)]

ghost use Rattle.doc_undo_laws.specs.Undoing.{AttributesAreGivenBack, ContentsAreGivenBack, DeletionsAreUndone, InsertionsAreUndone, MergesAreUndone};

/// A node that was deleted comes back with all below it.
pub fn deletions_are_undone()
    ensures { DeletionsAreUndone }
{}

/// A piece that was inserted goes.
pub fn insertions_are_undone()
    ensures { InsertionsAreUndone }
{}

/// A node says its own text again, or has its own name.
pub fn contents_are_given_back()
    ensures { ContentsAreGivenBack }
{}

/// An attribute that came goes; attributes that went come again in their order.
pub fn attributes_are_given_back()
    ensures { AttributesAreGivenBack }
{}

/// A node that was deleted between two texts comes back, and so do they.
pub fn merges_are_undone()
    ensures { MergesAreUndone }
{}
