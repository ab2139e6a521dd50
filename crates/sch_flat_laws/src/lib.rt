//! The document that a flat schema is: laws of its definition, its text, its tree as it is read, and the rules of schemas.
#![tactic(auto)]

ghost use Rattle.sch_flat_laws.specs.Accepted.{ExpansionIsAcceptedAgain, ExpansionsAreDocuments, FlatDocumentsAreAllowed, FlatDocumentsBreakNoRule, ReadingsAreReadable, ScopedTreesAreMade};
ghost use Rattle.sch_flat_laws.specs.Again.{ExpansionStays};
ghost use Rattle.sch_flat_laws.specs.Expansion.{FlatSchemasStay};
ghost use Rattle.sch_flat_laws.specs.FlatFaults.{FlatTextsHaveNoFault};
ghost use Rattle.sch_flat_laws.specs.FlatText.{FlatTextIsReadBack};
ghost use Rattle.sch_flat_laws.specs.IdLists.{IdsAreReadBack};
ghost use Rattle.sch_flat_laws.specs.Joined.{TextsStandApart};
ghost use Rattle.sch_flat_laws.specs.NodeCount.{NodesAreCounted};
ghost use Rattle.sch_flat_laws.specs.ReadBack.{FlatSchemasAreReadBack, FrontIsReadBack};

/// The lines of the document of a schema have no fault, and give its events.
pub fn flat_text_is_read_back()
    ensures { FlatTextIsReadBack }
{
    sch_base::qnames_split();
    pyx_core::written_is_read_back();
}

/// The tree of events has as many nodes as they bring, and the root.
pub fn nodes_are_counted()
    ensures { NodesAreCounted }
{}

/// A schema without abstract parts, read as its document says it, is expanded to itself.
pub fn flat_schemas_stay()
    ensures { FlatSchemasStay }
{}

/// The ids of an assertion's diagnostics and properties are read back as they are written, with single spaces.
pub fn ids_are_read_back()
    ensures { IdsAreReadBack }
{}

/// No two texts meet in a message that is read, nor in the document of a schema with such messages.
pub fn texts_stand_apart()
    ensures { TextsStandApart }
{}

/// The text of a schema's document, where it is read back and is no larger than a document may be, has no fault.
pub fn flat_texts_have_no_fault()
    ensures { FlatTextsHaveNoFault }
{}

/// What a flat schema says of itself, its prefixes, its lets and its phases are read back from the tree of its document.
pub fn front_is_read_back()
    ensures { FrontIsReadBack }
{
    doc_tree::well_formed_is_enough();
}

/// The tree of the document that a flat schema is reads as that schema; only the places of its parts differ.
pub fn flat_schemas_are_read_back()
    ensures { FlatSchemasAreReadBack }
{
    doc_tree::well_formed_is_enough();
}

/// What is read of the document of a flat schema is expanded to that schema; only the places of its parts differ.
pub fn expansion_stays()
    ensures { ExpansionStays }
{
    flat_schemas_stay();
    flat_schemas_are_read_back();
}

/// The texts of a tree whose names are in scope are made of Chars.
pub fn scoped_trees_are_made()
    ensures { ScopedTreesAreMade }
{}

/// A flat schema's document breaks no rule, where its names have the forms that the rules want, and none is used twice.
pub fn flat_documents_break_no_rule()
    ensures { FlatDocumentsBreakNoRule }
{
    doc_tree::well_formed_is_enough();
}

/// What is read of a document that breaks none of rules 1 to 9 can be said, and its names have the forms that the rules want.
pub fn readings_are_readable()
    ensures { ReadingsAreReadable }
{
    doc_tree::well_formed_is_enough();
    ids_are_read_back();
    texts_stand_apart();
}

/// Where a flat schema's document breaks no rule, its names have the forms that the rules want, and none is used twice.
pub fn flat_documents_are_allowed()
    ensures { FlatDocumentsAreAllowed }
{
    expansion_stays();
    scoped_trees_are_made();
    readings_are_readable();
}

/// What a schema that breaks no rule is expanded to breaks none as a document, and is expanded to itself but for places.
pub fn expansion_is_accepted_again()
    ensures { ExpansionIsAcceptedAgain }
{
    flat_schemas_are_read_back();
    expansion_stays();
    scoped_trees_are_made();
    flat_documents_break_no_rule();
    readings_are_readable();
}

/// The lines of what a document is read as and expanded to have no fault, and give its events.
pub fn expansions_are_documents()
    ensures { ExpansionsAreDocuments }
{
    flat_text_is_read_back();
    texts_stand_apart();
    ids_are_read_back();
}
