//! Laws of the definitions, as calls that do nothing.

ghost use Rattle.sch_cli_laws.specs.Decided.{BegunIsFront, OneCost, OneOutput, SomeCost, SomeOutput};
ghost use Rattle.sch_cli_laws.specs.Undone.{UndoneEditsShowTheSame};
ghost use Rattle.sch_cli_laws.specs.WholeSchemas.{WholeSchemasStay};

use edit_cap_laws::edits_stay_within;
use edit_command_laws::{edits_keep_trees, edits_make_trees, one_edit, scripts_are_well_formed};
use edit_undo_laws::{commands_are_undone, undoings_are_formed};
use edit_way_laws::{edits_stay_in_scope, items_are_well_formed, numbers_grow};
use history_laws::histories_stand;
use name_scopes::{one_tree, text_comes_back};
use name_scopes_laws::documents_have_trees;
use sch_cli::pair_cap_is_for_pairs;
use sch_flat_laws::{
    expansion_is_accepted_again, expansions_are_documents, flat_texts_have_no_fault,
    scoped_trees_are_made,
};
use sch_include::one_inclusion;
use sch_include_laws::each_inclusion_ends;
use sch_plan::one_plan;
use sch_plan_laws::{each_phase_is_compiled, plans_need_no_places};
use state_iso_laws::{same_trees_show_the_same, saved_documents_show_the_same};
use watch_lines_laws::{each_file_is_read, one_reading};

/// What an expansion writes needs no other file: it expands to the same bytes, and documents have by it the reports that they have by the schema.
pub fn whole_schemas_stay()
    ensures { WholeSchemasStay }
{
    documents_have_trees();
    one_inclusion();
    scoped_trees_are_made();
    expansions_are_documents();
    expansion_is_accepted_again();
    flat_texts_have_no_fault();
    plans_need_no_places();
}

/// The words and the files have one output alone.
pub fn one_output()
    ensures { OneOutput }
{
    one_tree();
    one_inclusion();
    one_plan();
    one_edit();
    one_reading();
}

/// A text that a run comes to write is a front of the bytes of its output.
pub fn begun_is_front()
    ensures { BegunIsFront }
{
    one_tree();
    one_inclusion();
    one_plan();
    one_edit();
    one_reading();
}

/// The words and the files have one count of visits at most.
pub fn one_cost()
    ensures { OneCost }
{
    one_tree();
    one_inclusion();
    one_plan();
    one_edit();
    one_reading();
}

/// Words and files have an output: each stage of a run goes on, or halts it.
pub fn some_output()
    ensures { SomeOutput }
{
    documents_have_trees();
    each_inclusion_ends();
    each_phase_is_compiled();
    pair_cap_is_for_pairs();
    edits_make_trees();
    edits_keep_trees();
    edits_stay_within();
    edits_stay_in_scope();
    numbers_grow();
    commands_are_undone();
    undoings_are_formed();
    histories_stand();
    scripts_are_well_formed();
    items_are_well_formed();
    each_file_is_read();
}

/// A run that comes to its end has visits.
pub fn some_cost()
    ensures { SomeCost }
{}

/// Where an edit is undone the document shows what it showed before, byte for byte; and so does one that was saved and is validated.
pub fn undone_edits_show_the_same()
    ensures { UndoneEditsShowTheSame }
{
    one_tree();
    one_inclusion();
    one_plan();
    one_edit();
    edits_keep_trees();
    documents_have_trees();
    text_comes_back();
    same_trees_show_the_same();
    saved_documents_show_the_same();
}
