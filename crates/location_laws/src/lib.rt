//! A location finds its node: it spells an expression of XPath 1.0, section 2, that selects the node and no other, wherever it is
//! evaluated, and it spells nothing else.
#![tactic(auto)]

ghost use Rattle.location_laws.specs.Finds.{LocationsFindNothingElse, LocationsFindTheirNodes};

use doc_tree::Tree;
use location_texts::{texts_have_their_tokens, tokens_derive_typed_paths};
use location_ways::each_node_has_a_way_down;
use xp_lexicon::whole_texts_end;
use xp_syntax::one_spelling;
use xp_types::expressions_are_typed_or_refused;

/// The location of each node of a tree in scope spells an expression that is well typed in every scope and selects, from every
/// context node, the node alone.
pub fn locations_find_their_nodes(tree: &Tree)
    ensures { LocationsFindTheirNodes tree.now.nodes }
{
    whole_texts_end();
    texts_have_their_tokens();
    tokens_derive_typed_paths();
    each_node_has_a_way_down(tree);
}

/// So does each expression that the location spells, at whatever limit of nesting and with whatever type: there is but one.
pub fn locations_find_nothing_else(tree: &Tree)
    ensures { LocationsFindNothingElse tree.now.nodes }
{
    locations_find_their_nodes(tree);
    one_spelling();
    expressions_are_typed_or_refused();
}
