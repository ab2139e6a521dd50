//! The events of a node and of all below it. Laws, as calls that do nothing.
#![tactic(auto)]

ghost use Rattle.subtree_events.specs.Subtrees.{SubtreesAreFragments};

use doc_tree::well_formed_is_enough;
use sch_base::qnames_split;

/// They are a fragment, and a piece of them says what the node says.
pub fn subtrees_are_fragments()
    ensures { SubtreesAreFragments }
{
    well_formed_is_enough();
    qnames_split();
}
