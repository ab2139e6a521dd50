//! Pairs of an active pattern and a live node.

ghost use Rattle.std.specs.Prelude.{◌≡◌};
ghost use Rattle.sch_compiled.specs.Soundness.{IsCounted};
ghost use Rattle.edit_session.specs.Pairs.{has_too_many_pairs, pair_cap_for};

use doc_tree::{MAX_LIVE_NODES, Tree};
use sch_base::MAX_PAIRS;
use sch_compiled::Plan;

/// Whether there are more pairs than there may be.
pub(crate) fn has_too_many_pairs(plan: &Plan, tree: &Tree) -> bool
    requires { IsCounted plan.now }
    ensures { result ≡ has_too_many_pairs plan.now tree.now.nodes }
{
    let pairs = u64::from(plan.pattern_count()) * u64::from(tree.live_nodes());
    pairs > MAX_PAIRS as u64
}

/// How many nodes may live in a document under the plan.
pub(crate) fn pair_cap_for(plan: &Plan) -> u32
    requires { IsCounted plan.now }
    ensures { result ≡ pair_cap_for plan.now }
{
    let patterns = plan.pattern_count();
    if patterns == 0 {
        return MAX_LIVE_NODES;
    }
    (MAX_PAIRS as u32 / patterns).min(MAX_LIVE_NODES)
}
