//! How many units are stale.

ghost use Rattle.std.specs.Prelude.{◌≡◌, filter, length};
ghost use Rattle.sch_compiled.specs.Soundness.{IsCounted};
ghost use Rattle.edit_costs.specs.Units.{units_of};
ghost use Rattle.kept_state.specs.Running.{is_stale};
ghost use Rattle.kept_units.specs.Keeping.{seen_in};

use crate::kept_units::KeptUnits;
use doc_tree::Tree;
use sch_compiled::Plan;

impl KeptUnits {
    /// How many units are stale: lets in force, and pairs of an active pattern and a live node.
    ///
    /// Looks at each of them; takes no memory.
    pub fn stale_count(&self, plan: &Plan, tree: &Tree) -> u64
        requires counted { IsCounted plan.now }
        requires patterns { self.now.found.patterns ≡ length plan.now.patterns }
        ensures { result ≡ length (filter (is_stale (seen_in self.now)) (units_of plan.now tree.now.nodes)) }
    {
        let patterns = plan.pattern_count();
        let mut count = u64::from(self.let_reads.stale_places(plan.let_count()));
        for p in 0..patterns {
            count += u64::from(self.reads.stale_nodes(tree, patterns, p));
        }
        count
    }
}
