//! Which units an edit touches.

ghost use Rattle.std.specs.Prelude.{◌≡◌, Bool};
ghost use Rattle.doc_tree.specs.cell.Cell.{Cell};
ghost use Rattle.doc_tree.specs.Laws.{WellFormed};
ghost use Rattle.doc_tree.specs.Table.{Table};
ghost use Rattle.doc_edit_laws.specs.Along.{Edit};
ghost use Rattle.sch_compiled.specs.declared.plan.Plan.{Plan};
ghost use Rattle.edit_commands.specs.Touched.{holds_cell};
ghost use Rattle.kept_state.specs.Steps.{Marks};
ghost use Rattle.kept_units.specs.Keeping.{IsHeld, seen_in};

use crate::kept_units::KeptUnits;
use doc_edit_laws::edits_leave_the_rest;
use doc_tree::Tree;
use edit_commands::Touched;
use kept_reads::Marking;

impl KeptUnits {
    /// Marks as stale the units that read something that a command touched. The tree is the one that the command left.
    ///
    /// Takes no memory. Goes to the units that have read each touched cell alone, so that it costs the way up from a node beside these; of a
    /// rename also what `KeptReads::mark` says.
    pub fn mark(&mut self, tree: &Tree, touched: &Touched)
        ensures marks { Marks tree.now.nodes (holds_cell tree.now.nodes touched.now) (seen_in self.old) (seen_in self.new) }
        ensures held { (plan : Plan) (T : Table) (last : Cell → Bool) → WellFormed T → Edit T tree.now.nodes last → IsHeld plan T self.old →
            IsHeld plan tree.now.nodes self.new }
    {
        edits_leave_the_rest();
        let patterns = self.found.patterns();
        self.let_reads.mark(&Marking {
            tree,
            touched,
            width: 1,
        });
        self.reads.mark(&Marking {
            tree,
            touched,
            width: patterns,
        });
    }
}
