//! Documents that commands edit, and whose state is written: under a plan, or with watched expressions.

ghost use Rattle.std.specs.Prelude.{◌≡◌, ◌≤◌, ◌+◌, None, IfErr, IfOk, OnErr, OnOk};
ghost use Rattle.edit_script.specs.WellFormed.{WellFormedCommand};
ghost use Rattle.edit_commands.specs.Commands.{IsEdited, RefusesCommand, command_refusal};
ghost use Rattle.sch_commands.specs.inner.Counts.{RoseFor};
ghost use Rattle.sch_commands.specs.inner.Sessions.{Document, IsEvaluated, IsWatched, LeavesDirty, document_of, document_watched};
ghost use Rattle.sch_commands.specs.inner.Writing.{WroteText};

use crate::validation::write_session;
use crate::watching::write_watch;
use edit_commands::ApplyError;
use edit_script::Command;
use sch_io::Sink;
use sch_stops::Stop;
use sch_undo::{Session, Shown};
use std::sync::ledger::Ledger;
use xp_outcome::Steps;
use xp_watch::Watch;

/// A document that commands edit, and whose state is written.
pub(crate) trait Followed {
    // what is told of the document, its tree, and what its next state evaluates
    ghost document: { Self → Document };

    // all that is told of it was evaluated
    ghost is_evaluated: { Self → Type 0 };

    /// Does a command on the document. One that is refused changes nothing, nor does one that finds no memory.
    fn edit(&mut self, command: &Command) -> Result<(), ApplyError>
        requires formed { WellFormedCommand command.now }
        ensures within { OnOk result (command_refusal (document self.old).tree command.now ≡ None) }
        ensures edited { OnOk result (IsEdited (document self.old).tree.nodes command.now (document self.new).tree.nodes) }
        ensures dirty { OnOk result (is_evaluated self.old → LeavesDirty (document self.old) command.now (document self.new)) }
        ensures refused { IfErr result (RefusesCommand (document self.old).tree command.now) }
        ensures unchanged { OnErr result (self.new ≡ self.old) }
        ensures telling { (document self.new).telling ≡ (document self.old).telling }
        ensures cap { (document self.new).tree.pair_cap ≡ (document self.old).tree.pair_cap };

    /// Writes the state of the document as it stands, and keeps what was evaluated for it; answers what it shows.
    fn write_state<O: Sink, L: Ledger>(
        &mut self,
        out: &mut O,
        steps: &mut Steps<L>,
    ) -> Result<Shown, Stop>
        ensures wrote { WroteText (O.log out.old) (O.log out.new) ((document self.old).telling.text (document self.old).tree.nodes) result }
        ensures shown { IfOk result (λ last. last ≡ (document self.old).telling.shows (document self.old).tree.nodes) }
        ensures tree { (document self.new).tree ≡ (document self.old).tree }
        ensures telling { (document self.new).telling ≡ (document self.old).telling }
        ensures fresh { OnOk result (is_evaluated self.new) }
        ensures rose { IfOk result (RoseFor (document self.old).next steps.old steps.new) }
        ensures at_most { steps.new ≤ steps.old + (document self.old).next }
        ensures steps { steps.old ≤ steps.new };
}

impl Followed for Session {
    ghost document = { document_of };

    ghost is_evaluated = { IsEvaluated };

    fn edit(&mut self, command: &Command) -> Result<(), ApplyError> {
        self.apply(command)
    }

    fn write_state<O: Sink, L: Ledger>(
        &mut self,
        out: &mut O,
        steps: &mut Steps<L>,
    ) -> Result<Shown, Stop> {
        write_session(self, out, steps)
    }
}

impl Followed for Watch {
    ghost document = { document_watched };

    ghost is_evaluated = { IsWatched };

    fn edit(&mut self, command: &Command) -> Result<(), ApplyError> {
        self.apply(command)
    }

    fn write_state<O: Sink, L: Ledger>(
        &mut self,
        out: &mut O,
        steps: &mut Steps<L>,
    ) -> Result<Shown, Stop> {
        write_watch(self, out, steps)
    }
}
