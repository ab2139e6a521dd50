//! The state of an evaluated document, written: the report, or the line of the first fault.

ghost use Rattle.std.specs.Prelude.{◌≡◌};
ghost use Rattle.sch_compiled.specs.Findings.{ToldInOrder};
ghost use Rattle.sch_compiled.specs.Soundness.{IsCounted};
ghost use Rattle.kept_units.specs.Evaluated.{Evaluates};
ghost use Rattle.kept_units.specs.Outcomes.{Holds, LetsHold};
ghost use Rattle.edit_session.specs.declared.state.ReportError.TheVariants as errors;
ghost use Rattle.edit_session.specs.Wrote.{WroteState};
ghost use Rattle.edit_session.specs.inner.Shown.{ShownAs, shown_of};

use crate::told::told_in_order;
use doc_tree::{NodeId, Tree};
use kept_units::{Evaluated, Lets, came_to_among, units_read_live_cells};
use sch_compiled::{Findings, Plan};
use sch_io::Sink;
use sch_units::{first_match_fires, lets_stand_in_order};
use std::alloc::{AllocError, Global};
use svrl_out::{OutError, Shown, write_fault, write_report_among};
use thiserror::Error;

/// Why a state was not written whole.
#[derive(Clone, Copy, Debug, PartialEq, Eq, Error)]
pub enum ReportError {
    /// A write failed.
    #[error("a write failed")]
    Failed,
    #[error("out of memory")]
    Memory,
}

impl From<AllocError> for ReportError {
    ghost from_gives = { λ _ error. error ≡ errors.Memory };

    fn from(_refused: AllocError) -> ReportError {
        ReportError::Memory
    }
}

/// Writes the state of a document by the outcomes of its units; answers what it shows.
pub(crate) fn write_outcomes<O: Sink>(
    alloc: Global,
    plan: &Plan,
    tree: &Tree,
    lets: &Lets,
    found: &Findings,
    out: &mut O,
) -> Result<Shown, ReportError>
    requires counted { IsCounted plan.now }
    requires lets { LetsHold plan.now tree.now.nodes lets.now }
    requires found { Holds plan.now tree.now.nodes found.now }
    ensures { WroteState (O.log out.old) (O.log out.new) plan.now tree.now.nodes result }
{
    let nodes = told_in_order(alloc, tree, found)?;
    let nodes = nodes.as_slice();
    let evaluated = came_to_among(plan, tree, lets, found, nodes);
    let told = Told { found, nodes };
    write_evaluated(alloc, plan, tree, told, evaluated, out)
}

/// What units found, and the nodes of which they tell something, in document order.
#[derive(Clone, Copy)]
struct Told<'a> {
    found: &'a Findings,
    nodes: &'a [NodeId],
}

/// Writes the state of a document by what its units came to; answers what it shows.
fn write_evaluated<O: Sink>(
    alloc: Global,
    plan: &Plan,
    tree: &Tree,
    told: Told<'_>,
    evaluated: Evaluated,
    out: &mut O,
) -> Result<Shown, ReportError>
    requires evaluated { Evaluates plan.now tree.now.nodes evaluated }
    requires found { Holds plan.now tree.now.nodes told.found.now }
    requires told { ToldInOrder tree.now.nodes told.found.now told.nodes.now }
    ensures { WroteState (O.log out.old) (O.log out.new) plan.now tree.now.nodes result }
{
    tree.laws();
    first_match_fires();
    units_read_live_cells();
    lets_stand_in_order();
    match evaluated {
        Evaluated::Whole { finds } => {
            let written = write_report_among(alloc, plan, tree, told.found, told.nodes, out);
            end_of(written, shown_of(finds))
        }
        Evaluated::Faulted(fault) => {
            let written = write_fault(alloc, plan, tree, &fault, out);
            end_of(written, Shown::Fault)
        }
    }
}

/// What a report shows, by whether something was found.
fn shown_of(finds: bool) -> Shown
    ensures { result ≡ shown_of finds }
{
    if finds { Shown::Findings } else { Shown::Clean }
}

/// What a text shows that was written, or what stopped its writing.
fn end_of(written: Result<(), OutError>, shown: Shown) -> Result<Shown, ReportError>
    ensures { ShownAs written shown result }
{
    match written {
        Ok(()) => Ok(shown),
        Err(OutError::Failed) => Err(ReportError::Failed),
        Err(OutError::Memory) => Err(ReportError::Memory),
    }
}
