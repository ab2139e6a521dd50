//! What is kept of units.

ghost use Rattle.std.specs.Prelude.{◌≡◌, ℕ};
ghost use Rattle.xp_outcome.specs.Evaluation.{Evaluation};
ghost use Rattle.xp_outcome.specs.Recorded.{Recorded, nothing_read};
ghost use Rattle.xp_outcome.specs.Running.{Ran};
ghost use Rattle.xp_values.specs.declared.values.Value.{Value};
ghost use Rattle.xp_values.specs.declared.values.EvalFault.{EvalFault};
ghost use Rattle.xp_meaning.specs.Results.{shown};
ghost use Rattle.sch_compiled.specs.declared.findings.Outcome.{Outcome};
ghost use Rattle.rule_run.specs.Kept.{let_reads, let_shown, outcome_told};
ghost use Rattle.rule_run.specs.inner.Keeping.{GivesNoFault};

use sch_compiled::Outcome;
use std::alloc::AllocError;
use xp_outcome::Recorder;
use xp_values::{EvalError, EvalFault, Value};

/// What is kept of a let in force: its value, or the fault that its evaluation met, and what was read for it.
#[derive(Drop)]
pub struct KeptLet {
    pub value: Result<Value, EvalFault>,
    pub reads: Recorder,
}

/// What is kept of a node under a pattern: its outcome, in which a fault stands too, and what was read for it.
#[derive(Drop)]
pub struct Kept {
    pub outcome: Outcome,
    pub reads: Recorder,
}

/// What is kept of a let whose evaluation ended so.
#[tactic(auto, using(crate::proofs::Keeps::ran_forgets))]
pub(crate) fn keep_let(
    value: Result<Value, EvalError>,
    reads: Recorder,
) -> Result<KeptLet, AllocError>
    ensures { (m : Evaluation EvalFault Value) (before after : ℕ) →
        Ran m (shown value) nothing_read reads before after → Ran m (let_shown result) nothing_read (let_reads result) before after }
{
    match value {
        Ok(value) => Ok(KeptLet {
            value: Ok(value),
            reads,
        }),
        Err(EvalError::Fault(fault)) => Ok(KeptLet {
            value: Err(fault),
            reads,
        }),
        Err(EvalError::Memory) => Err(AllocError),
    }
}

/// The outcome that is kept of a node under a pattern whose evaluation ended so.
#[tactic(auto, using(crate::proofs::Keeps::ran_outcome))]
pub(crate) fn keep_outcome(outcome: Result<Outcome, EvalError>) -> Result<Outcome, AllocError>
    ensures { (m : Evaluation EvalFault Outcome) (reads : Recorded) (before after : ℕ) → GivesNoFault m →
        Ran m (shown outcome) nothing_read reads before after → Ran m (outcome_told result) nothing_read reads before after }
{
    match outcome {
        Ok(outcome) => Ok(outcome),
        Err(EvalError::Fault(fault)) => Ok(Outcome::Fault { kind: fault }),
        Err(EvalError::Memory) => Err(AllocError),
    }
}
