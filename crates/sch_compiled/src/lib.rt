//! A schema compiled for one phase (ISO/IEC 19757-3:2016, clause 6), and what validation finds by it.
#![tactic(auto)]

mod findings;
mod marks;
mod parts;
mod patterns;
mod plan;
mod state_fault;
mod told;

pub use doc_tree::NodeId;
pub use findings::{Finding, FindingList, Findings, Outcome, TextList};
pub use parts::{
    LetInForce, LetInForceList, PlanAssert, PlanAssertList, PlanDiagnostic, PlanDiagnosticList,
    PlanLet, PlanLetList, PlanNs, PlanNsList, PlanPart, PlanPartList, PlanPattern, PlanRule,
    PlanRuleList,
};
pub use patterns::PlanPatternList;
pub use plan::Plan;
pub use sch_base::{ItemList, Text};
pub use state_fault::StateFault;
pub use xp_typed_tree::{Typed, TypedPattern};
pub use xp_values::EvalFault;
