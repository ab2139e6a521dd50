//! Schemas of Schematron (ISO/IEC 19757-3:2016) as values: as they are read, and without their abstract parts.
#![tactic(auto)]

mod fault;
mod flat;
mod parts;
mod raw;

pub use doc_tree::NodeId;
pub use fault::{SchemaError, SchemaFault};
pub use flat::{FlatPattern, FlatPatternList, FlatRule, FlatRuleList, FlatSchema};
pub use parts::{
    Active, ActiveList, Assertion, AssertionList, Diagnostic, DiagnosticList, Head, LetDecl,
    LetDeclList, Ns, NsList, Part, PartList, Phase, PhaseList, TextList,
};
pub use raw::{
    Param, ParamList, RawItem, RawItemList, RawPattern, RawPatternList, RawRule, RawRuleList,
    RawSchema,
};
pub use sch_base::Text;
