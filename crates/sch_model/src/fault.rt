//! Why a schema is refused.

ghost use Rattle.std.specs.Prelude.{◌≡◌};
ghost use Rattle.sch_model.specs.declared.fault.SchemaError.TheVariants as schema_error;

use doc_tree::NodeId;
use sch_base::Text;
use std::alloc::AllocError;
use thiserror::Error;

/// A rule that a schema breaks.
#[derive(Debug, Drop)]
pub struct SchemaFault {
    /// The number of the rule, from 1.
    pub rule: u32,
    /// The element where the rule is broken.
    pub node: NodeId,
    /// The name that a reader of the schema has to look for.
    pub name: Text,
}

/// Why a schema wasn't read.
#[derive(Debug, Drop, Error)]
pub enum SchemaError {
    /// It breaks this rule, the first.
    #[error("rule {}: {}", .0.rule, .0.name.as_str())]
    Fault(SchemaFault),
    #[error("out of memory")]
    Memory,
}

impl From<AllocError> for SchemaError {
    ghost from_gives = { λ _ error. error ≡ schema_error.Memory };

    fn from(_error: AllocError) -> SchemaError {
        SchemaError::Memory
    }
}
