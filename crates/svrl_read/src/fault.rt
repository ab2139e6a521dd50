//! Why a document isn't read as a report.

ghost use Rattle.std.specs.Prelude.{◌≡◌};
ghost use Rattle.svrl_read.specs.declared.fault.SvrlError.TheVariants as svrl_error;

use doc_tree::NodeId;
use sch_base::Text;
use std::alloc::AllocError;
use thiserror::Error;

/// What an element of a report lacks, in the order in which it is told at one element. Shown as its name, with that of the
/// attribute.
#[derive(Debug, Drop, Error)]
pub enum SvrlKind {
    /// The document element isn't `schematron-output`.
    #[error("NotOutput")]
    NotOutput,
    /// A fired rule or a finding stands before the first active pattern.
    #[error("NoPattern")]
    NoPattern,
    /// A finding stands in a pattern before its first fired rule.
    #[error("NoRule")]
    NoRule,
    /// The element has no attribute of this name.
    #[error("NoAttribute {}", .name.as_str())]
    NoAttribute { name: Text },
}

/// A fault of a report.
#[derive(Debug, Drop)]
pub struct SvrlFault {
    pub kind: SvrlKind,
    /// The element at which it is.
    pub node: NodeId,
}

/// Why a report wasn't read.
#[derive(Debug, Drop, Error)]
pub enum SvrlError {
    /// It has this fault, the first.
    #[error("{}", .0.kind)]
    Fault(SvrlFault),
    #[error("out of memory")]
    Memory,
}

impl From<AllocError> for SvrlError {
    ghost from_gives = { λ _ error. error ≡ svrl_error.Memory };

    fn from(_error: AllocError) -> SvrlError {
        SvrlError::Memory
    }
}
