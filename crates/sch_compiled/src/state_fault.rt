//! Where a validation met a fault first.

use doc_tree::NodeId;
use xp_values::EvalFault;

/// Why there is no report: the evaluation of a let in force or of a node under a pattern met a fault.
#[derive(Clone, Copy, Debug, PartialEq, Eq)]
pub enum StateFault {
    /// The let in force with this slot has no value.
    InLet {
        slot: u32,
        kind: EvalFault,
    },
    /// The node has no outcome under the active pattern, which is counted from 0.
    AtNode {
        pattern: u32,
        node: NodeId,
        kind: EvalFault,
    },
}
