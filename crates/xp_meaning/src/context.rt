//! Contexts of evaluation, and the values of lets.

use doc_tree::NodeId;
use xp_outcome::Slots;
use xp_values::{EvalFault, Value};

/// The context of an expression (XPath 1.0, section 1): the context node, its position, which counts from 1, and the
/// context size. `current` is the node that `current()` gives (XSLT 1.0, section 12.4).
#[derive(Clone, Copy)]
pub struct Context {
    pub node: NodeId,
    pub position: u32,
    pub size: u32,
    pub current: NodeId,
}

/// The values of the lets by slot: each a value, or the fault that its evaluation met.
pub type Lets = Slots<Result<Value, EvalFault>>;
