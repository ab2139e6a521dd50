//! The limits of a tree.

ghost use Rattle.std.specs.Prelude.{◌≡◌};

/// The most live nodes of a tree, the root and attributes counted.
pub const MAX_LIVE_NODES: u32 = 262_144;

/// The most node numbers ever made in a tree.
pub const MAX_NODE_NUMBERS: u32 = 1_048_576;

/// The greatest depth of an element; the document element stands at 1.
pub const MAX_DEPTH: u32 = 256;

/// The most bytes of live text: attribute values, texts, comments and the data of processing instructions.
pub const MAX_LIVE_TEXT_BYTES: usize = 16_777_216;

/// The numbers of the limits, which contracts name by their constants.
pub fn numbers_of_limits()
    ensures nodes { MAX_LIVE_NODES ≡ 262144 }
    ensures numbers { MAX_NODE_NUMBERS ≡ 1048576 }
    ensures depth { MAX_DEPTH ≡ 256 }
    ensures text { MAX_LIVE_TEXT_BYTES ≡ 16777216 }
{}
