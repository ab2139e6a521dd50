//! What functions and conversions are called with.

use doc_tree::Tree;
use std::alloc::Global;

/// The tree whose nodes are asked for their string-values and names, and the allocator for what the answers hold.
#[derive(Clone, Copy)]
pub struct Caller<'r> {
    pub alloc: Global,
    pub tree: &'r Tree,
}
