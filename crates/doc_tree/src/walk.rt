//! Walks through a tree in document order.

ghost use Rattle.std.specs.Prelude.{◌≡◌, IfOk};
ghost use Rattle.doc_table.specs.Walks.{order};

use crate::tree::Tree;
use doc_table::NodeList;
use std::alloc::{AllocError, Global};

impl Tree {
    /// All live nodes in document order.
    ///
    /// Costs time linear in their number.
    pub fn nodes_in_order(&self, alloc: Global) -> Result<NodeList, AllocError>
        ensures { IfOk result (λ v. v ≡ order self.now.nodes) }
    {
        let mut list = NodeList::new(alloc);
        self.bare.push_below(&mut list, self.root())?;
        Ok(list)
    }
}
