//! Walks through a table in document order.

ghost use Rattle.std.specs.Prelude.{◌≡◌, ◌++◌, OnErr, OnOk};
ghost use Rattle.doc_table.specs.Lists.{BeginsWith};
ghost use Rattle.doc_table.specs.Walks.{below};
ghost use Rattle.doc_table.specs.inner.Parts.{IsSound, table_of};

use crate::bare::Bare;
use crate::ids::NodeId;
use crate::node_list::NodeList;
use std::alloc::AllocError;

impl Bare {
    /// Puts a node and all below it at the end of the list, in document order.
    ///
    /// After want of memory the list begins with what it was. Costs time linear in their number.
    pub fn push_below(&self, list: &mut NodeList, n: NodeId) -> Result<(), AllocError>
        requires { IsSound self.now }
        ensures pushed { OnOk result (list.new ≡ list.old ++ below (table_of self.now) n) }
        ensures begun { OnErr result (BeginsWith list.old list.new) }
    {
        self.laws();
        list.push(n)?;
        list.push_all(self.attrs(n))?;
        for kid in self.kids(n) {
            self.push_below(list, *kid)?;
        }
        Ok(())
    }
}
