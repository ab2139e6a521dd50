//! What holds of every sound table, and of every well-formed one, as calls that do nothing.

ghost use Rattle.doc_names.specs.Numbering.{EachOnce};
ghost use Rattle.doc_table.specs.InOrder.{OneTable, OrderIsByNumber};
ghost use Rattle.doc_table.specs.Laws.{WellFormed, WellFormedIsEnough, Ordered, HasWaysUp, Walks};
ghost use Rattle.doc_table.specs.SameTree.{SameLinesSameTree, SameTreeSameLines};
ghost use Rattle.doc_table.specs.Scope.{HasScopes};
ghost use Rattle.doc_table.specs.inner.Parts.{IsSound, table_of};

use crate::bare::Bare;

impl Bare {
    /// The table is well formed, its document order lists the live nodes once, its ways up, walks and scopes hang
    /// together, and its names are numbered once.
    pub fn laws(&self)
        requires { IsSound self.now }
        ensures well_formed { WellFormed (table_of self.now) }
        ensures ordered { Ordered (table_of self.now) }
        ensures ways_up { HasWaysUp (table_of self.now) }
        ensures walks { Walks (table_of self.now) }
        ensures scopes { HasScopes (table_of self.now) }
        ensures names_once { EachOnce self.now.names }
    {
        let _ = &self.live;
        self.names.laws();
    }
}

/// Where the numbers are in document order, a node stands before another exactly where its number is less.
pub fn order_is_by_number()
    ensures { OrderIsByNumber }
{}

/// Two well-formed tables whose numbers are in document order and whose lines are the same are the same.
pub fn one_table()
    ensures { OneTable }
{}

/// Each well-formed table has all laws of a tree's.
pub fn well_formed_is_enough()
    ensures { WellFormedIsEnough }
{}

/// Two well-formed tables whose lines are the same are the same tree, but for the numbers of their nodes.
pub fn same_lines_same_tree()
    ensures { SameLinesSameTree }
{}

/// Two well-formed tables that are the same tree have the same lines.
pub fn same_tree_same_lines()
    ensures { SameTreeSameLines }
{}
