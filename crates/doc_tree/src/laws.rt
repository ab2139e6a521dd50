//! What holds of every tree, as calls that do nothing.

ghost use Rattle.doc_names.specs.Numbering.{EachOnce};
ghost use Rattle.doc_table.specs.Laws.{WellFormed, Ordered, HasWaysUp, Walks};
ghost use Rattle.doc_table.specs.Order.{Nested};
ghost use Rattle.doc_tree.specs.Scope.{HasScopes};

use crate::tree::Tree;

impl Tree {
    /// All laws of a tree: it is well formed, its document order lists the live nodes once, its ways up, walks and scopes
    /// hang together, below a node stand just the node itself and the nodes whose ancestor it is, and its names are
    /// numbered once.
    pub fn laws(&self)
        ensures well_formed { WellFormed self.now.nodes }
        ensures ordered { Ordered self.now.nodes }
        ensures ways_up { HasWaysUp self.now.nodes }
        ensures walks { Walks self.now.nodes }
        ensures nested { Nested self.now.nodes }
        ensures scopes { HasScopes self.now.nodes }
        ensures names_once { EachOnce self.now.names }
    {
        self.bare.laws();
    }
}
