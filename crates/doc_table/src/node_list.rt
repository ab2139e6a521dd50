//! Lists of nodes.

ghost use Rattle.std.specs.Prelude.{◌≡◌, ◌<◌, ◌≤◌, ◌==◌, [], ◌∷◌, ◌++◌, if◌then◌else◌, length, reverse, take, drop, suc, IfOk, OnOk, OnErr};

use crate::ids::NodeId;
use smallvec::SmallVec;
use std::alloc::{AllocError, Global};
use std::marker::Model;

/// How many nodes a list holds in itself: most elements have no more kids or attributes, and most steps find no more nodes.
const FEW: usize = 4;

/// A list of nodes, seen by contracts as that list. A list of few nodes takes no memory of its own.
#[derive(Debug)]
pub struct NodeList {
    nodes: SmallVec<NodeId, FEW>,
}

/// One call lets a list go, wherever its owner ends.
impl Drop for NodeList {
    fn drop(self) {
        let NodeList { nodes } = self;
        drop(nodes);
    }
}

impl Model for NodeList {
    ghost use Rattle.std.specs.Prelude.{List, ℕ};

    ghost Value = { List ℕ };

    ghost view = { λ l. l.nodes.items };
}

impl NodeList {
    /// The empty list.
    pub fn new(alloc: Global) -> NodeList
        ensures { result ≡ [] }
    {
        NodeList {
            nodes: SmallVec::new(alloc),
        }
    }

    /// The list of one node.
    pub fn of_one(alloc: Global, n: NodeId) -> Result<NodeList, AllocError>
        ensures { IfOk result (λ list. list ≡ n ∷ []) }
    {
        let mut list = NodeList::new(alloc);
        list.push(n)?;
        Ok(list)
    }

    /// A list of its own with the same nodes.
    pub fn copy_of(alloc: Global, nodes: &[NodeId]) -> Result<NodeList, AllocError>
        ensures { IfOk result (λ list. list ≡ nodes.now) }
    {
        let mut list = NodeList::new(alloc);
        list.push_all(nodes)?;
        Ok(list)
    }

    /// How many nodes there are.
    pub fn len(&self) -> usize
        ensures { result ≡ length self.now }
    {
        self.nodes.len()
    }

    /// Whether there is no node.
    pub fn is_empty(&self) -> bool
        ensures { result ≡ (length self.now == 0) }
    {
        self.nodes.is_empty()
    }

    /// The nodes in order, lent.
    pub fn as_slice(&self) -> &[NodeId]
        ensures { result.now ≡ self.now }
    {
        self.nodes.as_slice()
    }

    /// The nodes from the last to the first. They are turned round where they are, so that no memory is taken.
    pub fn reversed(mut self) -> NodeList
        ensures { result ≡ reverse self }
    {
        self.nodes.as_mut_slice().reverse();
        self
    }

    /// Puts the node at the end; without memory the list stays as it was.
    pub fn push(&mut self, n: NodeId) -> Result<(), AllocError>
        ensures pushed { OnOk result (self.new ≡ self.old ++ n ∷ []) }
        ensures unchanged { OnErr result (self.new ≡ self.old) }
    {
        self.nodes.push(n)?;
        Ok(())
    }

    /// Puts the node at the end if it stays; without memory the list stays as it was.
    pub fn push_if(&mut self, n: NodeId, stays: bool) -> Result<(), AllocError>
        ensures pushed { OnOk result (self.new ≡ self.old ++ (if stays then n ∷ [] else [])) }
        ensures unchanged { OnErr result (self.new ≡ self.old) }
    {
        if stays {
            self.push(n)?;
        }
        Ok(())
    }

    /// Puts the nodes at the end in their order; without memory the list stays as it was. Memory is asked for once.
    pub fn push_all(&mut self, nodes: &[NodeId]) -> Result<(), AllocError>
        ensures pushed { OnOk result (self.new ≡ self.old ++ nodes.now) }
        ensures unchanged { OnErr result (self.new ≡ self.old) }
    {
        self.nodes.extend_from_slice(nodes)
    }

    /// Puts the node at a place counted from 0; those from there on move down. Without memory the list stays as it was.
    pub fn insert(&mut self, index: usize, n: NodeId) -> Result<(), AllocError>
        requires { index ≤ length self.old }
        ensures inserted { OnOk result (self.new ≡ take index self.old ++ n ∷ drop index self.old) }
        ensures unchanged { OnErr result (self.new ≡ self.old) }
    {
        self.nodes.insert(index, n)?;
        Ok(())
    }

    /// Drops the node at a place counted from 0; those behind it move up.
    pub fn remove(&mut self, index: usize)
        requires { index < length self.old }
        ensures { self.new ≡ take index self.old ++ drop (suc index) self.old }
    {
        self.nodes.remove(index);
    }
}
