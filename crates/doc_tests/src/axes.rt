//! Examples of axes, and of unions of node-sets, in one document.

ghost use Rattle.std.specs.Prelude.{◌≡◌, true};
ghost use Rattle.doc_tree.specs.Table.{is_live};

use doc_axes::{axis_nodes, union_in_order};
use doc_tree::{Axis, NodeId, NodeList, Tree};
use name_scopes::load_tree;
use std::alloc::Global;
use std::test::Fail;
use test_rows::{Answers, named, number, parted};

/// The document that the rows are about. They name its nodes by their places in document order: 0 the root, 1 the element a, 2 the
/// first b, 3 its attribute, 4 the element c, and 5 and 6 the elements in it.
const DOCUMENT: &[u8] = b"(a\n(b\nAx 1\n)b\n(c\n(b\n)b\n(b\n)b\n)c\n)a\n";

/// What answers the rows.
#[derive(Drop)]
pub struct Axes {
    pub alloc: Global,
}

/// What a row asks.
#[derive(Clone, Copy)]
enum Question {
    On(Axis),
    Union,
}

/// The questions by the kinds of rows.
const QUESTIONS: [(&str, Question); 13] = [
    ("ancestor", Question::On(Axis::Ancestor)),
    ("ancestor-or-self", Question::On(Axis::AncestorOrSelf)),
    ("attribute", Question::On(Axis::Attribute)),
    ("child", Question::On(Axis::Child)),
    ("descendant", Question::On(Axis::Descendant)),
    ("descendant-or-self", Question::On(Axis::DescendantOrSelf)),
    ("following", Question::On(Axis::Following)),
    ("following-sibling", Question::On(Axis::FollowingSibling)),
    ("parent", Question::On(Axis::Parent)),
    ("preceding", Question::On(Axis::Preceding)),
    ("preceding-sibling", Question::On(Axis::PrecedingSibling)),
    ("self", Question::On(Axis::SelfNode)),
    ("union", Question::Union),
];

impl Answers for Axes {
    fn answer(&mut self, kind: &str, input: &str) -> Result<String, Fail> {
        let question = named(&QUESTIONS, kind)?;
        let tree = load_tree(self.alloc, DOCUMENT)?;
        let answer = answer_in(self.alloc, &tree, question, input);
        drop(tree);
        answer
    }
}

/// The answer to a question about a document.
fn answer_in(alloc: Global, tree: &Tree, question: Question, input: &str) -> Result<String, Fail> {
    let nodes = tree.nodes_in_order(alloc)?;
    let places = Places {
        alloc,
        tree,
        nodes: nodes.as_slice(),
    };
    let answer = match question {
        Question::On(axis) => places.on_axis(axis, input),
        Question::Union => places.union(input),
    };
    drop(nodes);
    answer
}

/// A document, and its nodes in document order.
#[derive(Clone, Copy)]
struct Places<'d> {
    alloc: Global,
    tree: &'d Tree,
    nodes: &'d [NodeId],
}

impl Places<'_> {
    /// The places of the nodes on an axis from the node of a place, in the axis's own order.
    fn on_axis(&self, axis: Axis, place: &str) -> Result<String, Fail> {
        let node = self.node(place)?;
        if !self.tree.contains(node) {
            return Err("the node is gone".into());
        }
        self.told_list(axis_nodes(self.alloc, self.tree, node, axis)?)
    }

    /// The places of the nodes that stand in one of two lists of places.
    fn union(&self, lists: &str) -> Result<String, Fail> {
        let (first, second) = parted(lists, "; ")?;
        let first = self.listed(first)?;
        let told = self.union_with(&first, second);
        drop(first);
        told
    }

    /// The places of the nodes that stand in a list or have one of some places.
    fn union_with(&self, first: &NodeList, second: &str) -> Result<String, Fail> {
        let second = self.listed(second)?;
        let found = union_in_order(self.alloc, self.tree, first, &second);
        drop(second);
        self.told_list(found?)
    }

    /// The places of the nodes of a list.
    fn told_list(&self, found: NodeList) -> Result<String, Fail> {
        let told = self.told(found.as_slice());
        drop(found);
        told
    }

    /// The node of a place.
    fn node(&self, place: &str) -> Result<NodeId, Fail> {
        let node = self
            .nodes
            .get(number(place)?)
            .ok_or("no node has that place")?;
        Ok(*node)
    }

    /// The nodes of some places.
    fn listed(&self, places: &str) -> Result<NodeList, Fail> {
        let mut list = NodeList::new(self.alloc);
        match self.append(&mut list, places) {
            Ok(()) => Ok(list),
            Err(fail) => {
                drop(list);
                Err(fail)
            }
        }
    }

    /// Appends the nodes of some places to a list.
    fn append(&self, list: &mut NodeList, places: &str) -> Result<(), Fail> {
        for place in places.split(' ') {
            list.push(self.node(place)?)?;
        }
        Ok(())
    }

    /// The places of some nodes.
    fn told(&self, found: &[NodeId]) -> Result<String, Fail> {
        let mut text = String::new(self.alloc);
        for node in found {
            if !text.is_empty() {
                text.push(' ')?;
            }
            self.append_place(&mut text, *node)?;
        }
        Ok(text)
    }

    /// Appends the place of a node.
    fn append_place(&self, text: &mut String, node: NodeId) -> Result<(), Fail> {
        match self.nodes.iter().position(|found| *found == node) {
            Some(place) => Ok(write!(text, "{place}")?),
            None => Err("the node is gone".into()),
        }
    }
}
