//! Examples of trees, and of documents that are loaded and written.

use crate::tree_texts::{places, size, told_nodes, written};
use doc_tree::{MAX_LIVE_TEXT_BYTES, NewNode, Tree};
use name_scopes::load_tree;
use std::alloc::Global;
use std::test::Fail;
use test_rows::{Answers, named, parted, parts, repeated, shown};

/// What answers the rows; a tree keeps its names for the rows after them.
#[derive(Drop)]
pub struct Trees {
    alloc: Global,
    tree: Tree,
}

/// What a row asks of the tree, of an element, or of a document.
#[derive(Clone, Copy)]
enum Question {
    Name,
    Nodes,
    FirstNode,
    Of(Asked),
}

/// What a row asks of a document, unless it has a fault.
#[derive(Clone, Copy)]
enum Asked {
    Size,
    Written { room: usize },
    Places,
    Nodes,
    Strings,
}

/// The questions by the kinds of rows; a fault is asked like the nodes.
const QUESTIONS: [(&str, Question); 10] = [
    ("tree name", Question::Name),
    ("nodes without", Question::Nodes),
    ("first node", Question::FirstNode),
    ("size", Question::Of(Asked::Size)),
    ("written", Question::Of(Asked::Written { room: 200 })),
    ("narrow", Question::Of(Asked::Written { room: 5 })),
    ("places", Question::Of(Asked::Places)),
    ("document", Question::Of(Asked::Nodes)),
    ("fault", Question::Of(Asked::Nodes)),
    ("string values", Question::Of(Asked::Strings)),
];

impl Answers for Trees {
    fn answer(&mut self, kind: &str, input: &str) -> Result<String, Fail> {
        match named(&QUESTIONS, kind)? {
            Question::Name => self.name(input),
            Question::Nodes => self.nodes(),
            Question::FirstNode => first_kind(self.alloc, input),
            Question::Of(asked) => answer_of_repeated(self.alloc, asked, input),
        }
    }
}

impl Trees {
    /// A tree of its root alone.
    pub fn new(alloc: Global) -> Result<Trees, Fail> {
        let tree = Tree::new(alloc)?;
        Ok(Trees { alloc, tree })
    }

    /// The number of a name, whose prefix stands before a colon.
    fn name(&mut self, name: &str) -> Result<String, Fail> {
        let (prefix, local) = parted(name, ":")?;
        let name = self.tree.name_id(prefix, local, "u")?;
        shown(self.alloc, &name.index())
    }

    /// The nodes of the tree.
    fn nodes(&self) -> Result<String, Fail> {
        let nodes = self.tree.nodes_in_order(self.alloc)?;
        parts(self.alloc, &nodes)
    }
}

/// The kind of the first element that is put under a root.
fn first_kind(alloc: Global, name: &str) -> Result<String, Fail> {
    let mut tree = Tree::new(alloc)?;
    let name = tree.name_id("", name, "")?;
    let n = tree.append_node(tree.root(), NewNode::Element(name))?;
    let kind = parts(alloc, &tree.kind_of(n));
    drop(tree);
    kind
}

/// What is asked of the document that a text of repeated parts stands for.
fn answer_of_repeated(alloc: Global, asked: Asked, input: &str) -> Result<String, Fail> {
    let document = repeated(alloc, input)?;
    let answer = answer_of(alloc, asked, document.as_str());
    drop(document);
    answer
}

/// What is asked of a document, or its first fault.
fn answer_of(alloc: Global, asked: Asked, document: &str) -> Result<String, Fail> {
    if document.len() > MAX_LIVE_TEXT_BYTES {
        return Err("the document is too long".into());
    }
    match load_tree(alloc, document.as_bytes()) {
        Ok(tree) => {
            let answer = answer_of_tree(alloc, asked, &tree);
            drop(tree);
            answer
        }
        Err(error) => shown(alloc, &error),
    }
}

/// What is asked of the tree of a document.
fn answer_of_tree(alloc: Global, asked: Asked, tree: &Tree) -> Result<String, Fail> {
    match asked {
        Asked::Size => size(alloc, tree),
        Asked::Written { room } => written(alloc, tree, room),
        Asked::Places => places(alloc, tree),
        Asked::Nodes => told_nodes(alloc, tree, false),
        Asked::Strings => told_nodes(alloc, tree, true),
    }
}
