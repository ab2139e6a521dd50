//! A document with names for its nodes, and what is asked about it.

use crate::asking::{Asked, ask};
use crate::scene::Scene;
use crate::text_asking::ask_text;
use doc_tree::{MAX_LIVE_TEXT_BYTES, NodeId, NodeList, Tree};
use name_scopes::load_tree;
use std::alloc::Global;
use std::mem::replace;
use std::test::Fail;
use test_rows::{Answers, copy, first_word, named, place_of, put_words, repeated};
use xp_eval::Lets;
use xp_values::Value;

/// A document, the names of its nodes, which stand apart by spaces, these nodes, and the value of the variable x.
#[derive(Drop)]
pub struct Sample {
    alloc: Global,
    tree: Tree,
    nodes: NodeList,
    lets: Lets,
    names: String,
}

/// What a row sets or asks, by the first word of its kind.
#[derive(Clone, Copy)]
enum Question {
    Document,
    Variable,
    Text,
    OfNode(Asked),
    OfAll(Asked),
}

/// The questions by their words.
const QUESTIONS: [(&str, Question); 8] = [
    ("document", Question::Document),
    ("variable", Question::Variable),
    ("text", Question::Text),
    (
        "value",
        Question::OfNode(Asked {
            is_value: true,
            with_run: false,
        }),
    ),
    (
        "value-run",
        Question::OfNode(Asked {
            is_value: true,
            with_run: true,
        }),
    ),
    (
        "match",
        Question::OfNode(Asked {
            is_value: false,
            with_run: false,
        }),
    ),
    (
        "match-run",
        Question::OfNode(Asked {
            is_value: false,
            with_run: true,
        }),
    ),
    (
        "nodes",
        Question::OfAll(Asked {
            is_value: false,
            with_run: false,
        }),
    ),
];

impl Answers for Sample {
    /// A `document` with its nodes' names and the node of a `variable` are what later rows are about; all but a `text` is asked of nodes.
    fn answer(&mut self, kind: &str, input: &str) -> Result<String, Fail> {
        let (word, name) = first_word(kind);
        match named(&QUESTIONS, word)? {
            Question::Document => self.set_document(name, input),
            Question::Variable => self.set_variable(input),
            Question::Text => ask_text(self.alloc, name, input),
            Question::OfNode(asked) => self.ask_node(asked, name, input),
            Question::OfAll(asked) => self.ask_all(asked, input),
        }
    }
}

impl Sample {
    /// The document of some lines, with the names of its nodes.
    pub fn of(alloc: Global, names: &str, lines: &[u8]) -> Result<Sample, Fail> {
        if lines.len() > MAX_LIVE_TEXT_BYTES {
            return Err("the document is too large".into());
        }
        let names = copy(alloc, names)?;
        match load_tree(alloc, lines) {
            Ok(tree) => Ok(Sample {
                alloc,
                tree,
                nodes: NodeList::new(alloc),
                lets: Lets::new(alloc),
                names,
            }),
            Err(error) => {
                drop(names);
                Err(error.into())
            }
        }
    }

    /// The document's root.
    pub fn root(&self) -> NodeId {
        self.tree.root()
    }

    /// Takes the document of some lines, repeated as they say, with the names of its nodes; answers how many nodes there are.
    fn set_document(&mut self, names: &str, lines: &str) -> Result<String, Fail> {
        let lines = repeated(self.alloc, lines)?;
        let sample = Sample::of(self.alloc, names, lines.as_bytes());
        drop(lines);
        drop(replace(self, sample?));
        self.nodes = self.tree.nodes_in_order(self.alloc)?;
        self.size()
    }

    /// How many nodes there are.
    fn size(&self) -> Result<String, Fail> {
        Ok(format!(in self.alloc; "{} nodes", self.tree.live_nodes())?)
    }

    /// The node with a name; that without one is the root.
    fn node(&self, name: &str) -> Result<NodeId, Fail> {
        if name.is_empty() {
            return Ok(self.tree.root());
        }
        let place = place_of(name, self.names.as_str())?;
        let node = self.nodes.as_slice().get(place);
        Ok(*node.ok_or("no node has that name")?)
    }

    /// Gives the variable x the node with a name.
    fn set_variable(&mut self, name: &str) -> Result<String, Fail> {
        let nodes = NodeList::of_one(self.alloc, self.node(name)?)?;
        self.lets.set(0, Ok(Value::NodeSet(nodes)))?;
        self.size()
    }

    /// The answer to a question about the node with a name.
    fn ask_node(&self, asked: Asked, name: &str, text: &str) -> Result<String, Fail> {
        let node = self.node(name)?;
        self.told(asked, &[node], text)
    }

    /// The answer to a question about all nodes.
    fn ask_all(&self, asked: Asked, text: &str) -> Result<String, Fail> {
        let nodes = self.tree.nodes_in_order(self.alloc)?;
        let told = self.told(asked, nodes.as_slice(), text);
        drop(nodes);
        told
    }

    /// The answer to a question about some nodes, with the names of nodes in place of their numbers.
    fn told(&self, asked: Asked, nodes: &[NodeId], text: &str) -> Result<String, Fail> {
        let scene = Scene {
            alloc: self.alloc,
            tree: &self.tree,
            lets: &self.lets,
        };
        let mut told = ask(&scene, asked, nodes, text)?;
        match self.put_names(&mut told) {
            Ok(()) => Ok(told),
            Err(fail) => {
                drop(told);
                Err(fail)
            }
        }
    }

    /// Puts the names of nodes in place of their numbers.
    fn put_names(&self, text: &mut String) -> Result<(), Fail> {
        put_words(self.alloc, text, self.nodes.as_slice(), self.names.as_str())
    }
}
