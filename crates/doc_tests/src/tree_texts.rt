//! What is told of a tree: its nodes, their string-values, their order, and its document.

use crate::writings::ended;
use doc_tree::{NodeId, Tree};
use name_scopes::write_tree;
use sch_io::MemorySink;
use std::alloc::Global;
use std::test::Fail;
use test_rows::{copy, shown};

/// How many nodes a tree has.
pub fn size(alloc: Global, tree: &Tree) -> Result<String, Fail> {
    shown(alloc, &tree.live_nodes())
}

/// The nodes of a tree in document order, or their string-values.
pub fn told_nodes(alloc: Global, tree: &Tree, are_strings: bool) -> Result<String, Fail> {
    let nodes = tree.nodes_in_order(alloc)?;
    let told = told_each(alloc, tree, nodes.as_slice(), are_strings);
    drop(nodes);
    told
}

/// Some nodes of a tree, or their string-values.
fn told_each(
    alloc: Global,
    tree: &Tree,
    nodes: &[NodeId],
    are_strings: bool,
) -> Result<String, Fail> {
    let mut text = String::new(alloc);
    for n in nodes {
        if !text.is_empty() {
            text.push_str("; ")?;
        }
        append_node(alloc, &mut text, tree, *n, are_strings)?;
    }
    Ok(text)
}

/// Appends a node, or its string-value.
fn append_node(
    alloc: Global,
    text: &mut String,
    tree: &Tree,
    n: NodeId,
    is_string: bool,
) -> Result<(), Fail> {
    let told = if is_string {
        string_of(alloc, tree, n)?
    } else {
        node_of(alloc, tree, n)?
    };
    let done = text.push_str(told.as_str());
    drop(told);
    Ok(done?)
}

/// The string-value of a node.
fn string_of(alloc: Global, tree: &Tree, n: NodeId) -> Result<String, Fail> {
    let value = tree.string_value(alloc, n)?;
    copy(alloc, value.as_str())
}

/// A node: its namespace and its local part where it has a name, and the value.
fn node_of(alloc: Global, tree: &Tree, n: NodeId) -> Result<String, Fail> {
    let value = tree.value(n);
    match tree.name(n) {
        Some(name) => named_node(alloc, tree.uri_of(name), tree.local_of(name), value),
        None => Ok(format!(in alloc; "={value}")?),
    }
}

/// A node with a name: its namespace, its local part, and the value.
fn named_node(alloc: Global, uri: &str, local: &str, value: &str) -> Result<String, Fail> {
    Ok(format!(in alloc; "{{{uri}}}{local}={value}")?)
}

/// A line for each node of a tree, in which `<` stands for each node that it comes before.
pub fn places(alloc: Global, tree: &Tree) -> Result<String, Fail> {
    let nodes = tree.nodes_in_order(alloc)?;
    let signs = signs_of(alloc, tree, nodes.as_slice());
    drop(nodes);
    signs
}

/// A line for each of some nodes, in which `<` stands for each of them that it comes before.
fn signs_of(alloc: Global, tree: &Tree, nodes: &[NodeId]) -> Result<String, Fail> {
    let mut signs = String::new(alloc);
    for n in nodes {
        append_signs(&mut signs, tree, *n, nodes)?;
    }
    Ok(signs)
}

/// Appends a line, in which `<` stands for each of some nodes that a node comes before.
fn append_signs(signs: &mut String, tree: &Tree, n: NodeId, nodes: &[NodeId]) -> Result<(), Fail> {
    for other in nodes {
        let before = tree.contains(n) && tree.contains(*other) && tree.is_before(n, *other);
        signs.push(if before { '<' } else { '.' })?;
    }
    Ok(signs.push('\n')?)
}

/// What is written of a tree to a sink with so much room.
pub fn written(alloc: Global, tree: &Tree, room: usize) -> Result<String, Fail> {
    let mut sink = MemorySink::with_room(alloc, room)?;
    let done = write_tree(tree, &mut sink);
    let written = ended(alloc, sink.written(), done);
    drop(sink);
    written
}
