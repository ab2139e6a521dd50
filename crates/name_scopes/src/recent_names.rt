//! The numbers of names that came lately.

ghost use Rattle.std.specs.Prelude.{◌≡◌, ◌<◌, true, is_none, IfOk, IfSome, MatchOption};
ghost use Rattle.std.specs.Str.{bytes_eq};
ghost use Rattle.doc_tree.specs.Numbering.{Numbered};
ghost use Rattle.doc_tree.specs.Scope.{namespace_in};
ghost use Rattle.name_scopes.specs.QNames.{prefix_part};
ghost use Rattle.name_scopes.specs.inner.Build.{IsNamed};

use crate::qnames::{QName, split};
use crate::scope::Scope;
use doc_tree::{NameId, NodeId, Tree};
use std::alloc::AllocError;

/// How many nodes are kept, and how many prefixes of a scope.
pub(crate) const SLOTS: usize = 64;

/// Nodes that came lately, each in the slot of its name: where a name comes again, its number is found by comparing it
/// with that of the node, which costs less than asking the table of names.
#[derive(Drop)]
pub(crate) struct RecentNames {
    pub(crate) nodes: [NodeId; SLOTS],
}

impl RecentNames {
    /// No name came yet; the root has none.
    pub(crate) fn new(root: NodeId) -> RecentNames {
        RecentNames {
            nodes: [root; SLOTS],
        }
    }

    /// The number of an element's name, by the declarations in scope; None where its prefix isn't in scope.
    pub(crate) fn element(
        &self,
        tree: &mut Tree,
        scope: &Scope,
        name: &str,
    ) -> Result<Option<NameId>, AllocError>
        ensures named { IfOk result (λ found. MatchOption found (is_none (namespace_in scope.now (prefix_part name.now)) ≡ true) (IsNamed tree.new.names scope.now name.now)) }
        ensures nodes { tree.new.nodes ≡ tree.old.nodes }
    {
        let parts = split(name);
        match scope.namespace(parts.prefix) {
            Some(uri) => Ok(Some(self.number(tree, name, parts, uri)?)),
            None => Ok(None),
        }
    }

    /// The number of the name that a QName in two parts is in a namespace.
    pub(crate) fn number(
        &self,
        tree: &mut Tree,
        name: &str,
        parts: QName,
        uri: &str,
    ) -> Result<NameId, AllocError>
        ensures numbered { IfOk result (λ id. Numbered tree.old.names tree.new.names (record { prefix = parts.entry.prefix.now; local = parts.entry.local.now; uri = uri.now }) id) }
        ensures nodes { tree.new.nodes ≡ tree.old.nodes }
    {
        let node = self.nodes[slot(name)];
        if let Some(id) = number_at(tree, node, parts, uri) {
            return Ok(id);
        }
        tree.name_id(parts.prefix, parts.local, uri)
    }

    /// Keeps a node whose name has this QName.
    pub(crate) fn note(&mut self, name: &str, node: NodeId) {
        self.nodes[slot(name)] = node;
    }
}

/// The number of a node's name, where it is this name.
fn number_at(tree: &Tree, node: NodeId, name: QName, uri: &str) -> Option<NameId>
    ensures { IfSome result (λ id. Numbered tree.now.names tree.now.names (record { prefix = name.entry.prefix.now; local = name.entry.local.now; uri = uri.now }) id) }
{
    let id = tree.name(node)?;
    if is_same(tree.local_of(id), name.local)
        && is_same(tree.prefix_of(id), name.prefix)
        && is_same(tree.uri_of(id), uri)
    {
        return Some(id);
    }
    None
}

/// Whether two texts are the same. Most prefixes and many namespaces are empty, and cost no comparison of bytes.
fn is_same(a: &str, b: &str) -> bool
    ensures { result ≡ bytes_eq a.now b.now }
{
    if a.is_empty() {
        return b.is_empty();
    }
    a == b
}

/// The slot of a QName or of a prefix, by its length and its last byte.
pub(crate) fn slot(name: &str) -> usize
    ensures { result < SLOTS }
{
    let bytes = name.as_bytes();
    match bytes.last() {
        Some(last) => bytes.len() % 4 * 16 + usize::from(*last) % 16,
        None => 0,
    }
}
