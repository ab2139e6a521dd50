//! A file that is being read, and what it says.

ghost use Rattle.std.specs.Prelude.{◌≡◌, ◌+◌, ◌<◌, ◌≤◌, ◌&&◌, true, codes, find, nat_lt, length, sum_by, IfSome};
ghost use Rattle.std.specs.List.{list_any};
ghost use Rattle.std.specs.Option.{option_copied};
ghost use Rattle.doc_tree.specs.Kinds.{is_element};
ghost use Rattle.doc_tree.specs.limits.TheConstants.{MAX_DEPTH};
ghost use Rattle.doc_tree.specs.Table.{attrs_of, is_live, kids_of, kind_of, value_of};
ghost use Rattle.doc_tree.specs.Walks.{ancestors, below};
ghost use Rattle.sch_rules.specs.Attributes.{is_called, said};
ghost use Rattle.sch_rules.specs.Elements.{document_element};
ghost use Rattle.sch_rules.specs.Words.{schematron};
ghost use Rattle.sch_include.specs.Includes.{is_include};
ghost use Rattle.sch_include.specs.Taking.{text_below};
ghost use Rattle.sch_include.specs.inner.Deep.{is_deep_at};
ghost use Rattle.sch_include.specs.inner.Growing.{own_text};

use doc_tree::{MAX_DEPTH, NodeId, Tree};

/// The namespace of Schematron.
const SCHEMATRON: &str = "http://purl.oclc.org/dsdl/schematron";

/// A file that is being read: its tree, its name, and how many elements stand above its document element.
#[derive(Clone, Copy)]
pub(crate) struct OpenFile<'a> {
    pub(crate) tree: &'a Tree,
    pub(crate) name: &'a str,
    pub(crate) above: usize,
}

/// Whether the node is an element `include` in the namespace of Schematron.
pub(crate) fn is_include(tree: &Tree, n: NodeId) -> bool
    ensures { result ≡ is_include tree.now.nodes n }
{
    tree.is_element(n) && tree.has_name(n, SCHEMATRON, "include")
}

/// The value of the element's attribute `href`, which has no namespace.
pub(crate) fn href(tree: &Tree, n: NodeId) -> Option<&str>
    ensures { option_copied result ≡ said tree.now.nodes n (codes "href") }
{
    match attribute(tree, n, "href") {
        Some(a) => Some(tree.value(a)),
        None => None,
    }
}

/// The element's attribute with this name.
fn attribute(tree: &Tree, n: NodeId, name: &str) -> Option<NodeId>
    ensures { result ≡ find (is_called tree.now.nodes name.now) (attrs_of tree.now.nodes n) }
{
    tree.attrs(n)
        .iter()
        .copied()
        .find(|a| tree.has_name(*a, "", name))
}

/// The first element among the root's kids, and the root where there is none.
pub(crate) fn document_element(tree: &Tree) -> NodeId
    ensures { result ≡ document_element tree.now.nodes }
{
    match first_element(tree) {
        Some(n) => n,
        None => tree.root(),
    }
}

/// The first element among the root's kids.
fn first_element(tree: &Tree) -> Option<NodeId>
    ensures { result ≡ find (λ k. is_element (kind_of tree.now.nodes k)) (kids_of tree.now.nodes 0) }
{
    tree.kids(tree.root())
        .iter()
        .copied()
        .find(|k| tree.is_element(*k))
}

/// How many nodes there are from a node on.
pub(crate) fn count_below(tree: &Tree, n: NodeId) -> usize
    requires { is_live tree.now.nodes n ≡ true }
    ensures { result ≡ length (below tree.now.nodes n) }
{
    tree.laws();
    let mut count = 1 + tree.attrs(n).len();
    for kid in tree.kids(n) {
        count += count_below(tree, *kid);
    }
    count
}

/// How many bytes of text there are from a node on.
pub(crate) fn text_below(tree: &Tree, n: NodeId) -> usize
    requires { is_live tree.now.nodes n ≡ true }
    ensures { result ≡ text_below tree.now.nodes n }
{
    tree.laws();
    let mut bytes = text_at(tree, n);
    for kid in tree.kids(n) {
        bytes += text_below(tree, *kid);
    }
    bytes
}

/// How many bytes of text a node and its attributes have.
fn text_at(tree: &Tree, n: NodeId) -> usize
    requires { is_live tree.now.nodes n ≡ true }
    ensures { result ≡ own_text tree.now.nodes n }
{
    tree.laws();
    let mut bytes = tree.value(n).len();
    for attr in tree.attrs(n) {
        bytes += tree.value(*attr).len();
    }
    bytes
}

/// Whether an element from a node on stands too deep, where so many elements stand above the document element and so many
/// nodes above the node.
pub(crate) fn is_deep_below(tree: &Tree, n: NodeId, depth: usize, above: usize) -> bool
    requires lives { is_live tree.now.nodes n ≡ true }
    requires depth { depth ≡ length (ancestors tree.now.nodes n) }
    requires shallow { above ≤ MAX_DEPTH }
    ensures { result ≡ list_any (is_deep_at tree.now.nodes above) (below tree.now.nodes n) }
{
    tree.laws();
    if tree.is_element(n) && above + depth > MAX_DEPTH as usize {
        return true;
    }
    for kid in tree.kids(n) {
        if is_deep_below(tree, *kid, depth + 1, above) {
            return true;
        }
    }
    false
}
