//! What a node test says of names, kept while nodes are tested one after another (XPath 1.0, section 2.3).

ghost use Rattle.std.specs.Prelude.{◌≡◌, ◌<◌, ◌≤◌, ℕ, List, Some, false, length, take, true};
ghost use Rattle.doc_tree.specs.Lists.{mem};
ghost use Rattle.doc_tree.specs.Table.{Name, is_live, kind_of, name_of, numbered};
ghost use Rattle.doc_tree.specs.declared.axes.NodeTest.{NodeTest as AnyTest};
ghost use Rattle.doc_axes.specs.NodeTests.{is_principal, named, passes};
ghost use Rattle.doc_axes.specs.Judging.{IsJudged, accepts};

use crate::node_test::{is_principal, passes};
use doc_tree::{Axis, NameId, NodeId, NodeTest, Tree};

/// Of a test that looks at names, the name that it accepted last, and the one that it refused last. Nodes beside one another often have few
/// names, whose numbers are compared at once.
#[derive(Clone, Copy)]
pub struct Judged {
    pub(crate) accepted: Option<NameId>,
    pub(crate) refused: Option<NameId>,
}

impl Judged {
    /// Nothing is known of any name.
    pub fn nothing() -> Judged
        ensures { (names : List Name) (node_test : AnyTest) → IsJudged names node_test result }
    {
        Judged {
            accepted: None,
            refused: None,
        }
    }
}

/// `passes`, by what is known of the names that the test accepts; one more may be known then. Most nodes cost one comparison of numbers.
pub fn passes_by(tree: &Tree, n: NodeId, axis: Axis, test: &NodeTest, judged: &mut Judged) -> bool
    requires live { is_live tree.now.nodes n ≡ true }
    requires judged { IsJudged tree.now.names test.now judged.old }
    ensures passes { result ≡ passes tree.now.nodes axis test.now n }
    ensures judged { IsJudged tree.now.names test.now judged.new }
{
    is_accepted(tree, n, axis, judged) || passes_anew(tree, n, axis, test, judged)
}

/// Whether a live node is of the axis's principal kind and has the name that was accepted last.
fn is_accepted(tree: &Tree, n: NodeId, axis: Axis, judged: &Judged) -> bool
    requires { is_live tree.now.nodes n ≡ true }
    ensures { (node_test : AnyTest) → IsJudged tree.now.names node_test judged.now → result ≡ true → passes tree.now.nodes axis node_test n ≡ true }
{
    match judged.accepted {
        Some(accepted) => is_same(tree.name(n), accepted) && is_principal(axis, tree.kind(n)),
        None => false,
    }
}

/// How many of some nodes stand before the first that isn't of the axis's principal kind with the name that was accepted last. One look at each; none
/// of attributes, which are few.
pub(crate) fn accepted_in_front(tree: &Tree, axis: Axis, nodes: &[NodeId], judged: &Judged) -> usize
    ensures within { result ≤ length nodes.now }
    ensures accepted { (node_test : AnyTest) → IsJudged tree.now.names node_test judged.now →
        (n : ℕ) → mem n (take result nodes.now) ≡ true → passes tree.now.nodes axis node_test n ≡ true }
{
    match judged.accepted {
        Some(accepted) => named_in_front(tree, axis, nodes, accepted),
        None => 0,
    }
}

/// The same for the name that has this number.
fn named_in_front(tree: &Tree, axis: Axis, nodes: &[NodeId], name: NameId) -> usize
    ensures within { result ≤ length nodes.now }
    ensures principal { (n : ℕ) → mem n (take result nodes.now) ≡ true → is_principal axis (kind_of tree.now.nodes n) ≡ true }
    ensures named { (n : ℕ) → mem n (take result nodes.now) ≡ true → name_of tree.now.nodes n ≡ Some (numbered tree.now.names name) }
{
    match axis {
        Axis::Attribute => 0,
        _ => tree.elements_named(nodes, name),
    }
}

/// `passes_by` by a look at the node's kind and name.
fn passes_anew(tree: &Tree, n: NodeId, axis: Axis, test: &NodeTest, judged: &mut Judged) -> bool
    requires live { is_live tree.now.nodes n ≡ true }
    requires judged { IsJudged tree.now.names test.now judged.old }
    ensures passes { result ≡ passes tree.now.nodes axis test.now n }
    ensures judged { IsJudged tree.now.names test.now judged.new }
{
    match test {
        NodeTest::InNamespace { .. } | NodeTest::Named { .. } => {
            is_principal(axis, tree.kind(n)) && has_accepted(tree, n, test, judged)
        }
        _ => passes(tree, n, axis, test),
    }
}

/// Whether the node has a name that the test accepts.
fn has_accepted(tree: &Tree, n: NodeId, test: &NodeTest, judged: &mut Judged) -> bool
    requires { IsJudged tree.now.names test.now judged.old }
    ensures accepts { result ≡ named (name_of tree.now.nodes n) (accepts test.now) }
    ensures judged { IsJudged tree.now.names test.now judged.new }
{
    match tree.name(n) {
        Some(name) => judge(tree, name, test, judged),
        None => false,
    }
}

/// Whether the test accepts the name with this number.
fn judge(tree: &Tree, name: NameId, test: &NodeTest, judged: &mut Judged) -> bool
    requires known { name < length tree.now.names }
    requires judged { IsJudged tree.now.names test.now judged.old }
    ensures accepts { result ≡ accepts test.now (numbered tree.now.names name) }
    ensures judged { IsJudged tree.now.names test.now judged.new }
{
    if is_same(judged.accepted, name) {
        return true;
    }
    if is_same(judged.refused, name) {
        return false;
    }
    let accepted = accepts(tree, name, test);
    if accepted {
        judged.accepted = Some(name);
    } else {
        judged.refused = Some(name);
    }
    accepted
}

/// Whether a name that may be known has this number.
fn is_same(known: Option<NameId>, name: NameId) -> bool
    ensures { result ≡ true → known ≡ Some name }
{
    match known {
        Some(number) => number == name,
        None => false,
    }
}

/// Whether the test accepts the name with this number, by its texts. The local parts are compared first: names differ in them more often than in
/// the namespace.
fn accepts(tree: &Tree, name: NameId, test: &NodeTest) -> bool
    requires { name < length tree.now.names }
    ensures { result ≡ accepts test.now (numbered tree.now.names name) }
{
    match test {
        NodeTest::InNamespace { uri } => tree.uri_of(name) == uri.as_str(),
        NodeTest::Named { uri, local } => {
            tree.local_of(name) == local.as_str() && tree.uri_of(name) == uri.as_str()
        }
        _ => false,
    }
}
