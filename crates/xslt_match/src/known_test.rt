//! What is known of the names that a node test accepts, kept while all nodes of a tree are tested (XPath 1.0, section 2.3).

ghost use Rattle.std.specs.Prelude.{◌≡◌, ◌<◌, ◌&&◌, List, IfSome, true};
ghost use Rattle.doc_tree.specs.Table.{Name, is_live, kind_of, name_of};
ghost use Rattle.doc_tree.specs.declared.axes.Axis.{Axis as AnyAxis};
ghost use Rattle.doc_tree.specs.declared.axes.NodeTest.{NodeTest as AnyTest};
ghost use Rattle.doc_axes.specs.Judging.{accepts};
ghost use Rattle.doc_axes.specs.NodeTests.{is_principal, named, passes};
ghost use Rattle.xp_meaning.specs.Reads.{is_by_name};
ghost use Rattle.xslt_match.specs.KnownTests.{IsKnownName, IsKnownTest};

use doc_axes::{is_principal, passes};
use doc_tree::{Axis, NameId, NodeId, NodeTest, Tree};
use xp_eval::is_by_name;

/// How many names are kept.
const SLOTS: usize = 16;

/// Whether a test accepts the name with this number.
#[derive(Clone, Copy)]
pub(crate) struct KnownName {
    pub(crate) number: usize,
    pub(crate) accepted: bool,
}

/// Of a test that looks at names, which it accepts of those that it judged: in each slot the newest of the names whose numbers have it.
/// The names of a document's elements are few, and those first used together have numbers near one another: so most nodes cost one comparison of numbers.
#[derive(Clone, Copy)]
pub(crate) struct KnownTest {
    pub(crate) names: [Option<KnownName>; SLOTS],
}

impl KnownTest {
    /// Nothing is known of any name.
    pub(crate) fn nothing() -> KnownTest
        ensures { (names : List Name) (node_test : AnyTest) → IsKnownTest names node_test result }
    {
        KnownTest {
            names: [None; SLOTS],
        }
    }

    /// Whether a live node on an axis passes the test, by what is known of its name; it is known then.
    pub(crate) fn passes(&mut self, tree: &Tree, n: NodeId, axis: Axis, test: &NodeTest) -> bool
        requires live { is_live tree.now.nodes n ≡ true }
        requires known { IsKnownTest tree.now.names test.now self.old }
        ensures passes { result ≡ passes tree.now.nodes axis test.now n }
        ensures known { IsKnownTest tree.now.names test.now self.new }
    {
        match self.accepts_at(tree, n) {
            Some(accepted) => is_principal(axis, tree.kind(n)) && accepted,
            None => self.passes_anew(tree, n, axis, test),
        }
    }

    /// Whether the test accepts the node's name, where that is known.
    fn accepts_at(&self, tree: &Tree, n: NodeId) -> Option<bool>
        ensures { (node_test : AnyTest) (axis : AnyAxis) → IsKnownTest tree.now.names node_test self.now →
            IfSome result (λ accepted. passes tree.now.nodes axis node_test n ≡ (is_principal axis (kind_of tree.now.nodes n) && accepted)) }
    {
        self.known(tree.name(n)?)
    }

    /// Whether the test accepts the name with this number, where that is known.
    fn known(&self, name: NameId) -> Option<bool>
        ensures { (names : List Name) (node_test : AnyTest) → IsKnownTest names node_test self.now →
            IfSome result (λ accepted. IsKnownName names node_test (record { number = name; accepted = accepted })) }
    {
        let known = self.names[slot(name)]?;
        if known.number != name.index() {
            return None;
        }
        Some(known.accepted)
    }

    /// Whether a live node passes the test, by a look at its name, which is known then.
    fn passes_anew(&mut self, tree: &Tree, n: NodeId, axis: Axis, test: &NodeTest) -> bool
        requires live { is_live tree.now.nodes n ≡ true }
        requires known { IsKnownTest tree.now.names test.now self.old }
        ensures passes { result ≡ passes tree.now.nodes axis test.now n }
        ensures known { IsKnownTest tree.now.names test.now self.new }
    {
        let accepted = passes(tree, n, axis, test);
        if is_by_name(test) && is_principal(axis, tree.kind(n)) {
            self.keep_at(tree, n, accepted);
        }
        accepted
    }

    /// Keeps whether the test accepts the node's name.
    fn keep_at(&mut self, tree: &Tree, n: NodeId, accepted: bool)
        ensures { (node_test : AnyTest) → IsKnownTest tree.now.names node_test self.old → is_by_name node_test ≡ true →
            named (name_of tree.now.nodes n) (accepts node_test) ≡ accepted → IsKnownTest tree.now.names node_test self.new }
    {
        if let Some(name) = tree.name(n) {
            self.keep(name, accepted);
        }
    }

    /// Keeps whether the test accepts the name with this number.
    fn keep(&mut self, name: NameId, accepted: bool)
        ensures { (names : List Name) (node_test : AnyTest) → IsKnownTest names node_test self.old →
            IsKnownName names node_test (record { number = name; accepted = accepted }) → IsKnownTest names node_test self.new }
    {
        self.names[slot(name)] = Some(KnownName {
            number: name.index(),
            accepted,
        });
    }
}

/// The slot of a name.
fn slot(name: NameId) -> usize
    ensures { result < SLOTS }
{
    name.index() % SLOTS
}
