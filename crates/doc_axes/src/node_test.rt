//! Node tests (XPath 1.0, section 2.3).

ghost use Rattle.std.specs.Prelude.{◌≡◌, Option, true, Some, bytes_eq};
ghost use Rattle.doc_tree.specs.Kinds.{is_kind};
ghost use Rattle.doc_tree.specs.Table.{is_live, name_of};
ghost use Rattle.doc_axes.specs.NodeTests.{passes, is_principal, named};

use doc_tree::{Axis, Kind, NodeId, NodeTest, Tree};

/// Whether a live node on an axis passes a node test: `*` and names test the axis's principal kind, attributes on the
/// attribute axis and else elements.
pub fn passes(tree: &Tree, n: NodeId, axis: Axis, test: &NodeTest) -> bool
    requires { is_live tree.now.nodes n ≡ true }
    ensures { result ≡ passes tree.now.nodes axis test.now n }
{
    let kind = tree.kind(n);
    match test {
        NodeTest::Any => true,
        NodeTest::Star => is_principal(axis, kind),
        NodeTest::InNamespace { uri } => is_principal(axis, kind) && has_uri(tree, n, uri.as_str()),
        NodeTest::Named { uri, local } => {
            is_principal(axis, kind) && tree.has_name(n, uri.as_str(), local.as_str())
        }
        NodeTest::Text => kind == Kind::Text,
        NodeTest::Comment => kind == Kind::Comment,
        NodeTest::Pi => kind == Kind::Pi,
        NodeTest::PiNamed { target } => kind == Kind::Pi && has_local(tree, n, target.as_str()),
    }
}

/// Whether the kind is the one that names test on the axis: its principal kind (XPath 1.0, section 2.3).
pub fn is_principal(axis: Axis, kind: Kind) -> bool
    ensures { result ≡ is_principal axis (Some kind) }
{
    kind == principal_kind(axis)
}

/// The kind that names test on the axis: its principal kind (XPath 1.0, section 2.3).
pub fn principal_kind(axis: Axis) -> Kind
    ensures { (kind : Option Kind) → is_kind result kind ≡ is_principal axis kind }
{
    match axis {
        Axis::Attribute => Kind::Attribute,
        _ => Kind::Element,
    }
}

/// Whether the node has a name in the namespace.
fn has_uri(tree: &Tree, n: NodeId, uri: &str) -> bool
    ensures { result ≡ named (name_of tree.now.nodes n) (λ name. bytes_eq name.uri uri.now) }
{
    match tree.name(n) {
        Some(name) => tree.uri_of(name) == uri,
        None => false,
    }
}

/// Whether the node has a name with this local part.
fn has_local(tree: &Tree, n: NodeId, local: &str) -> bool
    ensures { result ≡ named (name_of tree.now.nodes n) (λ name. bytes_eq name.local local.now) }
{
    match tree.name(n) {
        Some(name) => tree.local_of(name) == local,
        None => false,
    }
}
