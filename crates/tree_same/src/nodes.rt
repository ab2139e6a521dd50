//! Whether two nodes have the same content, each in its own tree.

ghost use Rattle.std.specs.Prelude.{◌≡◌, ◌<◌, ◌↔◌, true, length};
ghost use Rattle.doc_names.specs.Name.{numbered};
ghost use Rattle.doc_tree.specs.Scope.{decl_at};
ghost use Rattle.doc_tree.specs.Table.{content_of, decls_of, name_of};

use doc_tree::{NameId, NodeId, Tree};

/// Whether two nodes agree in kind, name with prefix, declarations and text.
pub fn same_content(a: &Tree, n: NodeId, b: &Tree, m: NodeId) -> bool
    ensures { (result ≡ true) ↔ (content_of b.now.nodes m ≡ content_of a.now.nodes n) }
{
    a.kind_of(n) == b.kind_of(m)
        && a.value(n) == b.value(m)
        && same_name(a, n, b, m)
        && same_decls(a, n, b, m)
}

/// Whether two nodes have the same name with the same prefix, or none.
fn same_name(a: &Tree, n: NodeId, b: &Tree, m: NodeId) -> bool
    ensures { (result ≡ true) ↔ (name_of b.now.nodes m ≡ name_of a.now.nodes n) }
{
    match (a.name(n), b.name(m)) {
        (Some(name), Some(other)) => same_parts(a, name, b, other),
        (None, None) => true,
        _ => false,
    }
}

/// Whether two names have the same prefix, local part and namespace.
fn same_parts(a: &Tree, name: NameId, b: &Tree, other: NameId) -> bool
    requires here { name < length a.now.names }
    requires there { other < length b.now.names }
    ensures { (result ≡ true) ↔ (numbered b.now.names other ≡ numbered a.now.names name) }
{
    a.prefix_of(name) == b.prefix_of(other)
        && a.local_of(name) == b.local_of(other)
        && a.uri_of(name) == b.uri_of(other)
}

/// Whether two nodes have the same declarations.
fn same_decls(a: &Tree, n: NodeId, b: &Tree, m: NodeId) -> bool
    ensures { (result ≡ true) ↔ (decls_of b.now.nodes m ≡ decls_of a.now.nodes n) }
{
    let count = a.decl_count(n);
    if b.decl_count(m) != count {
        return false;
    }
    for i in 0..count {
        if !same_decl(a, n, b, m, i) {
            return false;
        }
    }
    true
}

/// Whether the declarations with a number, counted from 0, are the same.
fn same_decl(a: &Tree, n: NodeId, b: &Tree, m: NodeId, i: usize) -> bool
    ensures { (result ≡ true) ↔ (decl_at (decls_of b.now.nodes m) i ≡ decl_at (decls_of a.now.nodes n) i) }
{
    a.decl_prefix(n, i) == b.decl_prefix(m, i) && a.decl_uri(n, i) == b.decl_uri(m, i)
}
