//! Copies of single nodes at the end of a tree that grows.

ghost use Rattle.std.specs.Prelude.{◌≡◌, ◌<◌, ◌≤◌, ◌+◌, [], ◌++◌, ℕ, List, suc, true, false, length, is_some, sum_by, map, Some, None, Ok, IfOk, OnOk};
ghost use Rattle.std.specs.List.{flat_map};
ghost use Rattle.doc_tree.specs.Growth.{AttributeFits, Grew};
ghost use Rattle.doc_tree.specs.Kinds.{is_element};
ghost use Rattle.doc_tree.specs.kind.Kind.TheVariants.{Attribute, Element};
ghost use Rattle.doc_tree.specs.limits.TheConstants.{MAX_DEPTH, MAX_LIVE_NODES, MAX_LIVE_TEXT_BYTES};
ghost use Rattle.doc_tree.specs.Lines.{Line, declares, opens};
ghost use Rattle.doc_tree.specs.Table.{Content, Name, Table, attribute, attrs_of, decls_of, element, kids_of, kind_of, name_of, numbered, value_of};
ghost use Rattle.doc_tree.specs.Walks.{above, order, text_bytes};
ghost use Rattle.name_scopes.specs.Scoping.{InScope, declares_twice};
ghost use Rattle.sch_include.specs.inner.Growing.{Copied, Receives, Starts, TakesCopy};

use doc_tree::{Kind, NameId, NewNode, NodeId, Tree, unlimited};
use std::alloc::AllocError;

/// Copies a node of another tree with its declarations and attributes, and without its kids.
pub(crate) fn copy_node(
    tree: &mut Tree,
    parent: NodeId,
    source: &Tree,
    n: NodeId,
) -> Result<NodeId, AllocError>
    requires takes { TakesCopy tree.old.nodes parent source.now.nodes n }
    requires scoped { InScope source.now.nodes }
    ensures copied { IfOk result (λ k. Copied tree.old.nodes tree.new.nodes parent k source.now.nodes n) }
    ensures cap { tree.new.pair_cap ≡ tree.old.pair_cap }
{
    if source.is_element(n) {
        copy_element(tree, parent, source, n)
    } else {
        copy_leaf(tree, parent, source, n)
    }
}

/// Copies a text, a comment or a processing instruction.
fn copy_leaf(
    tree: &mut Tree,
    parent: NodeId,
    source: &Tree,
    n: NodeId,
) -> Result<NodeId, AllocError>
    requires takes { TakesCopy tree.old.nodes parent source.now.nodes n }
    requires leaf { is_element (kind_of source.now.nodes n) ≡ false }
    ensures copied { IfOk result (λ k. Copied tree.old.nodes tree.new.nodes parent k source.now.nodes n) }
    ensures cap { tree.new.pair_cap ≡ tree.old.pair_cap }
{
    tree.laws();
    source.laws();
    let appended = if source.is_kind(n, Kind::Text) {
        tree.append_node(parent, NewNode::Text(source.value(n)))
    } else if source.is_kind(n, Kind::Comment) {
        tree.append_node(parent, NewNode::Comment(source.value(n)))
    } else {
        let name = copy_name(tree, source, n)?;
        tree.append_node(parent, NewNode::Pi(name, source.value(n)))
    };
    unlimited(appended)
}

/// Copies an element with its declarations and attributes.
fn copy_element(
    tree: &mut Tree,
    parent: NodeId,
    source: &Tree,
    n: NodeId,
) -> Result<NodeId, AllocError>
    requires takes { TakesCopy tree.old.nodes parent source.now.nodes n }
    requires scoped { InScope source.now.nodes }
    requires under { kind_of source.now.nodes n ≡ Some Element }
    ensures copied { IfOk result (λ k. Copied tree.old.nodes tree.new.nodes parent k source.now.nodes n) }
    ensures cap { tree.new.pair_cap ≡ tree.old.pair_cap }
{
    tree.laws();
    source.laws();
    let element = append_element(tree, parent, source, n)?;
    copy_decls(tree, element, source, n)?;
    copy_attributes(tree, element, source, n)?;
    Ok(element)
}

/// Appends an element with the name of one of another tree.
fn append_element(
    tree: &mut Tree,
    parent: NodeId,
    source: &Tree,
    n: NodeId,
) -> Result<NodeId, AllocError>
    requires receives { Receives tree.old.nodes parent }
    requires named { is_some (name_of source.now.nodes n) ≡ true }
    requires shallow { length (above tree.old.nodes parent) ≤ MAX_DEPTH }
    requires room { suc (length (order tree.old.nodes)) ≤ MAX_LIVE_NODES }
    requires little { text_bytes tree.old.nodes ≤ MAX_LIVE_TEXT_BYTES }
    ensures grew { IfOk result (λ k. (name : Name) × (name_of source.now.nodes n ≡ Some name)
        × Grew tree.old.nodes tree.new.nodes parent k (element name [])) }
    ensures cap { tree.new.pair_cap ≡ tree.old.pair_cap }
{
    let name = copy_name(tree, source, n)?;
    unlimited(tree.append_node(parent, NewNode::Element(name)))
}

/// Copies the declarations of an element to one that has none yet and holds nothing.
fn copy_decls(tree: &mut Tree, to: NodeId, source: &Tree, n: NodeId) -> Result<(), AllocError>
    requires under { kind_of tree.old.nodes to ≡ Some Element }
    requires no_decl { decls_of tree.old.nodes to ≡ [] }
    requires no_attribute { attrs_of tree.old.nodes to ≡ [] }
    requires once { declares_twice (decls_of source.now.nodes n) ≡ false }
    ensures cap { tree.new.pair_cap ≡ tree.old.pair_cap }
    ensures no_attribute { OnOk result (attrs_of tree.new.nodes to ≡ []) }
    ensures starts { OnOk result ((G : Table) (p : ℕ) (name : Name) (told : List Line) → Starts G tree.old.nodes p to (element name []) told 1 0 →
        Starts G tree.new.nodes p to (element name (decls_of source.now.nodes n)) (told ++ map declares (decls_of source.now.nodes n)) 1 0) }
{
    for i in 0..source.decl_count(n) {
        tree.laws();
        tree.append_decl(to, source.decl_prefix(n, i), source.decl_uri(n, i))?;
    }
    Ok(())
}

/// Copies the attributes of an element to one that has none yet and no kid.
fn copy_attributes(tree: &mut Tree, to: NodeId, source: &Tree, n: NodeId) -> Result<(), AllocError>
    requires receives { Receives tree.old.nodes to }
    requires under { kind_of tree.old.nodes to ≡ Some Element }
    requires no_kid { kids_of tree.old.nodes to ≡ [] }
    requires no_attribute { attrs_of tree.old.nodes to ≡ [] }
    requires room { length (order tree.old.nodes) + length (attrs_of source.now.nodes n) ≤ MAX_LIVE_NODES }
    requires little { text_bytes tree.old.nodes + sum_by (λ m. length (value_of source.now.nodes m)) (attrs_of source.now.nodes n) ≤ MAX_LIVE_TEXT_BYTES }
    ensures cap { tree.new.pair_cap ≡ tree.old.pair_cap }
    ensures starts { OnOk result ((G : Table) (p : ℕ) (content : Content) (told : List Line) (nodes text : ℕ) → Starts G tree.old.nodes p to content told nodes text →
        Starts G tree.new.nodes p to content (told ++ flat_map (opens source.now.nodes) (attrs_of source.now.nodes n)) (nodes + length (attrs_of source.now.nodes n))
        (text + sum_by (λ m. length (value_of source.now.nodes m)) (attrs_of source.now.nodes n))) }
{
    source.laws();
    for attr in source.attrs(n) {
        tree.laws();
        copy_attribute(tree, to, source, *attr)?;
    }
    Ok(())
}

/// Copies an attribute.
fn copy_attribute(
    tree: &mut Tree,
    to: NodeId,
    source: &Tree,
    attr: NodeId,
) -> Result<NodeId, AllocError>
    requires receives { Receives tree.old.nodes to }
    requires is { kind_of source.now.nodes attr ≡ Some Attribute }
    requires fits { (name : Name) → name_of source.now.nodes attr ≡ Some name → AttributeFits tree.old.nodes to name }
    requires room { suc (length (order tree.old.nodes)) ≤ MAX_LIVE_NODES }
    requires little { text_bytes tree.old.nodes + length (value_of source.now.nodes attr) ≤ MAX_LIVE_TEXT_BYTES }
    ensures grew { IfOk result (λ k. (name : Name) × (name_of source.now.nodes attr ≡ Some name)
        × Grew tree.old.nodes tree.new.nodes to k (attribute name (value_of source.now.nodes attr))) }
    ensures cap { tree.new.pair_cap ≡ tree.old.pair_cap }
{
    let name = copy_name(tree, source, attr)?;
    unlimited(tree.append_node(to, NewNode::Attribute(name, source.value(attr))))
}

/// The number that the name of a node of another tree has.
fn copy_name(tree: &mut Tree, source: &Tree, n: NodeId) -> Result<NameId, AllocError>
    requires { is_some (name_of source.now.nodes n) ≡ true }
    ensures name { IfOk result (λ id. name_of source.now.nodes n ≡ Some (numbered tree.new.names id)) }
    ensures known { IfOk result (λ id. id < length tree.new.names) }
    ensures nodes { tree.new.nodes ≡ tree.old.nodes }
    ensures cap { tree.new.pair_cap ≡ tree.old.pair_cap }
{
    match source.name(n) {
        Some(name) => tree.name_id(
            source.prefix_of(name),
            source.local_of(name),
            source.uri_of(name),
        ),
        None => unreachable!(),
    }
}
