//! Writing a tree, from its root downwards.

ghost use Rattle.std.specs.Prelude.{◌≡◌, ℕ, ◌<◌, ◌++◌, true, length, Some};
ghost use Rattle.std.specs.List.{flat_map};
ghost use Rattle.sch_io.specs.Wrote.{Wrote};
ghost use Rattle.doc_tree.specs.kind.Kind.TheVariants.{Attribute, Element, Pi};
ghost use Rattle.doc_tree.specs.Lists.{mem};
ghost use Rattle.doc_tree.specs.Table.{attrs_of, decls_of, is_live, kind_of, name_of, numbered};
ghost use Rattle.doc_write.specs.TreeText.{tree_text};
ghost use Rattle.doc_write.specs.inner.Parts.{closing_text, decl_text, has_name, opening_text, text_below};

use crate::names::{write_attribute, write_declaration, write_end_tag, write_start_tag};
use doc_tree::{Kind, NameId, NodeId, Tree};
use pyx_write::{write_chars, write_comment, write_pi};
use sch_io::{Failed, Sink};

/// Writes a tree as the PYX text of its nodes in document order, each element's declarations before its attributes.
///
/// After a failure a front of the text was written. The time grows with the text; no memory is taken.
pub fn write_tree<O: Sink>(tree: &Tree, sink: &mut O) -> Result<(), Failed>
    ensures { Wrote (O.log sink.old) (O.log sink.new) (tree_text tree.now.nodes) result }
{
    tree.laws();
    write_below(tree, tree.root(), sink)
}

/// Writes a node and all below it.
fn write_below<O: Sink>(tree: &Tree, n: NodeId, sink: &mut O) -> Result<(), Failed>
    requires { is_live tree.now.nodes n ≡ true }
    ensures { Wrote (O.log sink.old) (O.log sink.new) (text_below tree.now.nodes n) result }
{
    tree.laws();
    write_head(tree, n, sink)?;
    for kid in tree.kids(n) {
        write_below(tree, *kid, sink)?;
    }
    write_closing(tree, n, sink)
}

/// Writes the lines with which a node begins, and its attributes.
fn write_head<O: Sink>(tree: &Tree, n: NodeId, sink: &mut O) -> Result<(), Failed>
    requires { is_live tree.now.nodes n ≡ true }
    ensures { Wrote (O.log sink.old) (O.log sink.new)
        (opening_text tree.now.nodes n ++ flat_map (opening_text tree.now.nodes) (attrs_of tree.now.nodes n)) result }
{
    tree.laws();
    write_opening(tree, n, sink)?;
    write_attributes(tree, tree.attrs(n), sink)
}

/// Writes attributes in their order.
fn write_attributes<O: Sink>(tree: &Tree, attrs: &[NodeId], sink: &mut O) -> Result<(), Failed>
    requires { (a : ℕ) → mem a attrs.now ≡ true → is_live tree.now.nodes a ≡ true }
    ensures { Wrote (O.log sink.old) (O.log sink.new)
        (flat_map (opening_text tree.now.nodes) attrs.now) result }
{
    for attr in attrs {
        write_opening(tree, *attr, sink)?;
    }
    Ok(())
}

/// Writes the lines with which a node begins: its own, and after that of an element its declarations.
fn write_opening<O: Sink>(tree: &Tree, n: NodeId, sink: &mut O) -> Result<(), Failed>
    requires { is_live tree.now.nodes n ≡ true }
    ensures { Wrote (O.log sink.old) (O.log sink.new) (opening_text tree.now.nodes n) result }
{
    match tree.kind(n) {
        Kind::Root => Ok(()),
        Kind::Element => write_start(tree, n, sink),
        Kind::Attribute => write_attribute_node(tree, n, sink),
        Kind::Text => write_chars(sink, tree.value(n)),
        Kind::Comment => write_comment(sink, tree.value(n)),
        Kind::Pi => write_instruction(tree, n, sink),
    }
}

/// Writes the line with which a node ends: an element's end.
fn write_closing<O: Sink>(tree: &Tree, n: NodeId, sink: &mut O) -> Result<(), Failed>
    requires { is_live tree.now.nodes n ≡ true }
    ensures { Wrote (O.log sink.old) (O.log sink.new) (closing_text tree.now.nodes n) result }
{
    match tree.kind(n) {
        Kind::Element => write_end(tree, n, sink),
        Kind::Root | Kind::Attribute | Kind::Text | Kind::Comment | Kind::Pi => Ok(()),
    }
}

/// Writes the start of an element, and its declarations.
fn write_start<O: Sink>(tree: &Tree, n: NodeId, sink: &mut O) -> Result<(), Failed>
    requires { kind_of tree.now.nodes n ≡ Some Element }
    ensures { Wrote (O.log sink.old) (O.log sink.new) (opening_text tree.now.nodes n) result }
{
    let name = name_of(tree, n);
    write_start_tag(sink, tree.prefix_of(name), tree.local_of(name))?;
    write_declarations(tree, n, sink)
}

/// Writes the end of an element.
fn write_end<O: Sink>(tree: &Tree, n: NodeId, sink: &mut O) -> Result<(), Failed>
    requires { kind_of tree.now.nodes n ≡ Some Element }
    ensures { Wrote (O.log sink.old) (O.log sink.new) (closing_text tree.now.nodes n) result }
{
    let name = name_of(tree, n);
    write_end_tag(sink, tree.prefix_of(name), tree.local_of(name))
}

/// Writes the declarations of an element, in their order.
fn write_declarations<O: Sink>(tree: &Tree, n: NodeId, sink: &mut O) -> Result<(), Failed>
    ensures { Wrote (O.log sink.old) (O.log sink.new)
        (flat_map decl_text (decls_of tree.now.nodes n)) result }
{
    for i in 0..tree.decl_count(n) {
        write_declaration(sink, tree.decl_prefix(n, i), tree.decl_uri(n, i))?;
    }
    Ok(())
}

/// Writes an attribute node.
fn write_attribute_node<O: Sink>(tree: &Tree, n: NodeId, sink: &mut O) -> Result<(), Failed>
    requires { kind_of tree.now.nodes n ≡ Some Attribute }
    ensures { Wrote (O.log sink.old) (O.log sink.new) (opening_text tree.now.nodes n) result }
{
    let name = name_of(tree, n);
    write_attribute(
        sink,
        tree.prefix_of(name),
        tree.local_of(name),
        tree.value(n),
    )
}

/// Writes a processing instruction, of whose name the local part is the target.
fn write_instruction<O: Sink>(tree: &Tree, n: NodeId, sink: &mut O) -> Result<(), Failed>
    requires { kind_of tree.now.nodes n ≡ Some Pi }
    ensures { Wrote (O.log sink.old) (O.log sink.new) (opening_text tree.now.nodes n) result }
{
    let name = name_of(tree, n);
    write_pi(sink, tree.local_of(name), tree.value(n))
}

/// The name of an element, an attribute or a processing instruction.
fn name_of(tree: &Tree, n: NodeId) -> NameId
    requires { has_name (kind_of tree.now.nodes n) ≡ true }
    ensures name { name_of tree.now.nodes n ≡ Some (numbered tree.now.names result) }
    ensures known { result < length tree.now.names }
{
    match tree.name(n) {
        Some(name) => name,
        None => unreachable!(),
    }
}
