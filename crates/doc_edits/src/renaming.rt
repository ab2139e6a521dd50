//! Giving a node another name.

ghost use Rattle.std.specs.Prelude.{◌≡◌, ◌<◌, None, OnOk, OnErr, length, slice_index_or, slice_set, vec_len};
ghost use Rattle.doc_table.specs.Table.{numbered};
ghost use Rattle.doc_table.specs.inner.Parts.{IsSound, table_of};
ghost use Rattle.doc_edits.specs.Changes.{renamed};
ghost use Rattle.doc_edits.specs.Fitting.{MayRename};
ghost use Rattle.doc_edits.specs.Keeping.{NamesGrow};
ghost use Rattle.doc_edits.specs.inner.KeptContents.{content_renaming, kept_holding};

use doc_names::NameId;
use doc_table::{Bare, Node, NodeContent, NodeId};
use std::alloc::AllocError;

/// Gives an element or an attribute another name, which is numbered where it is new; the node keeps its place and number,
/// an attribute its value.
///
/// After want of memory nothing has changed, names included. Costs the copying of the name where it is new.
pub fn rename(
    bare: &mut Bare,
    n: NodeId,
    prefix: &str,
    local: &str,
    uri: &str,
) -> Result<(), AllocError>
    requires sound { IsSound bare.old }
    requires may { MayRename (table_of bare.old) n (record { prefix = prefix.now; local = local.now; uri = uri.now }) }
    ensures sound { IsSound bare.new }
    ensures renamed { OnOk result (table_of bare.new ≡ renamed (table_of bare.old) n (record { prefix = prefix.now; local = local.now; uri = uri.now })) }
    ensures names { NamesGrow bare.old.names bare.new.names }
    ensures cap { bare.new.pair_cap ≡ bare.old.pair_cap }
    ensures unchanged { OnErr result (bare.new ≡ bare.old) }
{
    let name = bare.name_id(prefix, local, uri)?;
    put_name(bare, n, name);
    Ok(())
}

/// `rename`, to a name that has a number; takes no memory.
fn put_name(bare: &mut Bare, n: NodeId, name: NameId)
    requires sound { IsSound bare.old }
    requires known { name < length bare.old.names }
    requires may { MayRename (table_of bare.old) n (numbered bare.old.names name) }
    ensures sound { IsSound bare.new }
    ensures renamed { table_of bare.new ≡ renamed (table_of bare.old) n (numbered bare.old.names name) }
    ensures names { bare.new.names ≡ bare.old.names }
    ensures cap { bare.new.pair_cap ≡ bare.old.pair_cap }
{
    replace_name(&mut bare.nodes, n, name);
}

/// Replaces the name of a node among the nodes.
fn replace_name(nodes: &mut Vec<Option<Node>>, n: NodeId, name: NameId)
    requires { n < vec_len nodes.old }
    ensures { nodes.new.items ≡ slice_set nodes.old.items n (kept_holding (content_renaming name) (slice_index_or nodes.old.items n None)) }
{
    let slot = &mut nodes[n.index()];
    match slot {
        Some(node) => replace_name_in(&mut node.content, name),
        None => {}
    }
}

/// Replaces the name of what a node holds, where that is an element or an attribute.
fn replace_name_in(content: &mut NodeContent, name: NameId)
    ensures { content.new ≡ content_renaming name content.old }
{
    match content {
        NodeContent::Element(id, _) => *id = name,
        NodeContent::Attribute(id, _) => *id = name,
        NodeContent::Root | NodeContent::Text(_) => {}
        NodeContent::Comment(_) | NodeContent::Pi(_, _) => {}
    }
}
