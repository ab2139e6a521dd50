//! Giving a node another text.

ghost use Rattle.std.specs.Prelude.{◌≡◌, ◌<◌, None, OnOk, OnErr, slice_index_or, slice_set, vec_len};
ghost use Rattle.doc_table.specs.inner.Parts.{IsSound, table_of};
ghost use Rattle.doc_edits.specs.Changes.{said};
ghost use Rattle.doc_edits.specs.Fitting.{MaySay};
ghost use Rattle.doc_edits.specs.inner.KeptContents.{content_saying, kept_holding};

use doc_table::{Bare, Node, NodeContent, NodeId};
use sch_base::Text;
use std::alloc::AllocError;

/// Gives a node another text: an attribute a value, a processing instruction its data, a text or comment its characters.
///
/// After want of memory nothing has changed. Costs the copying of the text.
pub fn say(bare: &mut Bare, n: NodeId, new: &str) -> Result<(), AllocError>
    requires sound { IsSound bare.old }
    requires may { MaySay (table_of bare.old) n new.now }
    ensures sound { IsSound bare.new }
    ensures said { OnOk result (table_of bare.new ≡ said (table_of bare.old) n new.now) }
    ensures names { bare.new.names ≡ bare.old.names }
    ensures cap { bare.new.pair_cap ≡ bare.old.pair_cap }
    ensures unchanged { OnErr result (bare.new ≡ bare.old) }
{
    let text = Text::copy(bare.alloc, new)?;
    put_text(bare, n, text);
    Ok(())
}

/// `say` with a text that is there already; takes no memory.
pub(crate) fn put_text(bare: &mut Bare, n: NodeId, text: Text)
    requires sound { IsSound bare.old }
    requires may { MaySay (table_of bare.old) n text }
    ensures sound { IsSound bare.new }
    ensures said { table_of bare.new ≡ said (table_of bare.old) n text }
    ensures names { bare.new.names ≡ bare.old.names }
    ensures cap { bare.new.pair_cap ≡ bare.old.pair_cap }
{
    let old_length = bare.value(n).len();
    let new_length = text.as_str().len();
    bare.text_bytes = bare.text_bytes - old_length + new_length;
    replace_text(&mut bare.nodes, n, text);
}

/// Replaces the text of a node among the nodes.
fn replace_text(nodes: &mut Vec<Option<Node>>, n: NodeId, text: Text)
    requires { n < vec_len nodes.old }
    ensures { nodes.new.items ≡ slice_set nodes.old.items n (kept_holding (content_saying text) (slice_index_or nodes.old.items n None)) }
{
    let slot = &mut nodes[n.index()];
    match slot {
        Some(node) => replace_text_in(&mut node.content, text),
        None => {}
    }
}

/// Replaces the text of what a node holds, where that has one.
fn replace_text_in(content: &mut NodeContent, text: Text)
    ensures { content.new ≡ content_saying text content.old }
{
    match content {
        NodeContent::Attribute(_, value) => *value = text,
        NodeContent::Text(characters) => *characters = text,
        NodeContent::Comment(characters) => *characters = text,
        NodeContent::Pi(_, data) => *data = text,
        NodeContent::Root | NodeContent::Element(_, _) => {}
    }
}
