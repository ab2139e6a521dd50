//! Names as they are written (Namespaces in XML 1.0, section 4).

ghost use Rattle.std.specs.Prelude.{◌≡◌, IfOk};
ghost use Rattle.doc_tree.specs.QNames.{spelled_name, written_in};
ghost use Rattle.doc_tree.specs.Table.{name_of};
ghost use Rattle.name_scopes.specs.TreeText.{declaring_name};
ghost use Rattle.undo_entries.specs.inner.Parts.{target_in};

use doc_tree::{NodeId, Tree};
use sch_base::Text;
use std::alloc::{AllocError, Global};

/// The name of a node, empty where it has none.
pub(crate) fn written_name(alloc: Global, tree: &Tree, n: NodeId) -> Result<Text, AllocError>
    ensures { IfOk result (λ text. text ≡ written_in (name_of tree.now.nodes n)) }
{
    match tree.name(n) {
        Some(name) => spelled_name(alloc, tree.prefix_of(name), tree.local_of(name)),
        None => Text::copy(alloc, ""),
    }
}

/// The target of a processing instruction, which is the local part of its name; empty where there is no name.
pub(crate) fn target(alloc: Global, tree: &Tree, n: NodeId) -> Result<Text, AllocError>
    ensures { IfOk result (λ text. text ≡ target_in (name_of tree.now.nodes n)) }
{
    match tree.name(n) {
        Some(name) => Text::copy(alloc, tree.local_of(name)),
        None => Text::copy(alloc, ""),
    }
}

/// A prefix, where there is one, a colon, and a local part.
fn spelled_name(alloc: Global, prefix: &str, local: &str) -> Result<Text, AllocError>
    ensures { IfOk result (λ text. text ≡ spelled_name prefix.now local.now) }
{
    if prefix.is_empty() {
        return Text::copy(alloc, local);
    }
    let mut name = String::from_str(alloc, prefix)?;
    name.push_str(":")?;
    name.push_str(local)?;
    Ok(Text::from(name))
}

/// The name of the attribute that declares a prefix, which is empty for the default namespace.
#[tactic(auto, unfolding(doc_tree::specs::Scope::xmlns_prefix))]
pub(crate) fn declaring_name(alloc: Global, prefix: &str) -> Result<Text, AllocError>
    ensures { IfOk result (λ text. text ≡ declaring_name prefix.now) }
{
    if prefix.is_empty() {
        return Text::copy(alloc, "xmlns");
    }
    let mut name = String::from_str(alloc, "xmlns:")?;
    name.push_str(prefix)?;
    Ok(Text::from(name))
}
