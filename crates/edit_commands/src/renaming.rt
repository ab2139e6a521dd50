//! Other names for an element of a document and for its attributes.

ghost use Rattle.std.specs.Prelude.{◌≡◌, List, true, IfErr, IfOk};
ghost use Rattle.pyx_core.specs.Nesting.{is_name};
ghost use Rattle.doc_tree.specs.Kinds.{is_document};
ghost use Rattle.edit_script.specs.declared.command.Command.TheVariants.{Rename, RenameAttr};
ghost use Rattle.edit_script.specs.declared.command.PathStep.{PathStep};
ghost use Rattle.edit_commands.specs.inner.Done.{Done, Keeps, NotDone};

use crate::refusal::ApplyError;
use crate::touched::Touched;
use doc_tree::{NodeId, Tree};
use name_scopes::split;
use name_scopes_laws::edits_keep_scope;

/// Gives an element another name.
pub(crate) fn rename_element(tree: &mut Tree, n: NodeId, name: &str) -> Result<Touched, ApplyError>
    requires document { is_document tree.old.nodes ≡ true }
    requires named { is_name name.now ≡ true }
    ensures done { IfOk result (λ touched. (path : List PathStep) → Done tree.old tree.new (Rename path name.now) n touched) }
    ensures not_done { IfErr result (λ error. (path : List PathStep) → NotDone tree.old tree.new (Rename path name.now) n error) }
    ensures keeps { Keeps tree.old tree.new }
{
    tree.laws();
    edits_keep_scope();
    let qname = split(name);
    tree.rename(n, qname.prefix, qname.local)?;
    Ok(Touched::Named { node: n })
}

/// Gives an attribute of an element, by its name, another name.
pub(crate) fn rename_attribute(
    tree: &mut Tree,
    n: NodeId,
    old: &str,
    name: &str,
) -> Result<Touched, ApplyError>
    requires document { is_document tree.old.nodes ≡ true }
    requires named { is_name name.now ≡ true }
    ensures done { IfOk result (λ touched. (path : List PathStep) → Done tree.old tree.new (RenameAttr path old.now name.now) n touched) }
    ensures not_done { IfErr result (λ error. (path : List PathStep) → NotDone tree.old tree.new (RenameAttr path old.now name.now) n error) }
    ensures keeps { Keeps tree.old tree.new }
{
    tree.laws();
    edits_keep_scope();
    let former = split(old);
    let qname = split(name);
    let found = tree.attribute_at(n, former.prefix, former.local);
    tree.rename_attr(n, former.prefix, former.local, qname.prefix, qname.local)?;
    match found {
        Some(attribute) => Ok(Touched::Named { node: attribute }),
        None => unreachable!(),
    }
}
