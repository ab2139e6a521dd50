//! An attribute more.

ghost use Rattle.std.specs.Prelude.{◌≡◌, ◌<◌, length, IfOk, OnOk, OnErr};
ghost use Rattle.doc_table.specs.Table.{numbered};
ghost use Rattle.doc_table.specs.inner.Parts.{IsSound, table_of};
ghost use Rattle.doc_edits.specs.Changes.{gained};
ghost use Rattle.doc_edits.specs.Fitting.{MayGain};
ghost use Rattle.doc_edits.specs.Keeping.{NamesGrow};

use crate::ranking::spread_at;
use crate::reranking::settle;
use doc_names::NameId;
use doc_table::{Bare, Label, NodeId};
use std::alloc::AllocError;

/// Gives an element one attribute more, the last one, which takes the next number; its name is numbered where it is new.
///
/// After want of memory nothing has changed, names included. Costs the copying of the value, and of the name where it is new.
pub fn gain(
    bare: &mut Bare,
    n: NodeId,
    prefix: &str,
    local: &str,
    uri: &str,
    value: &str,
) -> Result<NodeId, AllocError>
    requires sound { IsSound bare.old }
    requires may { MayGain (table_of bare.old) n (record { prefix = prefix.now; local = local.now; uri = uri.now }) value.now }
    ensures sound { IsSound bare.new }
    ensures gained { OnOk result (table_of bare.new ≡ gained (table_of bare.old) n (record { prefix = prefix.now; local = local.now; uri = uri.now }) value.now) }
    ensures number { IfOk result (λ a. a ≡ length (table_of bare.old)) }
    ensures names { NamesGrow bare.old.names bare.new.names }
    ensures cap { bare.new.pair_cap ≡ bare.old.pair_cap }
    ensures unchanged { OnErr result (bare.new ≡ bare.old) }
{
    let known = bare.names.len();
    let name = bare.name_id(prefix, local, uri)?;
    match gain_named(bare, n, name, value) {
        Ok(number) => Ok(number),
        Err(error) => {
            bare.names.cut(known);
            Err(error)
        }
    }
}

/// `gain`, of an attribute whose name has a number.
fn gain_named(bare: &mut Bare, n: NodeId, name: NameId, value: &str) -> Result<NodeId, AllocError>
    requires sound { IsSound bare.old }
    requires known { name < length bare.old.names }
    requires may { MayGain (table_of bare.old) n (numbered bare.old.names name) value.now }
    ensures sound { IsSound bare.new }
    ensures gained { OnOk result (table_of bare.new ≡ gained (table_of bare.old) n (numbered bare.old.names name) value.now) }
    ensures number { IfOk result (λ a. a ≡ length (table_of bare.old)) }
    ensures names { bare.new.names ≡ bare.old.names }
    ensures cap { bare.new.pair_cap ≡ bare.old.pair_cap }
    ensures unchanged { OnErr result (bare.new ≡ bare.old) }
{
    let depth = bare.depth_under(n);
    let spread = spread_at(bare, n, 0, 1);
    let number = bare.grow(n, depth, spread.first, &Label::Attribute(name), value)?;
    settle(bare, spread);
    Ok(number)
}
