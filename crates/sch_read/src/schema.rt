//! Reading a schema.

ghost use Rattle.std.specs.Prelude.{◌≡◌, None, true, IfErr, IfOk, OnOk};
ghost use Rattle.doc_tree.specs.Kinds.{is_document};
ghost use Rattle.sch_rules.specs.FirstBroken.{first_broken};
ghost use Rattle.sch_rules.specs.RawSchema.{raw_schema};
ghost use Rattle.sch_read.specs.Refused.{Refused};

use crate::check::Checker;
use doc_tree::Tree;
use sch_model::{RawSchema, SchemaError};
use sch_rules::first_agrees;
use sch_source::Source;
use std::alloc::Global;

/// Reads a schema (ISO/IEC 19757-3, section 5) from its document, in which no `include` is left, or gives the first rule
/// from 1 to 9 that it breaks.
///
/// The first broken rule is the one at the first place in document order, and there the one with the least number. Costs
/// time linear in the document.
pub fn read_schema(alloc: Global, tree: &Tree) -> Result<RawSchema, SchemaError>
    requires { is_document tree.now.nodes ≡ true }
    ensures refused { IfErr result (Refused tree.now.nodes) }
    ensures accepted { OnOk result (first_broken tree.now.nodes ≡ None) }
    ensures read { IfOk result (λ raw. raw ≡ raw_schema tree.now.nodes) }
{
    tree.laws();
    first_agrees();
    let source = Source { alloc, tree };
    let checker = Checker { source };
    checker.check()?;
    let raw = source.schema(source.document_element())?;
    Ok(raw)
}
