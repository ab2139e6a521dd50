//! Diagnostics and properties that are looked up by their ids.

ghost use Rattle.std.specs.Prelude.{◌≡◌, ◌∷◌, ℕ, List, IfOk, OnOk};
ghost use Rattle.std.specs.Option.{option_or};
ghost use Rattle.sch_model.specs.declared.parts.Diagnostic.{Diagnostic};
ghost use Rattle.sch_plan.specs.Rules.{diagnostic_of};
ghost use Rattle.sch_plan.specs.inner.Ids.{found_in, kept_in, listed_in};

use indexmap::IndexMap;
use sch_model::{Diagnostic, DiagnosticList};
use std::alloc::{AllocError, Global};

/// The diagnostics and the properties of a schema.
#[derive(Drop)]
pub(crate) struct NoteLists {
    pub(crate) diagnostics: DiagnosticList,
    pub(crate) properties: DiagnosticList,
}

/// The diagnostics and the properties of a schema by their ids.
#[derive(Drop)]
pub(crate) struct NotesById {
    pub(crate) diagnostics: IndexMap<String, Diagnostic>,
    pub(crate) properties: IndexMap<String, Diagnostic>,
}

/// Keeps a diagnostic by its id, unless one with this id is kept.
fn keep(
    alloc: Global,
    found: &mut IndexMap<String, Diagnostic>,
    diagnostic: Diagnostic,
) -> Result<(), AllocError>
    ensures { OnOk result ((more : List Diagnostic) (id : List ℕ) → option_or (found_in found.new.entries id) (diagnostic_of more id) ≡ option_or (found_in found.old.entries id) (diagnostic_of (diagnostic ∷ more) id)) }
{
    if found.contains_key(diagnostic.id.as_str()) {
        drop(diagnostic);
        return Ok(());
    }
    let id = String::from_str(alloc, diagnostic.id.as_str())?;
    found.insert(id, diagnostic)?;
    Ok(())
}

/// The diagnostics, or the properties, by their ids; of two with one id the first. One is found in constant time.
fn by_id(
    alloc: Global,
    diagnostics: DiagnosticList,
) -> Result<IndexMap<String, Diagnostic>, AllocError>
    ensures { IfOk result (λ found. found_in found.entries ≡ diagnostic_of diagnostics) }
{
    let mut found = IndexMap::new(alloc);
    for diagnostic in diagnostics.into_vec() {
        keep(alloc, &mut found, diagnostic)?;
    }
    Ok(found)
}

/// The diagnostics and the properties by their ids.
pub(crate) fn notes_by_id(alloc: Global, notes: NoteLists) -> Result<NotesById, AllocError>
    ensures { IfOk result (λ found. kept_in found ≡ listed_in notes) }
{
    let NoteLists {
        diagnostics,
        properties,
    } = notes;
    match by_id(alloc, diagnostics) {
        Ok(diagnostics) => match by_id(alloc, properties) {
            Ok(properties) => Ok(NotesById {
                diagnostics,
                properties,
            }),
            Err(error) => {
                drop(diagnostics);
                Err(error)
            }
        },
        Err(error) => {
            drop(properties);
            Err(error)
        }
    }
}
