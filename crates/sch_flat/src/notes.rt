//! Diagnostics and properties: elements that differ in their names alone.

ghost use Rattle.std.specs.Prelude.{◌≡◌, ◌++◌, OnOk};
ghost use Rattle.std.specs.List.{flat_map};
ghost use Rattle.sch_flat.specs.FlatDocument.{note_events, notes_events};
ghost use Rattle.sch_flat.specs.FlatSize.{size_of};

use crate::given::Given;
use crate::lines::element_size;
use crate::measured::size_of_all;
use crate::size::FlatSize;
use crate::writer::Writer;
use sch_model::{Diagnostic, DiagnosticList};
use std::alloc::AllocError;

/// Writes them as elements of a name, in an element of another name where there is one.
pub(crate) fn write_notes(
    notes: &DiagnosticList,
    group: &str,
    name: &str,
    writer: &mut Writer,
) -> Result<(), AllocError>
    ensures { OnOk result (writer.new.events ≡ writer.old.events ++ notes_events group.now name.now notes.now) }
{
    if notes.is_empty() {
        return Ok(());
    }
    writer.start(group, &[])?;
    write_each(notes.as_slice(), name, writer)?;
    writer.end(group)
}

/// Writes each under a name.
fn write_each(notes: &[Diagnostic], name: &str, writer: &mut Writer) -> Result<(), AllocError>
    ensures { OnOk result (writer.new.events ≡ writer.old.events ++ flat_map (note_events name.now) notes.now) }
{
    for note in notes {
        write_note(note, name, writer)?;
    }
    Ok(())
}

/// Writes one under a name.
fn write_note(note: &Diagnostic, name: &str, writer: &mut Writer) -> Result<(), AllocError>
    ensures { OnOk result (writer.new.events ≡ writer.old.events ++ note_events name.now note.now) }
{
    writer.start(name, &[Given::Always("id", &note.id)])?;
    writer.all(&note.message)?;
    writer.end(name)
}

/// How large they are, as `write_notes` writes them.
pub(crate) fn notes_size(notes: &DiagnosticList, group: &str, name: &str) -> FlatSize
    ensures { result ≡ size_of (notes_events group.now name.now notes.now) }
{
    if notes.is_empty() {
        return FlatSize::none();
    }
    element_size(group, &[], each_size(notes.as_slice(), name))
}

/// How large each is under a name, taken together.
fn each_size(notes: &[Diagnostic], name: &str) -> FlatSize
    ensures { result ≡ size_of (flat_map (note_events name.now) notes.now) }
{
    let mut size = FlatSize::none();
    for note in notes {
        size = size.then(note_size(note, name));
    }
    size
}

/// How large one is under a name.
fn note_size(note: &Diagnostic, name: &str) -> FlatSize
    ensures { result ≡ size_of (note_events name.now note.now) }
{
    let held = size_of_all(&note.message);
    element_size(name, &[Given::Always("id", &note.id)], held)
}
