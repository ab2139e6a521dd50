//! The document of a schema.

ghost use Rattle.std.specs.Prelude.{◌≡◌, ◌++◌, IfOk, OnOk};
ghost use Rattle.sch_flat.specs.FlatDocument.{diagnostics_events, flat_events, held_events, properties_events, title_events};

use crate::given::Given;
use crate::notes::write_notes;
use crate::writer::Writer;
use pyx_core::EventList;
use sch_base::Text;
use sch_model::FlatSchema;
use std::alloc::{AllocError, Global};

/// The events of the document that a schema is.
///
/// Time and memory are linear in the schema: each text is copied once.
pub fn flat_events(alloc: Global, flat: &FlatSchema) -> Result<EventList, AllocError>
    ensures { IfOk result (λ events. events ≡ flat_events flat.now) }
{
    let mut writer = Writer::new(alloc);
    match write_schema(flat, &mut writer) {
        Ok(()) => Ok(writer.into_events()),
        Err(error) => {
            drop(writer);
            Err(error)
        }
    }
}

/// Writes the document element.
fn write_schema(flat: &FlatSchema, writer: &mut Writer) -> Result<(), AllocError>
    ensures { OnOk result (writer.new.events ≡ writer.old.events ++ flat_events flat.now) }
{
    writer.start(
        "sch:schema",
        &[
            Given::Fixed("xmlns:sch", "http://purl.oclc.org/dsdl/schematron"),
            Given::Fixed("queryBinding", "xslt"),
            Given::IfAny("schemaVersion", &flat.head.schema_version),
            Given::IfAny("defaultPhase", &flat.head.default_phase),
        ],
    )?;
    write_held(flat, writer)?;
    writer.end("sch:schema")
}

/// Writes what the document element holds.
fn write_held(flat: &FlatSchema, writer: &mut Writer) -> Result<(), AllocError>
    ensures { OnOk result (writer.new.events ≡ writer.old.events ++ held_events flat.now) }
{
    write_title(&flat.head.title, writer)?;
    writer.all(&flat.ns)?;
    writer.all(&flat.lets)?;
    writer.all(&flat.phases)?;
    writer.all(&flat.patterns)?;
    write_all_notes(flat, writer)
}

/// Writes the diagnostics, then the properties.
fn write_all_notes(flat: &FlatSchema, writer: &mut Writer) -> Result<(), AllocError>
    ensures { OnOk result (writer.new.events ≡ writer.old.events
        ++ (diagnostics_events flat.now.diagnostics ++ properties_events flat.now.properties)) }
{
    write_notes(
        &flat.diagnostics,
        "sch:diagnostics",
        "sch:diagnostic",
        writer,
    )?;
    write_notes(&flat.properties, "sch:properties", "sch:property", writer)
}

/// Writes the title, where there is one.
fn write_title(title: &Option<Text>, writer: &mut Writer) -> Result<(), AllocError>
    ensures { OnOk result (writer.new.events ≡ writer.old.events ++ title_events title.now) }
{
    let Some(title) = title else {
        return Ok(());
    };
    writer.start("sch:title", &[])?;
    writer.chars(title)?;
    writer.end("sch:title")
}
