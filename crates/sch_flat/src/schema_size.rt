//! How large the document of a schema is.

ghost use Rattle.std.specs.Prelude.{◌≡◌, List};
ghost use Rattle.std.specs.List.{flat_map};
ghost use Rattle.sch_model.specs.declared.flat.FlatPattern.{FlatPattern};
ghost use Rattle.sch_flat.specs.FlatDocument.{flat_events, held_events, pattern_events, title_events};
ghost use Rattle.sch_flat.specs.FlatSize.{is_small, size_of};
ghost use Rattle.sch_flat.specs.SchemaParts.{schema_of};

use crate::given::Given;
use crate::lines::{characters_size, element_size};
use crate::measured::size_of_all;
use crate::notes::notes_size;
use crate::size::FlatSize;
use doc_tree::MAX_LIVE_NODES;
use sch_base::{MAX_TEXT_BYTES, Text};
use sch_model::{DiagnosticList, FlatSchema, Head, LetDeclList, NsList, PhaseList};

/// How large the document of a schema is.
///
/// Time is linear in the schema, no memory is taken, and no event is made.
pub fn flat_size(flat: &FlatSchema) -> FlatSize
    ensures { result ≡ size_of (flat_events flat.now) }
{
    let others = SchemaParts {
        head: &flat.head,
        ns: &flat.ns,
        lets: &flat.lets,
        phases: &flat.phases,
        diagnostics: &flat.diagnostics,
        properties: &flat.properties,
    };
    size_with_patterns(others, size_of_all(&flat.patterns))
}

/// What a schema holds beside its patterns.
#[derive(Clone, Copy)]
pub struct SchemaParts<'a> {
    pub head: &'a Head,
    pub ns: &'a NsList,
    pub lets: &'a LetDeclList,
    pub phases: &'a PhaseList,
    pub diagnostics: &'a DiagnosticList,
    pub properties: &'a DiagnosticList,
}

/// How large the document of a schema is whose patterns have this size in it.
pub fn size_with_patterns(parts: SchemaParts<'_>, patterns: FlatSize) -> FlatSize
    ensures { (its : List FlatPattern) → patterns ≡ size_of (flat_map pattern_events its) → result ≡ size_of (flat_events (schema_of parts.entry its)) }
{
    element_size(
        "sch:schema",
        &[
            Given::Fixed("xmlns:sch", "http://purl.oclc.org/dsdl/schematron"),
            Given::Fixed("queryBinding", "xslt"),
            Given::IfAny("schemaVersion", &parts.head.schema_version),
            Given::IfAny("defaultPhase", &parts.head.default_phase),
        ],
        held_size(parts, patterns),
    )
}

/// Whether the document of a schema is within the limits of a document that is written: `MAX_TEXT_BYTES` bytes, and
/// `MAX_LIVE_NODES` nodes with the root.
pub fn fits(flat: &FlatSchema) -> bool
    ensures { result ≡ is_small flat.now }
{
    let size = flat_size(flat);
    size.bytes <= MAX_TEXT_BYTES as u64 && size.nodes < MAX_LIVE_NODES as u64
}

/// How large what the document element holds is.
fn held_size(parts: SchemaParts<'_>, patterns: FlatSize) -> FlatSize
    ensures { (its : List FlatPattern) → patterns ≡ size_of (flat_map pattern_events its) → result ≡ size_of (held_events (schema_of parts.entry its)) }
{
    let diagnostics = notes_size(parts.diagnostics, "sch:diagnostics", "sch:diagnostic");
    let properties = notes_size(parts.properties, "sch:properties", "sch:property");
    let last = patterns.then(diagnostics.then(properties));
    let later = size_of_all(parts.lets).then(size_of_all(parts.phases).then(last));
    title_size(&parts.head.title).then(size_of_all(parts.ns).then(later))
}

/// How large the title is, where there is one.
fn title_size(title: &Option<Text>) -> FlatSize
    ensures { result ≡ size_of (title_events title.now) }
{
    match title {
        Some(title) => element_size("sch:title", &[], characters_size(title)),
        None => FlatSize::none(),
    }
}
