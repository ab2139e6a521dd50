//! The elements of the document.

ghost use Rattle.std.specs.Prelude.{◌≡◌, ◌++◌, OnOk};
ghost use Rattle.std.specs.List.{flat_map};
ghost use Rattle.sch_flat.specs.FlatDocument.{active_events, assertion_attributes, assertion_events, assertion_name, element, let_events, ns_events, part_events, pattern_events, phase_events, rule_events};

use crate::given::Given;
use crate::writer::{InDocument, Writer};
use sch_model::{Active, Assertion, FlatPattern, FlatRule, LetDecl, Ns, Part, Phase};
use std::alloc::AllocError;

impl InDocument for Ns {
    ghost events = { ns_events };

    fn write(&self, writer: &mut Writer) -> Result<(), AllocError> {
        writer.empty(
            "sch:ns",
            &[
                Given::Always("prefix", &self.prefix),
                Given::Always("uri", &self.uri),
            ],
        )
    }
}

impl InDocument for LetDecl {
    ghost events = { let_events };

    fn write(&self, writer: &mut Writer) -> Result<(), AllocError> {
        writer.empty(
            "sch:let",
            &[
                Given::Always("name", &self.name),
                Given::Always("value", &self.value),
            ],
        )
    }
}

impl InDocument for Active {
    ghost events = { active_events };

    fn write(&self, writer: &mut Writer) -> Result<(), AllocError> {
        writer.empty("sch:active", &[Given::Always("pattern", &self.pattern)])
    }
}

impl InDocument for Phase {
    ghost events = { phase_events };

    fn write(&self, writer: &mut Writer) -> Result<(), AllocError> {
        writer.start("sch:phase", &[Given::Always("id", &self.id)])?;
        writer.all(&self.lets)?;
        writer.all(&self.active)?;
        writer.end("sch:phase")
    }
}

impl InDocument for Part {
    ghost events = { part_events };

    fn write(&self, writer: &mut Writer) -> Result<(), AllocError> {
        match self {
            Part::Chars(text) => writer.chars(text),
            Part::ValueOf { select, .. } => {
                writer.empty("sch:value-of", &[Given::Always("select", select)])
            }
            Part::Name { path, .. } => writer.empty("sch:name", &[Given::IfAny("path", path)]),
        }
    }
}

impl InDocument for Assertion {
    ghost events = { assertion_events };

    fn write(&self, writer: &mut Writer) -> Result<(), AllocError> {
        write_assertion(self, name_of(self.report), writer)
    }
}

/// Writes an assertion under a name.
fn write_assertion(assertion: &Assertion, name: &str, writer: &mut Writer) -> Result<(), AllocError>
    ensures { OnOk result (writer.new.events ≡ writer.old.events
        ++ element name.now (assertion_attributes assertion.now) (flat_map part_events assertion.now.message)) }
{
    writer.start(
        name,
        &[
            Given::IfAny("id", &assertion.id),
            Given::Always("test", &assertion.test),
            Given::IfAny("subject", &assertion.subject),
            Given::IfAny("role", &assertion.role),
            Given::IfAny("flag", &assertion.flag),
            Given::Ids("diagnostics", &assertion.diagnostics),
            Given::Ids("properties", &assertion.properties),
        ],
    )?;
    writer.all(&assertion.message)?;
    writer.end(name)
}

impl InDocument for FlatRule {
    ghost events = { rule_events };

    fn write(&self, writer: &mut Writer) -> Result<(), AllocError> {
        writer.start(
            "sch:rule",
            &[
                Given::IfAny("id", &self.id),
                Given::Always("context", &self.context),
                Given::IfAny("subject", &self.subject),
                Given::IfAny("role", &self.role),
                Given::IfAny("flag", &self.flag),
            ],
        )?;
        writer.all(&self.lets)?;
        writer.all(&self.assertions)?;
        writer.end("sch:rule")
    }
}

impl InDocument for FlatPattern {
    ghost events = { pattern_events };

    fn write(&self, writer: &mut Writer) -> Result<(), AllocError> {
        writer.start("sch:pattern", &[Given::IfAny("id", &self.id)])?;
        writer.all(&self.lets)?;
        writer.all(&self.rules)?;
        writer.end("sch:pattern")
    }
}

/// The name of an assert or a report.
pub(crate) fn name_of(report: bool) -> &'static str
    ensures { result.now ≡ assertion_name report }
{
    if report { "sch:report" } else { "sch:assert" }
}
