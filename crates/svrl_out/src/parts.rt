//! The parts of a report.

ghost use Rattle.std.specs.Prelude.{◌≡◌, codes};
ghost use Rattle.std.specs.List.{flat_map, zip};
ghost use Rattle.sch_io.specs.Wrote.{Wrote};
ghost use Rattle.pyx_write.specs.Elements.{opening};
ghost use Rattle.sch_compiled.specs.Findings.{IsFindingOf};
ghost use Rattle.svrl_out.specs.Report.{active_pattern, assertion_lines, diagnostic_lines, finding_lines, finding_name, finding_texts, fired_rule, message_lines, ns_lines, output_attributes, property_lines, reference_lines};

use pyx_write::{Given, write_empty, write_end, write_opening, write_text};
use sch_base::Text;
use sch_compiled::{
    Finding, Plan, PlanAssert, PlanAssertList, PlanDiagnostic, PlanDiagnosticList, PlanNs,
    PlanNsList, PlanPattern, PlanRule, TextList,
};
use sch_io::{Failed, Sink};

/// Writes how the output begins: with the namespace of SVRL, and what the plan tells of its schema and phase.
pub(crate) fn write_output_opening<O: Sink>(sink: &mut O, plan: &Plan) -> Result<(), Failed>
    ensures { Wrote (O.log sink.old) (O.log sink.new) (opening (codes "svrl:schematron-output") (output_attributes plan.now)) result }
{
    write_opening(
        sink,
        "svrl:schematron-output",
        &[
            Given::Fixed("xmlns:svrl", "http://purl.oclc.org/dsdl/svrl"),
            Given::IfAny("title", &plan.title),
            Given::IfAny("phase", &plan.phase),
            Given::IfAny("schemaVersion", &plan.schema_version),
        ],
    )
}

/// Writes the prefixes of the schema's expressions, in their order.
pub(crate) fn write_namespaces<O: Sink>(sink: &mut O, namespaces: &PlanNsList) -> Result<(), Failed>
    ensures { Wrote (O.log sink.old) (O.log sink.new) (flat_map ns_lines namespaces.now) result }
{
    for ns in namespaces.as_slice() {
        write_ns(sink, ns)?;
    }
    Ok(())
}

/// Writes a prefix and its namespace.
fn write_ns<O: Sink>(sink: &mut O, ns: &PlanNs) -> Result<(), Failed>
    ensures { Wrote (O.log sink.old) (O.log sink.new) (ns_lines ns.now) result }
{
    write_empty(
        sink,
        "svrl:ns-prefix-in-attribute-values",
        &[
            Given::Always("prefix", &ns.prefix),
            Given::Always("uri", &ns.uri),
        ],
    )
}

/// Writes that a pattern is active.
pub(crate) fn write_active_pattern<O: Sink>(
    sink: &mut O,
    pattern: &PlanPattern,
) -> Result<(), Failed>
    ensures { Wrote (O.log sink.old) (O.log sink.new) (active_pattern pattern.now) result }
{
    write_empty(
        sink,
        "svrl:active-pattern",
        &[Given::IfAny("id", &pattern.id)],
    )
}

/// Writes that a rule fired.
pub(crate) fn write_fired_rule<O: Sink>(sink: &mut O, rule: &PlanRule) -> Result<(), Failed>
    ensures { Wrote (O.log sink.old) (O.log sink.new) (fired_rule rule.now) result }
{
    write_empty(
        sink,
        "svrl:fired-rule",
        &[
            Given::IfAny("id", &rule.id),
            Given::Always("context", &rule.context_text),
            Given::IfAny("role", &rule.role),
            Given::IfAny("flag", &rule.flag),
        ],
    )
}

/// Writes a finding at a location, of a rule with these assertions.
pub(crate) fn write_finding<O: Sink>(
    sink: &mut O,
    location: &Text,
    assertions: &PlanAssertList,
    finding: &Finding,
) -> Result<(), Failed>
    requires { IsFindingOf assertions.now finding.now }
    ensures { Wrote (O.log sink.old) (O.log sink.new)
        (finding_lines location.now assertions.now finding.now) result }
{
    let assertion = &assertions.as_slice()[finding.assertion as usize];
    write_found(sink, location, assertion, finding)
}

/// Writes what was found of an assertion.
#[tactic(auto, using(sch_io::proofs::Writes::writes))]
fn write_found<O: Sink>(
    sink: &mut O,
    location: &Text,
    assertion: &PlanAssert,
    finding: &Finding,
) -> Result<(), Failed>
    ensures { Wrote (O.log sink.old) (O.log sink.new)
        (assertion_lines location.now finding.now assertion.now) result }
{
    let name = finding_name(assertion.report);
    write_opening(
        sink,
        name,
        &[
            Given::IfAny("id", &assertion.id),
            Given::Always("location", location),
            Given::IfAny("role", &assertion.role),
            Given::IfAny("flag", &assertion.flag),
            Given::Always("test", &assertion.test_text),
        ],
    )?;
    write_texts(sink, assertion, finding)?;
    write_end(sink, name)
}

/// How a finding is named: of a report that is true, or of an assert that is false.
fn finding_name(report: bool) -> &'static str
    ensures { result.now ≡ finding_name report }
{
    if report {
        "svrl:successful-report"
    } else {
        "svrl:failed-assert"
    }
}

/// Writes the texts of a finding: those of its diagnostics, those of its properties, then its message.
#[tactic(auto, using(sch_io::proofs::Writes::writes))]
fn write_texts<O: Sink>(
    sink: &mut O,
    assertion: &PlanAssert,
    finding: &Finding,
) -> Result<(), Failed>
    ensures { Wrote (O.log sink.old) (O.log sink.new) (finding_texts assertion.now finding.now) result }
{
    write_diagnostics(sink, &assertion.diagnostics, &finding.diagnostics)?;
    write_properties(sink, &assertion.properties, &finding.properties)?;
    write_text(sink, "svrl:text", &[], &finding.message)
}

/// Writes diagnostics with their texts, in their order.
fn write_diagnostics<O: Sink>(
    sink: &mut O,
    diagnostics: &PlanDiagnosticList,
    texts: &TextList,
) -> Result<(), Failed>
    ensures { Wrote (O.log sink.old) (O.log sink.new) (flat_map diagnostic_lines (zip diagnostics.now texts.now)) result }
{
    write_references(
        sink,
        "svrl:diagnostic-reference",
        "diagnostic",
        diagnostics,
        texts,
    )
}

/// Writes properties with their texts, in their order.
fn write_properties<O: Sink>(
    sink: &mut O,
    properties: &PlanDiagnosticList,
    texts: &TextList,
) -> Result<(), Failed>
    ensures { Wrote (O.log sink.old) (O.log sink.new) (flat_map property_lines (zip properties.now texts.now)) result }
{
    write_references(
        sink,
        "svrl:property-reference",
        "property",
        properties,
        texts,
    )
}

/// Writes what is named by ids with their texts, in their order, each in an element of that name.
fn write_references<O: Sink>(
    sink: &mut O,
    name: &str,
    attribute: &'static str,
    named: &PlanDiagnosticList,
    texts: &TextList,
) -> Result<(), Failed>
    ensures { Wrote (O.log sink.old) (O.log sink.new) (flat_map (reference_lines name.now attribute.now) (zip named.now texts.now)) result }
{
    for (item, text) in named.as_slice().iter().zip(texts.as_slice()) {
        write_reference(sink, name, attribute, item, text)?;
    }
    Ok(())
}

/// Writes what is named by an id, with its text.
fn write_reference<O: Sink>(
    sink: &mut O,
    name: &str,
    attribute: &'static str,
    named: &PlanDiagnostic,
    text: &Text,
) -> Result<(), Failed>
    ensures { Wrote (O.log sink.old) (O.log sink.new) (reference_lines name.now attribute.now (named.now, text.now)) result }
{
    write_text(sink, name, &[Given::Always(attribute, &named.id)], text)
}
