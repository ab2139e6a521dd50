//! Writing a report.

ghost use Rattle.std.specs.Prelude.{◌≡◌, [], ◌++◌, codes};
ghost use Rattle.std.specs.List.{flat_map};
ghost use Rattle.sch_io.specs.Wrote.{Wrote};
ghost use Rattle.pyx_write.specs.Written.{chars_line};
ghost use Rattle.pyx_write.specs.Elements.{element, opening};
ghost use Rattle.svrl_read.specs.Lines.{finding_attributes, finding_lines, finding_name, fired_lines, message_lines, output_attributes, pattern_lines, prefix_lines, ref_as, ref_lines, report_lines, rule_attributes};

use crate::value::{
    Fired, FiredList, Prefix, PrefixList, Ref, RefList, SvrlFinding, SvrlFindingList, SvrlPattern,
    SvrlPatternList, SvrlReport,
};
use pyx_write::{Given, write_empty, write_end, write_opening, write_text};
use sch_io::{Failed, Sink};

/// Writes a report as lines of PYX: elements in one fixed order, attributes in one fixed order and only where given, and no
/// text but that of references and messages.
///
/// Takes no memory. After an error a front of the report was written. The time grows with the report's length.
#[tactic(auto, using(sch_io::proofs::Writes::writes))]
pub fn write_svrl<O: Sink>(report: &SvrlReport, sink: &mut O) -> Result<(), Failed>
    ensures { Wrote (O.log sink.old) (O.log sink.new) (report_lines report.now) result }
{
    write_output_opening(sink, report)?;
    write_held(sink, report)?;
    write_end(sink, "svrl:schematron-output")
}

/// Writes how the output begins: with the namespace of SVRL, and what the report says of its schema and phase.
fn write_output_opening<O: Sink>(sink: &mut O, report: &SvrlReport) -> Result<(), Failed>
    ensures { Wrote (O.log sink.old) (O.log sink.new) (opening (codes "svrl:schematron-output") (output_attributes report.now)) result }
{
    write_opening(
        sink,
        "svrl:schematron-output",
        &[
            Given::Fixed("xmlns:svrl", "http://purl.oclc.org/dsdl/svrl"),
            Given::IfAny("title", &report.title),
            Given::IfAny("phase", &report.phase),
            Given::IfAny("schemaVersion", &report.schema_version),
        ],
    )
}

/// Writes what the output holds.
#[tactic(auto, using(sch_io::proofs::Writes::writes))]
fn write_held<O: Sink>(sink: &mut O, report: &SvrlReport) -> Result<(), Failed>
    ensures { Wrote (O.log sink.old) (O.log sink.new) (flat_map prefix_lines report.now.prefixes ++ flat_map pattern_lines report.now.patterns) result }
{
    write_prefixes(sink, &report.prefixes)?;
    write_patterns(sink, &report.patterns)
}

/// Writes prefixes.
fn write_prefixes<O: Sink>(sink: &mut O, prefixes: &PrefixList) -> Result<(), Failed>
    ensures { Wrote (O.log sink.old) (O.log sink.new) (flat_map prefix_lines prefixes.now) result }
{
    for prefix in prefixes.as_slice() {
        write_prefix(sink, prefix)?;
    }
    Ok(())
}

/// Writes a prefix and its namespace.
fn write_prefix<O: Sink>(sink: &mut O, prefix: &Prefix) -> Result<(), Failed>
    ensures { Wrote (O.log sink.old) (O.log sink.new) (prefix_lines prefix.now) result }
{
    write_empty(
        sink,
        "svrl:ns-prefix-in-attribute-values",
        &[
            Given::Always("prefix", &prefix.prefix),
            Given::Always("uri", &prefix.uri),
        ],
    )
}

/// Writes active patterns.
fn write_patterns<O: Sink>(sink: &mut O, patterns: &SvrlPatternList) -> Result<(), Failed>
    ensures { Wrote (O.log sink.old) (O.log sink.new) (flat_map pattern_lines patterns.now) result }
{
    for pattern in patterns.as_slice() {
        write_pattern(sink, pattern)?;
    }
    Ok(())
}

/// Writes an active pattern, and the rules of it that fired.
#[tactic(auto, using(sch_io::proofs::Writes::writes))]
fn write_pattern<O: Sink>(sink: &mut O, pattern: &SvrlPattern) -> Result<(), Failed>
    ensures { Wrote (O.log sink.old) (O.log sink.new) (pattern_lines pattern.now) result }
{
    write_empty(
        sink,
        "svrl:active-pattern",
        &[Given::IfAny("id", &pattern.id)],
    )?;
    write_rules(sink, &pattern.fired)
}

/// Writes fired rules.
fn write_rules<O: Sink>(sink: &mut O, rules: &FiredList) -> Result<(), Failed>
    ensures { Wrote (O.log sink.old) (O.log sink.new) (flat_map fired_lines rules.now) result }
{
    for fired in rules.as_slice() {
        write_rule(sink, fired)?;
    }
    Ok(())
}

/// Writes a fired rule, and what was found by it.
#[tactic(auto, using(sch_io::proofs::Writes::writes))]
fn write_rule<O: Sink>(sink: &mut O, fired: &Fired) -> Result<(), Failed>
    ensures { Wrote (O.log sink.old) (O.log sink.new) (fired_lines fired.now) result }
{
    write_rule_element(sink, fired)?;
    write_findings(sink, &fired.findings)
}

/// Writes that a rule fired.
fn write_rule_element<O: Sink>(sink: &mut O, fired: &Fired) -> Result<(), Failed>
    ensures { Wrote (O.log sink.old) (O.log sink.new) (element (codes "svrl:fired-rule") (rule_attributes fired.now) []) result }
{
    write_empty(
        sink,
        "svrl:fired-rule",
        &[
            Given::IfAny("id", &fired.id),
            Given::Always("context", &fired.context),
            Given::IfAny("role", &fired.role),
            Given::IfAny("flag", &fired.flag),
        ],
    )
}

/// Writes findings.
fn write_findings<O: Sink>(sink: &mut O, findings: &SvrlFindingList) -> Result<(), Failed>
    ensures { Wrote (O.log sink.old) (O.log sink.new) (flat_map finding_lines findings.now) result }
{
    for finding in findings.as_slice() {
        write_finding(sink, finding)?;
    }
    Ok(())
}

/// Writes a finding.
#[tactic(auto, using(sch_io::proofs::Writes::writes))]
fn write_finding<O: Sink>(sink: &mut O, finding: &SvrlFinding) -> Result<(), Failed>
    ensures { Wrote (O.log sink.old) (O.log sink.new) (finding_lines finding.now) result }
{
    write_finding_opening(sink, finding)?;
    write_texts(sink, finding)?;
    write_end(sink, finding_name(finding.assertion))
}

/// Writes how a finding begins.
fn write_finding_opening<O: Sink>(sink: &mut O, finding: &SvrlFinding) -> Result<(), Failed>
    ensures { Wrote (O.log sink.old) (O.log sink.new) (opening (finding_name finding.now.assertion) (finding_attributes finding.now)) result }
{
    write_opening(
        sink,
        finding_name(finding.assertion),
        &[
            Given::IfAny("id", &finding.id),
            Given::Always("location", &finding.location),
            Given::IfAny("role", &finding.role),
            Given::IfAny("flag", &finding.flag),
            Given::Always("test", &finding.test),
        ],
    )
}

/// How a finding is named: an assert that is false, or a report that is true.
fn finding_name(assertion: bool) -> &'static str
    ensures { result.now ≡ finding_name assertion }
{
    if assertion {
        "svrl:failed-assert"
    } else {
        "svrl:successful-report"
    }
}

/// Writes the texts of a finding: its references, then its message.
#[tactic(auto, using(sch_io::proofs::Writes::writes))]
fn write_texts<O: Sink>(sink: &mut O, finding: &SvrlFinding) -> Result<(), Failed>
    ensures { Wrote (O.log sink.old) (O.log sink.new) (flat_map ref_lines finding.now.refs ++ message_lines finding.now.message) result }
{
    write_refs(sink, &finding.refs)?;
    write_text(sink, "svrl:text", &[], &finding.message)
}

/// Writes references.
fn write_refs<O: Sink>(sink: &mut O, refs: &RefList) -> Result<(), Failed>
    ensures { Wrote (O.log sink.old) (O.log sink.new) (flat_map ref_lines refs.now) result }
{
    for reference in refs.as_slice() {
        write_ref(sink, reference)?;
    }
    Ok(())
}

/// Writes a reference with its body.
fn write_ref<O: Sink>(sink: &mut O, reference: &Ref) -> Result<(), Failed>
    ensures { Wrote (O.log sink.old) (O.log sink.new) (ref_lines reference.now) result }
{
    if reference.property {
        write_named(sink, "svrl:property-reference", "property", reference)
    } else {
        write_named(sink, "svrl:diagnostic-reference", "diagnostic", reference)
    }
}

/// Writes a reference by the names of its element and its attribute.
fn write_named<O: Sink>(
    sink: &mut O,
    element: &str,
    attribute: &str,
    reference: &Ref,
) -> Result<(), Failed>
    ensures { Wrote (O.log sink.old) (O.log sink.new) (ref_as element.now attribute.now reference.now) result }
{
    write_text(
        sink,
        element,
        &[Given::Always(attribute, &reference.name)],
        &reference.body,
    )
}
