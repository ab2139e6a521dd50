//! Writing the report.

ghost use Rattle.std.specs.Prelude.{◌≡◌, ℕ, ◌<◌, ◌++◌, All, IfOk, IfSome, OnOk, Some, true, length};
ghost use Rattle.std.specs.List.{flat_map, enumerate_from};
ghost use Rattle.sch_compiled.specs.Findings.{IsAtLiveNode, IsFindingOf, ToldInOrder, outcome_at};
ghost use Rattle.sch_compiled.specs.declared.findings.Outcome.TheVariants.{Fired};
ghost use Rattle.svrl_out.specs.declared.report.OutError.TheVariants as errors;
ghost use Rattle.doc_tree.specs.Table.{is_live};
ghost use Rattle.doc_tree.specs.Walks.{order};
ghost use Rattle.svrl_out.specs.Report.{IsOutcomeOf, IsReportable, Reported, finding_lines, ns_lines, outcome_lines, pattern_lines, placed_lines, report};
ghost use Rattle.svrl_out.specs.inner.Laid.{AreLaid};
ghost use Rattle.svrl_out.specs.inner.Printer.{HasOutcomes, IsPlace, IsPlaceOf, IsReady, held_lines, held_and_end, node_text, printed};

use crate::found::nodes_of_findings;
use crate::laid::put_fired_rule;
use crate::page::Page;
use crate::parts::{write_active_pattern, write_finding, write_namespaces, write_output_opening};
use doc_locations::Locator;
use doc_tree::{NodeId, Tree};
use pyx_write::write_end;
use sch_base::Text;
use sch_compiled::{
    Finding, FindingList, Findings, Outcome, Plan, PlanAssertList, PlanPattern, PlanRuleList,
};
use sch_io::{Failed, Sink};
use std::alloc::{AllocError, Global};
use thiserror::Error;
use xp_outcome::Slots;

/// Why a report was not written whole.
#[derive(Clone, Copy, Debug, PartialEq, Eq, Error)]
pub enum OutError {
    /// A write failed.
    #[error("a write failed")]
    Failed,
    /// Memory ran out.
    #[error("out of memory")]
    Memory,
}

impl From<AllocError> for OutError {
    ghost from_gives = { λ _ error. error ≡ errors.Memory };

    fn from(_refused: AllocError) -> OutError {
        OutError::Memory
    }
}

impl From<Failed> for OutError {
    ghost from_gives = { λ _ error. error ≡ errors.Failed };

    fn from(_failed: Failed) -> OutError {
        OutError::Failed
    }
}

/// Writes the report: each active pattern, and what it found at each node in document order.
///
/// After an error a front of the report was written. What it costs is what it costs to find the nodes at which a rule fired
/// or a fault was met, and what `write_report_among` costs.
pub fn write_report<O: Sink>(
    alloc: Global,
    plan: &Plan,
    tree: &Tree,
    found: &Findings,
    sink: &mut O,
) -> Result<(), OutError>
    requires { IsReportable plan.now tree.now.nodes found.now }
    ensures { Reported (O.log sink.old) (O.log sink.new) (report plan.now tree.now.nodes (outcome_at found.now)) result }
{
    let nodes = found.told_in_order(alloc, tree)?;
    write_report_among(alloc, plan, tree, found, nodes.as_slice(), sink)
}

/// The same for a caller who has the nodes of which something is told.
///
/// The lines of a rule are laid out once for a pattern, and copied for each node that fires it. Besides, the time grows with the
/// nodes, for each pattern, and for each finding with its length, and with the depth of the node that it is at, where this isn't
/// that of the finding before it; the siblings of such nodes and of what stands above them are looked at once, or for each where
/// they are few. Of the report one location is kept, the lines of the rules that fire, and one page of lines, so that the sink is
/// asked once for many lines.
pub fn write_report_among<O: Sink>(
    alloc: Global,
    plan: &Plan,
    tree: &Tree,
    found: &Findings,
    nodes: &[NodeId],
    sink: &mut O,
) -> Result<(), OutError>
    requires reportable { IsReportable plan.now tree.now.nodes found.now }
    requires told { ToldInOrder tree.now.nodes found.now nodes.now }
    ensures { Reported (O.log sink.old) (O.log sink.new) (report plan.now tree.now.nodes (outcome_at found.now)) result }
{
    let locator = locator_for(alloc, tree, found, nodes)?;
    tree.laws();
    let printer = Printer {
        alloc,
        plan,
        tree,
        found,
        nodes,
        locator: &locator,
    };
    printer.write_all(sink)
}

/// What finds the nodes that findings are at.
fn locator_for<'a>(
    alloc: Global,
    tree: &'a Tree,
    found: &Findings,
    nodes: &[NodeId],
) -> Result<Locator<'a>, AllocError>
    ensures { IfOk result (λ locator. locator ≡ tree.now.nodes) }
{
    let some = nodes_of_findings(alloc, found, nodes)?;
    Locator::new(alloc, tree, some.as_slice())
}

/// What a report is written from.
#[derive(Clone, Copy)]
struct Printer<'a> {
    alloc: Global,
    plan: &'a Plan,
    tree: &'a Tree,
    found: &'a Findings,
    /// Nodes in document order, among them all that fire a rule.
    nodes: &'a [NodeId],
    /// What finds the nodes of the tree.
    locator: &'a Locator<'a>,
}

/// A node, and the location that finds it.
#[derive(Drop)]
struct Place {
    node: NodeId,
    location: Text,
}

impl Printer<'_> {
    /// Writes the report.
    fn write_all<O: Sink>(&self, sink: &mut O) -> Result<(), OutError>
        requires ready { IsReady self.now }
        ensures { Reported (O.log sink.old) (O.log sink.new) (printed self.now) result }
    {
        write_output_opening(sink, self.plan)?;
        self.write_held_and_end(sink)
    }

    /// Writes what the output holds, and its end.
    fn write_held_and_end<O: Sink>(&self, sink: &mut O) -> Result<(), OutError>
        requires ready { IsReady self.now }
        ensures { Reported (O.log sink.old) (O.log sink.new) (held_and_end self.now) result }
    {
        self.write_held(sink)?;
        write_end(sink, "svrl:schematron-output")?;
        Ok(())
    }

    /// Writes what the output holds: the namespaces, then the patterns.
    fn write_held<O: Sink>(&self, sink: &mut O) -> Result<(), OutError>
        requires ready { IsReady self.now }
        ensures { Reported (O.log sink.old) (O.log sink.new) (held_lines self.now) result }
    {
        write_namespaces(sink, &self.plan.namespaces)?;
        self.write_patterns(sink)
    }

    /// Writes the patterns, in their order.
    fn write_patterns<O: Sink>(&self, sink: &mut O) -> Result<(), OutError>
        requires ready { IsReady self.now }
        ensures { Reported (O.log sink.old) (O.log sink.new)
            (flat_map (pattern_lines self.now.tree.now.nodes (outcome_at self.now.found.now)) (enumerate_from 0 self.now.plan.now.patterns)) result }
    {
        for p in 0..self.found.patterns() {
            self.write_pattern(p, &self.plan.patterns.as_slice()[p as usize], sink)?;
        }
        Ok(())
    }

    /// Writes a pattern, and what it found at each node.
    fn write_pattern<O: Sink>(
        &self,
        p: u32,
        pattern: &PlanPattern,
        sink: &mut O,
    ) -> Result<(), OutError>
        requires ready { IsReady self.now }
        requires counted { p < self.now.found.now.patterns }
        requires outcomes { HasOutcomes self.now p pattern.now.rules }
        ensures { Reported (O.log sink.old) (O.log sink.new)
            (pattern_lines self.now.tree.now.nodes (outcome_at self.now.found.now) (p, pattern.now)) result }
    {
        write_active_pattern(sink, pattern)?;
        self.write_nodes(p, &pattern.rules, sink)
    }

    /// Writes what a pattern with these rules found at each node, in their order. The others have nothing to tell.
    fn write_nodes<O: Sink>(
        &self,
        p: u32,
        rules: &PlanRuleList,
        sink: &mut O,
    ) -> Result<(), OutError>
        requires ready { IsReady self.now }
        requires counted { p < self.now.found.now.patterns }
        requires outcomes { HasOutcomes self.now p rules.now }
        ensures { Reported (O.log sink.old) (O.log sink.new)
            (flat_map (node_text self.now p rules.now) (order self.now.tree.now.nodes)) result }
    {
        let mut page = Page::new(self.alloc);
        let mut laid = Slots::new(self.alloc);
        for n in self.nodes {
            self.put_node(p, rules, *n, &mut laid, &mut page)?;
            page.turn_if_full(sink)?;
        }
        page.turn(sink)?;
        Ok(())
    }

    /// Puts on the page what a pattern with these rules found at a node: the rule that fired, if one did, and its findings.
    fn put_node(
        &self,
        p: u32,
        rules: &PlanRuleList,
        n: NodeId,
        laid: &mut Slots<Page>,
        page: &mut Page,
    ) -> Result<(), AllocError>
        requires ready { IsReady self.now }
        requires counted { p < self.now.found.now.patterns }
        requires outcome { IsOutcomeOf self.now.tree.now.nodes rules.now (outcome_at self.now.found.now p n) }
        requires laid { AreLaid rules.now laid.old }
        ensures put { OnOk result (page.new.bytes.items ≡ page.old.bytes.items ++ node_text self.now p rules.now n) }
        ensures laid { OnOk result (AreLaid rules.now laid.new) }
    {
        match self.found.get(p, n) {
            Some(Outcome::Fired { rule, findings }) => {
                self.put_fired(rules, *rule, findings, laid, page)
            }
            _ => Ok(()),
        }
    }

    /// Puts on the page the rule that a node fired, and its findings.
    fn put_fired(
        &self,
        rules: &PlanRuleList,
        rule: u32,
        findings: &FindingList,
        laid: &mut Slots<Page>,
        page: &mut Page,
    ) -> Result<(), AllocError>
        requires ready { IsReady self.now }
        requires outcome { IsOutcomeOf self.now.tree.now.nodes rules.now (Some (Fired rule findings.now)) }
        requires laid { AreLaid rules.now laid.old }
        ensures put { OnOk result (page.new.bytes.items ≡ page.old.bytes.items
            ++ outcome_lines self.now.tree.now.nodes rules.now (Some (Fired rule findings.now))) }
        ensures laid { OnOk result (AreLaid rules.now laid.new) }
    {
        put_fired_rule(self.alloc, rules, rule, laid, page)?;
        let fired = &rules.as_slice()[rule as usize];
        self.put_findings(&fired.assertions, findings, page)
    }

    /// Puts on the page the findings of a rule with these assertions, each at its place.
    fn put_findings(
        &self,
        assertions: &PlanAssertList,
        findings: &FindingList,
        page: &mut Page,
    ) -> Result<(), AllocError>
        requires ready { IsReady self.now }
        requires named { All (IsFindingOf assertions.now) findings.now }
        requires live { All (IsAtLiveNode self.now.tree.now.nodes) findings.now }
        ensures { OnOk result (page.new.bytes.items ≡ page.old.bytes.items
            ++ flat_map (placed_lines self.now.tree.now.nodes assertions.now) findings.now) }
    {
        let mut last = None;
        for finding in findings.as_slice() {
            let place = self.place_of(last, finding.at)?;
            put_finding(&place.location, assertions, finding, page)?;
            last = Some(place);
        }
        Ok(())
    }

    /// The place of a node: the last one, where the node has it, or else its location is found.
    fn place_of(&self, last: Option<Place>, n: NodeId) -> Result<Place, AllocError>
        requires ready { IsReady self.now }
        requires live { is_live self.now.tree.now.nodes n ≡ true }
        requires last { IfSome last (IsPlace self.now.tree.now.nodes) }
        ensures { IfOk result (IsPlaceOf self.now.tree.now.nodes n) }
    {
        if let Some(place) = last {
            if place.node == n {
                return Ok(place);
            }
        }
        let location = self.locator.location(self.alloc, n)?;
        Ok(Place { node: n, location })
    }
}

/// Puts on the page a finding at a location, of a rule with these assertions.
fn put_finding(
    location: &Text,
    assertions: &PlanAssertList,
    finding: &Finding,
    page: &mut Page,
) -> Result<(), AllocError>
    requires { IsFindingOf assertions.now finding.now }
    ensures { OnOk result (page.new.bytes.items ≡ page.old.bytes.items ++ finding_lines location.now assertions.now finding.now) }
{
    match write_finding(page, location, assertions, finding) {
        Ok(()) => Ok(()),
        Err(_) => Err(AllocError),
    }
}
