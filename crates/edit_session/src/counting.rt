//! What is counted of a document whose units were evaluated: the rules that fire, the assertions that fail, the reports that succeed.

ghost use Rattle.std.specs.Prelude.{◌≡◌, ◌+◌, ◌<◌, true, false, Some, IfOk, OnOk, count_by, length, sum_by};
ghost use Rattle.sch_compiled.specs.Plan.{rules_of};
ghost use Rattle.sch_compiled.specs.Soundness.{IsCounted};
ghost use Rattle.sch_compiled.specs.declared.findings.Outcome.TheVariants.{Fired};
ghost use Rattle.kept_units.specs.Outcomes.{Holds, LetsHold};
ghost use Rattle.edit_session.specs.Counts.{counts_of, is_kind, is_of_kind};
ghost use Rattle.edit_session.specs.inner.Counting.{Counted, Grows, adds, counts_by, fault_of, node_adds, pairs_add, part};

use crate::told::told_in_order;
use doc_tree::{NodeId, Tree};
use kept_units::{Evaluated, Lets, came_to_among};
use sch_compiled::{
    Finding, FindingList, Findings, Outcome, Plan, PlanAssert, PlanAssertList, PlanRuleList,
    StateFault,
};
use std::alloc::{AllocError, Global};

/// What a document counts by a plan, over all its nodes under all active patterns.
#[derive(Clone, Copy, Debug, PartialEq, Eq)]
pub struct Counts {
    /// How many rules fire.
    pub fired: u64,
    /// How many findings are of asserts.
    pub failed: u64,
    /// How many findings are of reports.
    pub reports: u64,
    /// Whether the state of the document is a fault.
    pub faulted: bool,
}

/// What is counted of a document by the outcomes of its units. A count past 64 bits counts as want of memory.
///
/// Looks at the outcomes of the nodes at which a rule fired or a fault was met; the memory grows with these nodes.
pub(crate) fn count_outcomes(
    alloc: Global,
    plan: &Plan,
    tree: &Tree,
    lets: &Lets,
    found: &Findings,
) -> Result<Counts, AllocError>
    requires counted { IsCounted plan.now }
    requires lets { LetsHold plan.now tree.now.nodes lets.now }
    requires found { Holds plan.now tree.now.nodes found.now }
    ensures { IfOk result (λ counts. counts ≡ counts_of plan.now tree.now.nodes) }
{
    let nodes = told_in_order(alloc, tree, found)?;
    let nodes = nodes.as_slice();
    let evaluated = came_to_among(plan, tree, lets, found, nodes);
    let faulted = fault_of(evaluated).is_some();
    let tally = tally_of_pairs(plan, found, nodes)?;
    Ok(tally.counts(faulted))
}

/// The first fault, where there is one.
fn fault_of(evaluated: Evaluated) -> Option<StateFault>
    ensures { result ≡ fault_of evaluated }
{
    match evaluated {
        Evaluated::Whole { .. } => None,
        Evaluated::Faulted(fault) => Some(fault),
    }
}

/// What nodes add under all patterns.
fn tally_of_pairs(plan: &Plan, found: &Findings, nodes: &[NodeId]) -> Result<Tally, AllocError>
    requires { found.now.patterns ≡ length plan.now.patterns }
    ensures { IfOk result (λ tally. (what : Counted) → part what tally ≡ pairs_add what plan.now found.now nodes.now) }
{
    let mut tally = Tally {
        fired: 0,
        failed: 0,
        reports: 0,
    };
    for p in 0..found.patterns() {
        tally.add_nodes(found, p, rules_of(plan, p), nodes)?;
    }
    Ok(tally)
}

/// The rules of an active pattern.
fn rules_of(plan: &Plan, p: u32) -> &PlanRuleList
    requires { p < length plan.now.patterns }
    ensures { result.now ≡ rules_of plan.now p }
{
    &plan.patterns.as_slice()[p as usize].rules
}

/// What was counted so far.
#[derive(Clone, Copy)]
struct Tally {
    fired: u64,
    failed: u64,
    reports: u64,
}

impl Tally {
    /// The counts of a document of which all was counted.
    fn counts(self, faulted: bool) -> Counts
        ensures { result ≡ counts_by self faulted }
    {
        let Tally {
            fired,
            failed,
            reports,
        } = self;
        Counts {
            fired,
            failed,
            reports,
            faulted,
        }
    }

    /// Adds what nodes add under a pattern with these rules.
    fn add_nodes(
        &mut self,
        found: &Findings,
        p: u32,
        rules: &PlanRuleList,
        nodes: &[NodeId],
    ) -> Result<(), AllocError>
        requires { p < found.now.patterns }
        ensures { OnOk result (Grows self.old self.new (λ what. sum_by (node_adds what found.now p rules.now) nodes.now)) }
    {
        for n in nodes {
            if let Some(outcome) = found.get(p, *n) {
                self.add_outcome(outcome, rules)?;
            }
        }
        Ok(())
    }

    /// Adds what an outcome adds under a pattern with these rules.
    fn add_outcome(&mut self, outcome: &Outcome, rules: &PlanRuleList) -> Result<(), AllocError>
        ensures { OnOk result (Grows self.old self.new (λ what. adds what rules.now outcome.now)) }
    {
        match outcome {
            Outcome::Fired { rule, findings } => self.add_rule(rules, *rule, findings),
            Outcome::NoRule | Outcome::Fault { .. } => Ok(()),
        }
    }

    /// Adds what a rule adds that fired with findings.
    fn add_rule(
        &mut self,
        rules: &PlanRuleList,
        rule: u32,
        findings: &FindingList,
    ) -> Result<(), AllocError>
        ensures { OnOk result (Grows self.old self.new (λ what. adds what rules.now (Fired rule findings.now))) }
    {
        self.fired = plus(self.fired, 1)?;
        match rules.get(rule as usize) {
            Some(rule) => self.add_findings(findings, &rule.assertions),
            None => Ok(()),
        }
    }

    /// Adds the findings among the assertions of their rule.
    fn add_findings(
        &mut self,
        findings: &FindingList,
        assertions: &PlanAssertList,
    ) -> Result<(), AllocError>
        ensures fired { OnOk result (self.new.fired ≡ self.old.fired) }
        ensures failed { OnOk result (self.new.failed ≡ self.old.failed + count_by (is_of_kind false assertions.now) findings.now) }
        ensures reports { OnOk result (self.new.reports ≡ self.old.reports + count_by (is_of_kind true assertions.now) findings.now) }
    {
        self.failed = plus(self.failed, of_kind(findings, assertions, false))?;
        self.reports = plus(self.reports, of_kind(findings, assertions, true))?;
        Ok(())
    }
}

/// The sum of two numbers.
fn plus(a: u64, b: u64) -> Result<u64, AllocError>
    ensures { IfOk result (λ sum. sum ≡ a + b) }
{
    a.checked_add(b).ok_or(AllocError)
}

/// How many findings are of asserts, or of reports, among the assertions of their rule.
fn of_kind(findings: &FindingList, assertions: &PlanAssertList, report: bool) -> u64
    ensures { result ≡ count_by (is_of_kind report assertions.now) findings.now }
{
    let mut count = 0;
    for finding in findings.as_slice() {
        if is_of_kind(finding, assertions, report) {
            count += 1;
        }
    }
    count
}

/// Whether a finding is of an assert, or of a report.
fn is_of_kind(finding: &Finding, assertions: &PlanAssertList, report: bool) -> bool
    ensures { result ≡ is_of_kind report assertions.now finding.now }
{
    match assertions.get(finding.assertion as usize) {
        Some(assertion) => is_kind(assertion, report),
        None => false,
    }
}

/// Whether an assertion is a report, or whether it is an assert.
fn is_kind(assertion: &PlanAssert, report: bool) -> bool
    ensures { result ≡ is_kind report assertion.now }
{
    if report {
        assertion.report
    } else {
        !assertion.report
    }
}
