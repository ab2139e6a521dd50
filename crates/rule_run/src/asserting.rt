//! The assertions of a rule at a node (ISO/IEC 19757-3, clause 5.4).

ghost use Rattle.std.specs.Prelude.{◌≡◌, ◌<◌, ◌≤◌, ◌++◌, ◌^◌, length, OnOk, OnErr};
ghost use Rattle.std.specs.Option.{option_to_list};
ghost use Rattle.xp_outcome.specs.Evaluation.{bind, done};
ghost use Rattle.xp_outcome.specs.Running.{Ran};
ghost use Rattle.xp_values.specs.Conversions.{to_truth};
ghost use Rattle.xp_meaning.specs.Evaluation.{meaning};
ghost use Rattle.xp_meaning.specs.Results.{shown};
ghost use Rattle.sch_units.specs.Firing.{all_asserted, asserted, found, is_found};
ghost use Rattle.sch_units.specs.Messages.{alone};

use crate::placing::own_or;
use crate::validator::Validator;
use sch_base::ItemList;
use sch_compiled::{Finding, FindingList, PlanAssert};
use std::alloc::AllocError;
use std::sync::ledger::Ledger;
use xp_meaning::Lets;
use xp_outcome::{Recorder, Steps};
use xp_typed_tree::Typed;
use xp_values::{EvalError, to_truth};

impl Validator<'_> {
    /// The findings of the assertions of a rule with a subject or none, in order.
    pub(crate) fn all_asserted<L: Ledger>(
        &self,
        subject: &Option<Typed>,
        assertions: &[PlanAssert],
        lets: &Lets,
        reads: &mut Recorder,
        steps: &mut Steps<L>,
    ) -> Result<FindingList, EvalError>
        requires { length assertions.now < 2 ^ 32 }
        ensures { Ran (all_asserted self.now.caller.tree.now.nodes lets.now self.now.node subject.now assertions.now)
            (shown result) reads.old reads.new steps.old steps.new }
    {
        let mut findings = ItemList::new(self.caller.alloc);
        for (i, assertion) in assertions.iter().enumerate() {
            let finding = self.asserted(subject, i as u32, assertion, lets, reads, steps)?;
            push_found(&mut findings, finding)?;
        }
        Ok(findings)
    }

    /// The finding of an assertion, counted from 0, if there is one.
    fn asserted<L: Ledger>(
        &self,
        subject: &Option<Typed>,
        i: u32,
        assertion: &PlanAssert,
        lets: &Lets,
        reads: &mut Recorder,
        steps: &mut Steps<L>,
    ) -> Result<Option<Finding>, EvalError>
        ensures { Ran (asserted self.now.caller.tree.now.nodes lets.now self.now.node subject.now i assertion.now)
            (shown result) reads.old reads.new steps.old steps.new }
    {
        if self.is_finding(assertion, lets, reads, steps)? {
            let finding = self.found(subject, i, assertion, lets, reads, steps)?;
            return Ok(Some(finding));
        }
        Ok(None)
    }

    /// Whether an assertion has a finding: the truth of its test.
    fn is_finding<L: Ledger>(
        &self,
        assertion: &PlanAssert,
        lets: &Lets,
        reads: &mut Recorder,
        steps: &mut Steps<L>,
    ) -> Result<bool, EvalError>
        ensures { Ran (bind (meaning self.now.caller.tree.now.nodes lets.now assertion.now.test (alone self.now.node)) (λ v. done (is_found assertion.now.report (to_truth v))))
            (shown result) reads.old reads.new steps.old steps.new }
    {
        let value = self.value(&assertion.test, lets, reads, steps)?;
        let truth = to_truth(&value);
        drop(value);
        Ok(is_found(assertion.report, truth))
    }

    /// The finding of an assertion: where it is, the texts of its diagnostics and of its properties, then its message.
    fn found<L: Ledger>(
        &self,
        subject: &Option<Typed>,
        i: u32,
        assertion: &PlanAssert,
        lets: &Lets,
        reads: &mut Recorder,
        steps: &mut Steps<L>,
    ) -> Result<Finding, EvalError>
        ensures { Ran (found self.now.caller.tree.now.nodes lets.now self.now.node subject.now i assertion.now)
            (shown result) reads.old reads.new steps.old steps.new }
    {
        let own = own_or(&assertion.subject, subject);
        let place = self.placed_at(own, lets, reads, steps)?;
        let named = assertion.diagnostics.as_slice();
        let diagnostics = self.diagnostic_texts(named, lets, reads, steps)?;
        let named = assertion.properties.as_slice();
        let properties = self.diagnostic_texts(named, lets, reads, steps)?;
        let message = self.message(assertion.message.as_slice(), lets, reads, steps)?;
        Ok(Finding {
            assertion: i,
            at: place,
            diagnostics,
            properties,
            message,
        })
    }
}

/// Whether a test's truth is a finding: of a report where it is true, of an assert where it is false.
fn is_found(report: bool, truth: bool) -> bool
    ensures { result ≡ is_found report truth }
{
    if report { truth } else { !truth }
}

/// Puts a finding, if there is one, at the end.
fn push_found(findings: &mut FindingList, finding: Option<Finding>) -> Result<(), AllocError>
    ensures pushed { OnOk result (findings.new ≡ findings.old ++ option_to_list finding) }
    ensures unchanged { OnErr result (findings.new ≡ findings.old) }
{
    match finding {
        Some(finding) => findings.push(finding),
        None => Ok(()),
    }
}
