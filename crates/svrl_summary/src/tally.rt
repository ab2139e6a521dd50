//! What is counted of fired rules and their findings.

ghost use Rattle.std.specs.Prelude.{◌≡◌, ◌+◌, IfOk, OnOk, filter, length, not};
ghost use Rattle.svrl_summary.specs.Summary.{tally_of, tally_of_rule};

use std::alloc::AllocError;
use svrl_read::{Fired, SvrlFinding, SvrlPattern};

/// How many rules fired, and how many asserts failed and reports succeeded by them.
#[derive(Clone, Copy, Debug, PartialEq, Eq)]
pub struct Tally {
    pub fired: u64,
    pub asserts: u64,
    pub reports: u64,
}

/// What is counted of no rule.
pub(crate) const NOTHING: Tally = Tally {
    fired: 0,
    asserts: 0,
    reports: 0,
};

impl Tally {
    /// Adds another tally. A count past 64 bits counts as want of memory.
    pub(crate) fn add(&mut self, other: Tally) -> Result<(), AllocError>
        ensures fired { OnOk result (self.new.fired ≡ self.old.fired + other.fired) }
        ensures asserts { OnOk result (self.new.asserts ≡ self.old.asserts + other.asserts) }
        ensures reports { OnOk result (self.new.reports ≡ self.old.reports + other.reports) }
    {
        self.fired = plus(self.fired, other.fired)?;
        self.asserts = plus(self.asserts, other.asserts)?;
        self.reports = plus(self.reports, other.reports)?;
        Ok(())
    }
}

/// The sum of two counts; one past 64 bits counts as want of memory.
pub(crate) fn plus(a: u64, b: u64) -> Result<u64, AllocError>
    ensures { IfOk result (λ sum. sum ≡ a + b) }
{
    match a.checked_add(b) {
        Some(sum) => Ok(sum),
        None => Err(AllocError),
    }
}

/// What is counted of a pattern.
pub(crate) fn tally_of(pattern: &SvrlPattern) -> Result<Tally, AllocError>
    ensures { IfOk result (λ tally. tally ≡ tally_of pattern.now) }
{
    let mut tally = NOTHING;
    for fired in pattern.fired.as_slice() {
        tally.add(tally_of_rule(fired))?;
    }
    Ok(tally)
}

/// What is counted of a fired rule.
fn tally_of_rule(fired: &Fired) -> Tally
    ensures { result ≡ tally_of_rule fired.now }
{
    let findings = fired.findings.as_slice();
    Tally {
        fired: 1,
        asserts: asserts_in(findings) as u64,
        reports: reports_in(findings) as u64,
    }
}

/// How many of the findings are failed asserts.
fn asserts_in(findings: &[SvrlFinding]) -> usize
    ensures { result ≡ length (filter (λ finding. finding.assertion) findings.now) }
{
    findings.iter().filter(|finding| finding.assertion).count()
}

/// How many of the findings are successful reports.
fn reports_in(findings: &[SvrlFinding]) -> usize
    ensures { result ≡ length (filter (λ finding. not finding.assertion) findings.now) }
{
    findings.iter().filter(|finding| !finding.assertion).count()
}
