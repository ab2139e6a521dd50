//! The roles and flags of findings, counted.

ghost use Rattle.std.specs.Prelude.{◌≡◌, [], OnOk, IfOk};
ghost use Rattle.svrl_summary.specs.Labels.{counted, counted_behind, counted_too};
ghost use Rattle.svrl_summary.specs.Summary.{as_counts, label_of, labels_of, labels_of_pattern, labels_of_rule, of_option};
ghost use Rattle.svrl_summary.specs.inner.Counting.{shown};

use crate::summary::{LabelCount, LabelCountList};
use crate::tally::plus;
use sch_base::{ItemList, Text};
use std::alloc::{AllocError, Global};
use std::collections::BTreeMap;
use svrl_read::{Fired, SvrlFinding, SvrlPattern, SvrlReport};

/// What a finding may be labelled with.
#[derive(Clone, Copy, Debug, PartialEq, Eq)]
pub enum Label {
    Role,
    Flag,
}

/// The labels of a kind of the findings of a report, counted, in the order of their bytes.
///
/// Costs time linear in the report, and for each label what it costs to find it among the different ones.
pub(crate) fn count_labels(
    alloc: Global,
    label: Label,
    report: &SvrlReport,
) -> Result<LabelCountList, AllocError>
    ensures { IfOk result (λ counts. counts ≡ as_counts (counted (labels_of label report.now))) }
{
    let mut labels = Labels {
        label,
        counts: BTreeMap::new(alloc),
    };
    labels.count_report(report)?;
    labels.copied(alloc)
}

/// Labels of a kind that were counted.
#[derive(Drop)]
struct Labels<'a> {
    label: Label,
    counts: BTreeMap<&'a str, u64>,
}

impl<'a> Labels<'a> {
    /// Counts the labels of a report.
    fn count_report(&mut self, report: &'a SvrlReport) -> Result<(), AllocError>
        ensures counted { OnOk result (shown self.new.counts ≡ counted_behind (shown self.old.counts) (labels_of self.old.label report.now)) }
    {
        for pattern in report.patterns.as_slice() {
            self.count_pattern(pattern)?;
        }
        Ok(())
    }

    /// Counts the labels of a pattern.
    fn count_pattern(&mut self, pattern: &'a SvrlPattern) -> Result<(), AllocError>
        ensures counted { OnOk result (shown self.new.counts ≡ counted_behind (shown self.old.counts) (labels_of_pattern self.old.label pattern.now)) }
        ensures label { self.new.label ≡ self.old.label }
    {
        for fired in pattern.fired.as_slice() {
            self.count_rule(fired)?;
        }
        Ok(())
    }

    /// Counts the labels of a fired rule's findings.
    fn count_rule(&mut self, fired: &'a Fired) -> Result<(), AllocError>
        ensures counted { OnOk result (shown self.new.counts ≡ counted_behind (shown self.old.counts) (labels_of_rule self.old.label fired.now)) }
        ensures label { self.new.label ≡ self.old.label }
    {
        for finding in fired.findings.as_slice() {
            self.count_finding(finding)?;
        }
        Ok(())
    }

    /// Counts the label of a finding, where it has one.
    fn count_finding(&mut self, finding: &'a SvrlFinding) -> Result<(), AllocError>
        ensures counted { OnOk result (shown self.new.counts ≡ counted_behind (shown self.old.counts) (of_option (label_of self.old.label finding.now))) }
        ensures label { self.new.label ≡ self.old.label }
    {
        match label_of(self.label, finding) {
            Some(text) => self.count(text.as_str()),
            None => Ok(()),
        }
    }

    /// Counts a label once more. A count past 64 bits counts as want of memory.
    fn count(&mut self, text: &'a str) -> Result<(), AllocError>
        ensures counted { OnOk result (shown self.new.counts ≡ counted_too (shown self.old.counts) text.now) }
        ensures label { self.new.label ≡ self.old.label }
    {
        let before = self.counts.get(text).copied().unwrap_or(0);
        self.counts.insert(text, plus(before, 1)?)?;
        Ok(())
    }

    /// The labels with their counts.
    fn copied(&self, alloc: Global) -> Result<LabelCountList, AllocError>
        ensures { IfOk result (λ counts. counts ≡ as_counts (shown self.now.counts)) }
    {
        let mut counts = ItemList::new(alloc);
        for (text, count) in &self.counts {
            let label = Text::copy(alloc, text)?;
            counts.push(LabelCount {
                label,
                count: *count,
            })?;
        }
        Ok(counts)
    }
}

/// The label of a kind that a finding has.
fn label_of(label: Label, finding: &SvrlFinding) -> &Option<Text>
    ensures { result.now ≡ label_of label finding.now }
{
    match label {
        Label::Role => &finding.role,
        Label::Flag => &finding.flag,
    }
}
