//! What is counted of a report.

ghost use Rattle.std.specs.Prelude.{◌≡◌, IfOk};
ghost use Rattle.svrl_summary.specs.Summary.{count_of, summary_of};

use crate::label::{Label, count_labels};
use crate::tally::{NOTHING, Tally, tally_of};
use sch_base::{ItemList, Text};
use std::alloc::{AllocError, Global};
use svrl_read::{SvrlPattern, SvrlReport};

/// What is counted of a report: all of it, each pattern, and how often findings have each role and each flag, in the order of the bytes of
/// these.
#[derive(Drop)]
pub struct Summary {
    pub whole: Tally,
    pub patterns: PatternCountList,
    pub roles: LabelCountList,
    pub flags: LabelCountList,
}

/// What is counted of a pattern, with its id.
#[derive(Drop)]
pub struct PatternCount {
    pub id: Option<Text>,
    pub tally: Tally,
}

/// How often findings have a label.
#[derive(Drop)]
pub struct LabelCount {
    pub label: Text,
    pub count: u64,
}

pub type PatternCountList = ItemList<PatternCount>;

pub type LabelCountList = ItemList<LabelCount>;

/// What is counted of a report. A count past 64 bits counts as want of memory.
///
/// Costs time linear in the report, and for each finding what it costs to find its role and its flag among the different ones.
pub fn summary_of(alloc: Global, report: &SvrlReport) -> Result<Summary, AllocError>
    ensures { IfOk result (λ summary. summary ≡ summary_of report.now) }
{
    let whole = whole_of(report)?;
    let roles = count_labels(alloc, Label::Role, report)?;
    let flags = count_labels(alloc, Label::Flag, report)?;
    let patterns = count_patterns(alloc, report)?;
    Ok(Summary {
        whole,
        patterns,
        roles,
        flags,
    })
}

/// What is counted of all patterns.
fn whole_of(report: &SvrlReport) -> Result<Tally, AllocError>
    ensures { IfOk result (λ tally. tally ≡ (summary_of report.now).whole) }
{
    let mut whole = NOTHING;
    for pattern in report.patterns.as_slice() {
        whole.add(tally_of(pattern)?)?;
    }
    Ok(whole)
}

/// What is counted of each pattern.
fn count_patterns(alloc: Global, report: &SvrlReport) -> Result<PatternCountList, AllocError>
    ensures { IfOk result (λ patterns. patterns ≡ (summary_of report.now).patterns) }
{
    let mut counts = ItemList::new(alloc);
    for pattern in report.patterns.as_slice() {
        counts.push(count_of(alloc, pattern)?)?;
    }
    Ok(counts)
}

/// What is counted of a pattern, with its id.
fn count_of(alloc: Global, pattern: &SvrlPattern) -> Result<PatternCount, AllocError>
    ensures { IfOk result (λ count. count ≡ count_of pattern.now) }
{
    let tally = tally_of(pattern)?;
    let id = copied(alloc, &pattern.id)?;
    Ok(PatternCount { id, tally })
}

/// A copy of a text, where there is one.
fn copied(alloc: Global, text: &Option<Text>) -> Result<Option<Text>, AllocError>
    ensures { IfOk result (λ copy. copy ≡ text.now) }
{
    match text {
        Some(text) => Ok(Some(Text::copy(alloc, text.as_str())?)),
        None => Ok(None),
    }
}
