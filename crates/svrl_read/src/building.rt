//! A report that is being read, from its first element to its last.

ghost use Rattle.std.specs.Prelude.{◌≡◌, [], None, Some, OnOk, option_map};
ghost use Rattle.svrl_read.specs.FirstFault.{Ended, kid_fault};
ghost use Rattle.svrl_read.specs.Places.{word_at};
ghost use Rattle.svrl_read.specs.Value.{finding_of, pattern_of, prefix_of, rule_of};
ghost use Rattle.svrl_read.specs.inner.Building.{after, closed, place_in_pattern, place_of, with_finding, with_pattern, with_prefix, with_rule};

use crate::check::Place;
use crate::fault::SvrlError;
use crate::source::Source;
use crate::value::{Fired, SvrlFinding, SvrlPattern, SvrlReport};
use crate::values::put;
use crate::words::Word;
use doc_tree::NodeId;
use std::alloc::AllocError;

/// What was read of a report: its last pattern and the last fired rule of that are still open, and all before them stands in
/// the report.
#[derive(Drop)]
pub(crate) struct Builder {
    pub(crate) report: SvrlReport,
    pub(crate) pattern: Option<SvrlPattern>,
    pub(crate) fired: Option<Fired>,
}

impl Builder {
    /// Where the next element stands.
    fn place(&self) -> Place
        ensures { result ≡ place_of self.now.pattern self.now.fired }
    {
        match &self.pattern {
            Some(_) => self.place_in_pattern(),
            None => Place::Outside,
        }
    }

    /// The same where a pattern is open.
    fn place_in_pattern(&self) -> Place
        ensures { result ≡ place_in_pattern self.now.fired }
    {
        match &self.fired {
            Some(_) => Place::InRule,
            None => Place::InPattern,
        }
    }

    /// Puts the open rule, where there is one, into the open pattern.
    fn close_rule(&mut self) -> Result<(), AllocError>
        ensures { OnOk result (self.new ≡ record self.old { pattern = closed self.old.pattern self.old.fired; fired = None }) }
    {
        match self.fired.take() {
            Some(fired) => self.push_rule(fired),
            None => Ok(()),
        }
    }

    /// Puts a rule into the open pattern.
    fn push_rule(&mut self, fired: Fired) -> Result<(), AllocError>
        ensures { OnOk result (self.new ≡ record self.old { pattern = option_map (with_rule fired) self.old.pattern }) }
    {
        match &mut self.pattern {
            Some(pattern) => pattern.fired.push(fired),
            None => {
                drop(fired);
                Ok(())
            }
        }
    }

    /// Puts the open pattern, where there is one, into the report.
    pub(crate) fn close_pattern(&mut self) -> Result<(), AllocError>
        ensures { OnOk result (self.new ≡ record {
          report = with_pattern (closed self.old.pattern self.old.fired) self.old.report;
          pattern = None;
          fired = None;
        }) }
    {
        self.close_rule()?;
        match self.pattern.take() {
            Some(pattern) => self.report.patterns.push(pattern),
            None => Ok(()),
        }
    }

    /// Puts a finding into the open rule.
    fn push_finding(&mut self, finding: SvrlFinding) -> Result<(), AllocError>
        ensures { OnOk result (self.new ≡ record self.old { fired = option_map (with_finding finding) self.old.fired }) }
    {
        match &mut self.fired {
            Some(fired) => fired.findings.push(finding),
            None => {
                drop(finding);
                Ok(())
            }
        }
    }
}

impl Source<'_> {
    /// Reads the next element of a report.
    pub(crate) fn take(&self, builder: &mut Builder, n: NodeId) -> Result<(), SvrlError>
        ensures ended { Ended (kid_fault self.now.tree.now.nodes (place_of builder.old.pattern builder.old.fired) n (word_at self.now.tree.now.nodes n)) result }
        ensures read { OnOk result (builder.new ≡ after self.now.tree.now.nodes builder.old n (word_at self.now.tree.now.nodes n)) }
    {
        let word = self.word_at(n);
        self.check_kid(builder.place(), n, word)?;
        self.take_as(builder, n, word)?;
        Ok(())
    }

    /// Reads an element without fault.
    fn take_as(
        &self,
        builder: &mut Builder,
        n: NodeId,
        word: Option<Word>,
    ) -> Result<(), AllocError>
        ensures { OnOk result (builder.new ≡ after self.now.tree.now.nodes builder.old n word) }
    {
        match word {
            Some(Word::Prefix) => self.take_prefix(builder, n),
            Some(Word::Pattern) => self.take_pattern(builder, n),
            Some(Word::Rule) => self.take_rule(builder, n),
            Some(Word::Assert) => self.take_finding(builder, true, n),
            Some(Word::Report) => self.take_finding(builder, false, n),
            _ => Ok(()),
        }
    }

    /// Reads a prefix.
    fn take_prefix(&self, builder: &mut Builder, n: NodeId) -> Result<(), AllocError>
        ensures { OnOk result (builder.new ≡ record builder.old { report = with_prefix (prefix_of self.now.tree.now.nodes n) builder.old.report }) }
    {
        let prefix = self.prefix(n)?;
        builder.report.prefixes.push(prefix)
    }

    /// Reads an active pattern, which is open then.
    fn take_pattern(&self, builder: &mut Builder, n: NodeId) -> Result<(), AllocError>
        ensures { OnOk result (builder.new ≡ record {
          report = with_pattern (closed builder.old.pattern builder.old.fired) builder.old.report;
          pattern = Some (pattern_of self.now.tree.now.nodes n []);
          fired = None;
        }) }
    {
        builder.close_pattern()?;
        let pattern = self.pattern(n)?;
        put(&mut builder.pattern, Some(pattern));
        Ok(())
    }

    /// Reads a fired rule, which is open then.
    fn take_rule(&self, builder: &mut Builder, n: NodeId) -> Result<(), AllocError>
        ensures { OnOk result (builder.new ≡ record builder.old {
          pattern = closed builder.old.pattern builder.old.fired;
          fired = Some (rule_of self.now.tree.now.nodes n []);
        }) }
    {
        builder.close_rule()?;
        let fired = self.rule(n)?;
        put(&mut builder.fired, Some(fired));
        Ok(())
    }

    /// Reads a finding, which belongs to the open rule.
    fn take_finding(
        &self,
        builder: &mut Builder,
        assertion: bool,
        n: NodeId,
    ) -> Result<(), AllocError>
        ensures { OnOk result (builder.new ≡ record builder.old { fired = option_map (with_finding (finding_of self.now.tree.now.nodes assertion n)) builder.old.fired }) }
    {
        let finding = self.finding(assertion, n)?;
        builder.push_finding(finding)
    }
}
