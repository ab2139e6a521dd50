//! Reading a report.

ghost use Rattle.std.specs.Prelude.{◌≡◌, [], None, true, IfErr, IfOk, OnOk};
ghost use Rattle.doc_tree.specs.Kinds.{is_document};
ghost use Rattle.doc_tree.specs.Table.{kids_of};
ghost use Rattle.svrl_read.specs.FirstFault.{Ended, Refuses, first_fault, kids_fault, output_fault};
ghost use Rattle.svrl_read.specs.declared.check.Place.TheVariants as place;
ghost use Rattle.svrl_read.specs.Places.{word_at};
ghost use Rattle.svrl_read.specs.Value.{output_of, report_of};
ghost use Rattle.svrl_read.specs.inner.Building.{place_of, report_then};

use crate::building::Builder;
use crate::check::fault;
use crate::fault::{SvrlError, SvrlKind};
use crate::source::Source;
use crate::value::SvrlReport;
use crate::words::Word;
use doc_tree::{NodeId, Tree};
use sch_base::ItemList;
use std::alloc::{AllocError, Global};

/// Reads a report from its document, or gives its first fault: of the first element in document order, and there of the
/// first kind.
///
/// Costs time and memory linear in the document; each kid of the document element is visited once.
pub fn read_svrl(alloc: Global, tree: &Tree) -> Result<SvrlReport, SvrlError>
    requires { is_document tree.now.nodes ≡ true }
    ensures refused { IfErr result (Refuses (first_fault tree.now.nodes)) }
    ensures accepted { OnOk result (first_fault tree.now.nodes ≡ None) }
    ensures read { IfOk result (λ report. report ≡ report_of tree.now.nodes) }
{
    let source = Source { alloc, tree };
    let n = source.document_element();
    source.whole(n)
}

impl Source<'_> {
    /// The report that a document element says, or the first fault.
    fn whole(&self, n: NodeId) -> Result<SvrlReport, SvrlError>
        ensures refused { IfErr result (Refuses (output_fault self.now.tree.now.nodes n (word_at self.now.tree.now.nodes n))) }
        ensures accepted { OnOk result (output_fault self.now.tree.now.nodes n (word_at self.now.tree.now.nodes n) ≡ None) }
        ensures read { IfOk result (λ report. report ≡ output_of self.now.tree.now.nodes n) }
    {
        match self.word_at(n) {
            Some(Word::Output) => self.output(n),
            _ => Err(fault(SvrlKind::NotOutput, n)),
        }
    }

    /// The report that an element says, or the first fault among its kids.
    fn output(&self, n: NodeId) -> Result<SvrlReport, SvrlError>
        ensures refused { IfErr result (Refuses (kids_fault self.now.tree.now.nodes place.Outside (kids_of self.now.tree.now.nodes n))) }
        ensures accepted { OnOk result (kids_fault self.now.tree.now.nodes place.Outside (kids_of self.now.tree.now.nodes n) ≡ None) }
        ensures read { IfOk result (λ report. report ≡ output_of self.now.tree.now.nodes n) }
    {
        let report = self.head(n)?;
        let mut builder = Builder {
            report,
            pattern: None,
            fired: None,
        };
        match self.take_all(&mut builder, n) {
            Ok(()) => Ok(builder.report),
            Err(error) => {
                drop(builder);
                Err(error)
            }
        }
    }

    /// What a report says of itself, as long as nothing in it is read.
    fn head(&self, n: NodeId) -> Result<SvrlReport, AllocError>
        ensures { IfOk result (λ report. report ≡ record (output_of self.now.tree.now.nodes n) { prefixes = []; patterns = [] }) }
    {
        let mut report = SvrlReport {
            title: None,
            phase: None,
            schema_version: None,
            prefixes: ItemList::new(self.alloc),
            patterns: ItemList::new(self.alloc),
        };
        match self.read_head(&mut report, n) {
            Ok(()) => Ok(report),
            Err(error) => {
                drop(report);
                Err(error)
            }
        }
    }

    /// Reads what a report says of itself.
    fn read_head(&self, report: &mut SvrlReport, n: NodeId) -> Result<(), AllocError>
        ensures { OnOk result (report.new ≡ record (output_of self.now.tree.now.nodes n) { prefixes = report.old.prefixes; patterns = report.old.patterns }) }
    {
        self.read_optional(&mut report.title, n, "title")?;
        self.read_optional(&mut report.phase, n, "phase")?;
        self.read_optional(&mut report.schema_version, n, "schemaVersion")
    }

    /// Reads what a report holds, behind what was read.
    fn take_all(&self, builder: &mut Builder, n: NodeId) -> Result<(), SvrlError>
        ensures ended { Ended (kids_fault self.now.tree.now.nodes (place_of builder.old.pattern builder.old.fired) (kids_of self.now.tree.now.nodes n)) result }
        ensures read { OnOk result (builder.new.report ≡ report_then self.now.tree.now.nodes builder.old (kids_of self.now.tree.now.nodes n)) }
    {
        for kid in self.tree.kids(n) {
            self.take(builder, *kid)?;
        }
        builder.close_pattern()?;
        Ok(())
    }
}
