//! Whether what a report says is whole: the first fault among its elements.

ghost use Rattle.doc_tree.specs.Table.{kids_of};
ghost use Rattle.svrl_read.specs.declared.fault.SvrlKind.TheVariants as kind;
ghost use Rattle.svrl_read.specs.FirstFault.{Ended, Refuses, fault_at, finding_fault, found_fault, kid_fault, lacks, prefix_fault, ref_fault, refs_fault, rule_fault};

use crate::fault::{SvrlError, SvrlFault, SvrlKind};
use crate::source::Source;
use crate::words::Word;
use doc_tree::NodeId;
use sch_base::Text;
use std::alloc::AllocError;

/// Where an element of a report stands.
#[derive(Clone, Copy)]
pub enum Place {
    /// Before the first active pattern.
    Outside,
    /// In the last active pattern, before its first fired rule.
    InPattern,
    /// In the last fired rule of the last active pattern.
    InRule,
}

/// The error of a fault at an element.
pub(crate) fn fault(kind: SvrlKind, n: NodeId) -> SvrlError
    ensures { Refuses (fault_at n kind) result }
{
    SvrlError::Fault(SvrlFault { kind, node: n })
}

impl Source<'_> {
    /// Refuses an element of a report that stands at a place.
    pub(crate) fn check_kid(
        &self,
        place: Place,
        n: NodeId,
        word: Option<Word>,
    ) -> Result<(), SvrlError>
        ensures { Ended (kid_fault self.now.tree.now.nodes place n word) result }
    {
        match word {
            Some(Word::Prefix) => self.check_prefix(n),
            Some(Word::Rule) => self.check_rule(place, n),
            Some(Word::Assert) => self.check_finding(place, n),
            Some(Word::Report) => self.check_finding(place, n),
            _ => Ok(()),
        }
    }

    /// Refuses a prefix.
    #[tactic(auto, using(crate::proofs::FaultLemmas::checks))]
    fn check_prefix(&self, n: NodeId) -> Result<(), SvrlError>
        ensures { Ended (prefix_fault self.now.tree.now.nodes n) result }
    {
        self.need(n, "prefix")?;
        self.need(n, "uri")
    }

    /// Refuses a fired rule.
    fn check_rule(&self, place: Place, n: NodeId) -> Result<(), SvrlError>
        ensures { Ended (rule_fault self.now.tree.now.nodes place n) result }
    {
        match place {
            Place::Outside => Err(fault(SvrlKind::NoPattern, n)),
            Place::InPattern | Place::InRule => self.need(n, "context"),
        }
    }

    /// Refuses a finding.
    fn check_finding(&self, place: Place, n: NodeId) -> Result<(), SvrlError>
        ensures { Ended (finding_fault self.now.tree.now.nodes place n) result }
    {
        match place {
            Place::Outside => Err(fault(SvrlKind::NoPattern, n)),
            Place::InPattern => Err(fault(SvrlKind::NoRule, n)),
            Place::InRule => self.check_found(n),
        }
    }

    /// Refuses what was found: by its own attributes, then by its references.
    fn check_found(&self, n: NodeId) -> Result<(), SvrlError>
        ensures { Ended (found_fault self.now.tree.now.nodes n) result }
    {
        self.need(n, "location")?;
        self.need(n, "test")?;
        self.check_refs(n)
    }

    /// Refuses the references among a node's kids.
    fn check_refs(&self, n: NodeId) -> Result<(), SvrlError>
        ensures { Ended (refs_fault self.now.tree.now.nodes (kids_of self.now.tree.now.nodes n)) result }
    {
        for kid in self.tree.kids(n) {
            self.check_ref(*kid)?;
        }
        Ok(())
    }

    /// Refuses a reference.
    fn check_ref(&self, n: NodeId) -> Result<(), SvrlError>
        ensures { Ended (ref_fault self.now.tree.now.nodes n) result }
    {
        match self.word_at(n) {
            Some(Word::Diagnostic) => self.need(n, "diagnostic"),
            Some(Word::Property) => self.need(n, "property"),
            _ => Ok(()),
        }
    }

    /// Refuses an element that lacks an attribute.
    fn need(&self, n: NodeId, name: &str) -> Result<(), SvrlError>
        ensures { Ended (lacks self.now.tree.now.nodes n name.now) result }
    {
        match self.said(n, name) {
            Some(_) => Ok(()),
            None => Err(self.no_attribute(n, name)),
        }
    }

    /// The error of an element that lacks an attribute.
    fn no_attribute(&self, n: NodeId, name: &str) -> SvrlError
        ensures { Refuses (fault_at n (kind.NoAttribute name.now)) result }
    {
        match Text::copy(self.alloc, name) {
            Ok(name) => fault(SvrlKind::NoAttribute { name }, n),
            Err(AllocError) => SvrlError::Memory,
        }
    }
}
