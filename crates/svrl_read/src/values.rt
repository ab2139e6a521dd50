//! The parts of a report that elements say.

ghost use Rattle.std.specs.Prelude.{◌≡◌, [], ◌++◌, codes, find, IfOk, OnOk};
ghost use Rattle.std.specs.List.{flat_map};
ghost use Rattle.doc_tree.specs.Table.{kids_of};
ghost use Rattle.svrl_read.specs.Places.{said, word_at};
ghost use Rattle.svrl_read.specs.Value.{finding_of, message_of, pattern_of, prefix_of, ref_at, ref_of, rule_of};
ghost use Rattle.svrl_read.specs.Words.{is_text};

use crate::source::Source;
use crate::value::{Fired, Prefix, Ref, RefList, SvrlFinding, SvrlPattern};
use crate::words::{Word, is_text};
use doc_tree::NodeId;
use sch_base::{ItemList, Text};
use std::alloc::AllocError;

/// Puts a value into a place, and lets go what stood there.
///
/// An assignment does the same, but spells out the parts of the old value, of which each proof would have to speak.
pub(crate) fn put<T: Drop>(place: &mut T, value: T)
    ensures { place.new ≡ value }
{
    *place = value;
}

impl Source<'_> {
    /// A prefix and its namespace.
    pub(crate) fn prefix(&self, n: NodeId) -> Result<Prefix, AllocError>
        ensures { IfOk result (λ prefix. prefix ≡ prefix_of self.now.tree.now.nodes n) }
    {
        let prefix = self.text(n, "prefix")?;
        let uri = self.text(n, "uri")?;
        Ok(Prefix { prefix, uri })
    }

    /// An active pattern, as long as no rule of it is read.
    pub(crate) fn pattern(&self, n: NodeId) -> Result<SvrlPattern, AllocError>
        ensures { IfOk result (λ pattern. pattern ≡ pattern_of self.now.tree.now.nodes n []) }
    {
        let mut id = None;
        self.read_optional(&mut id, n, "id")?;
        Ok(SvrlPattern {
            id,
            fired: ItemList::new(self.alloc),
        })
    }

    /// A fired rule, as long as no finding of it is read.
    pub(crate) fn rule(&self, n: NodeId) -> Result<Fired, AllocError>
        ensures { IfOk result (λ fired. fired ≡ rule_of self.now.tree.now.nodes n []) }
    {
        let context = self.text(n, "context")?;
        let mut fired = Fired {
            id: None,
            context,
            role: None,
            flag: None,
            findings: ItemList::new(self.alloc),
        };
        match self.read_labels(&mut fired.id, &mut fired.role, &mut fired.flag, n) {
            Ok(()) => Ok(fired),
            Err(error) => {
                drop(fired);
                Err(error)
            }
        }
    }

    /// Reads the labels of a rule or a finding into their places.
    fn read_labels(
        &self,
        id: &mut Option<Text>,
        role: &mut Option<Text>,
        flag: &mut Option<Text>,
        n: NodeId,
    ) -> Result<(), AllocError>
        ensures id { OnOk result (id.new ≡ said self.now.tree.now.nodes n (codes "id")) }
        ensures role { OnOk result (role.new ≡ said self.now.tree.now.nodes n (codes "role")) }
        ensures flag { OnOk result (flag.new ≡ said self.now.tree.now.nodes n (codes "flag")) }
    {
        self.read_optional(id, n, "id")?;
        self.read_optional(role, n, "role")?;
        self.read_optional(flag, n, "flag")
    }

    /// A finding: a failed assert, or a successful report.
    ///
    /// Costs time linear in what is below the node.
    pub(crate) fn finding(&self, assertion: bool, n: NodeId) -> Result<SvrlFinding, AllocError>
        ensures { IfOk result (λ finding. finding ≡ finding_of self.now.tree.now.nodes assertion n) }
    {
        let location = self.text(n, "location")?;
        let mut finding = SvrlFinding {
            assertion,
            id: None,
            location,
            role: None,
            flag: None,
            test: Text::from(String::new(self.alloc)),
            refs: ItemList::new(self.alloc),
            message: Text::from(String::new(self.alloc)),
        };
        match self.read_finding(&mut finding, n) {
            Ok(()) => Ok(finding),
            Err(error) => {
                drop(finding);
                Err(error)
            }
        }
    }

    /// Reads what a finding says besides its location.
    fn read_finding(&self, finding: &mut SvrlFinding, n: NodeId) -> Result<(), AllocError>
        ensures { OnOk result (finding.new ≡ record (finding_of self.now.tree.now.nodes finding.old.assertion n) { location = finding.old.location }) }
    {
        self.read_labels(&mut finding.id, &mut finding.role, &mut finding.flag, n)?;
        put(&mut finding.test, self.text(n, "test")?);
        self.read_texts(finding, n)
    }

    /// Reads the texts of a finding: its references, and its message.
    fn read_texts(&self, finding: &mut SvrlFinding, n: NodeId) -> Result<(), AllocError>
        ensures { OnOk result (finding.new ≡ record finding.old { refs = flat_map (ref_at self.now.tree.now.nodes) (kids_of self.now.tree.now.nodes n); message = message_of self.now.tree.now.nodes n }) }
    {
        put(&mut finding.refs, self.refs(n)?);
        put(&mut finding.message, self.message(n)?);
        Ok(())
    }

    /// The references among a node's kids.
    fn refs(&self, n: NodeId) -> Result<RefList, AllocError>
        ensures { IfOk result (λ list. list ≡ flat_map (ref_at self.now.tree.now.nodes) (kids_of self.now.tree.now.nodes n)) }
    {
        let mut list = ItemList::new(self.alloc);
        for kid in self.tree.kids(n) {
            self.push_ref(&mut list, *kid)?;
        }
        Ok(list)
    }

    /// Puts a reference at the end, where the node is one.
    fn push_ref(&self, list: &mut RefList, n: NodeId) -> Result<(), AllocError>
        ensures { OnOk result (list.new ≡ list.old ++ ref_at self.now.tree.now.nodes n) }
    {
        match self.word_at(n) {
            Some(Word::Diagnostic) => list.push(self.reference(false, "diagnostic", n)?),
            Some(Word::Property) => list.push(self.reference(true, "property", n)?),
            _ => Ok(()),
        }
    }

    /// A reference to what an attribute names.
    fn reference(&self, property: bool, attribute: &str, n: NodeId) -> Result<Ref, AllocError>
        ensures { IfOk result (λ reference. reference ≡ ref_of self.now.tree.now.nodes property attribute.now n) }
    {
        let name = self.text(n, attribute)?;
        let body = self.tree.string_value(self.alloc, n)?;
        Ok(Ref {
            property,
            name,
            body,
        })
    }

    /// The message of a finding.
    fn message(&self, n: NodeId) -> Result<Text, AllocError>
        ensures { IfOk result (λ text. text ≡ message_of self.now.tree.now.nodes n) }
    {
        match self.text_element(n) {
            Some(text) => self.tree.string_value(self.alloc, text),
            None => Text::copy(self.alloc, ""),
        }
    }

    /// The first `text` among a node's kids.
    fn text_element(&self, n: NodeId) -> Option<NodeId>
        ensures { result ≡ find (λ k. is_text (word_at self.now.tree.now.nodes k)) (kids_of self.now.tree.now.nodes n) }
    {
        self.tree
            .kids(n)
            .iter()
            .copied()
            .find(|kid| is_text(self.word_at(*kid)))
    }
}
