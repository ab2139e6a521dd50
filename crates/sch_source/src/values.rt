//! The values that a document says: texts, prefixes, lets, phases and parameters.

ghost use Rattle.std.specs.Prelude.{◌≡◌, ◌++◌, IfOk, OnOk};
ghost use Rattle.sch_rules.specs.declared.word.Word.TheVariants as word;
ghost use Rattle.sch_rules.specs.Attributes.{said, said_text};
ghost use Rattle.sch_rules.specs.RawSchema.{active_of, let_of, ns_of, param_of, phase_of, read_if, read_kids};

use crate::source::Source;
use crate::words::is_word;
use doc_tree::NodeId;
use sch_base::{ItemList, Text};
use sch_model::{
    Active, ActiveList, LetDecl, LetDeclList, Ns, NsList, Param, ParamList, Phase, PhaseList,
};
use sch_rules::Word;
use std::alloc::AllocError;

/// Puts a value into a place, and lets go what stood there.
///
/// An assignment does the same, but spells out the parts of the old value, of which each proof would have to speak.
pub(crate) fn put<T: Drop>(place: &mut T, value: T)
    ensures { place.new ≡ value }
{
    *place = value;
}

impl Source<'_> {
    /// The value of an attribute, which is empty where it is missing.
    pub(crate) fn text(&self, n: NodeId, name: &str) -> Result<Text, AllocError>
        ensures { IfOk result (λ text. text ≡ said_text self.now.tree.now.nodes n name.now) }
    {
        Text::copy(self.alloc, self.said_text(n, name))
    }

    /// The value of an attribute, where there is one.
    pub(crate) fn optional(&self, n: NodeId, name: &str) -> Result<Option<Text>, AllocError>
        ensures { IfOk result (λ text. text ≡ said self.now.tree.now.nodes n name.now) }
    {
        match self.said(n, name) {
            Some(value) => Ok(Some(Text::copy(self.alloc, value)?)),
            None => Ok(None),
        }
    }

    /// Reads the value of an attribute into a place.
    pub(crate) fn read_optional(
        &self,
        place: &mut Option<Text>,
        n: NodeId,
        name: &str,
    ) -> Result<(), AllocError>
        ensures { OnOk result (place.new ≡ said self.now.tree.now.nodes n name.now) }
    {
        *place = self.optional(n, name)?;
        Ok(())
    }

    /// A prefix and its namespace.
    fn ns(&self, n: NodeId) -> Result<Ns, AllocError>
        ensures { IfOk result (λ ns. ns ≡ ns_of self.now.tree.now.nodes n) }
    {
        let prefix = self.text(n, "prefix")?;
        let uri = self.text(n, "uri")?;
        Ok(Ns {
            node: n,
            prefix,
            uri,
        })
    }

    /// A variable.
    pub(crate) fn let_decl(&self, n: NodeId) -> Result<LetDecl, AllocError>
        ensures { IfOk result (λ decl. decl ≡ let_of self.now.tree.now.nodes n) }
    {
        let name = self.text(n, "name")?;
        let value = self.text(n, "value")?;
        Ok(LetDecl {
            node: n,
            name,
            value,
        })
    }

    /// A pattern that a phase makes active.
    fn active(&self, n: NodeId) -> Result<Active, AllocError>
        ensures { IfOk result (λ active. active ≡ active_of self.now.tree.now.nodes n) }
    {
        let pattern = self.text(n, "pattern")?;
        Ok(Active { node: n, pattern })
    }

    /// A parameter.
    fn param(&self, n: NodeId) -> Result<Param, AllocError>
        ensures { IfOk result (λ param. param ≡ param_of self.now.tree.now.nodes n) }
    {
        let name = self.text(n, "name")?;
        let value = self.text(n, "value")?;
        Ok(Param {
            node: n,
            name,
            value,
        })
    }

    /// A phase.
    fn phase(&self, n: NodeId) -> Result<Phase, AllocError>
        ensures { IfOk result (λ phase. phase ≡ phase_of self.now.tree.now.nodes n) }
    {
        let id = self.text(n, "id")?;
        let lets = self.lets(n)?;
        let active = self.active_list(n)?;
        Ok(Phase {
            node: n,
            id,
            lets,
            active,
        })
    }

    /// Puts a prefix at the end, where the node is one.
    fn push_ns(&self, list: &mut NsList, n: NodeId) -> Result<(), AllocError>
        ensures { OnOk result (list.new ≡ list.old ++ read_if self.now.tree.now.nodes word.Ns (ns_of self.now.tree.now.nodes) n) }
    {
        if is_word(Word::Ns, self.word_at(n)) {
            list.push(self.ns(n)?)?;
        }
        Ok(())
    }

    /// The prefixes among a node's kids.
    pub(crate) fn ns_list(&self, n: NodeId) -> Result<NsList, AllocError>
        ensures { IfOk result (λ list. list ≡ read_kids self.now.tree.now.nodes word.Ns (ns_of self.now.tree.now.nodes) n) }
    {
        let mut list = ItemList::new(self.alloc);
        for kid in self.tree.kids(n) {
            self.push_ns(&mut list, *kid)?;
        }
        Ok(list)
    }

    /// Puts a let at the end, where the node is one.
    fn push_let(&self, list: &mut LetDeclList, n: NodeId) -> Result<(), AllocError>
        ensures { OnOk result (list.new ≡ list.old ++ read_if self.now.tree.now.nodes word.Let (let_of self.now.tree.now.nodes) n) }
    {
        if is_word(Word::Let, self.word_at(n)) {
            list.push(self.let_decl(n)?)?;
        }
        Ok(())
    }

    /// The lets among a node's kids.
    pub(crate) fn lets(&self, n: NodeId) -> Result<LetDeclList, AllocError>
        ensures { IfOk result (λ list. list ≡ read_kids self.now.tree.now.nodes word.Let (let_of self.now.tree.now.nodes) n) }
    {
        let mut list = ItemList::new(self.alloc);
        for kid in self.tree.kids(n) {
            self.push_let(&mut list, *kid)?;
        }
        Ok(list)
    }

    /// Puts an active pattern at the end, where the node is one.
    fn push_active(&self, list: &mut ActiveList, n: NodeId) -> Result<(), AllocError>
        ensures { OnOk result (list.new ≡ list.old ++ read_if self.now.tree.now.nodes word.Active (active_of self.now.tree.now.nodes) n) }
    {
        if is_word(Word::Active, self.word_at(n)) {
            list.push(self.active(n)?)?;
        }
        Ok(())
    }

    /// The active patterns among a node's kids.
    fn active_list(&self, n: NodeId) -> Result<ActiveList, AllocError>
        ensures { IfOk result (λ list. list ≡ read_kids self.now.tree.now.nodes word.Active (active_of self.now.tree.now.nodes) n) }
    {
        let mut list = ItemList::new(self.alloc);
        for kid in self.tree.kids(n) {
            self.push_active(&mut list, *kid)?;
        }
        Ok(list)
    }

    /// Puts a phase at the end, where the node is one.
    fn push_phase(&self, list: &mut PhaseList, n: NodeId) -> Result<(), AllocError>
        ensures { OnOk result (list.new ≡ list.old ++ read_if self.now.tree.now.nodes word.Phase (phase_of self.now.tree.now.nodes) n) }
    {
        if is_word(Word::Phase, self.word_at(n)) {
            list.push(self.phase(n)?)?;
        }
        Ok(())
    }

    /// The phases among a node's kids.
    pub(crate) fn phases(&self, n: NodeId) -> Result<PhaseList, AllocError>
        ensures { IfOk result (λ list. list ≡ read_kids self.now.tree.now.nodes word.Phase (phase_of self.now.tree.now.nodes) n) }
    {
        let mut list = ItemList::new(self.alloc);
        for kid in self.tree.kids(n) {
            self.push_phase(&mut list, *kid)?;
        }
        Ok(list)
    }

    /// Puts a parameter at the end, where the node is one.
    fn push_param(&self, list: &mut ParamList, n: NodeId) -> Result<(), AllocError>
        ensures { OnOk result (list.new ≡ list.old ++ read_if self.now.tree.now.nodes word.Param (param_of self.now.tree.now.nodes) n) }
    {
        if is_word(Word::Param, self.word_at(n)) {
            list.push(self.param(n)?)?;
        }
        Ok(())
    }

    /// The parameters among a node's kids.
    pub(crate) fn params(&self, n: NodeId) -> Result<ParamList, AllocError>
        ensures { IfOk result (λ list. list ≡ read_kids self.now.tree.now.nodes word.Param (param_of self.now.tree.now.nodes) n) }
    {
        let mut list = ItemList::new(self.alloc);
        for kid in self.tree.kids(n) {
            self.push_param(&mut list, *kid)?;
        }
        Ok(list)
    }
}
