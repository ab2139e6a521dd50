//! The schema that a document says, and what it says of itself.

ghost use Rattle.std.specs.Prelude.{◌≡◌, find, IfOk, OnOk, option_map};
ghost use Rattle.doc_tree.specs.Kinds.{is_element};
ghost use Rattle.doc_tree.specs.Table.{kids_of, kind_of};
ghost use Rattle.sch_rules.specs.declared.word.Word.TheVariants as word;
ghost use Rattle.sch_rules.specs.Elements.{document_element, word_at};
ghost use Rattle.sch_rules.specs.RawSchema.{head_of, schema_of, title_of};
ghost use Rattle.sch_rules.specs.Words.{is_word};
ghost use Rattle.sch_source.specs.Counts.{Counts};

use crate::source::Source;
use crate::values::put;
use crate::words::is_word;
use doc_tree::NodeId;
use sch_base::{ItemList, Text};
use sch_model::{Head, RawSchema};
use sch_rules::Word;
use std::alloc::AllocError;

impl Source<'_> {
    /// The document element, and the root where there is none.
    pub fn document_element(&self) -> NodeId
        ensures { result ≡ document_element self.now.tree.now.nodes }
    {
        match self.first_element(self.tree.root()) {
            Some(kid) => kid,
            None => self.tree.root(),
        }
    }

    /// The first element among a node's kids.
    fn first_element(&self, n: NodeId) -> Option<NodeId>
        ensures { result ≡ find (λ k. is_element (kind_of self.now.tree.now.nodes k)) (kids_of self.now.tree.now.nodes n) }
    {
        self.tree
            .kids(n)
            .iter()
            .copied()
            .find(|kid| self.tree.is_element(*kid))
    }

    /// The schema that an element says.
    pub fn schema(&self, n: NodeId) -> Result<RawSchema, AllocError>
        requires { Counts self.now.tree.now.nodes n }
        ensures { IfOk result (λ raw. raw ≡ schema_of self.now.tree.now.nodes n) }
    {
        let head = self.head(n)?;
        let mut raw = RawSchema {
            head,
            ns: ItemList::new(self.alloc),
            lets: ItemList::new(self.alloc),
            phases: ItemList::new(self.alloc),
            patterns: ItemList::new(self.alloc),
            diagnostics: ItemList::new(self.alloc),
            properties: ItemList::new(self.alloc),
        };
        match self.read_parts(&mut raw, n) {
            Ok(()) => Ok(raw),
            Err(error) => {
                drop(raw);
                Err(error)
            }
        }
    }

    /// Reads what a schema holds.
    fn read_parts(&self, raw: &mut RawSchema, n: NodeId) -> Result<(), AllocError>
        requires { Counts self.now.tree.now.nodes n }
        ensures { OnOk result (raw.new ≡ record (schema_of self.now.tree.now.nodes n) { head = raw.old.head }) }
    {
        self.read_declarations(raw, n)?;
        put(&mut raw.patterns, self.patterns(n)?);
        self.read_notes(raw, n)
    }

    /// Reads the diagnostics and the properties of a schema.
    fn read_notes(&self, raw: &mut RawSchema, n: NodeId) -> Result<(), AllocError>
        requires { Counts self.now.tree.now.nodes n }
        ensures { OnOk result (raw.new ≡ record raw.old { diagnostics = (schema_of self.now.tree.now.nodes n).diagnostics; properties = (schema_of self.now.tree.now.nodes n).properties }) }
    {
        put(
            &mut raw.diagnostics,
            self.notes(Word::Diagnostics, Word::Diagnostic, n)?,
        );
        put(
            &mut raw.properties,
            self.notes(Word::Properties, Word::Property, n)?,
        );
        Ok(())
    }

    /// Reads the prefixes, the lets and the phases of a schema.
    fn read_declarations(&self, raw: &mut RawSchema, n: NodeId) -> Result<(), AllocError>
        ensures { OnOk result (raw.new ≡ record (schema_of self.now.tree.now.nodes n) { head = raw.old.head; patterns = raw.old.patterns; diagnostics = raw.old.diagnostics; properties = raw.old.properties }) }
    {
        put(&mut raw.ns, self.ns_list(n)?);
        put(&mut raw.lets, self.lets(n)?);
        put(&mut raw.phases, self.phases(n)?);
        Ok(())
    }

    /// What the schema says of itself.
    fn head(&self, n: NodeId) -> Result<Head, AllocError>
        requires { Counts self.now.tree.now.nodes n }
        ensures { IfOk result (λ head. head ≡ head_of self.now.tree.now.nodes n) }
    {
        let mut head = Head {
            node: n,
            schema_version: None,
            default_phase: None,
            title: None,
        };
        match self.read_head(&mut head, n) {
            Ok(()) => Ok(head),
            Err(error) => {
                drop(head);
                Err(error)
            }
        }
    }

    /// Reads what the schema says of itself.
    fn read_head(&self, head: &mut Head, n: NodeId) -> Result<(), AllocError>
        requires { Counts self.now.tree.now.nodes n }
        ensures { OnOk result (head.new ≡ record (head_of self.now.tree.now.nodes n) { node = head.old.node }) }
    {
        self.read_optional(&mut head.schema_version, n, "schemaVersion")?;
        self.read_optional(&mut head.default_phase, n, "defaultPhase")?;
        put(&mut head.title, self.title_text(n)?);
        Ok(())
    }

    /// The text of the schema's title, where there is one.
    fn title_text(&self, n: NodeId) -> Result<Option<Text>, AllocError>
        requires { Counts self.now.tree.now.nodes n }
        ensures { IfOk result (λ title. title ≡ option_map (title_of self.now.tree.now.nodes) (find (λ k. is_word word.Title (word_at self.now.tree.now.nodes k)) (kids_of self.now.tree.now.nodes n))) }
    {
        self.tree.laws();
        match self.title_element(n) {
            Some(title) => Ok(Some(self.title(title)?)),
            None => Ok(None),
        }
    }

    /// The first title among a node's kids.
    fn title_element(&self, n: NodeId) -> Option<NodeId>
        ensures { result ≡ find (λ k. is_word word.Title (word_at self.now.tree.now.nodes k)) (kids_of self.now.tree.now.nodes n) }
    {
        self.tree
            .kids(n)
            .iter()
            .copied()
            .find(|kid| is_word(Word::Title, self.word_at(*kid)))
    }
}
