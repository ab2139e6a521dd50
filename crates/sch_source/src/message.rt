//! Messages and titles.

ghost use Rattle.std.specs.Prelude.{◌≡◌, ◌∷◌, [], ◌++◌, string_bytes, IfOk, OnOk};
ghost use Rattle.std.specs.List.{flat_map};
ghost use Rattle.doc_tree.specs.Walks.{below};
ghost use Rattle.sch_model.specs.declared.parts.Part.TheVariants as part;
ghost use Rattle.sch_rules.specs.RawSchema.{chars_part, counted_text, message_of, own_part, part_at, title_of};
ghost use Rattle.sch_source.specs.Counts.{Stands};
ghost use Rattle.sch_source.specs.inner.Messages.{IsFlushed, ReadsOn};

use crate::source::Source;
use crate::words::is_word;
use doc_tree::NodeId;
use sch_base::{ItemList, Text};
use sch_model::{Part, PartList};
use sch_rules::Word;
use std::alloc::{AllocError, Global};

/// A message that is being read: its parts so far, and the characters after them.
#[derive(Drop)]
pub(crate) struct Message {
    alloc: Global,
    parts: PartList,
    text: String,
}

impl Message {
    /// Reads characters, which belong to those before them.
    fn push_text(&mut self, text: &str) -> Result<(), AllocError>
        ensures { OnOk result (ReadsOn self.old self.new (chars_part text.now)) }
    {
        self.text.push_str(text)?;
        Ok(())
    }

    /// Reads a `value-of`.
    fn push_value_of(&mut self, node: NodeId, select: Text) -> Result<(), AllocError>
        ensures { OnOk result (ReadsOn self.old self.new (part.ValueOf node select ∷ [])) }
    {
        self.flush()?;
        self.parts.push(Part::ValueOf { node, select })
    }

    /// Reads a `name`.
    fn push_name(&mut self, node: NodeId, path: Option<Text>) -> Result<(), AllocError>
        ensures { OnOk result (ReadsOn self.old self.new (part.Name node path ∷ [])) }
    {
        self.flush()?;
        self.parts.push(Part::Name { node, path })
    }

    /// Makes the characters at the end a part, where there are some.
    fn flush(&mut self) -> Result<(), AllocError>
        ensures { OnOk result (IsFlushed self.old self.new) }
    {
        if !self.text.is_empty() {
            let text = Text::copy(self.alloc, self.text.as_str())?;
            self.parts.push(Part::Chars(text))?;
            self.text.clear();
        }
        Ok(())
    }
}

impl Source<'_> {
    /// The message of an assertion or a diagnostic.
    ///
    /// Costs time linear in what is below the node.
    pub(crate) fn message(&self, n: NodeId) -> Result<PartList, AllocError>
        requires { Stands self.now.tree.now.nodes n }
        ensures { IfOk result (λ parts. parts ≡ message_of self.now.tree.now.nodes n) }
    {
        let mut message = Message {
            alloc: self.alloc,
            parts: ItemList::new(self.alloc),
            text: String::new(self.alloc),
        };
        self.push_parts(&mut message, n)?;
        message.flush()?;
        Ok(message.parts)
    }

    /// Reads the parts that a node and all below it are.
    fn push_parts(&self, message: &mut Message, n: NodeId) -> Result<(), AllocError>
        requires { Stands self.now.tree.now.nodes n }
        ensures { OnOk result (ReadsOn message.old message.new (flat_map (part_at self.now.tree.now.nodes) (below self.now.tree.now.nodes n))) }
    {
        self.tree.laws();
        self.push_part(message, n)?;
        if self.is_foreign(n) {
            return Ok(());
        }
        for kid in self.tree.kids(n) {
            self.push_parts(message, *kid)?;
        }
        Ok(())
    }

    /// Reads the part that a node is.
    fn push_part(&self, message: &mut Message, n: NodeId) -> Result<(), AllocError>
        ensures { OnOk result (ReadsOn message.old message.new (own_part self.now.tree.now.nodes n)) }
    {
        let word = self.word_at(n);
        if is_word(Word::ValueOf, word) {
            let select = self.text(n, "select")?;
            message.push_value_of(n, select)
        } else if is_word(Word::Name, word) {
            let path = self.optional(n, "path")?;
            message.push_name(n, path)
        } else {
            message.push_text(self.text_at(n))
        }
    }

    /// The text of a title.
    pub(crate) fn title(&self, n: NodeId) -> Result<Text, AllocError>
        requires { Stands self.now.tree.now.nodes n }
        ensures { IfOk result (λ text. text ≡ title_of self.now.tree.now.nodes n) }
    {
        let mut text = String::new(self.alloc);
        self.push_text_below(&mut text, n)?;
        Ok(Text::from(text))
    }

    /// Puts the text of a title that stands at a node and below it at the end.
    fn push_text_below(&self, text: &mut String, n: NodeId) -> Result<(), AllocError>
        requires { Stands self.now.tree.now.nodes n }
        ensures { OnOk result (string_bytes text.new ≡ string_bytes text.old ++ flat_map (counted_text self.now.tree.now.nodes) (below self.now.tree.now.nodes n)) }
    {
        self.tree.laws();
        text.push_str(self.text_at(n))?;
        if self.is_foreign(n) {
            return Ok(());
        }
        for kid in self.tree.kids(n) {
            self.push_text_below(text, *kid)?;
        }
        Ok(())
    }
}
