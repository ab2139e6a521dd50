//! The string-values of nodes (XPath 1.0, section 5).

ghost use Rattle.std.specs.Prelude.{◌≡◌, ◌++◌, IfOk, OnOk, string_bytes};
ghost use Rattle.doc_table.specs.Kinds.{holds_kids};
ghost use Rattle.doc_table.specs.Table.{kind_of, content_of};
ghost use Rattle.doc_table.specs.Walks.{characters_in, joined_text, string_value_of};

use crate::tree::Tree;
use doc_table::{Kind, NodeId};
use sch_base::Text;
use std::alloc::{AllocError, Global};

impl Tree {
    /// The string-value of a node: of the root and elements the joined characters of the texts below, of the other
    /// kinds the value, the characters or the data.
    ///
    /// Costs time linear in the nodes below and in the bytes of the answer; the text is built once.
    pub fn string_value(&self, alloc: Global, n: NodeId) -> Result<Text, AllocError>
        ensures { IfOk result (λ text. text ≡ string_value_of self.now.nodes n) }
    {
        if self.may_hold(n) {
            let mut text = String::new(alloc);
            self.push_text_below(&mut text, n)?;
            Ok(Text::from(text))
        } else {
            Text::copy(alloc, self.value(n))
        }
    }

    /// Whether the node is of a kind that has kids.
    fn may_hold(&self, n: NodeId) -> bool
        ensures { result ≡ holds_kids (kind_of self.now.nodes n) }
    {
        matches!(self.kind_of(n), Some(Kind::Root | Kind::Element))
    }

    /// The characters of a text node; empty for every other node.
    fn characters(&self, n: NodeId) -> &str
        ensures { result.now ≡ characters_in (content_of self.now.nodes n) }
    {
        self.bare.characters(n)
    }

    /// Puts the characters of all texts below a node at the end of the text, in document order.
    fn push_text_below(&self, text: &mut String, n: NodeId) -> Result<(), AllocError>
        ensures { OnOk result (string_bytes text.new ≡ string_bytes text.old ++ joined_text self.now.nodes n) }
    {
        self.laws();
        text.push_str(self.characters(n))?;
        for kid in self.kids(n) {
            self.push_text_below(text, *kid)?;
        }
        Ok(())
    }
}
