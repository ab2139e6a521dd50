//! The first rule that a document breaks.

ghost use Rattle.std.specs.Prelude.{◌≡◌, ◌∷◌, [], ◌++◌, false, true, OnOk};
ghost use Rattle.std.specs.List.{flat_map};
ghost use Rattle.std.specs.Option.{option_map};
ghost use Rattle.doc_tree.specs.Table.{is_live};
ghost use Rattle.doc_tree.specs.Walks.{below};
ghost use Rattle.sch_rules.specs.Elements.{is_ignored};
ghost use Rattle.sch_rules.specs.FirstBroken.{fault_at, first_broken, first_over, least};
ghost use Rattle.sch_rules.specs.Keys.{keys_at, keys_of};
ghost use Rattle.sch_rules.specs.Rules.{repeated, rules_of};
ghost use Rattle.sch_read.specs.inner.Found.{fault_seen};
ghost use Rattle.sch_read.specs.inner.Told.{IsRefusal, Refuses, Told};

use crate::keys::KeyTable;
use crate::rules::Found;
use doc_tree::NodeId;
use sch_base::Text;
use sch_model::{SchemaError, SchemaFault};
use sch_rules::Word;
use sch_source::Source;

/// The document of a schema, checked against the rules of schemas.
#[derive(Clone, Copy)]
pub(crate) struct Checker<'a> {
    pub(crate) source: Source<'a>,
}

impl Checker<'_> {
    /// Refuses a document that breaks a rule, at the first place in document order by the least number.
    pub(crate) fn check(&self) -> Result<(), SchemaError>
        ensures { Refuses (first_broken self.now.source.tree.now.nodes) result }
    {
        self.source.tree.laws();
        let mut taken = KeyTable::new(self.source.alloc);
        self.check_below(&mut taken, self.source.tree.root())
    }

    /// Checks a node and all below it, where these names are used before.
    fn check_below(&self, taken: &mut KeyTable, n: NodeId) -> Result<(), SchemaError>
        requires lives { is_live self.now.source.tree.now.nodes n ≡ true }
        requires counts { is_ignored self.now.source.tree.now.nodes n ≡ false }
        ensures { Told (first_over self.now.source.tree.now.nodes taken.old (below self.now.source.tree.now.nodes n))
            (flat_map (keys_at self.now.source.tree.now.nodes) (below self.now.source.tree.now.nodes n)) taken.old taken.new result }
    {
        self.source.tree.laws();
        self.judge(taken, n)?;
        if self.source.is_foreign(n) {
            return Ok(());
        }
        for kid in self.source.tree.kids(n) {
            self.check_below(taken, *kid)?;
        }
        Ok(())
    }

    /// Checks a place, and uses its name.
    fn judge(&self, taken: &mut KeyTable, n: NodeId) -> Result<(), SchemaError>
        requires { is_ignored self.now.source.tree.now.nodes n ≡ false }
        ensures { Told (fault_at self.now.source.tree.now.nodes taken.old n) (keys_at self.now.source.tree.now.nodes n) taken.old taken.new result }
    {
        self.judge_as(taken, n, self.source.word_at(n))
    }

    /// The same of a node that is this element.
    fn judge_as(
        &self,
        taken: &mut KeyTable,
        n: NodeId,
        word: Option<Word>,
    ) -> Result<(), SchemaError>
        ensures { Told (least n (rules_of self.now.source.tree.now.nodes taken.old n word)) (keys_of self.now.source.tree.now.nodes n word) taken.old taken.new result }
    {
        self.refuse(n, self.element_fault(n, word))?;
        self.refuse(n, self.attribute_fault(n, word))?;
        self.take_name(taken, n, word)?;
        self.refuse(n, self.pattern_fault(n, word))
    }

    /// Rule 8: a name is used a second time.
    fn take_name(
        &self,
        taken: &mut KeyTable,
        n: NodeId,
        word: Option<Word>,
    ) -> Result<(), SchemaError>
        ensures { Told (least n ((8, repeated self.now.source.tree.now.nodes taken.old n word) ∷ [])) (keys_of self.now.source.tree.now.nodes n word) taken.old taken.new result }
    {
        let Some(name) = self.use_at(n, word) else {
            return Ok(());
        };
        let text = name.name;
        let alloc = self.source.alloc;
        if taken.take(alloc, name)? {
            Ok(())
        } else {
            Err(self.refusal(
                n,
                Found {
                    rule: 8,
                    name: text,
                },
            ))
        }
    }

    /// Refuses where a rule is broken.
    fn refuse(&self, n: NodeId, found: Option<Found<'_>>) -> Result<(), SchemaError>
        ensures { Refuses (option_map (fault_seen n) found.entry) result }
    {
        match found {
            Some(found) => Err(self.refusal(n, found)),
            None => Ok(()),
        }
    }

    /// The refusal for a broken rule.
    fn refusal(&self, n: NodeId, found: Found<'_>) -> SchemaError
        ensures { IsRefusal (fault_seen n found.entry) result }
    {
        match Text::copy(self.source.alloc, found.name) {
            Ok(name) => SchemaError::Fault(SchemaFault {
                rule: found.rule,
                node: n,
                name,
            }),
            Err(_) => SchemaError::Memory,
        }
    }
}
