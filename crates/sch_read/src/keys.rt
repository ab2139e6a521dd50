//! The names that a schema uses.

ghost use Rattle.std.specs.Prelude.{◌≡◌, ◌∷◌, [], ◌++◌, true, not, Some, IfOk};
ghost use Rattle.doc_tree.specs.Table.{parent_of};
ghost use Rattle.sch_rules.specs.Elements.{first_or};
ghost use Rattle.sch_rules.specs.declared.word.Word.TheVariants as word;
ghost use Rattle.std.specs.Option.{option_copied};
ghost use Rattle.sch_rules.specs.Keys.{is_taken, keys_for, keys_of};
ghost use Rattle.sch_read.specs.inner.Kept.{use_seen, uses_seen};

use crate::check::Checker;
use doc_tree::NodeId;
use indexmap::IndexSet;
use sch_rules::{Named, Word};
use sch_source::is_word;
use std::alloc::{AllocError, Global};
use std::marker::Model;

/// The use of a name: of a parameter within its pattern, else within the schema, which stands as the root.
#[derive(Clone, Copy)]
pub(crate) struct Use<'a> {
    pub(crate) kind: Named,
    pub(crate) within: NodeId,
    pub(crate) name: &'a str,
}

/// A name that is used, as it is kept.
#[derive(Drop, PartialEq, Eq, Hash)]
struct KeptKey {
    kind: Named,
    within: usize,
    name: String,
}

/// The names that are used so far, seen by contracts as their list.
///
/// A name is found in constant time.
#[derive(Drop)]
pub(crate) struct KeyTable {
    keys: IndexSet<KeptKey>,
}

impl Model for KeyTable {
    ghost use Rattle.std.specs.Prelude.{List, map};
    ghost use Rattle.sch_rules.specs.Keys.{Key};

    ghost Value = { List Key };

    ghost use Rattle.sch_read.specs.inner.Kept.{key_seen};

    ghost view = { λ t. map key_seen t.keys.keys };
}

impl KeyTable {
    /// No name is used.
    pub(crate) fn new(alloc: Global) -> KeyTable
        ensures { result ≡ [] }
    {
        KeyTable {
            keys: IndexSet::new(alloc),
        }
    }

    /// Uses a name; the answer is whether it wasn't used before. A name that was used is not put in again.
    pub(crate) fn take(&mut self, alloc: Global, name: Use<'_>) -> Result<bool, AllocError>
        ensures fresh { IfOk result (λ fresh. fresh ≡ not (is_taken self.old (use_seen name.entry))) }
        ensures added { IfOk result (λ fresh. fresh ≡ true → self.new ≡ self.old ++ use_seen name.entry ∷ []) }
    {
        let key = KeptKey {
            kind: name.kind,
            within: name.within.index(),
            name: String::from_str(alloc, name.name)?,
        };
        let (_, fresh) = self.keys.insert_full(key)?;
        Ok(fresh)
    }
}

/// The use of a name, where there is one.
fn use_of(kind: Named, within: NodeId, name: Option<&str>) -> Option<Use<'_>>
    ensures { uses_seen result ≡ keys_for kind within (option_copied name.entry) }
{
    match name {
        Some(name) => Some(Use { kind, within, name }),
        None => None,
    }
}

impl<'a> Checker<'a> {
    /// The name that an element uses.
    pub(crate) fn use_at(&self, n: NodeId, word: Option<Word>) -> Option<Use<'a>>
        ensures { uses_seen result ≡ keys_of self.now.source.tree.now.nodes n word }
    {
        let schema = self.source.tree.root();
        match word {
            Some(Word::Title) => self.title_use(n),
            Some(Word::Ns) => use_of(Named::Prefix, schema, self.source.said(n, "prefix")),
            Some(Word::Phase) => use_of(Named::Phase, schema, self.source.said(n, "id")),
            Some(Word::Pattern) => use_of(Named::Pattern, schema, self.source.said(n, "id")),
            Some(Word::Rule) => self.rule_use(n),
            Some(Word::Diagnostic) => use_of(Named::Diagnostic, schema, self.source.said(n, "id")),
            Some(Word::Property) => use_of(Named::Property, schema, self.source.said(n, "id")),
            Some(Word::Param) => use_of(
                Named::Param,
                self.parent_or_root(n),
                self.source.said(n, "name"),
            ),
            _ => None,
        }
    }

    /// The use of the title of the schema.
    fn title_use(&self, n: NodeId) -> Option<Use<'a>>
        ensures { uses_seen result ≡ keys_of self.now.source.tree.now.nodes n (Some word.Title) }
    {
        if is_word(Word::Schema, self.source.word_above(n)) {
            use_of(Named::Title, self.source.tree.root(), Some("title"))
        } else {
            None
        }
    }

    /// The use of the id of an abstract rule.
    fn rule_use(&self, n: NodeId) -> Option<Use<'a>>
        ensures { uses_seen result ≡ keys_of self.now.source.tree.now.nodes n (Some word.Rule) }
    {
        if self.source.is_abstract(n) {
            use_of(
                Named::AbstractRule,
                self.source.tree.root(),
                self.source.said(n, "id"),
            )
        } else {
            None
        }
    }

    /// The node's parent, and the root for the root.
    fn parent_or_root(&self, n: NodeId) -> NodeId
        ensures { result ≡ first_or 0 (parent_of self.now.source.tree.now.nodes n) }
    {
        match self.source.tree.parent(n) {
            Some(parent) => parent,
            None => self.source.tree.root(),
        }
    }
}
