//! Names, numbered in the order of first use.

ghost use Rattle.std.specs.Prelude.{◌≡◌, ◌<◌, ◌&&◌, [], bytes_eq, IfOk, OnErr, length, take};
ghost use Rattle.doc_names.specs.Name.{numbered};
ghost use Rattle.doc_names.specs.Numbering.{EachOnce, Numbered};
ghost use Rattle.doc_names.specs.inner.Keys.{Extends, KeyOf};

use crate::ids::NameId;
use crate::words::WordTable;
use indexmap::IndexSet;
use std::alloc::{AllocError, Global};
use std::marker::Model;

/// A name by the numbers of its prefix, its local part and its namespace among the words.
#[derive(Clone, Copy, PartialEq, Eq, Hash)]
pub(crate) struct NameKey {
    pub(crate) prefix: usize,
    pub(crate) local: usize,
    pub(crate) uri: usize,
}

/// A table of names, seen by contracts as their list. A word that several names share is kept once.
pub struct NameTable {
    words: WordTable,
    keys: IndexSet<NameKey>,
}

/// One call lets a table of names go, wherever its owner ends.
impl Drop for NameTable {
    fn drop(self) {
        let NameTable { words, keys } = self;
        drop(words);
        drop(keys);
    }
}

impl Model for NameTable {
    ghost use Rattle.std.specs.Prelude.{List, map, length};
    ghost use Rattle.doc_names.specs.Name.{Name};
    ghost use Rattle.doc_names.specs.Numbering.{EachOnce};

    ghost Value = { List Name };

    ghost use Rattle.doc_names.specs.inner.Keys.{spelled, KeysAreBelow};

    ghost view = { λ t. map (spelled t.words) t.keys.keys };

    ghost invariant = { λ t. EachOnce t.keys.keys × KeysAreBelow (length t.words) t.keys.keys };
}

impl NameTable {
    /// A table without names.
    pub fn new(alloc: Global) -> NameTable
        ensures { result ≡ [] }
    {
        NameTable {
            words: WordTable::new(alloc),
            keys: IndexSet::new(alloc),
        }
    }

    /// No name stands in the table twice.
    pub fn laws(&self)
        ensures { EachOnce self.now }
    {
        self.words.laws();
    }

    /// The number of a name; a new one takes the next number.
    pub fn number(
        &mut self,
        alloc: Global,
        prefix: &str,
        local: &str,
        uri: &str,
    ) -> Result<NameId, AllocError>
        ensures numbered { IfOk result (λ id. Numbered self.old self.new (record { prefix = prefix.now; local = local.now; uri = uri.now }) id) }
        ensures unchanged { OnErr result (self.new ≡ self.old) }
    {
        let key = key_of(&mut self.words, alloc, prefix, local, uri)?;
        let (index, _) = self.keys.insert_full(key)?;
        Ok(NameId::from_index(index))
    }

    /// How many names have a number.
    pub fn len(&self) -> usize
        ensures { result ≡ length self.now }
    {
        self.keys.len()
    }

    /// Forgets all names but the first so many; their words stay, and are found where they are used again.
    ///
    /// Takes no memory. Costs the names that go, and those that stay where at least half of them go.
    pub fn cut(&mut self, len: usize)
        ensures { self.new ≡ take len self.old }
    {
        self.keys.truncate(len);
    }

    /// Whether two names are one expanded name (Namespaces in XML 1.0, section 2.1), whatever their prefixes. Compares numbers of words.
    pub fn are_one_expanded(&self, a: NameId, b: NameId) -> bool
        requires a { a < length self.now }
        requires b { b < length self.now }
        ensures { result ≡ (bytes_eq (numbered self.now a).uri (numbered self.now b).uri && bytes_eq (numbered self.now a).local (numbered self.now b).local) }
    {
        self.words.laws();
        match (
            self.keys.get_index(a.index()),
            self.keys.get_index(b.index()),
        ) {
            (Some(first), Some(second)) => first.uri == second.uri && first.local == second.local,
            _ => unreachable!(),
        }
    }

    /// The prefix of a name, empty for a number that no name has.
    pub fn prefix(&self, name: NameId) -> &str
        ensures { result.now ≡ (numbered self.now name).prefix }
    {
        match self.keys.get_index(name.index()) {
            Some(key) => self.words.word(key.prefix),
            None => "",
        }
    }

    /// The local part of a name, empty for a number that no name has.
    pub fn local(&self, name: NameId) -> &str
        ensures { result.now ≡ (numbered self.now name).local }
    {
        match self.keys.get_index(name.index()) {
            Some(key) => self.words.word(key.local),
            None => "",
        }
    }

    /// The namespace of a name, empty for a number that no name has.
    pub fn uri(&self, name: NameId) -> &str
        ensures { result.now ≡ (numbered self.now name).uri }
    {
        match self.keys.get_index(name.index()) {
            Some(key) => self.words.word(key.uri),
            None => "",
        }
    }
}

/// The key of a name, whose words are put into the table where they are new.
fn key_of(
    words: &mut WordTable,
    alloc: Global,
    prefix: &str,
    local: &str,
    uri: &str,
) -> Result<NameKey, AllocError>
    ensures spells { IfOk result (KeyOf words.new (record { prefix = prefix.now; local = local.now; uri = uri.now })) }
    ensures extended { Extends words.old words.new }
{
    let prefix_number = words.number(alloc, prefix)?;
    let local_number = words.number(alloc, local)?;
    let uri_number = words.number(alloc, uri)?;
    Ok(NameKey {
        prefix: prefix_number,
        local: local_number,
        uri: uri_number,
    })
}
