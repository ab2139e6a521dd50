//! Words, each kept once and numbered in the order of first use.

ghost use Rattle.std.specs.Prelude.{◌≡◌, ◌≢◌, ℕ, [], Some, IfOk, IfSome, IfNone, OnErr, slice_get, slice_index_or};
ghost use Rattle.doc_names.specs.Numbering.{EachOnce, Numbered};

use indexmap::IndexSet;
use std::alloc::{AllocError, Global};
use std::marker::Model;

/// A table of words, seen by contracts as their list.
pub struct WordTable {
    words: IndexSet<String>,
}

/// One call lets a table of words go, wherever its owner ends.
impl Drop for WordTable {
    fn drop(self) {
        let WordTable { words } = self;
        drop(words);
    }
}

impl Model for WordTable {
    ghost use Rattle.std.specs.Prelude.{List, ℕ, map};
    ghost use Rattle.std.specs.String.{string_bytes};
    ghost use Rattle.doc_names.specs.Numbering.{EachOnce};

    ghost Value = { List (List ℕ) };

    ghost view = { λ t. map string_bytes t.words.keys };

    ghost invariant = { λ t. EachOnce (map string_bytes t.words.keys) };
}

impl WordTable {
    /// A table without words.
    pub fn new(alloc: Global) -> WordTable
        ensures { result ≡ [] }
    {
        WordTable {
            words: IndexSet::new(alloc),
        }
    }

    /// No word stands in the table twice.
    pub fn laws(&self)
        ensures { EachOnce self.now }
    {
        let _ = &self.words;
    }

    /// The number of a word, which is copied where it is new.
    pub fn number(&mut self, alloc: Global, word: &str) -> Result<usize, AllocError>
        ensures numbered { IfOk result (λ number. Numbered self.old self.new word.now number) }
        ensures unchanged { OnErr result (self.new ≡ self.old) }
    {
        if let Some(number) = self.words.get_index_of(word) {
            return Ok(number);
        }
        let (number, _) = self.words.insert_full(String::from_str(alloc, word)?)?;
        Ok(number)
    }

    /// The number of a word, None where it isn't in the table.
    pub fn find(&self, word: &str) -> Option<usize>
        ensures found { IfSome result (λ number. slice_get self.now number ≡ Some word.now) }
        ensures absent { IfNone result ((number : ℕ) → slice_get self.now number ≢ Some word.now) }
    {
        self.words.get_index_of(word)
    }

    /// The word with a number, empty past the end.
    pub fn word(&self, number: usize) -> &str
        ensures { result.now ≡ slice_index_or self.now number [] }
    {
        match self.words.get_index(number) {
            Some(word) => word.as_str(),
            None => "",
        }
    }
}
