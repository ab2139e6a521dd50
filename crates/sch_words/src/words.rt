//! The words of a command line.

ghost use Rattle.std.specs.Prelude.{◌≡◌, [], ◌∷◌, ◌++◌, OnOk, OnErr};

use sch_base::Text;
use std::alloc::{AllocError, Global};
use std::marker::Model;

/// The words of a command line after the program's name, seen by contracts as a list of texts.
#[derive(Debug, Drop)]
pub struct Words {
    alloc: Global,
    words: Vec<Text>,
}

impl Model for Words {
    ghost use Rattle.std.specs.Prelude.{List, ℕ};

    ghost Value = { List (List ℕ) };

    ghost view = { λ w. w.words.items };
}

impl Words {
    /// No words.
    pub fn new(alloc: Global) -> Words
        ensures { result ≡ [] }
    {
        Words {
            alloc,
            words: Vec::new(alloc),
        }
    }

    /// Puts a copy of the word at the end.
    pub fn push(&mut self, word: &str) -> Result<(), AllocError>
        ensures pushed { OnOk result (self.new ≡ self.old ++ word.now ∷ []) }
        ensures unchanged { OnErr result (self.new ≡ self.old) }
    {
        let word = Text::copy(self.alloc, word)?;
        self.words.push(word)?;
        Ok(())
    }

    /// The words in order, lent.
    pub fn as_slice(&self) -> &[Text]
        ensures { result.now ≡ self.now }
    {
        self.words.as_slice()
    }
}
