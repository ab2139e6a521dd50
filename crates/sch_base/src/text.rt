//! Texts: strings that contracts see as their UTF-8 bytes.

ghost use Rattle.std.specs.Prelude.{◌≡◌, ◌++◌, IfOk, OnOk, OnErr, string_bytes};
ghost use Rattle.sch_base.specs.inner.Texts.{bytes_kept};

use arrayvec::ArrayString;
use std::alloc::{AllocError, Global};
use std::fmt::{Debug, Error, Formatter, Write};
use std::marker::Model;

/// A text of a document, a schema or a report, in UTF-8.
///
/// Contracts see the list of its bytes, as they do of a `&str`; a definition that speaks of characters reads them
/// off by `chars`.
pub struct Text {
    kept: Kept,
}

impl Drop for Text {
    fn drop(self) {
        let Text { kept } = self;
        drop(kept);
    }
}

/// How a text is kept: a short one, as most names and values are, takes no memory of its own.
#[derive(Drop)]
pub(crate) enum Kept {
    InPlace(Global, ArrayString<16>),
    Apart(String),
}

impl Model for Text {
    ghost use Rattle.std.specs.Prelude.{List, ℕ};
    ghost use Rattle.sch_base.specs.inner.Texts.{bytes_kept};

    ghost Value = { List ℕ };

    ghost view = { λ t. bytes_kept t.kept };
}

impl Text {
    /// A text of its own with the characters of `s`.
    pub fn copy(alloc: Global, s: &str) -> Result<Text, AllocError>
        ensures { IfOk result (λ text. text ≡ s.now) }
    {
        match ArrayString::from(s) {
            Ok(short) => Ok(Text {
                kept: Kept::InPlace(alloc, short),
            }),
            Err(_) => Ok(Text::from(String::from_str(alloc, s)?)),
        }
    }

    /// Puts characters at the end; without memory the text stays as it was.
    pub fn push_str(&mut self, more: &str) -> Result<(), AllocError>
        ensures pushed { OnOk result (self.new ≡ self.old ++ more.now) }
        ensures unchanged { OnErr result (self.new ≡ self.old) }
    {
        self.kept.push_str(more)
    }

    /// The text itself, lent.
    pub fn as_str(&self) -> &str
        ensures { result.now ≡ self.now }
    {
        self.kept.as_str()
    }
}

impl Kept {
    /// Puts characters at the end.
    fn push_str(&mut self, more: &str) -> Result<(), AllocError>
        ensures pushed { OnOk result (bytes_kept self.new ≡ bytes_kept self.old ++ more.now) }
        ensures unchanged { OnErr result (bytes_kept self.new ≡ bytes_kept self.old) }
    {
        match self {
            Kept::Apart(long) => long.push_str(more),
            Kept::InPlace(alloc, short) => match short.try_push_str(more) {
                Ok(()) => Ok(()),
                Err(_) => {
                    let long = joined(*alloc, short.as_str(), more)?;
                    *self = Kept::Apart(long);
                    Ok(())
                }
            },
        }
    }

    /// The characters, lent.
    fn as_str(&self) -> &str
        ensures { result.now ≡ bytes_kept self.now }
    {
        match self {
            Kept::InPlace(_, short) => short.as_str(),
            Kept::Apart(long) => long.as_str(),
        }
    }
}

/// Two texts, one behind the other.
fn joined(alloc: Global, front: &str, back: &str) -> Result<String, AllocError>
    ensures { IfOk result (λ both. string_bytes both ≡ front.now ++ back.now) }
{
    let mut both = String::from_str(alloc, front)?;
    both.push_str(back)?;
    Ok(both)
}

impl Debug for Text {
    fn fmt<W: Write>(&self, f: &mut Formatter<W>) -> Result<(), Error> {
        self.as_str().fmt(f)
    }
}

impl From<String> for Text {
    ghost use Rattle.std.specs.Prelude.{◌≡◌, string_bytes};

    ghost from_gives = { λ string text. text ≡ string_bytes string };

    /// The text with the string's characters, which are not copied.
    fn from(string: String) -> Text {
        Text {
            kept: Kept::Apart(string),
        }
    }
}
