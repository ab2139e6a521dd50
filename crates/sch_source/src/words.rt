//! The elements of a schema by their names (ISO/IEC 19757-3, section 5).

ghost use Rattle.std.specs.Prelude.{◌≡◌, map};
ghost use Rattle.sch_base.specs.Named.{named};
ghost use Rattle.sch_rules.specs.Words.{has_text, is_styled, is_word, word_of};
ghost use Rattle.sch_rules.specs.RawSchema.{holds_text};

use sch_rules::Word;

/// Each element with its name.
const WORDS: [(&str, Word); 22] = [
    ("schema", Word::Schema),
    ("title", Word::Title),
    ("ns", Word::Ns),
    ("p", Word::P),
    ("let", Word::Let),
    ("phase", Word::Phase),
    ("active", Word::Active),
    ("pattern", Word::Pattern),
    ("param", Word::Param),
    ("rule", Word::Rule),
    ("extends", Word::Extends),
    ("assert", Word::Assert),
    ("report", Word::Report),
    ("diagnostics", Word::Diagnostics),
    ("diagnostic", Word::Diagnostic),
    ("properties", Word::Properties),
    ("property", Word::Property),
    ("dir", Word::Dir),
    ("emph", Word::Emph),
    ("span", Word::Span),
    ("value-of", Word::ValueOf),
    ("name", Word::Name),
];

/// The element with a local name; None where there is none.
#[tactic(auto, unfolding(sch_rules::specs::Words::word_of))]
pub fn word_of(name: &str) -> Option<Word>
    ensures { result ≡ word_of name.now }
{
    named(&WORDS, name)
}

/// What a table has beside a name.
fn named(mut table: &[(&str, Word)], name: &str) -> Option<Word>
    ensures { result ≡ named (map (λ entry. (entry.0.now, entry.1)) table.entry.now) name.now }
{
    while let [entry, rest @ ..] = table {
        if name == entry.0 {
            return Some(entry.1);
        }
        table = rest;
    }
    None
}

/// Whether there is a word, and it is this one.
pub fn is_word(word: Word, other: Option<Word>) -> bool
    ensures { result ≡ is_word word other }
{
    match other {
        Some(other) => word == other,
        None => false,
    }
}

/// Whether the element is `dir`, `emph` or `span`.
pub fn is_styled(word: Word) -> bool
    ensures { result ≡ is_styled word }
{
    matches!(word, Word::Dir | Word::Emph | Word::Span)
}

/// Whether text in the element counts.
fn has_text(word: Word) -> bool
    ensures { result ≡ has_text word }
{
    match word {
        Word::Title | Word::P | Word::Active => true,
        Word::Assert | Word::Report | Word::Diagnostic | Word::Property => true,
        _ => is_styled(word),
    }
}

/// Whether there is an element, and text in it counts.
pub(crate) fn holds_text(word: Option<Word>) -> bool
    ensures { result ≡ holds_text word }
{
    match word {
        Some(word) => has_text(word),
        None => false,
    }
}
