//! The elements of a report by their names (ISO/IEC 19757-3, annex on SVRL).

ghost use Rattle.std.specs.Prelude.{◌≡◌, map};
ghost use Rattle.sch_base.specs.Named.{named};
ghost use Rattle.svrl_read.specs.Words.{is_text, word_of};

/// An element of a report.
#[derive(Clone, Copy)]
pub enum Word {
    /// `schematron-output`, the document element.
    Output,
    /// `ns-prefix-in-attribute-values`.
    Prefix,
    /// `active-pattern`.
    Pattern,
    /// `fired-rule`.
    Rule,
    /// `failed-assert`.
    Assert,
    /// `successful-report`.
    Report,
    /// `diagnostic-reference`, in a finding.
    Diagnostic,
    /// `property-reference`, in a finding.
    Property,
    /// `text`, in a finding.
    Text,
}

/// Each element with its name.
const WORDS: [(&str, Word); 9] = [
    ("schematron-output", Word::Output),
    ("ns-prefix-in-attribute-values", Word::Prefix),
    ("active-pattern", Word::Pattern),
    ("fired-rule", Word::Rule),
    ("failed-assert", Word::Assert),
    ("successful-report", Word::Report),
    ("diagnostic-reference", Word::Diagnostic),
    ("property-reference", Word::Property),
    ("text", Word::Text),
];

/// The element with a local name; None where there is none.
#[tactic(auto, unfolding(crate::specs::Words::word_of))]
pub(crate) fn word_of(name: &str) -> Option<Word>
    ensures { result ≡ word_of name.now }
{
    named(&WORDS, name)
}

/// What a table has beside a name.
fn named(mut table: &[(&str, Word)], name: &str) -> Option<Word>
    ensures { result ≡ named (map (λ entry. (entry.0.now, entry.1)) table.entry.now) name.now }
{
    while let [entry, rest @ ..] = table {
        if name == entry.0 {
            return Some(entry.1);
        }
        table = rest;
    }
    None
}

/// Whether it is the element of a message.
pub(crate) fn is_text(word: Option<Word>) -> bool
    ensures { result ≡ is_text word }
{
    matches!(word, Some(Word::Text))
}
