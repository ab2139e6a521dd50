//! The tables of elements and attributes (ISO/IEC 19757-3, section 5).

ghost use Rattle.std.specs.Prelude.{◌≡◌};
ghost use Rattle.sch_rules.specs.Words.{holds, is_diagnostic, is_message_part, is_pattern_part, is_phase_part, is_property, is_rule_part, is_schema_part, is_styled, may_hold};
ghost use Rattle.sch_rules.specs.Rules.{is_bad_binding, is_name_attribute, is_truth, is_truth_attribute};

use doc_tree::{is_xml, is_xmlns, xml_namespace};
use sch_rules::Word;
use sch_source::is_styled;

/// Whether a message may hold the element.
fn is_message_part(word: Word) -> bool
    ensures { result ≡ is_message_part word }
{
    matches!(
        word,
        Word::Name | Word::ValueOf | Word::Dir | Word::Emph | Word::Span
    )
}

/// Whether `schema` may hold the element.
fn is_schema_part(word: Word) -> bool
    ensures { result ≡ is_schema_part word }
{
    matches!(
        word,
        Word::Title
            | Word::Ns
            | Word::P
            | Word::Let
            | Word::Phase
            | Word::Pattern
            | Word::Diagnostics
            | Word::Properties
    )
}

/// Whether `phase` may hold the element.
fn is_phase_part(word: Word) -> bool
    ensures { result ≡ is_phase_part word }
{
    matches!(word, Word::P | Word::Let | Word::Active)
}

/// Whether `pattern` may hold the element.
fn is_pattern_part(word: Word) -> bool
    ensures { result ≡ is_pattern_part word }
{
    matches!(
        word,
        Word::Title | Word::P | Word::Let | Word::Rule | Word::Param
    )
}

/// Whether `rule` may hold the element.
fn is_rule_part(word: Word) -> bool
    ensures { result ≡ is_rule_part word }
{
    matches!(
        word,
        Word::P | Word::Let | Word::Assert | Word::Report | Word::Extends
    )
}

/// Whether the element is a `diagnostic`.
fn is_diagnostic(word: Word) -> bool
    ensures { result ≡ is_diagnostic word }
{
    matches!(word, Word::Diagnostic)
}

/// Whether the element is a `property`.
fn is_property(word: Word) -> bool
    ensures { result ≡ is_property word }
{
    matches!(word, Word::Property)
}

/// Whether the first element may hold the second.
fn holds(parent: Word, kid: Word) -> bool
    ensures { result ≡ holds parent kid }
{
    match parent {
        Word::Schema => is_schema_part(kid),
        Word::Phase => is_phase_part(kid),
        Word::Pattern => is_pattern_part(kid),
        Word::Rule => is_rule_part(kid),
        Word::Diagnostics => is_diagnostic(kid),
        Word::Properties => is_property(kid),
        Word::Title | Word::P | Word::Active => is_styled(kid),
        Word::Assert | Word::Report | Word::Diagnostic | Word::Property => is_message_part(kid),
        Word::Dir | Word::Emph | Word::Span => is_message_part(kid),
        Word::Ns | Word::Let | Word::Param | Word::Extends | Word::ValueOf | Word::Name => false,
    }
}

/// Whether there are two elements, of which the first may hold the second.
pub(crate) fn may_hold(parent: Option<Word>, kid: Option<Word>) -> bool
    ensures { result ≡ may_hold parent kid }
{
    match (parent, kid) {
        (Some(parent), Some(kid)) => holds(parent, kid),
        _ => false,
    }
}

/// Whether the attribute has to be an NCName.
pub(crate) fn is_name_attribute(word: Word, is_abstract: bool, name: &str) -> bool
    ensures { result ≡ is_name_attribute word is_abstract name.now }
{
    match word {
        Word::Ns => name == "prefix",
        Word::Let | Word::Param => name == "name",
        Word::Phase | Word::Diagnostic | Word::Property => name == "id",
        Word::Pattern => name == "id" || name == "is-a",
        Word::Rule => is_abstract && name == "id",
        _ => false,
    }
}

/// Whether the attribute has to be `true` or `false`.
pub(crate) fn is_truth_attribute(word: Word, name: &str) -> bool
    ensures { result ≡ is_truth_attribute word name.now }
{
    match word {
        Word::Pattern | Word::Rule => name == "abstract",
        _ => false,
    }
}

/// Whether the value is `true` or `false`.
pub(crate) fn is_truth(value: &str) -> bool
    ensures { result ≡ is_truth value.now }
{
    value == "true" || value == "false"
}

/// Whether a prefix may not be bound to a namespace (Namespaces in XML 1.0, section 3).
pub(crate) fn is_bad_binding(prefix: &str, uri: &str) -> bool
    ensures { result ≡ is_bad_binding prefix.now uri.now }
{
    is_xmlns(prefix) || (is_xml(prefix) && uri != xml_namespace())
}
