//! How large elements are of whose texts the lengths are known: of each text the bytes with its escapes.

ghost use Rattle.std.specs.Prelude.{◌≡◌, ℕ, List, [], ◌∷◌, Option, Some, codes, length, option_map};
ghost use Rattle.std.specs.Option.{option_copied};
ghost use Rattle.pyx_core.specs.declared.event.Event.{Event};
ghost use Rattle.pyx_core.specs.Escapes.{escaped};
ghost use Rattle.sch_model.specs.declared.parts.Assertion.{Assertion};
ghost use Rattle.sch_flat.specs.FlatDocument.{assertion_attributes, assertion_name, element};
ghost use Rattle.sch_flat.specs.FlatSize.{capped, escapes_len, size_of};
ghost use Rattle.sch_flat.specs.inner.Sizes.{sum_of};

use crate::given::Given;
use crate::lines::{element_size, escaped_len};
use crate::parts::name_of;
use crate::size::FlatSize;
use sch_base::Text;
use sch_model::Assertion;

/// The bytes of a text with its escapes.
pub(crate) fn text_len(text: &Text) -> u64
    ensures { result ≡ escapes_len text.now }
{
    escaped_len(text.as_str())
}

/// The bytes of a text with its escapes, where there is one.
pub(crate) fn option_len(text: &Option<Text>) -> Option<u64>
    ensures { result ≡ option_map escapes_len text.now }
{
    match text {
        Some(text) => Some(text_len(text)),
        None => None,
    }
}

/// The empty text, where there is a length.
fn blank(len: Option<u64>) -> Option<&'static str>
    ensures { option_copied result ≡ option_map (λ _. []) len }
{
    match len {
        Some(_) => Some(""),
        None => None,
    }
}

/// How large a text is that takes so many bytes.
fn text_size(len: u64) -> FlatSize
    ensures { result ≡ record { bytes = len; nodes = 0 } }
{
    FlatSize {
        bytes: len,
        nodes: 0,
    }
}

/// How large a let is.
pub fn let_size(name: &Text, value_len: u64) -> FlatSize
    ensures { (value : List ℕ) → value_len ≡ escapes_len value → result ≡ size_of (element (codes "sch:let") ((codes "name", Some name.now) ∷ (codes "value", Some value) ∷ []) []) }
{
    element_size(
        "sch:let",
        &[Given::Always("name", name), Given::Fixed("value", "")],
        FlatSize::none(),
    )
    .plus(text_size(value_len))
}

/// How large a `value-of` is.
pub fn value_of_size(select_len: u64) -> FlatSize
    ensures { (select : List ℕ) → select_len ≡ escapes_len select → result ≡ size_of (element (codes "sch:value-of") ((codes "select", Some select) ∷ []) []) }
{
    element_size(
        "sch:value-of",
        &[Given::Fixed("select", "")],
        FlatSize::none(),
    )
    .plus(text_size(select_len))
}

/// How large a `name` is.
pub fn name_size(path_len: Option<u64>) -> FlatSize
    ensures { (path : Option (List ℕ)) → path_len ≡ option_map escapes_len path → result ≡ size_of (element (codes "sch:name") ((codes "path", path) ∷ []) []) }
{
    match path_len {
        None => element_size("sch:name", &[], FlatSize::none()),
        Some(len) => path_size(len),
    }
}

/// How large a `name` with a path is.
fn path_size(path_len: u64) -> FlatSize
    ensures { (path : List ℕ) → path_len ≡ escapes_len path → result ≡ size_of (element (codes "sch:name") ((codes "path", Some path) ∷ []) []) }
{
    element_size("sch:name", &[Given::Fixed("path", "")], FlatSize::none()).plus(text_size(
        path_len,
    ))
}

/// How large an assertion is with a test and a subject of these lengths, if it holds what has this size.
pub fn assertion_size(
    assertion: &Assertion,
    test_len: u64,
    subject_len: Option<u64>,
    held: FlatSize,
) -> FlatSize
    ensures { (test : List ℕ) (subject : Option (List ℕ)) (events : List Event) →
        test_len ≡ escapes_len test → subject_len ≡ option_map escapes_len subject → held ≡ size_of events →
        result ≡ size_of (element (assertion_name assertion.now.report) (assertion_attributes (record assertion.now { test = test; subject = subject })) events) }
{
    element_size(
        name_of(assertion.report),
        &[
            Given::IfAny("id", &assertion.id),
            Given::Fixed("test", ""),
            Given::IfFixed("subject", blank(subject_len)),
            Given::IfAny("role", &assertion.role),
            Given::IfAny("flag", &assertion.flag),
            Given::Ids("diagnostics", &assertion.diagnostics),
            Given::Ids("properties", &assertion.properties),
        ],
        held,
    )
    .plus(text_size(test_len))
    .plus(text_size(subject_len.unwrap_or(0)))
}

/// The labels of a rule.
#[derive(Clone, Copy)]
pub struct RuleLabels<'a> {
    pub id: &'a Option<Text>,
    pub role: &'a Option<Text>,
    pub flag: &'a Option<Text>,
}

/// How large a rule is with a context and a subject of these lengths, if it holds what has this size.
pub fn rule_size(
    labels: RuleLabels<'_>,
    context_len: u64,
    subject_len: Option<u64>,
    held: FlatSize,
) -> FlatSize
    ensures { (context : List ℕ) (subject : Option (List ℕ)) (events : List Event) →
        context_len ≡ escapes_len context → subject_len ≡ option_map escapes_len subject → held ≡ size_of events →
        result ≡ size_of (element (codes "sch:rule")
        ((codes "id", labels.entry.id.now) ∷ (codes "context", Some context) ∷ (codes "subject", subject) ∷ (codes "role", labels.entry.role.now) ∷ (codes "flag", labels.entry.flag.now) ∷ []) events) }
{
    element_size(
        "sch:rule",
        &[
            Given::IfAny("id", labels.id),
            Given::Fixed("context", ""),
            Given::IfFixed("subject", blank(subject_len)),
            Given::IfAny("role", labels.role),
            Given::IfAny("flag", labels.flag),
        ],
        held,
    )
    .plus(text_size(context_len))
    .plus(text_size(subject_len.unwrap_or(0)))
}

/// How large a pattern is that holds what has this size.
pub fn pattern_size(id: &Option<Text>, held: FlatSize) -> FlatSize
    ensures { (events : List Event) → held ≡ size_of events → result ≡ size_of (element (codes "sch:pattern") ((codes "id", id.now) ∷ []) events) }
{
    element_size("sch:pattern", &[Given::IfAny("id", id)], held)
}
