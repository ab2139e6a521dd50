//! How large the lines of events are.

ghost use Rattle.std.specs.Prelude.{◌≡◌, ℕ, List, [], ◌∷◌, map, length, if◌then◌else◌};
ghost use Rattle.name_scopes.specs.Declarations.{declares_namespace};
ghost use Rattle.pyx_core.specs.declared.event.Event.{Event};
ghost use Rattle.pyx_core.specs.declared.event.Event.TheVariants as event;
ghost use Rattle.pyx_core.specs.Escapes.{escape_of, escaped};
ghost use Rattle.sch_flat.specs.FlatDocument.{characters, element, only_given};
ghost use Rattle.sch_texts.specs.Ids.{id_list, spaced};
ghost use Rattle.sch_flat.specs.FlatSize.{capped, escapes_len, size_of};
ghost use Rattle.sch_flat.specs.inner.Given.{seen};
ghost use Rattle.sch_flat.specs.inner.Sizes.{attrs_size};

use crate::given::Given;
use crate::size::FlatSize;
use name_scopes::declares_namespace;
use sch_base::Text;
use sch_model::TextList;

/// How large an element is that holds what has this size.
pub(crate) fn element_size(name: &str, attributes: &[Given<'_>], held: FlatSize) -> FlatSize
    ensures { (events : List Event) → held ≡ size_of events → result ≡ size_of (element name.now (map seen attributes.now) events) }
{
    start_size(name, attributes).then(held).then(end_size(name))
}

/// How large characters are.
pub fn characters_size(text: &Text) -> FlatSize
    ensures { result ≡ size_of (characters text.now) }
{
    let text = text.as_str();
    if text.is_empty() {
        return FlatSize::none();
    }
    FlatSize {
        bytes: escaped_len(text).saturating_add(2),
        nodes: 1,
    }
}

/// How large a start is.
fn start_size(name: &str, attributes: &[Given<'_>]) -> FlatSize
    ensures { result ≡ size_of (event.Start name.now (only_given (map seen attributes.now)) ∷ []) }
{
    let size = FlatSize {
        bytes: (name.len() as u64).saturating_add(2),
        nodes: 1,
    };
    size.plus(attributes_size(attributes))
}

/// How large an end is.
fn end_size(name: &str) -> FlatSize
    ensures { result ≡ size_of (event.End name.now ∷ []) }
{
    FlatSize {
        bytes: (name.len() as u64).saturating_add(2),
        nodes: 0,
    }
}

/// How large the attributes are that are given.
fn attributes_size(attributes: &[Given<'_>]) -> FlatSize
    ensures { result ≡ attrs_size (only_given (map seen attributes.now)) }
{
    let mut size = FlatSize::none();
    for given in attributes {
        size = size.plus(given_size(*given));
    }
    size
}

/// How large an attribute is, if it is given.
fn given_size(given: Given<'_>) -> FlatSize
    ensures { result ≡ attrs_size (only_given (seen given.entry ∷ [])) }
{
    match given {
        Given::Fixed(name, value) => attr_size(name, escaped_len(value)),
        Given::Always(name, value) => attr_size(name, escaped_len(value.as_str())),
        Given::IfAny(name, Some(value)) => attr_size(name, escaped_len(value.as_str())),
        Given::IfFixed(name, Some(value)) => attr_size(name, escaped_len(value)),
        Given::IfAny(_, None) | Given::IfFixed(_, None) => FlatSize::none(),
        Given::Ids(name, ids) => ids_size(name, ids),
    }
}

/// How large an attribute with ids is, if there are some.
fn ids_size(name: &str, ids: &TextList) -> FlatSize
    ensures { result ≡ attrs_size (only_given ((name.now, id_list ids.now) ∷ [])) }
{
    match ids.as_slice().split_first() {
        None => FlatSize::none(),
        Some((first, rest)) => attr_size(name, spaced_len(first, rest)),
    }
}

/// How large an attribute is whose value takes that many bytes with its escapes.
fn attr_size(name: &str, value_len: u64) -> FlatSize
    ensures { (value : List ℕ) → value_len ≡ capped (length (escaped value)) → result ≡ attrs_size (record { name = name.now; value = value } ∷ []) }
{
    FlatSize {
        bytes: (name.len() as u64)
            .saturating_add(3)
            .saturating_add(value_len),
        nodes: attr_nodes(name),
    }
}

/// How many nodes an attribute of this name is: one, and none where it declares a namespace.
fn attr_nodes(name: &str) -> u64
    ensures { result ≡ capped (if declares_namespace name.now then 0 else 1) }
{
    if declares_namespace(name) { 0 } else { 1 }
}

/// The bytes of ids with a space between each two, with their escapes.
fn spaced_len(first: &Text, rest: &[Text]) -> u64
    ensures { result ≡ capped (length (escaped (spaced (first.now ∷ rest.now)))) }
{
    let mut len = escaped_len(first.as_str());
    for id in rest {
        len = len
            .saturating_add(1)
            .saturating_add(escaped_len(id.as_str()));
    }
    len
}

/// The bytes of a text with its escapes.
pub fn escaped_len(text: &str) -> u64
    ensures { result ≡ escapes_len text.now }
{
    let mut len: u64 = 0;
    for byte in text.as_bytes() {
        len = len.saturating_add(escape_len(*byte));
    }
    len
}

/// The bytes as which a byte is written.
fn escape_len(byte: u8) -> u64
    ensures { result ≡ length (escape_of byte) }
{
    match byte {
        b'\n' | b'\t' | b'\r' | b'\\' => 2,
        _ => 1,
    }
}
