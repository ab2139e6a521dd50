//! The rules of names that a start tag can break (Namespaces in XML 1.0).

ghost use Rattle.std.specs.Prelude.{◌≡◌, ◌==◌, [], ◌&&◌, ◌||◌, is_none, unwrap_or, IfOk};
ghost use Rattle.std.specs.Option.{option_copied, option_to_list};
ghost use Rattle.std.specs.List.{list_any};
ghost use Rattle.std.specs.Str.{bytes_eq};
ghost use Rattle.doc_tree.specs.Numbering.{Numbered};
ghost use Rattle.doc_tree.specs.Scope.{namespace_in};
ghost use Rattle.name_scopes.specs.QNames.{prefix_part};
ghost use Rattle.name_scopes.specs.Scoping.{attribute_namespace};
ghost use Rattle.name_scopes.specs.Declarations.{declarations, declaration_of, plain_attrs, is_bad_declaration, has_both_quotes, xmlns_namespace};
ghost use Rattle.name_scopes.specs.DocFaults.{attrs_fault, declaring_fault, lacks_prefix, has_pair, same_qname, same_expanded, expanded_attr};

use crate::declarations::{declared_prefix, is_plain};
use crate::fault::DocKind;
use crate::own_names::pair_qnames;
use crate::qnames::{QName, split};
use crate::scope::Scope;
use doc_tree::{NameId, NameTable, WordTable, is_xml, is_xmlns, xml_namespace};
use pyx_core::Attr;
use std::alloc::{AllocError, Global};

/// So many attributes are compared each with each, which takes no memory.
const FEW: usize = 8;

/// Tests the attributes of a start tag, whose own declarations are in scope.
///
/// Costs time linear in their names, the values of declarations, and their namespaces.
pub(crate) fn check_attrs(
    alloc: Global,
    scope: &Scope,
    attrs: &[Attr],
) -> Result<Option<DocKind>, AllocError>
    ensures { IfOk result (λ found. found ≡ attrs_fault scope.now attrs.now) }
{
    if attrs.is_empty() {
        return Ok(None);
    }
    if lack_prefix(scope, attrs) {
        return Ok(Some(DocKind::NoPrefix));
    }
    if repeat_name(alloc, scope, attrs)? {
        return Ok(Some(DocKind::SameAttribute));
    }
    Ok(declaring_fault(attrs))
}

/// The first rule that the declarations among attributes break.
pub(crate) fn declaring_fault(attrs: &[Attr]) -> Option<DocKind>
    ensures { result ≡ declaring_fault attrs.now }
{
    if declare_badly(attrs) {
        return Some(DocKind::BadDeclaration);
    }
    if hold_both_quotes(attrs) {
        return Some(DocKind::BothQuotes);
    }
    None
}

/// Whether the prefix of an element isn't in scope.
pub(crate) fn is_unknown(scope: &Scope, name: &str) -> bool
    ensures { result ≡ is_none (namespace_in scope.now (prefix_part name.now)) }
{
    scope.namespace(split(name).prefix).is_none()
}

/// The namespace of an attribute's prefix; an attribute without a prefix has none.
fn attribute_namespace<'a>(scope: &'a Scope, prefix: &str) -> Option<&'a str>
    ensures { option_copied result ≡ attribute_namespace scope.now prefix.now }
{
    if prefix.is_empty() {
        return Some("");
    }
    scope.namespace(prefix)
}

/// Whether the prefix of some attribute isn't in scope.
pub(crate) fn lack_prefix(scope: &Scope, attrs: &[Attr]) -> bool
    ensures { result ≡ list_any (lacks_prefix scope.now) (plain_attrs attrs.now) }
{
    for attr in attrs {
        if is_plain(attr) && lacks_prefix(scope, attr) {
            return true;
        }
    }
    false
}

/// Whether the prefix of an attribute isn't in scope.
fn lacks_prefix(scope: &Scope, attr: &Attr) -> bool
    ensures { result ≡ lacks_prefix scope.now attr.now }
{
    attribute_namespace(scope, split(attr.name.as_str()).prefix).is_none()
}

/// Whether two attributes have one QName or, declarations left out, one expanded name.
///
/// Costs time linear in their names and namespaces, and for a few attributes no memory.
fn repeat_name(alloc: Global, scope: &Scope, attrs: &[Attr]) -> Result<bool, AllocError>
    ensures { IfOk result (λ repeats. repeats ≡ (has_pair same_qname attrs.now || has_pair (same_expanded scope.now) (plain_attrs attrs.now))) }
{
    if attrs.len() <= FEW {
        return Ok(pair_qnames(attrs) || pair_expanded(scope, attrs));
    }
    Ok(repeat_qname(alloc, attrs)? || repeat_expanded(alloc, scope, attrs)?)
}

/// Whether two attributes, declarations left out, have one expanded name.
///
/// Costs a comparison for each two attributes.
fn pair_expanded(scope: &Scope, attrs: &[Attr]) -> bool
    ensures { result ≡ has_pair (same_expanded scope.now) (plain_attrs attrs.now) }
{
    let mut place = 0usize;
    while place < attrs.len() {
        if is_plain(&attrs[place]) && share_expanded(scope, &attrs[place], &attrs[place + 1..]) {
            return true;
        }
        place += 1;
    }
    false
}

/// Whether one of the others, declarations left out, has the expanded name of an attribute.
fn share_expanded(scope: &Scope, attr: &Attr, others: &[Attr]) -> bool
    ensures { result ≡ list_any (same_expanded scope.now attr.now) (plain_attrs others.now) }
{
    let name = split(attr.name.as_str());
    for other in others {
        if is_plain(other) && same_expanded(scope, name, split(other.name.as_str())) {
            return true;
        }
    }
    false
}

/// Whether two QNames of attributes are one expanded name.
fn same_expanded(scope: &Scope, a: QName, b: QName) -> bool
    ensures { result ≡ (bytes_eq a.entry.local.now b.entry.local.now
        && bytes_eq (unwrap_or (attribute_namespace scope.now a.entry.prefix.now) []) (unwrap_or (attribute_namespace scope.now b.entry.prefix.now) [])) }
{
    a.local == b.local && known_uri(scope, a.prefix) == known_uri(scope, b.prefix)
}

/// The namespace of an attribute's prefix, empty where it isn't in scope.
pub(crate) fn known_uri<'a>(scope: &'a Scope, prefix: &str) -> &'a str
    ensures { result.now ≡ unwrap_or (attribute_namespace scope.now prefix.now) [] }
{
    match attribute_namespace(scope, prefix) {
        Some(uri) => uri,
        None => "",
    }
}

/// Whether two attributes have one QName.
///
/// Costs time linear in their names.
fn repeat_qname(alloc: Global, attrs: &[Attr]) -> Result<bool, AllocError>
    ensures { IfOk result (λ repeats. repeats ≡ has_pair same_qname attrs.now) }
{
    let mut names = WordTable::new(alloc);
    number_qnames(alloc, &mut names, attrs)
}

/// Numbers the QNames of attributes, up to one that comes again; answers whether there is one.
fn number_qnames(alloc: Global, names: &mut WordTable, attrs: &[Attr]) -> Result<bool, AllocError>
    requires { names.old ≡ [] }
    ensures { IfOk result (λ repeats. repeats ≡ has_pair same_qname attrs.now) }
{
    let mut count = 0usize;
    for attr in attrs {
        let number = names.number(alloc, attr.name.as_str())?;
        names.laws();
        if number != count {
            return Ok(true);
        }
        count += 1;
    }
    Ok(false)
}

/// Whether two attributes, declarations left out, have one expanded name.
///
/// Costs time linear in their names and namespaces.
pub(crate) fn repeat_expanded(
    alloc: Global,
    scope: &Scope,
    attrs: &[Attr],
) -> Result<bool, AllocError>
    ensures { IfOk result (λ repeats. repeats ≡ has_pair (same_expanded scope.now) (plain_attrs attrs.now)) }
{
    let mut names = NameTable::new(alloc);
    number_plain(alloc, &mut names, scope, attrs)
}

/// Numbers the expanded names of attributes, declarations left out, up to one that comes again; answers whether there is one.
fn number_plain(
    alloc: Global,
    names: &mut NameTable,
    scope: &Scope,
    attrs: &[Attr],
) -> Result<bool, AllocError>
    requires { names.old ≡ [] }
    ensures { IfOk result (λ repeats. repeats ≡ has_pair (same_expanded scope.now) (plain_attrs attrs.now)) }
{
    let mut count = 0usize;
    for attr in attrs {
        if is_plain(attr) {
            let number = number_expanded(alloc, names, scope, attr)?;
            names.laws();
            if number.index() != count {
                return Ok(true);
            }
            count += 1;
        }
    }
    Ok(false)
}

/// The number of an attribute's expanded name.
fn number_expanded(
    alloc: Global,
    names: &mut NameTable,
    scope: &Scope,
    attr: &Attr,
) -> Result<NameId, AllocError>
    ensures { IfOk result (λ id. Numbered names.old names.new (expanded_attr scope.now attr.now) id) }
{
    let parts = split(attr.name.as_str());
    names.number(alloc, "", parts.local, known_uri(scope, parts.prefix))
}

/// Whether a declaration among the attributes may not be.
fn declare_badly(attrs: &[Attr]) -> bool
    ensures { result ≡ list_any is_bad_declaration (declarations attrs.now) }
{
    for attr in attrs {
        if declares_badly(attr) {
            return true;
        }
    }
    false
}

/// Whether an attribute is a declaration that may not be (Namespaces in XML 1.0, sections 2.2 and 3).
fn declares_badly(attr: &Attr) -> bool
    ensures { result ≡ list_any is_bad_declaration (option_to_list (declaration_of attr.now)) }
{
    match declared_prefix(attr) {
        Some(prefix) => is_bad(prefix, attr.value.as_str()),
        None => false,
    }
}

/// Whether a prefix may not be declared with a namespace.
fn is_bad(prefix: &str, uri: &str) -> bool
    ensures { result ≡ is_bad_declaration (prefix.now, uri.now) }
{
    (!prefix.is_empty() && uri.is_empty())
        || is_xmlns(prefix)
        || (is_xml(prefix) && uri != xml_namespace())
        || (!is_xml(prefix) && uri == xml_namespace())
        || is_xmlns_namespace(uri)
}

/// Whether a namespace is that of the prefix `xmlns`.
#[tactic(auto, unfolding(crate::specs::Declarations::xmlns_namespace))]
fn is_xmlns_namespace(uri: &str) -> bool
    ensures { result ≡ bytes_eq uri.now xmlns_namespace }
{
    uri == "http://www.w3.org/2000/xmlns/"
}

/// Whether a namespace among the declarations has both kinds of quotes.
fn hold_both_quotes(attrs: &[Attr]) -> bool
    ensures { result ≡ list_any has_both_quotes (declarations attrs.now) }
{
    for attr in attrs {
        if holds_both_quotes(attr) {
            return true;
        }
    }
    false
}

/// Whether an attribute declares a namespace with both kinds of quotes.
fn holds_both_quotes(attr: &Attr) -> bool
    ensures { result ≡ list_any has_both_quotes (option_to_list (declaration_of attr.now)) }
{
    match declared_prefix(attr) {
        Some(_) => has_both_quotes(attr.value.as_str()),
        None => false,
    }
}

/// Whether a namespace has both kinds of quotes.
fn has_both_quotes(uri: &str) -> bool
    ensures { result ≡ (list_any (λ b. b == 39) uri.now && list_any (λ b. b == 34) uri.now) }
{
    holds_byte(uri.as_bytes(), b'\'') && holds_byte(uri.as_bytes(), b'"')
}

/// Whether a byte is among these.
fn holds_byte(bytes: &[u8], byte: u8) -> bool
    ensures { result ≡ list_any (λ b. b == byte) bytes.now }
{
    memchr::memchr(byte, bytes).is_some()
}
