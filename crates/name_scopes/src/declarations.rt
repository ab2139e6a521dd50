//! The attributes that declare namespaces (Namespaces in XML 1.0, section 3).

ghost use Rattle.std.specs.Prelude.{◌≡◌, ◌≢◌, ◌++◌, List, ℕ, false, None, Some, MatchOption};
ghost use Rattle.doc_tree.specs.Scope.{xmlns_prefix};
ghost use Rattle.name_scopes.specs.Declarations.{declaration_of, declares_namespace, is_plain};

use pyx_core::Attr;

/// Whether an attribute of this name declares a namespace: it is `xmlns`, or has the prefix `xmlns`.
///
/// Looks at the start of the name alone.
pub fn declares_namespace(name: &str) -> bool
    ensures { result ≡ declares_namespace name.now }
{
    match after_xmlns(name) {
        Some(rest) => rest.is_empty() || rest.starts_with(':'),
        None => false,
    }
}

/// The prefix that an attribute declares, empty for the default namespace; None for another attribute. Its value is
/// the namespace. Looks at the start of the name alone.
pub(crate) fn declared_prefix(attr: &Attr) -> Option<&str>
    ensures { MatchOption result (declaration_of attr.now ≡ None) (λ prefix. declaration_of attr.now ≡ Some (prefix.now, attr.now.value)) }
{
    match after_xmlns(attr.name.as_str()) {
        Some(rest) => {
            if rest.is_empty() {
                Some(rest)
            } else {
                rest.strip_prefix(':')
            }
        }
        None => None,
    }
}

/// What follows the word `xmlns` at the start of a name.
#[tactic(auto, unfolding(doc_tree::specs::Scope::xmlns_prefix))]
fn after_xmlns(name: &str) -> Option<&str>
    ensures { MatchOption result ((rest : List ℕ) → name.now ≢ xmlns_prefix ++ rest) (λ rest. name.now ≡ xmlns_prefix ++ rest.now) }
{
    if starts_otherwise(name) {
        return None;
    }
    name.strip_prefix("xmlns")
}

/// Whether a name's first byte is another than that of `xmlns`, which is so of most names.
#[tactic(auto, unfolding(doc_tree::specs::Scope::xmlns_prefix))]
fn starts_otherwise(name: &str) -> bool
    ensures { (rest : List ℕ) → name.now ≡ xmlns_prefix ++ rest → result ≡ false }
{
    match name.as_bytes().first() {
        Some(byte) => *byte != b'x',
        None => true,
    }
}

/// Whether an attribute declares nothing.
pub(crate) fn is_plain(attr: &Attr) -> bool
    ensures { result ≡ is_plain attr.now }
{
    declared_prefix(attr).is_none()
}
