//! The language of a node (XPath 1.0, section 4.3, `lang`).

ghost use Rattle.std.specs.Prelude.{◌≡◌, ℕ};
ghost use Rattle.xp_outcome.specs.Running.{Ran};
ghost use Rattle.xp_meaning.specs.Results.{shown_alloc};
ghost use Rattle.xp_meaning.specs.Language.{ends_or_goes_on, is_language, is_lang, lang_among, own_language, in_language};

use doc_tree::{Axis, Cell, NodeId, Tree, xml_namespace};
use std::alloc::AllocError;
use xp_outcome::Recorder;

/// Whether the node is in a language: the nearest attribute `xml:lang` of the node and its ancestors names it or a
/// sublanguage, ASCII case apart. The attributes of each element on the way up are read, their names, and the value of the one
/// found.
///
/// Costs the way up and the attributes on it.
pub(crate) fn in_language(
    tree: &Tree,
    n: NodeId,
    wanted: &str,
    reads: &mut Recorder,
) -> Result<bool, AllocError>
    ensures { (count : ℕ) → Ran (in_language tree.now.nodes n wanted.now) (shown_alloc result) reads.old reads.new count count }
{
    tree.laws();
    match own_language(tree, n, wanted, reads)? {
        Some(truth) => Ok(truth),
        None => match tree.parent(n) {
            Some(parent) => in_language(tree, parent, wanted, reads),
            None => Ok(false),
        },
    }
}

/// What the node's own attribute `xml:lang` decides, None where it has none.
fn own_language(
    tree: &Tree,
    n: NodeId,
    wanted: &str,
    reads: &mut Recorder,
) -> Result<Option<bool>, AllocError>
    ensures { (count : ℕ) → Ran (own_language tree.now.nodes wanted.now n) (shown_alloc result) reads.old reads.new count count }
{
    if !tree.is_element(n) {
        return Ok(None);
    }
    reads.add(Cell::Attrs(n))?;
    reads.add_names(Axis::Attribute, n)?;
    match lang_among(tree, tree.attrs(n)) {
        Some(attribute) => {
            reads.add(Cell::Value(attribute))?;
            Ok(Some(is_language(tree.value(attribute), wanted)))
        }
        None => Ok(None),
    }
}

/// The first of some attributes that is `xml:lang`.
fn lang_among(tree: &Tree, attributes: &[NodeId]) -> Option<NodeId>
    ensures { result ≡ lang_among tree.now.nodes attributes.now }
{
    attributes.iter().copied().find(|a| is_lang(tree, *a))
}

/// Whether a node is named `xml:lang`.
fn is_lang(tree: &Tree, a: NodeId) -> bool
    ensures { result ≡ is_lang tree.now.nodes a }
{
    tree.has_name(a, xml_namespace(), "lang")
}

/// Whether a language tag is the wanted language or a sublanguage of it, ASCII case apart.
fn is_language(tag: &str, wanted: &str) -> bool
    ensures { result ≡ is_language tag.now wanted.now }
{
    let tag = tag.as_bytes();
    let wanted = wanted.as_bytes();
    let (front, rest) = tag.split_at(wanted.len().min(tag.len()));
    front.eq_ignore_ascii_case(wanted) && ends_or_goes_on(rest)
}

/// Whether a tag ends here, or goes on after a hyphen.
fn ends_or_goes_on(rest: &[u8]) -> bool
    ensures { result ≡ ends_or_goes_on rest.now }
{
    match rest.first() {
        Some(b) => *b == b'-',
        None => true,
    }
}
