//! String-values that the tree holds as one text, and so can lend (XPath 1.0, section 5).

ghost use Rattle.std.specs.Prelude.{◌≡◌, true, [], ◌∷◌, Some, IfSome};
ghost use Rattle.doc_tree.specs.kind.Kind.TheVariants as kinds;
ghost use Rattle.doc_tree.specs.Kinds.{holds_kids};
ghost use Rattle.doc_tree.specs.Table.{kind_of, kids_of};
ghost use Rattle.doc_tree.specs.Walks.{string_value_of};
ghost use Rattle.xp_values.specs.Numerals.{text_to_number};
ghost use Rattle.xp_values.specs.Outcomes.{Gives};

use crate::conversions::number_in;
use crate::numbers::Num;
use crate::values::EvalError;
use doc_tree::{Kind, NodeId, Tree};
use std::alloc::Global;

/// The node's string-value, where the tree holds it as one text: of an attribute, a text, a comment or a processing
/// instruction, and of an element that holds one text alone. Takes no memory and constant time.
pub(crate) fn lent_text(tree: &Tree, n: NodeId) -> Option<&str>
    ensures { IfSome result (λ text. text.now ≡ string_value_of tree.now.nodes n) }
{
    if holds_kids(tree, n) {
        lent_by_kid(tree, n)
    } else {
        Some(tree.value(n))
    }
}

/// Whether the node is of a kind that has kids: the root or an element.
fn holds_kids(tree: &Tree, n: NodeId) -> bool
    ensures { result ≡ holds_kids (kind_of tree.now.nodes n) }
{
    matches!(tree.kind_of(n), Some(Kind::Root | Kind::Element))
}

/// The string-value of the root or an element, where its only kid is a text.
fn lent_by_kid(tree: &Tree, n: NodeId) -> Option<&str>
    requires { holds_kids (kind_of tree.now.nodes n) ≡ true }
    ensures { IfSome result (λ text. text.now ≡ string_value_of tree.now.nodes n) }
{
    tree.laws();
    let kid = lone_text(tree, n)?;
    Some(tree.value(kid))
}

/// The node's only kid, where that is a text.
fn lone_text(tree: &Tree, n: NodeId) -> Option<NodeId>
    ensures kids { IfSome result (λ kid. kids_of tree.now.nodes n ≡ kid ∷ []) }
    ensures kind { IfSome result (λ kid. kind_of tree.now.nodes kid ≡ Some kinds.Text) }
{
    match tree.kids(n) {
        [kid] if matches!(tree.kind_of(*kid), Some(Kind::Text)) => Some(*kid),
        _ => None,
    }
}

/// The number of the node's string-value.
pub(crate) fn number_of_node(alloc: Global, tree: &Tree, n: NodeId) -> Result<Num, EvalError>
    ensures { Gives result (text_to_number (string_value_of tree.now.nodes n)) }
{
    match lent_text(tree, n) {
        Some(lent) => number_in(lent),
        None => number_of_copy(alloc, tree, n),
    }
}

/// The same by a copy of the string-value.
fn number_of_copy(alloc: Global, tree: &Tree, n: NodeId) -> Result<Num, EvalError>
    ensures { Gives result (text_to_number (string_value_of tree.now.nodes n)) }
{
    let own = tree.string_value(alloc, n)?;
    number_in(own.as_str())
}
