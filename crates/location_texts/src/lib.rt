//! Locations as expressions: the text of each location is read as the tokens of its steps, and these derive a path of just those
//! steps, well typed in every scope (XPath 1.0, sections 2 and 3.7).
#![tactic(auto)]

ghost use Rattle.location_texts.specs.Laws.{TextsHaveTheirTokens, TokensDeriveTypedPaths};

/// The text of steps that can be written is read to its end as their tokens.
pub fn texts_have_their_tokens()
    ensures { TextsHaveTheirTokens }
{}

/// The tokens of one or more such steps derive a path from the root, whose steps are typed as these steps mean, whatever is in scope.
pub fn tokens_derive_typed_paths()
    ensures { TokensDeriveTypedPaths }
{}
