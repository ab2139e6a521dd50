//! Laws of the definitions, for the proofs of callers.

ghost use Rattle.xp_lexicon.specs.Laws.{NoTextIsUnread, TextsReadOnce, WholeTextsEnd};

/// A text that is read whole ends at its length.
pub fn whole_texts_end()
    ensures { WholeTextsEnd }
{}

/// A text has one list of tokens, and one place where reading ends.
pub fn texts_read_once()
    ensures { TextsReadOnce }
{}

/// No text is without tokens up to its end, or up to where no token can be read.
pub fn no_text_is_unread()
    ensures { NoTextIsUnread }
{}
