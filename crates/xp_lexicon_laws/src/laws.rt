//! Laws of the definitions, for the proofs of callers.

ghost use Rattle.xp_lexicon_laws.specs.EachRead.{EachTextIsRead};

/// Each text has tokens up to its end, or up to where no token can be read.
pub fn each_text_is_read()
    ensures { EachTextIsRead }
{}
