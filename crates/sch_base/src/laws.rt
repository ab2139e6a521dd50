//! Laws of the definitions, for the proofs of callers.

ghost use Rattle.std.specs.Prelude.{◌≡◌};
ghost use Rattle.sch_base.specs.Characters.{CharactersSpellTheText, TextHasItsCharacters};
ghost use Rattle.sch_base.specs.Names.{QNamesSplit};

use crate::limits::{
    MAX_ACTIVE_PATTERNS, MAX_ASSERTIONS, MAX_EXPRESSION_BYTES, MAX_INCLUDE_DEPTH, MAX_INCLUDES,
    MAX_LETS, MAX_NESTING, MAX_PAIRS, MAX_RULES, MAX_TEXT_BYTES,
};

/// The numbers of the limits: texts and expressions in bytes, brackets and signs that are open at one place, rules,
/// assertions, lets, active patterns, includes in all and inside one another, and pairs of a pattern and a node.
pub fn numbers_of_limits()
    ensures text_bytes { MAX_TEXT_BYTES ≡ 16777216 }
    ensures expression_bytes { MAX_EXPRESSION_BYTES ≡ 65536 }
    ensures nesting { MAX_NESTING ≡ 64 }
    ensures rules { MAX_RULES ≡ 4096 }
    ensures assertions { MAX_ASSERTIONS ≡ 16384 }
    ensures lets { MAX_LETS ≡ 1024 }
    ensures active_patterns { MAX_ACTIVE_PATTERNS ≡ 1024 }
    ensures includes { MAX_INCLUDES ≡ 256 }
    ensures include_depth { MAX_INCLUDE_DEPTH ≡ 16 }
    ensures pairs { MAX_PAIRS ≡ 4194304 }
{}

/// The characters of a text spell it.
pub fn characters_spell_the_text()
    ensures { CharactersSpellTheText }
{}

/// A text has the characters that it spells.
pub fn text_has_its_characters()
    ensures { TextHasItsCharacters }
{}

/// A QName is split at its colon.
pub fn qnames_split()
    ensures { QNamesSplit }
{}
