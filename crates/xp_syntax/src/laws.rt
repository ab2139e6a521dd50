//! Laws of the definitions, for the proofs of callers.

ghost use Rattle.xp_syntax.specs.Laws.{AbbreviationsAreWrittenOut, NoTextIsUnjudged, NoTextIsUnjudgedAsAPattern, OneSpelling, OnePatternSpelling};
ghost use Rattle.xp_syntax.specs.Laws.{FirstFaultsAreUnique, FirstPatternFaultsAreUnique, FaultyTextsSpellNothing, FaultyTextsSpellNoPattern};

use xp_grammar::{each_derives_a_pattern_or_fails, each_derives_or_fails};
use xp_grammar_laws::{one_pattern, one_tree};
use xp_lexicon::{no_text_is_unread, texts_read_once, whole_texts_end};

/// A text spells at most one expression, at whatever limits of nesting.
pub fn one_spelling()
    ensures { OneSpelling }
{
    texts_read_once();
    one_tree();
}

/// A text spells at most one pattern, at whatever limits of nesting.
pub fn one_pattern_spelling()
    ensures { OnePatternSpelling }
{
    texts_read_once();
    one_pattern();
}

/// A text has no two first faults.
pub fn first_faults_are_unique()
    ensures { FirstFaultsAreUnique }
{
    texts_read_once();
}

/// A text has no two first faults as a pattern.
pub fn first_pattern_faults_are_unique()
    ensures { FirstPatternFaultsAreUnique }
{
    texts_read_once();
}

/// A text with a fault spells no expression.
pub fn faulty_texts_spell_nothing()
    ensures { FaultyTextsSpellNothing }
{
    texts_read_once();
}

/// A text with a fault as a pattern spells no pattern.
pub fn faulty_texts_spell_no_pattern()
    ensures { FaultyTextsSpellNoPattern }
{
    texts_read_once();
}

/// Each text spells an expression or has a fault: no text does neither.
pub fn no_text_is_unjudged()
    ensures { NoTextIsUnjudged }
{
    no_text_is_unread();
    whole_texts_end();
    each_derives_or_fails();
}

/// Each text spells a pattern or has a fault as a pattern: no text does neither.
pub fn no_text_is_unjudged_as_a_pattern()
    ensures { NoTextIsUnjudgedAsAPattern }
{
    no_text_is_unread();
    whole_texts_end();
    each_derives_a_pattern_or_fails();
}

/// Where a step's `child::`, `attribute::`, `self::node()`, `parent::node()` or `/descendant-or-self::node()/` is
/// abbreviated, the tokens with the whole of it in that place derive the same tree (XPath 1.0, section 2.5).
pub fn abbreviations_are_written_out()
    ensures { AbbreviationsAreWrittenOut }
{}
