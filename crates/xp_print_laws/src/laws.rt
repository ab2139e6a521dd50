//! Laws of printing, for the proofs of callers.

ghost use Rattle.xp_print_laws.specs.Reprinted.{PrintedTokensDeriveTheSame};
ghost use Rattle.xp_print_laws.specs.Spelling.{PrintedSpellsNothingElse, PrintedSpellsTheSame, PrintedTextHasThePrintedTokens};

use xp_lexicon::whole_texts_end;
use xp_syntax::one_spelling;

/// The tokens of a printed expression derive, within the same limit, the same expression but for offsets.
pub fn printed_tokens_derive_the_same()
    ensures { PrintedTokensDeriveTheSame }
{}

/// The text of a printed expression that some text spells is read as the tokens of the printed expression.
pub fn printed_text_has_the_printed_tokens()
    ensures { PrintedTextHasThePrintedTokens }
{
    whole_texts_end();
}

/// The text of a printed expression that some text spells, spells within the same limit the same expression but for
/// offsets.
pub fn printed_spells_the_same_tree()
    ensures { PrintedSpellsTheSame }
{
    whole_texts_end();
}

/// The text of a printed expression that some text spells, spells nothing else than that expression, but for offsets.
pub fn printed_spells_nothing_else()
    ensures { PrintedSpellsNothingElse }
{
    printed_spells_the_same_tree();
    one_spelling();
}
