//! Laws of the definitions, for the proofs of callers.

ghost use Rattle.watch_lines_laws.specs.Reading.{EachFileIsRead, OneReading};

use xp_grammar::each_derives_or_fails;
use xp_lexicon::whole_texts_end;
use xp_lexicon_laws::each_text_is_read;
use xp_syntax::{faulty_texts_spell_nothing, first_faults_are_unique, one_spelling};
use xp_types::expressions_are_typed_or_refused;

/// A file has no two lists of watched expressions, nor two first faults, nor both.
pub fn one_reading()
    ensures { OneReading }
{
    one_spelling();
    first_faults_are_unique();
    faulty_texts_spell_nothing();
    expressions_are_typed_or_refused();
}

/// Each file has its watched expressions, or a first fault.
pub fn each_file_is_read()
    ensures { EachFileIsRead }
{
    each_text_is_read();
    whole_texts_end();
    each_derives_or_fails();
    expressions_are_typed_or_refused();
}
