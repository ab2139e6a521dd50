//! The fields of a command line, and the numbers among them.

ghost use Rattle.std.specs.Prelude.{◌≡◌, MatchOption};
ghost use Rattle.pyx_core.specs.LineTable.{is_qname, is_space};
ghost use Rattle.edit_script.specs.CommandLine.{verb_of};
ghost use Rattle.edit_script.specs.Paths.{number_of};
ghost use Rattle.edit_script.specs.inner.Parts.{Parted, Whole};

use crate::MAX_PLACE;
use crate::command::Verb;
use sch_base::{number_up_to, split_qname};

/// What stands in front of the first space and behind it; None where there is no space.
#[tactic(auto, using(crate::proofs::PartLemmas::whole_at, crate::proofs::PartLemmas::parted_at))]
pub(crate) fn split_space(text: &str) -> Option<(&str, &str)>
    ensures { MatchOption result (Whole is_space text.now) (λ parts. Parted is_space text.now parts.0.now parts.1.now) }
{
    text.split_once(' ')
}

/// The command with a word; None where there is none.
#[tactic(auto, unfolding(crate::specs::CommandLine::verb_of))]
pub(crate) fn verb_of(word: &str) -> Option<Verb>
    ensures { result ≡ verb_of word.now }
{
    match word {
        "insert" => Some(Verb::Insert),
        "delete" => Some(Verb::Delete),
        "text" => Some(Verb::SetText),
        "set" => Some(Verb::SetAttr),
        "unset" => Some(Verb::UnsetAttr),
        "rename" => Some(Verb::Rename),
        "renameattr" => Some(Verb::RenameAttr),
        _ => None,
    }
}

/// Whether the text is a QName (Namespaces in XML 1.0, section 4).
pub(crate) fn is_qname(text: &str) -> bool
    ensures { result ≡ is_qname text.now }
{
    split_qname(text).is_some()
}

/// The number of a place, from 1 to `MAX_PLACE`, decimal and without leading zeros; None for another text.
pub(crate) fn read_number(text: &str) -> Option<u32>
    ensures { result ≡ number_of text.now }
{
    number_up_to(MAX_PLACE, text)
}
