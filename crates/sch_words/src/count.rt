//! Counts as a word says them: how many items are measured, how many edits can be undone.

ghost use Rattle.std.specs.Prelude.{◌≡◌, ◌≤◌, IfSome};
ghost use Rattle.sch_words.specs.Counts.{count_of, depth_of};

use sch_base::number_up_to;

/// How many items are measured at most.
pub const MAX_MEASURED_ITEMS: u32 = 2_000;

/// How many edits can be undone at most.
pub const MAX_UNDO_DEPTH: u32 = 1_000;

/// The count that a word says: decimal, without leading zeros, from 1 to `MAX_MEASURED_ITEMS`; None for another word.
pub(crate) fn count_of(word: &str) -> Option<u32>
    ensures { result ≡ count_of word.now }
{
    number_up_to(MAX_MEASURED_ITEMS, word)
}

/// The number of edits that a word says: decimal, without leading zeros, from 1 to `MAX_UNDO_DEPTH`; None for another word.
pub(crate) fn depth_of(word: &str) -> Option<u32>
    ensures depth { result ≡ depth_of word.now }
    ensures within { IfSome result (λ depth. depth ≤ MAX_UNDO_DEPTH) }
{
    number_up_to(MAX_UNDO_DEPTH, word)
}
