//! Lists of ids.

ghost use Rattle.std.specs.Prelude.{◌≡◌, [], ◌++◌, true, false, encode_utf8, string_bytes, IfOk, OnOk};
ghost use Rattle.sch_base.specs.Characters.{is_whitespace};
ghost use Rattle.sch_rules.specs.RawSchema.{ids_in};
ghost use Rattle.sch_source.specs.inner.Ids.{id_list};

use sch_base::{ItemList, Text, is_whitespace};
use sch_model::TextList;
use std::alloc::{AllocError, Global};

/// The ids of a list, which are parted by whitespace (XML 1.0, section 2.3).
pub(crate) fn ids_in(alloc: Global, text: &str) -> Result<TextList, AllocError>
    ensures { IfOk result (λ ids. ids ≡ ids_in text.now) }
{
    let mut ids = ItemList::new(alloc);
    match push_ids(alloc, &mut ids, text) {
        Ok(()) => Ok(ids),
        Err(error) => {
            drop(ids);
            Err(error)
        }
    }
}

/// Puts the ids of a list at the end of a list that is empty.
fn push_ids(alloc: Global, ids: &mut TextList, text: &str) -> Result<(), AllocError>
    requires { ids.old ≡ [] }
    ensures { OnOk result (ids.new ≡ ids_in text.now) }
{
    let mut current = String::new(alloc);
    for c in text.chars() {
        push_character(alloc, ids, &mut current, c)?;
    }
    end_id(alloc, ids, &mut current)
}

/// Reads a character: whitespace ends the id at the end, another character belongs to it.
fn push_character(
    alloc: Global,
    ids: &mut TextList,
    current: &mut String,
    c: char,
) -> Result<(), AllocError>
    ensures ended { OnOk result (is_whitespace c ≡ true → (ids.new ≡ ids.old ++ id_list (string_bytes current.old)) × (string_bytes current.new ≡ [])) }
    ensures longer { OnOk result (is_whitespace c ≡ false → (ids.new ≡ ids.old) × (string_bytes current.new ≡ string_bytes current.old ++ encode_utf8 c)) }
{
    if is_whitespace(c) {
        return end_id(alloc, ids, current);
    }
    current.push(c)?;
    Ok(())
}

/// Puts the id at the end at the end of the list, where it isn't empty.
fn end_id(alloc: Global, ids: &mut TextList, current: &mut String) -> Result<(), AllocError>
    ensures { OnOk result ((ids.new ≡ ids.old ++ id_list (string_bytes current.old)) × (string_bytes current.new ≡ [])) }
{
    if !current.is_empty() {
        ids.push(Text::copy(alloc, current.as_str())?)?;
        current.clear();
    }
    Ok(())
}
