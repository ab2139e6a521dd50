//! Lists of ids as one text.

ghost use Rattle.std.specs.Prelude.{◌≡◌, ◌∷◌, IfOk};
ghost use Rattle.sch_texts.specs.Ids.{id_list, spaced};

use sch_base::{ItemList, Text};
use std::alloc::{AllocError, Global};

/// The ids with single spaces between them, where there are some.
pub fn joined_ids(alloc: Global, ids: &ItemList<Text>) -> Result<Option<Text>, AllocError>
    ensures { IfOk result (λ text. text ≡ id_list ids.now) }
{
    match ids.as_slice().split_first() {
        None => Ok(None),
        Some((first, rest)) => Ok(Some(spaced_ids(alloc, first, rest)?)),
    }
}

/// The ids with single spaces between them.
fn spaced_ids(alloc: Global, first: &Text, rest: &[Text]) -> Result<Text, AllocError>
    ensures { IfOk result (λ text. text ≡ spaced (first.now ∷ rest.now)) }
{
    let mut text = String::from_str(alloc, first.as_str())?;
    for id in rest {
        text.push_str(" ")?;
        text.push_str(id.as_str())?;
    }
    Ok(Text::from(text))
}
