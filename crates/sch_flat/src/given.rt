//! Attributes as they are handed to the writer.

use sch_base::Text;
use sch_model::TextList;

/// An attribute of an element that is to be written.
#[derive(Clone, Copy)]
pub(crate) enum Given<'a> {
    /// Its name and a value that is the same in each document.
    Fixed(&'a str, &'a str),
    /// Its name and value.
    Always(&'a str, &'a Text),
    /// Its name and value; no attribute where there is no value.
    IfAny(&'a str, &'a Option<Text>),
    /// Its name and a value that is the same in each document; no attribute where there is no value.
    IfFixed(&'a str, Option<&'a str>),
    /// Its name and ids, with a space between each two; no attribute without ids.
    Ids(&'a str, &'a TextList),
}
