//! The files, the phase and the number of edits that accepted words name.

ghost use Rattle.std.specs.Prelude.{◌≤◌};
ghost use Rattle.sch_words.specs.declared.count.TheConstants.{MAX_UNDO_DEPTH};

use sch_base::Text;

/// What a validation is asked for: the document, by the schema under the phase.
#[derive(Clone, Copy)]
pub struct Validation<'a> {
    pub phase: &'a str,
    pub schema: &'a Text,
    pub document: &'a Text,
}

/// What is followed: a validation, and the same after each command of the script.
#[derive(Clone, Copy)]
pub struct ScriptedValidation<'a> {
    pub validation: Validation<'a>,
    pub script: &'a Text,
    /// How many of the newest edits can be undone; 0: none.
    pub undos: u32,
    pub ghost within: { undos ≤ MAX_UNDO_DEPTH },
}

/// What is watched: the expressions of a file over a document, and again after each command of the script.
#[derive(Clone, Copy)]
pub struct Watching<'a> {
    pub watches: &'a Text,
    pub document: &'a Text,
    pub script: &'a Text,
}
