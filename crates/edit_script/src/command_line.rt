//! What a command line says.

ghost use Rattle.std.specs.Prelude.{◌≡◌, ◌∷◌, [], true, false, Some, IfOk, MatchOption};
ghost use Rattle.std.specs.List.{list_all};
ghost use Rattle.std.specs.Str.{chars, is_utf8};
ghost use Rattle.sch_base.specs.Characters.{is_xml_char};
ghost use Rattle.pyx_core.specs.Escapes.{unescaped};
ghost use Rattle.pyx_core.specs.Nesting.{of_chars};
ghost use Rattle.edit_script.specs.CommandLine.{command_line, delete_of, fields, if_name, if_names, insert_of, rename_attr_of, rename_of, said_by, set_of, text_of, unset_of, value_behind_one, value_behind_two};
ghost use Rattle.edit_script.specs.declared.command.Command.TheVariants.{RenameAttr, SetAttr};
ghost use Rattle.edit_script.specs.declared.command.Said.TheVariants.{Whole};
ghost use Rattle.edit_script.specs.inner.Fields.{IsNotThree, IsNotTwo, StartsWith};

use crate::ScriptKind;
use crate::command::{Command, Path, Said, Verb};
use crate::fields::{is_qname, read_number, split_space, verb_of};
use crate::paths::read_path;
use pyx_core::unescape;
use sch_base::{Text, is_xml_char};
use std::alloc::{AllocError, Global};

/// What a command line says, or the first of the rules that it breaks.
///
/// The time grows with its length.
pub(crate) fn command_line(
    alloc: Global,
    line: &[u8],
) -> Result<Result<Said, ScriptKind>, AllocError>
    ensures { IfOk result (λ said. said ≡ command_line line.now) }
{
    let Some(text) = text_of_chars(line) else {
        return Ok(Err(ScriptKind::BadChar));
    };
    let Some((word, behind)) = split_space(text) else {
        return Ok(Err(ScriptKind::BadWord));
    };
    match verb_of(word) {
        Some(verb) => said_by(alloc, verb, behind),
        None => Ok(Err(ScriptKind::BadWord)),
    }
}

/// The bytes as a text, where they are UTF-8 and each character is a Char (XML 1.0, section 2.2).
fn text_of_chars(bytes: &[u8]) -> Option<&str>
    ensures { MatchOption result (of_chars bytes.now ≡ false) (λ text. (of_chars bytes.now ≡ true) × (text.now ≡ bytes.now)) }
{
    let text = utf8_text(bytes)?;
    if is_of_chars(text) { Some(text) } else { None }
}

/// The bytes as a text, where they are UTF-8.
#[tactic(auto, using(pyx_core::proofs::LineTableLemmas::not_utf8, pyx_core::proofs::LineTableLemmas::is_utf8_text))]
fn utf8_text(bytes: &[u8]) -> Option<&str>
    ensures { MatchOption result (is_utf8 bytes.now ≡ false) (λ text. (is_utf8 bytes.now ≡ true) × (text.now ≡ bytes.now)) }
{
    match std::str::from_utf8(bytes) {
        Ok(text) => Some(text),
        Err(_) => None,
    }
}

/// Whether each character is a Char (XML 1.0, section 2.2).
fn is_of_chars(text: &str) -> bool
    ensures { result ≡ list_all is_xml_char (chars text.now) }
{
    text.chars().all(|c| is_xml_char(c))
}

/// What a command says by what stands behind its word.
fn said_by(alloc: Global, verb: Verb, text: &str) -> Result<Result<Said, ScriptKind>, AllocError>
    ensures { IfOk result (λ said. said ≡ said_by (Some verb) text.now) }
{
    match verb {
        Verb::Insert => read_insert(alloc, text),
        Verb::Delete => read_delete(alloc, text),
        Verb::SetText => read_text(alloc, text),
        Verb::SetAttr => read_set(alloc, text),
        Verb::UnsetAttr => read_unset(alloc, text),
        Verb::Rename => read_rename(alloc, text),
        Verb::RenameAttr => read_rename_attr(alloc, text),
    }
}

/// The two fields of a text; None where there are fewer or more.
fn two_fields(text: &str) -> Option<(&str, &str)>
    ensures { MatchOption result (IsNotTwo text.now) (λ two. fields text.now ≡ two.0.now ∷ (two.1.now ∷ [])) }
{
    let (first, second) = split_space(text)?;
    if split_space(second).is_some() {
        return None;
    }
    Some((first, second))
}

/// The three fields of a text; None where there are fewer or more.
fn three_fields(text: &str) -> Option<(&str, &str, &str)>
    ensures { MatchOption result (IsNotThree text.now) (λ three. fields text.now ≡ three.0.now ∷ (three.1.now ∷ (three.2.now ∷ []))) }
{
    let (first, behind) = split_space(text)?;
    let (second, third) = two_fields(behind)?;
    Some((first, second, third))
}

fn read_insert(alloc: Global, text: &str) -> Result<Result<Said, ScriptKind>, AllocError>
    ensures { IfOk result (λ said. said ≡ insert_of (fields text.now)) }
{
    let Some((path, number)) = two_fields(text) else {
        return Ok(Err(ScriptKind::BadWord));
    };
    let Some(path) = read_path(alloc, path)? else {
        return Ok(Err(ScriptKind::BadPath));
    };
    match read_number(number) {
        Some(at) => Ok(Ok(Said::Opening { path, at })),
        None => Ok(Err(ScriptKind::BadNumber)),
    }
}

fn read_delete(alloc: Global, text: &str) -> Result<Result<Said, ScriptKind>, AllocError>
    ensures { IfOk result (λ said. said ≡ delete_of (fields text.now)) }
{
    if split_space(text).is_some() {
        return Ok(Err(ScriptKind::BadWord));
    }
    match read_path(alloc, text)? {
        Some(path) => Ok(Ok(Said::Whole {
            command: Command::Delete { path },
        })),
        None => Ok(Err(ScriptKind::BadPath)),
    }
}

/// The first field of a text and what stands behind it; without a space there is nothing behind it.
fn first_field(text: &str) -> (&str, &str)
    ensures { StartsWith text.now result.0.now result.1.now }
{
    match split_space(text) {
        Some((first, behind)) => (first, behind),
        None => (text, ""),
    }
}

fn read_text(alloc: Global, text: &str) -> Result<Result<Said, ScriptKind>, AllocError>
    ensures { IfOk result (λ said. said ≡ text_of (fields text.now) (value_behind_one text.now)) }
{
    let (path, value) = first_field(text);
    let Some(path) = read_path(alloc, path)? else {
        return Ok(Err(ScriptKind::BadPath));
    };
    let text = unescape(alloc, value)?;
    Ok(Ok(Said::Whole {
        command: Command::SetText { path, text },
    }))
}

fn read_set(alloc: Global, text: &str) -> Result<Result<Said, ScriptKind>, AllocError>
    ensures { IfOk result (λ said. said ≡ set_of (fields text.now) (value_behind_two text.now)) }
{
    let Some((path, behind)) = split_space(text) else {
        return Ok(Err(ScriptKind::BadWord));
    };
    let (name, value) = first_field(behind);
    match read_path(alloc, path)? {
        Some(path) => set_at(alloc, path, name, value),
        None => Ok(Err(ScriptKind::BadPath)),
    }
}

/// The command that gives a value, whose escapes are still to be undone, to an attribute of the node with the path.
fn set_at(
    alloc: Global,
    path: Path,
    name: &str,
    value: &str,
) -> Result<Result<Said, ScriptKind>, AllocError>
    ensures { IfOk result (λ said. said ≡ if_name name.now (Whole (SetAttr path name.now (unescaped value.now)))) }
{
    if !is_qname(name) {
        drop(path);
        return Ok(Err(ScriptKind::BadName));
    }
    match copy_attribute(alloc, name, value) {
        Ok((name, value)) => Ok(Ok(Said::Whole {
            command: Command::SetAttr { path, name, value },
        })),
        Err(error) => {
            drop(path);
            Err(error)
        }
    }
}

/// The name and the value of an attribute, which has its escapes undone.
fn copy_attribute(alloc: Global, name: &str, value: &str) -> Result<(Text, Text), AllocError>
    ensures name { IfOk result (λ both. both.0 ≡ name.now) }
    ensures value { IfOk result (λ both. both.1 ≡ unescaped value.now) }
{
    let name = Text::copy(alloc, name)?;
    let value = unescape(alloc, value)?;
    Ok((name, value))
}

fn read_unset(alloc: Global, text: &str) -> Result<Result<Said, ScriptKind>, AllocError>
    ensures { IfOk result (λ said. said ≡ unset_of (fields text.now)) }
{
    let Some((path, name)) = two_fields(text) else {
        return Ok(Err(ScriptKind::BadWord));
    };
    let Some(path) = read_path(alloc, path)? else {
        return Ok(Err(ScriptKind::BadPath));
    };
    if !is_qname(name) {
        return Ok(Err(ScriptKind::BadName));
    }
    let name = Text::copy(alloc, name)?;
    Ok(Ok(Said::Whole {
        command: Command::UnsetAttr { path, name },
    }))
}

fn read_rename(alloc: Global, text: &str) -> Result<Result<Said, ScriptKind>, AllocError>
    ensures { IfOk result (λ said. said ≡ rename_of (fields text.now)) }
{
    let Some((path, name)) = two_fields(text) else {
        return Ok(Err(ScriptKind::BadWord));
    };
    let Some(path) = read_path(alloc, path)? else {
        return Ok(Err(ScriptKind::BadPath));
    };
    if !is_qname(name) {
        return Ok(Err(ScriptKind::BadName));
    }
    let name = Text::copy(alloc, name)?;
    Ok(Ok(Said::Whole {
        command: Command::Rename { path, name },
    }))
}

fn read_rename_attr(alloc: Global, text: &str) -> Result<Result<Said, ScriptKind>, AllocError>
    ensures { IfOk result (λ said. said ≡ rename_attr_of (fields text.now)) }
{
    let Some((path, old, name)) = three_fields(text) else {
        return Ok(Err(ScriptKind::BadWord));
    };
    match read_path(alloc, path)? {
        Some(path) => rename_attr_at(alloc, path, old, name),
        None => Ok(Err(ScriptKind::BadPath)),
    }
}

/// The command that gives an attribute, by its name, another name.
fn rename_attr_at(
    alloc: Global,
    path: Path,
    old: &str,
    name: &str,
) -> Result<Result<Said, ScriptKind>, AllocError>
    ensures { IfOk result (λ said. said ≡ if_names old.now name.now (Whole (RenameAttr path old.now name.now))) }
{
    if !is_qname(old) || !is_qname(name) {
        drop(path);
        return Ok(Err(ScriptKind::BadName));
    }
    match copy_names(alloc, old, name) {
        Ok((old, name)) => Ok(Ok(Said::Whole {
            command: Command::RenameAttr { path, old, name },
        })),
        Err(error) => {
            drop(path);
            Err(error)
        }
    }
}

/// Two names, copied.
fn copy_names(alloc: Global, old: &str, name: &str) -> Result<(Text, Text), AllocError>
    ensures old { IfOk result (λ both. both.0 ≡ old.now) }
    ensures name { IfOk result (λ both. both.1 ≡ name.now) }
{
    let old = Text::copy(alloc, old)?;
    let name = Text::copy(alloc, name)?;
    Ok((old, name))
}
