//! The three texts.

ghost use Rattle.std.specs.Prelude.{◌≡◌, ◌+◌, ◌<◌, ◌≤◌, ◌^◌, ◌++◌, IfOk, OnOk, string_bytes};
ghost use Rattle.sch_measure.specs.Texts.{command_lines, document_text, id_command, id_line, item_command, item_lines, place_of, schema_text, script_text, text_command};

use std::alloc::{AllocError, Global};
use std::fmt::Write;

/// The schema: in one pattern each item is asserted to have an id, in the other an item is reported whose text is v0.
const SCHEMA: &str =
    "(schema\nAxmlns http://purl.oclc.org/dsdl/schematron\n(pattern\n(rule\nAcontext item\n(assert\nAtest @id\n-id\n)assert\n)rule\n)pattern\n(pattern\n(rule\nAcontext item\n(report\nAtest . = 'v0'\n-v0\n)report\n)rule\n)pattern\n)schema\n";

/// The text of the schema.
pub fn schema_text(alloc: Global) -> Result<String, AllocError>
    ensures { IfOk result (λ text. string_bytes text ≡ schema_text) }
{
    String::from_str(alloc, SCHEMA)
}

/// The text of the document with so many items.
pub fn document_text(alloc: Global, items: u32) -> Result<String, AllocError>
    ensures { IfOk result (λ text. string_bytes text ≡ document_text items) }
{
    let mut text = String::from_str(alloc, "(list\n")?;
    for before in 0..items {
        push_item(&mut text, before + 1)?;
    }
    text.push_str(")list\n")?;
    Ok(text)
}

/// Puts the lines of an item at the end of the text, by its number counted from 1.
fn push_item(text: &mut String, i: u32) -> Result<(), AllocError>
    ensures { OnOk result (string_bytes text.new ≡ string_bytes text.old ++ item_lines i) }
{
    text.push_str("(item\n")?;
    push_id(text, i)?;
    let rest = i % 5;
    write!(text, "-v{rest}\n)item\n")?;
    Ok(())
}

/// Puts the line of an item's id at the end of the text, where it has one.
fn push_id(text: &mut String, i: u32) -> Result<(), AllocError>
    ensures { OnOk result (string_bytes text.new ≡ string_bytes text.old ++ id_line i) }
{
    if i % 7 != 0 {
        write!(text, "Aid {i}\n")?;
    }
    Ok(())
}

/// The text of the script for a document with so many items.
pub fn script_text(alloc: Global, items: u32) -> Result<String, AllocError>
    ensures { IfOk result (λ text. string_bytes text ≡ script_text items) }
{
    let mut text = String::new(alloc);
    for before in 0..items {
        push_command(&mut text, items, before + 1)?;
    }
    Ok(text)
}

/// Puts the lines of a command at the end of the text, by its number counted from 1.
fn push_command(text: &mut String, items: u32, k: u32) -> Result<(), AllocError>
    requires some { 0 < items }
    requires counted { 0 < k }
    ensures { OnOk result (string_bytes text.new ≡ string_bytes text.old ++ command_lines items k) }
{
    let place = place_of(items, k);
    match k % 3 {
        1 => push_text_command(text, place),
        2 => push_id_command(text, place, k),
        _ => push_item_command(text, place),
    }
}

/// The place among so many items at which a command works.
fn place_of(items: u32, k: u32) -> u64
    requires some { 0 < items }
    requires counted { 0 < k }
    ensures { result ≡ place_of items k }
{
    13 * u64::from(k - 1) % u64::from(items) + 1
}

/// Puts a command at the end of the text that sets the text of the item at a place.
fn push_text_command(text: &mut String, place: u64) -> Result<(), AllocError>
    ensures { OnOk result (string_bytes text.new ≡ string_bytes text.old ++ text_command place) }
{
    write!(text, "text /*[1]/*[{place}]/text()[1] v0\n")?;
    Ok(())
}

/// Puts a command at the end of the text that sets the id of the item at a place.
fn push_id_command(text: &mut String, place: u64, k: u32) -> Result<(), AllocError>
    ensures { OnOk result (string_bytes text.new ≡ string_bytes text.old ++ id_command place k) }
{
    write!(text, "set /*[1]/*[{place}] id {k}\n")?;
    Ok(())
}

/// Puts a command at the end of the text that inserts an item at a place.
fn push_item_command(text: &mut String, place: u64) -> Result<(), AllocError>
    ensures { OnOk result (string_bytes text.new ≡ string_bytes text.old ++ item_command place) }
{
    write!(text, "insert /*[1] {place}\n(item\n-v1\n)item\n.\n")?;
    Ok(())
}
