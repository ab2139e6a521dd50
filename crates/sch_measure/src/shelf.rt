//! The shelf on which the texts stand.

ghost use Rattle.std.specs.Prelude.{◌≡◌, ◌<◌, string_bytes, IfOk, OnOk};
ghost use Rattle.std.specs.FinMap.{insert};
ghost use Rattle.sch_measure.specs.Shelf.{measure_files};
ghost use Rattle.sch_measure.specs.Texts.{document_text, schema_text, script_text};

use crate::texts::{document_text, schema_text, script_text};
use sch_io::MemoryShelf;
use std::alloc::{AllocError, Global};

/// The name under which the schema stands.
pub const SCHEMA_NAME: &str = "schema";

/// The name under which the document stands.
pub const DOCUMENT_NAME: &str = "document";

/// The name under which the script stands.
pub const SCRIPT_NAME: &str = "script";

/// A shelf in memory with the schema, the document and the script for so many items.
pub fn measure_shelf(alloc: Global, items: u32) -> Result<MemoryShelf, AllocError>
    ensures { IfOk result (λ shelf. shelf.files ≡ measure_files items) }
{
    let mut shelf = MemoryShelf::new(alloc);
    match put_texts(&mut shelf, alloc, items) {
        Ok(()) => Ok(shelf),
        Err(error) => {
            drop(shelf);
            Err(error)
        }
    }
}

/// Puts the three texts on a shelf.
fn put_texts(shelf: &mut MemoryShelf, alloc: Global, items: u32) -> Result<(), AllocError>
    ensures { OnOk result (shelf.new.files ≡ insert (insert (insert shelf.old.files SCHEMA_NAME.now schema_text) DOCUMENT_NAME.now (document_text items)) SCRIPT_NAME.now (script_text items)) }
{
    put_text(shelf, SCHEMA_NAME, schema_text(alloc)?)?;
    put_counted(shelf, alloc, items)
}

/// Puts the texts that grow with the number of items on a shelf: the document and the script.
fn put_counted(shelf: &mut MemoryShelf, alloc: Global, items: u32) -> Result<(), AllocError>
    ensures { OnOk result (shelf.new.files ≡ insert (insert shelf.old.files DOCUMENT_NAME.now (document_text items)) SCRIPT_NAME.now (script_text items)) }
{
    put_text(shelf, DOCUMENT_NAME, document_text(alloc, items)?)?;
    put_text(shelf, SCRIPT_NAME, script_text(alloc, items)?)
}

/// Puts a text on a shelf, under a name.
fn put_text(shelf: &mut MemoryShelf, name: &str, text: String) -> Result<(), AllocError>
    ensures { OnOk result (shelf.new.files ≡ insert shelf.old.files name.now (string_bytes text)) }
{
    let put = shelf.put(name, text.as_bytes());
    drop(text);
    put
}
