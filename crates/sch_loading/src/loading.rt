//! Named files: a schema, as the plan of a phase or without abstract parts, a document as a tree, and the bytes of a script.

ghost use Rattle.std.specs.Prelude.{◌≡◌, ◌≤◌, true, [], ◌∷◌, IfOk, IfSome, length};
ghost use Rattle.sch_io.specs.declared.reading.TheConstants.{MAX_FILE_BYTES};
ghost use Rattle.doc_tree.specs.Kinds.{is_document};
ghost use Rattle.name_scopes.specs.Scoping.{InScope};
ghost use Rattle.sch_compiled.specs.Soundness.{IsSound};
ghost use Rattle.edit_script.specs.declared.limits.TheConstants.{MAX_SCRIPT_BYTES};
ghost use Rattle.sch_loading.specs.Reads.{Reads, ReadsUpTo, file, schema_file};
ghost use Rattle.sch_loading.specs.Loading.{Expanding, Fetching, Inclusion, Loading, Planning, Scripting};
ghost use Rattle.sch_loading.specs.inner.Refusing.{extent_of_fetching, stop_of};

use crate::schema::{plan_of, read_flat};
use doc_tree::Tree;
use name_scopes::{LoadError, load_tree};
use sch_base::Text;
use sch_compiled::Plan;
use sch_include::{IncludeError, IncludeFault, IncludeKind, include_all};
use sch_io::{Bytes, ReadError, Shelf, read_all};
use sch_model::FlatSchema;
use sch_stops::{DocumentRefusal, FileRefusal, SchemaRefusal, ScriptRefusal, Stop};
use std::alloc::Global;

/// The plan of a phase of the named schema.
pub fn load_plan<S: Shelf>(
    alloc: Global,
    name: &Text,
    phase: &str,
    shelf: &mut S,
) -> Result<Plan, Stop>
    ensures reads { Reads (S.state shelf.old) (S.state shelf.new) (schema_file name.now ∷ []) (λ files. Planning files phase.now name.now) (λ plan. plan) result }
    ensures sound { IfOk result IsSound }
{
    let tree = load_schema(alloc, name, shelf)?;
    plan_of(alloc, &tree, phase)
}

/// The named schema without includes and abstract parts.
pub fn load_flat<S: Shelf>(alloc: Global, name: &Text, shelf: &mut S) -> Result<FlatSchema, Stop>
    ensures { Reads (S.state shelf.old) (S.state shelf.new) (schema_file name.now ∷ []) (λ files. Expanding files name.now) (λ flat. flat) result }
{
    let tree = load_schema(alloc, name, shelf)?;
    read_flat(alloc, &tree)
}

/// The tree of the named schema with its includes replaced.
fn load_schema<S: Shelf>(alloc: Global, name: &Text, shelf: &mut S) -> Result<Tree, Stop>
    ensures reads { Reads (S.state shelf.old) (S.state shelf.new) (schema_file name.now ∷ []) (λ files. Inclusion files name.now) (λ tree. tree.nodes) result }
    ensures document { IfOk result (λ tree. is_document tree.nodes ≡ true) }
{
    match include_all(alloc, shelf, name.as_str()) {
        Ok(tree) => Ok(tree),
        Err(IncludeError::Fault(fault)) => Err(stop_of(fault)),
        Err(IncludeError::Memory) => Err(Stop::Memory),
    }
}

/// What stops a run whose schema's includes have a fault.
fn stop_of(fault: IncludeFault) -> Stop
    ensures { result ≡ stop_of fault.kind fault.name }
{
    let IncludeFault { kind, name } = fault;
    match kind {
        IncludeKind::Missing => Stop::Missing { name },
        IncludeKind::Failed => Stop::ReadFault { name },
        IncludeKind::TooLarge => refused_file(name, FileRefusal::TooLarge),
        IncludeKind::Doc(fault) => refused_file(name, FileRefusal::Faulted(fault)),
        _ => Stop::SchemaRefused(SchemaRefusal::Include { kind, name }),
    }
}

/// What stops a run over a schema of which this file is refused.
fn refused_file(name: Text, refusal: FileRefusal) -> Stop
    ensures { result ≡ Stop.SchemaRefused (SchemaRefusal.File name refusal) }
{
    Stop::SchemaRefused(SchemaRefusal::File { name, refusal })
}

/// The tree of the named document; the name is kept for the line that tells of it.
pub fn load_document<S: Shelf>(alloc: Global, name: Text, shelf: &mut S) -> Result<Tree, Stop>
    ensures reads { Reads (S.state shelf.old) (S.state shelf.new) (file name ∷ []) (λ files. Loading files name) (λ tree. tree.nodes) result }
    ensures document { IfOk result (λ tree. is_document tree.nodes ≡ true) }
    ensures scoped { IfOk result (λ tree. InScope tree.nodes) }
{
    let Some(bytes) = read_file(alloc, name, shelf)? else {
        return Err(refused_document(FileRefusal::TooLarge));
    };
    match load_tree(alloc, bytes.as_slice()) {
        Ok(tree) => Ok(tree),
        Err(LoadError::Fault(fault)) => Err(refused_document(FileRefusal::Faulted(fault))),
        Err(LoadError::Memory) => Err(Stop::Memory),
    }
}

/// What stops a run over a document that is refused so.
fn refused_document(refusal: FileRefusal) -> Stop
    ensures { result ≡ Stop.DocumentRefused (DocumentRefusal.File refusal) }
{
    Stop::DocumentRefused(DocumentRefusal::File(refusal))
}

/// The bytes of the named script; the name is kept for the line that tells of it.
pub fn read_script<S: Shelf>(alloc: Global, name: Text, shelf: &mut S) -> Result<Bytes, Stop>
    ensures reads { Reads (S.state shelf.old) (S.state shelf.new) (file name ∷ []) (λ files. Scripting files name) (λ bytes. bytes) result }
    ensures short { IfOk result (λ bytes. length bytes ≤ MAX_SCRIPT_BYTES) }
{
    let found = read_file(alloc, name, shelf)?;
    match found {
        Some(bytes) => Ok(bytes),
        None => Err(Stop::ScriptRefused(ScriptRefusal::TooLarge)),
    }
}

/// The bytes of the named file, None where it has more than a file may have.
pub(crate) fn read_file<S: Shelf>(
    alloc: Global,
    name: Text,
    shelf: &mut S,
) -> Result<Option<Bytes>, Stop>
    ensures reads { ReadsUpTo (extent_of_fetching result) (S.state shelf.old) (S.state shelf.new) (file name ∷ []) (λ files. Fetching files name MAX_FILE_BYTES) (λ found. found) result }
    ensures short { IfOk result (λ found. IfSome found (λ bytes. length bytes ≤ MAX_FILE_BYTES)) }
{
    match read_all(alloc, shelf, name.as_str()) {
        Ok(bytes) => Ok(Some(bytes)),
        Err(ReadError::TooLarge) => Ok(None),
        Err(ReadError::Missing) => Err(Stop::Missing { name }),
        Err(ReadError::Failed) => Err(Stop::ReadFault { name }),
        Err(ReadError::Memory) => Err(Stop::Memory),
    }
}
