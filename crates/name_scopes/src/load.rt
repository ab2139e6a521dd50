//! From the bytes of a document to its tree.

ghost use Rattle.std.specs.Prelude.{◌≡◌, ◌≢◌, ◌≤◌, ◌<◌, ◌++◌, [], List, ℕ, None, length, IfOk, OnOk, IfErr};
ghost use Rattle.pyx_core.specs.declared.event.Event.{Event};
ghost use Rattle.pyx_core.specs.declared.event.Located.{Located};
ghost use Rattle.pyx_core.specs.declared.mode.Mode.TheVariants.{Document};
ghost use Rattle.pyx_core.specs.Nesting.{Place, bare};
ghost use Rattle.pyx_core.specs.Reader.{Reads};
ghost use Rattle.pyx_core.specs.Reading.{events_of};
ghost use Rattle.name_scopes.specs.ScopedTree.{Scoped};
ghost use Rattle.name_scopes.specs.DocFaults.{Refuses, Standing, doc_fault};
ghost use Rattle.name_scopes.specs.inner.Build.{Comes, IsNew, IsReady, Loads};
ghost use Rattle.name_scopes.specs.inner.Load.{AreDue, Enter, Going, HasTakenAll, Stands, TakesFound, line_error};

use crate::build::Loader;
use crate::fault::{DocFault, DocKind, EventError, LoadError};
use doc_tree::{MAX_LIVE_NODES, MAX_LIVE_TEXT_BYTES, Tree};
use pyx_core::{FeedError, Located, Mode, Reader, completed_events_stay, events_nest, faults_stay};
use std::alloc::Global;

/// Loads a document of at most `MAX_LIVE_TEXT_BYTES` bytes: the tree of its events, with each name in the namespace that the
/// nearest declaration of its prefix gives (Namespaces in XML 1.0, section 6), or its first fault. Its pair cap is that of a
/// new tree.
///
/// Costs time linear in the bytes. Beside the tree it keeps the events of some hundred lines at most.
pub fn load_tree(alloc: Global, bytes: &[u8]) -> Result<Tree, LoadError>
    requires { length bytes.now ≤ MAX_LIVE_TEXT_BYTES }
    ensures good { OnOk result (doc_fault bytes.now ≡ None) }
    ensures loaded { IfOk result (λ tree. Scoped (bare (events_of Document bytes.now)) tree.nodes) }
    ensures cap { IfOk result (λ tree. tree.pair_cap ≡ MAX_LIVE_NODES) }
    ensures refused { IfErr result (Refuses (doc_fault bytes.now)) }
{
    events_nest();
    let mut loader = Loader::new(alloc)?;
    let read = read_document(alloc, &mut loader, bytes);
    let mut tree = loader.into_tree();
    tree.set_pair_cap(MAX_LIVE_NODES);
    tree.laws();
    match read {
        Ok(()) => Ok(tree),
        Err(error) => Err(error),
    }
}

/// Reads a document and takes its events, up to its first fault, where none was taken yet.
fn read_document(alloc: Global, loader: &mut Loader, bytes: &[u8]) -> Result<(), LoadError>
    requires little { length bytes.now ≤ MAX_LIVE_TEXT_BYTES }
    requires new { IsNew loader.old }
    ensures taken { OnOk result (HasTakenAll bytes.now loader.new) }
    ensures refused { IfErr result (Refuses (doc_fault bytes.now)) }
{
    events_nest();
    let mut reader = Reader::new(alloc, Mode::Document);
    take_document(loader, &mut reader, bytes)
}

/// Takes the events of a document, of which nothing was read yet, up to its first fault.
fn take_document(loader: &mut Loader, reader: &mut Reader, bytes: &[u8]) -> Result<(), LoadError>
    requires little { length bytes.now ≤ MAX_LIVE_TEXT_BYTES }
    requires ready { Stands bytes.now bytes.now reader.old loader.old }
    ensures taken { OnOk result (HasTakenAll bytes.now loader.new) }
    ensures refused { IfErr result (Refuses (doc_fault bytes.now)) }
{
    faults_stay();
    completed_events_stay();
    let mut rest = bytes;
    while !rest.is_empty() {
        let (piece, later) = split_piece(rest);
        let fed = reader.feed(piece);
        match take_waiting(loader, reader) {
            Ok(()) => (),
            Err(error) => return Err(error),
        }
        match fed {
            Ok(()) => (),
            Err(error) => return Err(line_error(error)),
        }
        rest = later;
    }
    let ended = reader.finish();
    match take_waiting(loader, reader) {
        Ok(()) => (),
        Err(error) => return Err(error),
    }
    match ended {
        Ok(()) => Ok(()),
        Err(error) => Err(line_error(error)),
    }
}

/// The least length of a piece that does not end a document, in bytes: so few that its events stay in the processor's cache
/// until they are taken.
const PIECE: usize = 4_096;

/// The next piece of a document and what follows it: some hundred lines, which no piece cuts. The events that a piece
/// completes enter the tree before the next one is read.
fn split_piece(bytes: &[u8]) -> (&[u8], &[u8])
    requires { bytes.now ≢ [] }
    ensures parts { bytes.now ≡ result.0.now ++ result.1.now }
    ensures shorter { length result.1.now < length bytes.now }
{
    let end = piece_end(bytes);
    (&bytes[..end], &bytes[end..])
}

/// Where the next piece of a document ends: behind the first line end past its least length, or with the document.
fn piece_end(bytes: &[u8]) -> usize
    requires { bytes.now ≢ [] }
    ensures within { result ≤ length bytes.now }
    ensures some { 0 < result }
{
    let least = bytes.len().min(PIECE);
    match memchr::memchr(b'\n', &bytes[least..]) {
        Some(more) => least + more + 1,
        None => bytes.len(),
    }
}

/// Why a document isn't loaded whose text a reader refuses.
fn line_error(error: FeedError) -> LoadError
    ensures { result ≡ line_error error }
{
    match error {
        FeedError::Fault(fault) => LoadError::Fault(DocFault {
            line: fault.line,
            kind: DocKind::Pyx(fault.kind),
        }),
        FeedError::Memory => LoadError::Memory,
    }
}

/// Takes the events that wait, up to the first fault of one.
fn take_waiting(loader: &mut Loader, reader: &mut Reader) -> Result<(), LoadError>
    requires { AreDue reader.old.waiting loader.old }
    ensures entered { (events taken later : List Located) → Going events taken (reader.old.waiting ++ later) loader.old →
        Enter events (taken ++ reader.old.waiting) later loader.new result }
    ensures read { OnOk result ((fed : List ℕ) (taken : List Located) → Reads reader.old Document fed taken →
        Reads reader.new Document fed (taken ++ reader.old.waiting)) }
    ensures none { OnOk result (reader.new.waiting ≡ []) }
{
    while let Some(found) = reader.next_event() {
        let taken = take(loader, &found);
        drop(found);
        match taken {
            Ok(()) => (),
            Err(error) => return Err(error),
        }
    }
    Ok(())
}

/// Takes an event, whose fault stands in its line.
fn take(loader: &mut Loader, found: &Located) -> Result<(), LoadError>
    requires { IsReady loader.old found.now.event }
    ensures { (taken : List Event) (place : Place) (standing : Standing) → Loads taken place standing loader.old → Comes taken place found.now.event →
        TakesFound taken place standing found.now loader.new result }
{
    match loader.take(&found.event) {
        Ok(()) => Ok(()),
        Err(EventError::Kind(kind)) => Err(LoadError::Fault(DocFault {
            line: found.line,
            kind,
        })),
        Err(EventError::Memory) => Err(LoadError::Memory),
    }
}
