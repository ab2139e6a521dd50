//! Texts that are read whole.

ghost use Rattle.std.specs.Prelude.{◌≡◌, ℕ, [], length, None, Some, IfOk, MatchResult};
ghost use Rattle.pyx_core.specs.declared.mode.Mode.{Mode};
ghost use Rattle.pyx_core.specs.Reader.{Reads};
ghost use Rattle.pyx_core.specs.Reading.{fault_of, events_of, events_before_fault, IfFault};
ghost use Rattle.pyx_core.specs.inner.ReadAll.{ReadsAll};

use crate::{FeedError, LocatedList, Mode, PyxFault, Reader};
use std::alloc::{AllocError, Global};

/// The events of a text up to its end, or up to its first fault.
#[derive(Drop)]
pub struct Front {
    /// The events; before a fault those that are completed by the lines before it.
    pub events: LocatedList,
    /// The first fault, if the text has one.
    pub fault: Option<PyxFault>,
}

/// Feeds the whole text.
fn feed_whole(reader: &mut Reader, bytes: &[u8]) -> Result<(), FeedError>
    ensures { (mode : Mode) → Reads reader.old mode [] [] → ReadsAll reader.new mode bytes.now result }
{
    reader.feed(bytes)?;
    reader.finish()
}

/// Feeds the whole text, and answers its fault.
fn fault_of_whole(reader: &mut Reader, bytes: &[u8]) -> Result<Option<PyxFault>, AllocError>
    ensures { (mode : Mode) → Reads reader.old mode [] [] → IfOk result (λ fault. (fault ≡ fault_of mode bytes.now)
        × (reader.new.waiting ≡ events_before_fault mode bytes.now)) }
{
    match feed_whole(reader, bytes) {
        Ok(()) => Ok(None),
        Err(FeedError::Fault(fault)) => Ok(Some(fault)),
        Err(FeedError::Memory) => Err(AllocError),
    }
}

/// Takes all events that wait.
fn take_all(alloc: Global, reader: &mut Reader) -> Result<LocatedList, AllocError>
    ensures { IfOk result (λ events. events ≡ reader.old.waiting) }
{
    let mut events = LocatedList::new(alloc);
    while let Some(event) = reader.next_event() {
        events.push(event)?;
    }
    Ok(events)
}

/// Feeds the whole text to a new reader, and takes the events.
fn front_of(alloc: Global, reader: &mut Reader, bytes: &[u8]) -> Result<Front, AllocError>
    ensures fault { (mode : Mode) → Reads reader.old mode [] [] → IfOk result (λ front. front.fault ≡ fault_of mode bytes.now) }
    ensures events { (mode : Mode) → Reads reader.old mode [] [] →
        IfOk result (λ front. front.events ≡ events_before_fault mode bytes.now) }
{
    let fault = fault_of_whole(reader, bytes)?;
    let events = take_all(alloc, reader)?;
    Ok(Front { events, fault })
}

/// Reads a text as far as it has no fault.
///
/// The time grows with the bytes.
pub fn read_front(alloc: Global, mode: Mode, bytes: &[u8]) -> Result<Front, AllocError>
    ensures fault { IfOk result (λ front. front.fault ≡ fault_of mode bytes.now) }
    ensures events { IfOk result (λ front. front.events ≡ events_before_fault mode bytes.now) }
{
    let mut reader = Reader::new(alloc, mode);
    front_of(alloc, &mut reader, bytes)
}

/// Reads a text that has to be a document or a fragment.
///
/// The time grows with the bytes.
pub fn read_events(alloc: Global, mode: Mode, bytes: &[u8]) -> Result<LocatedList, FeedError>
    ensures { MatchResult result (λ events. (fault_of mode bytes.now ≡ None) × (events ≡ events_of mode bytes.now))
        (IfFault (λ fault. fault_of mode bytes.now ≡ Some fault)) }
{
    let front = read_front(alloc, mode, bytes)?;
    match front.fault {
        Some(fault) => Err(FeedError::Fault(fault)),
        None => Ok(front.events),
    }
}
