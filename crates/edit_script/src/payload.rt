//! The fragments behind inserts.

ghost use Rattle.std.specs.Prelude.{◌≡◌, ◌+◌, ◌<◌, ◌≤◌, ◌^◌, ◌++◌, suc, true, length, IfOk, IfErr, IfSome, MatchOption, OnOk};
ghost use Rattle.pyx_core.specs.declared.mode.Mode.TheVariants.{Fragment};
ghost use Rattle.pyx_core.specs.Nesting.{bare};
ghost use Rattle.pyx_core.specs.Reading.{fault_of};
ghost use Rattle.edit_script.specs.Faults.{IfFault};
ghost use Rattle.edit_script.specs.Script.{fault_at, is_piece, joined, lines_of, payload_line, piece_of, with_end};
ghost use Rattle.edit_script.specs.declared.fault.ScriptKind.TheVariants.{BadPayload};
ghost use Rattle.edit_script.specs.WellFormed.{IsPiece};
ghost use Rattle.edit_script.specs.declared.limits.TheConstants.{MAX_SCRIPT_BYTES};
ghost use Rattle.edit_script.specs.inner.Payload.{Copied, Inserted, IsPayload, IsUnended, Refuses, Stops};

use crate::lines::{first_line, is_dot};
use crate::{ScriptError, ScriptFault, ScriptKind};
use name_scopes::check_names;
use pyx_core::{
    EventList, FeedError, LocatedList, Mode, PyxFault, events_nest, read_events, read_front,
};
use std::alloc::{AllocError, Global};

/// A fragment that ends.
#[derive(Clone, Copy)]
pub(crate) struct Payload<'a> {
    /// Its lines.
    pub(crate) text: &'a [u8],
    /// How many there are.
    pub(crate) count: u64,
    /// What follows the line that ends it.
    pub(crate) rest: &'a [u8],
}

/// The fragment with which some bytes begin; None where no line ends it.
///
/// The time grows with its length.
fn find_payload(bytes: &[u8]) -> Option<Payload>
    ensures { MatchOption result (IsUnended bytes.now) (λ found. IsPayload bytes.now found.text.now found.count found.rest.now) }
{
    let mut count = 0u64;
    let mut rest = bytes;
    while let Some((line, after)) = first_line(rest) {
        if is_dot(line) {
            return Some(Payload {
                text: &bytes[..bytes.len() - rest.len()],
                count,
                rest: after,
            });
        }
        count += 1;
        rest = after;
    }
    None
}

/// Lines, each with its line end, and how many there are.
#[derive(Drop)]
struct WholeLines {
    text: Vec<u8>,
    count: u64,
}

/// Puts a line and its line end at the end.
fn push_line(text: &mut Vec<u8>, line: &[u8]) -> Result<(), AllocError>
    ensures { OnOk result (text.new.items ≡ text.old.items ++ with_end line.now) }
{
    text.extend_from_slice(line)?;
    text.push(b'\n')?;
    Ok(())
}

/// The lines of some bytes, copied; the last one gets the line end that it may lack.
fn whole_lines(alloc: Global, bytes: &[u8]) -> Result<WholeLines, AllocError>
    ensures { IfOk result (λ whole. Copied bytes.now whole.text.items whole.count) }
{
    let mut text = Vec::new(alloc);
    let mut count = 0u64;
    let mut rest = bytes;
    while let Some((line, after)) = first_line(rest) {
        push_line(&mut text, line)?;
        count += 1;
        rest = after;
    }
    Ok(WholeLines { text, count })
}

/// The fault of a fragment of so many lines, which stand behind the line with the number, by the fault of its PYX.
fn bad_payload(number: u64, count: u64, found: Option<PyxFault>) -> ScriptFault
    requires few { number + suc count < 2 ^ 64 }
    requires near { IfSome found (λ fault. number + fault.line < 2 ^ 64) }
    ensures { result ≡ fault_at (payload_line number count found) BadPayload }
{
    let line = match found {
        Some(fault) => number + fault.line,
        None => number + (count + 1),
    };
    ScriptFault {
        line,
        kind: ScriptKind::BadPayload,
    }
}

/// The fault of a fragment that doesn't end, which stands behind the line with the number.
fn unended(alloc: Global, number: u64, bytes: &[u8]) -> Result<ScriptFault, AllocError>
    requires { number + length bytes.now ≤ suc MAX_SCRIPT_BYTES }
    ensures { IfOk result (λ fault. fault
        ≡ fault_at (payload_line number (length (lines_of bytes.now)) (fault_of Fragment (joined (lines_of bytes.now)))) BadPayload) }
{
    let whole = whole_lines(alloc, bytes)?;
    let front = read_front(alloc, Mode::Fragment, whole.text.as_slice())?;
    Ok(bad_payload(number, whole.count, front.fault))
}

/// The events without their lines.
fn without_lines(alloc: Global, found: LocatedList) -> Result<EventList, AllocError>
    ensures { IfOk result (λ events. events ≡ bare found) }
{
    let mut events = EventList::new(alloc);
    for located in found.into_vec() {
        events.push(located.event)?;
    }
    Ok(events)
}

/// The piece that a fragment of so many lines is, which stand behind the line with the number.
fn read_piece(alloc: Global, number: u64, text: &[u8], count: u64) -> Result<EventList, ScriptError>
    requires few { number + suc count < 2 ^ 63 }
    requires short { number + length text.now ≤ suc MAX_SCRIPT_BYTES }
    requires some { 1 ≤ number }
    ensures read { IfOk result (λ piece. (is_piece text.now ≡ true) × (piece ≡ piece_of text.now)) }
    ensures formed { IfOk result IsPiece }
    ensures fault { IfErr result (IfFault (Refuses number text.now count)) }
{
    let located = match read_events(alloc, Mode::Fragment, text) {
        Ok(located) => located,
        Err(FeedError::Fault(fault)) => {
            return Err(ScriptError::Fault(bad_payload(number, count, Some(fault))));
        }
        Err(FeedError::Memory) => return Err(ScriptError::Memory),
    };
    events_nest();
    let piece = without_lines(alloc, located)?;
    match check_names(&piece) {
        Ok(()) => Ok(piece),
        Err(_) => Err(ScriptError::Fault(bad_payload(number, count, None))),
    }
}

/// An insert's piece, and where the script goes on.
#[derive(Drop)]
pub(crate) struct Insertion<'a> {
    pub(crate) piece: EventList,
    /// The number of the line behind the one that ends the fragment.
    pub(crate) number: u64,
    pub(crate) rest: &'a [u8],
}

/// Reads the fragment of an insert in the line with the number, behind which these bytes stand.
///
/// The time grows with the fragment.
pub(crate) fn read_insertion(
    alloc: Global,
    number: u64,
    bytes: &[u8],
) -> Result<Insertion, ScriptError>
    requires few { number + length bytes.now ≤ suc MAX_SCRIPT_BYTES }
    requires some { 1 ≤ number }
    ensures inserted { IfOk result (Inserted number bytes.now) }
    ensures fault { IfErr result (IfFault (Stops number bytes.now)) }
{
    let Some(found) = find_payload(bytes) else {
        return Err(ScriptError::Fault(unended(alloc, number, bytes)?));
    };
    let piece = read_piece(alloc, number, found.text, found.count)?;
    Ok(Insertion {
        piece,
        number: number + found.count + 2,
        rest: found.rest,
    })
}
