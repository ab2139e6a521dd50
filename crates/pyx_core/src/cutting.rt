//! Texts that come in pieces, cut into their lines.

ghost use Rattle.std.specs.Prelude.{◌≡◌, ◌++◌, ◌<◌, ◌+◌, ◌-◌, ◌^◌, List, ℕ, suc, length, take, drop, [], None, Some, OnOk, MatchOption};
ghost use Rattle.memchr.specs.Find.{IsFirstByte, is_byte};
ghost use Rattle.pyx_core.specs.declared.event.Located.{Located};
ghost use Rattle.pyx_core.specs.declared.line_table.Line.{Line};
ghost use Rattle.pyx_core.specs.declared.mode.Mode.{Mode};
ghost use Rattle.pyx_core.specs.Reading.{judge};
ghost use Rattle.pyx_core.specs.inner.Plain.{AreLiteral};
ghost use Rattle.pyx_core.specs.inner.Standing.{HasRead, TakesLine};
ghost use Rattle.pyx_core.specs.inner.Cutting.{StandsAt, Cuts, Keeps, Fed, Finished, fault_if};

use crate::plain::literal_len;
use crate::standing::Standing;
use crate::{Mode, PyxFault, PyxKind};
use std::alloc::{AllocError, Global};

/// A text that comes in pieces, cut into its lines.
#[derive(Drop)]
pub struct Cutting {
    /// What came after the last line end.
    pub half: Vec<u8>,
    /// How many lines have ended.
    pub count: u64,
    pub standing: Standing,
}

/// Where a line ends, and what is known of its bytes.
#[derive(Clone, Copy)]
struct LineEnd {
    /// The place of the line end.
    at: usize,
    /// Whether the bytes before it are known to be literal: characters of ASCII that stand for themselves.
    is_literal: bool,
}

/// The end of the first line.
///
/// Most lines are short and literal, and one look at each byte finds their end; where other bytes stand in a line, its
/// end is searched for.
fn line_end(bytes: &[u8]) -> Option<LineEnd>
    ensures { MatchOption result (IsFirstByte (is_byte 10) bytes.now None)
        (λ end. IsFirstByte (is_byte 10) bytes.now (Some end.at) × AreLiteral end.is_literal (take end.at bytes.now)) }
{
    let front = literal_len(bytes);
    if matches!(bytes.get(front), Some(b'\n')) {
        return Some(LineEnd {
            at: front,
            is_literal: true,
        });
    }
    match memchr::memchr(b'\n', bytes) {
        Some(at) => Some(LineEnd {
            at,
            is_literal: false,
        }),
        None => None,
    }
}

/// The bytes before a place and those after it.
fn split_line(bytes: &[u8], end: usize) -> (&[u8], &[u8])
    requires { end < length bytes.now }
    ensures line { result.0.now ≡ take end bytes.now }
    ensures rest { result.1.now ≡ drop (end + 1) bytes.now }
{
    (&bytes[..end], &bytes[end + 1..])
}

/// A fault in a line.
fn fault_in(line: u64, kind: Option<PyxKind>) -> Option<PyxFault>
    ensures { result ≡ fault_if line kind }
{
    match kind {
        Some(kind) => Some(PyxFault { line, kind }),
        None => None,
    }
}

/// Keeps what came after the last line end.
fn keep(half: &mut Vec<u8>, rest: &[u8]) -> Result<(), AllocError>
    ensures { OnOk result (half.new.items ≡ half.old.items ++ rest.now) }
{
    half.extend_from_slice(rest)
}

impl Cutting {
    pub fn new(alloc: Global, mode: Mode) -> Cutting
        ensures { Keeps result mode [] [] }
    {
        Cutting {
            half: Vec::new(alloc),
            count: 0,
            standing: Standing::new(alloc, mode),
        }
    }

    /// Judges and takes the line that is kept so far and ends with these bytes, which may be known to be literal. A
    /// whole line is not copied.
    fn take_joined(
        &mut self,
        alloc: Global,
        number: u64,
        bytes: &[u8],
        is_literal: bool,
    ) -> Result<Option<PyxKind>, AllocError>
        requires literal { AreLiteral is_literal bytes.now }
        ensures reads { (mode : Mode) (taken : List Located) (before : List Line) → HasRead self.old.standing mode taken before →
            number ≡ suc (length before) →
            TakesLine self.new.standing mode taken before (judge mode before (self.old.half.items ++ bytes.now)) result }
        ensures half { OnOk result (self.new.half.items ≡ []) }
        ensures count { self.new.count ≡ self.old.count }
    {
        if self.half.is_empty() {
            return self.standing.take(alloc, number, bytes, is_literal);
        }
        self.half.extend_from_slice(bytes)?;
        let found = self
            .standing
            .take(alloc, number, self.half.as_slice(), false)?;
        self.half.clear();
        Ok(found)
    }

    /// Takes the line that ends with these bytes, which may be known to be literal.
    fn take_line(
        &mut self,
        alloc: Global,
        bytes: &[u8],
        is_literal: bool,
    ) -> Result<Option<PyxFault>, AllocError>
        requires literal { AreLiteral is_literal bytes.now }
        ensures { (mode : Mode) (taken : List Located) (before : List Line) (half : List ℕ) → StandsAt self.old mode taken before half →
            length before < 2 ^ 64 - 1 → Cuts self.new mode taken before (judge mode before (half ++ bytes.now)) result }
    {
        let number = self.count.saturating_add(1);
        let kind = self.take_joined(alloc, number, bytes, is_literal)?;
        self.count = number;
        Ok(fault_in(number, kind))
    }

    /// Takes the next piece of the text: the answer is the first fault in the lines that have ended.
    pub fn feed(&mut self, alloc: Global, piece: &[u8]) -> Result<Option<PyxFault>, AllocError>
        ensures { (mode : Mode) (fed : List ℕ) (taken : List Located) → Keeps self.old mode fed taken →
            length (fed ++ piece.now) < 2 ^ 64 - 1 → Fed self.new mode (fed ++ piece.now) taken result }
    {
        let mut rest = piece;
        while let Some(end) = line_end(rest) {
            let (line, after) = split_line(rest, end.at);
            if let Some(fault) = self.take_line(alloc, line, end.is_literal)? {
                return Ok(Some(fault));
            }
            rest = after;
        }
        keep(&mut self.half, rest)?;
        Ok(None)
    }

    /// Takes the end of the text: the answer is its first fault.
    pub fn finish(&mut self, alloc: Global) -> Result<Option<PyxFault>, AllocError>
        ensures { (mode : Mode) (fed : List ℕ) (taken : List Located) → Keeps self.old mode fed taken →
            Finished self.new mode fed taken result }
    {
        let number = self.count.saturating_add(1);
        let kind = self.standing.finish(alloc, number, self.half.as_slice())?;
        Ok(fault_in(number, kind))
    }
}
