//! A sink that keeps its bytes in memory.

ghost use Rattle.std.specs.Prelude.{◌≡◌, ◌-◌, ◌<◌, ◌≤◌, [], ◌∷◌, ◌++◌, length, min, None, Some, OnOk, OnErr, IfOk, is_err};
ghost use Rattle.std.specs.Io.{WritesAtMost};
ghost use Rattle.std.specs.Io.KnownBytes.{WriteAppends};
ghost use Rattle.sch_io.specs.Counts.{one_more};
ghost use Rattle.sch_io.specs.Calls.{fails_next, made_next};
ghost use Rattle.sch_io.specs.Pieces.{at_most};

use crate::calls::Calls;
use crate::counts::one_more;
use crate::error::Failed;
use crate::pieces::at_most;
use crate::sink::Sink;
use std::alloc::{AllocError, Global};
use std::marker::Model;

/// A sink in memory with room for a number of bytes, of whose calls chosen ones fail, and whose writes may be held short.
#[derive(Drop)]
pub struct MemorySink {
    written: Vec<u8>,
    room: usize,
    most: Option<usize>,
    calls: Calls,
    faults: u64,
}

impl Model for MemorySink {
    ghost use Rattle.std.specs.Prelude.{◌≤◌, vec_len, vec_capacity};
    ghost use Rattle.sch_io.specs.MemorySink.{Filled};

    ghost Value = { Filled };

    ghost view = { λ s. record { written = s.written.items; room = s.room; most = s.most; calls = s.calls; faults = s.faults } };

    ghost invariant = { λ s. (vec_len s.written ≤ s.room) × (s.room ≤ vec_capacity s.written) };
}

impl MemorySink {
    /// An empty sink with room for that many bytes.
    pub fn with_room(alloc: Global, room: usize) -> Result<MemorySink, AllocError>
        ensures { IfOk result (λ sink. sink ≡ record { written = []; room = room; most = None; calls = record { made = 0; failing = [] }; faults = 0 }) }
    {
        let written = Vec::with_capacity(alloc, room)?;
        Ok(MemorySink {
            written,
            room,
            most: None,
            calls: Calls::new(alloc),
            faults: 0,
        })
    }

    /// Lets the `write` of that number fail, the first being 1.
    pub fn fail_at(&mut self, call: u64) -> Result<(), AllocError>
        ensures planned { OnOk result (self.new ≡ record self.old { calls = record self.old.calls { failing = self.old.calls.failing ++ call ∷ [] } }) }
        ensures unchanged { OnErr result (self.new ≡ self.old) }
    {
        self.calls.fail_at(call)
    }

    /// Lets each write from now on take at most that many bytes, which are 1 or more.
    pub fn take_at_most(&mut self, n: usize)
        requires { 1 ≤ n }
        ensures { self.new ≡ record self.old { most = Some n } }
    {
        self.most = Some(n);
    }

    /// All bytes written so far, lent.
    pub fn written(&self) -> &[u8]
        ensures { result.now ≡ self.now.written }
    {
        self.written.as_slice()
    }
}

impl Sink for MemorySink {
    ghost log = { λ s. record { written = Some s.written; faults = s.faults } };

    /// Fails exactly at the calls given to `fail_at`; otherwise takes the longest front of the piece that the room left and
    /// the set number allow.
    fn write(&mut self, piece: &[u8]) -> Result<usize, Failed>
        ensures bound { WritesAtMost result piece.now }
        ensures appended { WriteAppends (Some self.old.written) (Some self.new.written) result piece.now }
        ensures failed { OnErr result (self.new.faults ≡ one_more self.old.faults) }
        ensures stuck { IfOk result (λ n. n ≡ 0 → 0 < length piece.now → self.new.faults ≡ one_more self.old.faults) }
        ensures moved { IfOk result (λ n. 0 < n → self.new.faults ≡ self.old.faults) }
        ensures nothing { OnOk result (length piece.now ≡ 0 → self.new.faults ≡ self.old.faults) }
        ensures chosen { is_err result ≡ fails_next self.old.calls }
        ensures fits { IfOk result (λ n. n ≡ at_most self.old.most (min (length piece.now) (self.old.room - length self.old.written))) }
        ensures same_room { self.new.room ≡ self.old.room }
        ensures same_most { self.new.most ≡ self.old.most }
        ensures counted { self.new.calls ≡ made_next self.old.calls }
    {
        if self.calls.next() {
            self.faults = one_more(self.faults);
            return Err(Failed);
        }
        let n = at_most(self.most, piece.len().min(self.room - self.written.len()));
        if n == 0 && !piece.is_empty() {
            self.faults = one_more(self.faults);
        }
        self.written.extend_from_slice(&piece[..n]).unwrap();
        Ok(n)
    }
}
