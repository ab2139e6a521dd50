//! Sinks: where bytes are written to.

ghost use Rattle.std.specs.Prelude.{◌≡◌, ◌<◌, length, OnOk, OnErr, IfOk};
ghost use Rattle.std.specs.Io.{WritesAtMost};
ghost use Rattle.std.specs.Io.KnownBytes.{WriteAppends};
ghost use Rattle.sch_io.specs.Counts.{one_more};
ghost use Rattle.sch_io.specs.SinkLog.{SinkLog};

use crate::error::Failed;

/// A place that bytes are appended to.
pub trait Sink {
    // the bytes written so far, where the sink tells them, and the count of faults
    ghost log: { Self → SinkLog };

    /// Appends a front of `piece` and answers its length; 0 for a piece that isn't empty counts as a fault.
    fn write(&mut self, piece: &[u8]) -> Result<usize, Failed>
        ensures bound { WritesAtMost result piece.now }
        ensures appended { WriteAppends (log self.old).written (log self.new).written result piece.now }
        ensures failed { OnErr result ((log self.new).faults ≡ one_more (log self.old).faults) }
        ensures stuck { IfOk result (λ n. n ≡ 0 → 0 < length piece.now → (log self.new).faults ≡ one_more (log self.old).faults) }
        ensures moved { IfOk result (λ n. 0 < n → (log self.new).faults ≡ (log self.old).faults) }
        ensures nothing { OnOk result (length piece.now ≡ 0 → (log self.new).faults ≡ (log self.old).faults) };
}
