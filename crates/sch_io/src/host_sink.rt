//! A sink over a writer of the host.

ghost use Rattle.std.specs.Prelude.{◌≡◌};

use crate::counts::one_more;
use crate::error::Failed;
use crate::sink::Sink;
use std::io::Write;
use std::marker::Model;

/// A sink that writes to the host, as standard output and standard error; seen by contracts as its log.
///
/// It tells the bytes written where its writer tells them, which standard output and standard error do not. It holds no
/// bytes back, and counts each failure of the host, whatever its cause.
#[derive(Drop)]
pub struct HostSink<W: Write> {
    writer: W,
    faults: u64,
}

impl<W: Write> Model for HostSink<W> {
    ghost use Rattle.sch_io.specs.SinkLog.{SinkLog};

    ghost Value = { SinkLog };

    ghost view = { λ s. record { written = W.contents s.writer; faults = s.faults } };
}

impl<W: Write> HostSink<W> {
    /// A sink over the writer, with no fault so far.
    pub fn new(writer: W) -> HostSink<W>
        ensures { result ≡ record { written = W.contents writer; faults = 0 } }
    {
        HostSink { writer, faults: 0 }
    }
}

impl<W: Write> Sink for HostSink<W> {
    ghost log = { λ s. s };

    fn write(&mut self, piece: &[u8]) -> Result<usize, Failed> {
        match self.writer.write(piece) {
            Ok(n) => {
                if n == 0 && !piece.is_empty() {
                    self.faults = one_more(self.faults);
                }
                Ok(n)
            }
            Err(_) => {
                self.faults = one_more(self.faults);
                Err(Failed)
            }
        }
    }
}
