//! Pages of a report: lines that are put together in memory, so that the sink is asked seldom.

ghost use Rattle.std.specs.Prelude.{◌≡◌, [], ◌++◌, OnOk};
ghost use Rattle.sch_io.specs.Wrote.{Wrote};
ghost use Rattle.svrl_out.specs.inner.Pages.{Turned};

use sch_io::{Failed, Sink, write_all};
use std::alloc::{AllocError, Global};

/// How many bytes a page holds before it is written.
const PAGE_BYTES: usize = 65_536;

/// Bytes that wait to be written. What is put on a page is refused only for want of memory.
pub(crate) struct Page {
    bytes: Vec<u8>,
    faults: u64,
}

impl Page {
    /// An empty page.
    pub(crate) fn new(alloc: Global) -> Page
        ensures { result.bytes.items ≡ [] }
    {
        Page {
            bytes: Vec::new(alloc),
            faults: 0,
        }
    }

    /// What stands on the page.
    pub(crate) fn as_slice(&self) -> &[u8]
        ensures { result.now ≡ self.now.bytes.items }
    {
        self.bytes.as_slice()
    }

    /// Puts bytes on the page, behind what stands there.
    pub(crate) fn put(&mut self, piece: &[u8]) -> Result<(), AllocError>
        ensures { OnOk result (self.new.bytes.items ≡ self.old.bytes.items ++ piece.now) }
    {
        self.bytes.extend_from_slice(piece)
    }

    /// Writes what stands on the page, and empties it.
    pub(crate) fn turn<O: Sink>(&mut self, sink: &mut O) -> Result<(), Failed>
        ensures wrote { Wrote (O.log sink.old) (O.log sink.new) self.old.bytes.items result }
        ensures emptied { OnOk result (self.new.bytes.items ≡ []) }
    {
        write_all(sink, self.bytes.as_slice())?;
        self.bytes.clear();
        Ok(())
    }

    /// Writes what stands on the page, and empties it, where it is full.
    pub(crate) fn turn_if_full<O: Sink>(&mut self, sink: &mut O) -> Result<(), Failed>
        ensures { Turned (O.log sink.old) (O.log sink.new) self.old.bytes.items self.new.bytes.items result }
    {
        if self.bytes.len() < PAGE_BYTES {
            return Ok(());
        }
        self.turn(sink)
    }
}

impl Sink for Page {
    ghost use Rattle.std.specs.Prelude.{Some};

    ghost log = { λ p. record { written = Some p.bytes.items; faults = p.faults } };

    #[tactic(auto, unfolding(sch_io::specs::Counts::one_more))]
    fn write(&mut self, piece: &[u8]) -> Result<usize, Failed> {
        match self.bytes.extend_from_slice(piece) {
            Ok(()) => Ok(piece.len()),
            Err(AllocError) => {
                self.faults = self.faults.saturating_add(1);
                Err(Failed)
            }
        }
    }
}

impl Drop for Page {
    fn drop(self) {
        let Page { bytes, faults: _ } = self;
        drop(bytes);
    }
}
