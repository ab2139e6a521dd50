//! The reader of a text that comes in pieces.

ghost use Rattle.std.specs.Prelude.{◌≡◌, ◌++◌, ◌∷◌, ◌<◌, ◌-◌, ◌^◌, [], List, ℕ, length, MatchOption, Err};
ghost use Rattle.std.specs.Option.{option_to_list};
ghost use Rattle.pyx_core.specs.declared.event.Located.{Located};
ghost use Rattle.pyx_core.specs.declared.fault.FeedError.{FeedError};
ghost use Rattle.pyx_core.specs.declared.mode.Mode.{Mode};
ghost use Rattle.pyx_core.specs.Reader.{Reads, IsStopped, Feeds, Done, Finishes};
ghost use Rattle.pyx_core.specs.inner.ReaderFields.{error_of, stops, answer_of};

use crate::cutting::Cutting;
use crate::{FeedError, Located, Mode, PyxFault};
use std::alloc::{AllocError, Global};
use std::marker::Model;

/// A reader of PYX text that comes in pieces, which are cut anywhere, also within a character or an escape; seen by
/// contracts as the events that wait, why it has stopped, and what it keeps of the text.
///
/// It is fed the pieces in their order, then the text's end is told by `finish`; completed events are taken at any time.
/// A line is judged when its line end was fed, or at the end. After a fault the reader answers this fault from then on,
/// and after want of memory that.
///
/// The time grows with the bytes and not with the pieces. A line that comes whole in one piece is judged in place.
#[derive(Drop)]
pub struct Reader {
    alloc: Global,
    cutting: Cutting,
    /// Why the reader stopped.
    stopped: Option<FeedError>,
}

impl Model for Reader {
    ghost use Rattle.pyx_core.specs.Reader.{ReaderState};

    ghost Value = { ReaderState };

    ghost use Rattle.pyx_core.specs.inner.ReaderFields.{state_of};

    ghost view = { λ r. state_of r.cutting r.stopped };
}

/// The answer where the first fault or want of memory stops the reader.
fn stop(
    stopped: &mut Option<FeedError>,
    found: Result<Option<PyxFault>, AllocError>,
) -> Result<(), FeedError>
    ensures stopped { stopped.new ≡ stops stopped.old (error_of found) }
    ensures answer { result ≡ answer_of (error_of found) }
{
    let error = match found {
        Ok(None) => return Ok(()),
        Ok(Some(fault)) => FeedError::Fault(fault),
        Err(_) => FeedError::Memory,
    };
    *stopped = Some(error);
    Err(error)
}

impl Reader {
    /// A reader of a text that has to be a document or a fragment, of which nothing was fed.
    pub fn new(alloc: Global, mode: Mode) -> Reader
        ensures { Reads result mode [] [] }
    {
        Reader {
            alloc,
            cutting: Cutting::new(alloc, mode),
            stopped: None,
        }
    }

    /// Takes the next piece of the text; the error is the first fault in the lines that have ended.
    ///
    /// Fewer than 2^64 - 1 bytes are fed in all, and none after a `finish` that was Ok.
    pub fn feed(&mut self, piece: &[u8]) -> Result<(), FeedError>
        ensures read { (mode : Mode) (fed : List ℕ) (taken : List Located) → Reads self.old mode fed taken →
            length (fed ++ piece.now) < 2 ^ 64 - 1 → Feeds self.new mode (fed ++ piece.now) taken result }
        ensures stopped { (error : FeedError) → IsStopped self.old error →
            (result ≡ Err error) × (self.new ≡ self.old) }
    {
        if let Some(error) = self.stopped {
            return Err(error);
        }
        let found = self.cutting.feed(self.alloc, piece);
        stop(&mut self.stopped, found)
    }

    /// Takes the end of the text; the error is the text's first fault, at its end included.
    ///
    /// After an Ok answer neither this nor `feed` is called again.
    pub fn finish(&mut self) -> Result<(), FeedError>
        ensures read { (mode : Mode) (fed : List ℕ) (taken : List Located) → Reads self.old mode fed taken →
            Finishes self.new mode fed taken result }
        ensures stopped { (error : FeedError) → IsStopped self.old error →
            (result ≡ Err error) × (self.new ≡ self.old) }
    {
        if let Some(error) = self.stopped {
            return Err(error);
        }
        let found = self.cutting.finish(self.alloc);
        stop(&mut self.stopped, found)
    }

    /// The next completed event; None exactly where none is left to take.
    pub fn next_event(&mut self) -> Option<Located>
        ensures event { MatchOption result ((self.old.waiting ≡ []) × (self.new.waiting ≡ []))
            (λ event. self.old.waiting ≡ event ∷ self.new.waiting) }
        ensures read { (mode : Mode) (fed : List ℕ) (taken : List Located) → Reads self.old mode fed taken →
            Reads self.new mode fed (taken ++ option_to_list result) }
        ensures done { (mode : Mode) (fed : List ℕ) (taken : List Located) → Done self.old mode fed taken →
            Done self.new mode fed (taken ++ option_to_list result) }
        ensures stopped { self.new.stopped ≡ self.old.stopped }
    {
        self.cutting.standing.events.waiting.pop_front()
    }
}
