//! What the program says of itself, as a run.

ghost use Rattle.std.specs.Prelude.{◌≡◌, IfOk};
ghost use Rattle.sch_undo.specs.shown.Shown.TheVariants as states;
ghost use Rattle.sch_words.specs.Notices.{notice_text};
ghost use Rattle.sch_commands.specs.inner.Writing.{WroteText};

use sch_io::{Failed, Sink};
use sch_stops::Stop;
use sch_undo::Shown;
use sch_words::Notice;

/// Writes a notice, which shows nothing to be found.
pub(crate) fn write_notice<O: Sink>(notice: Notice, out: &mut O) -> Result<Shown, Stop>
    ensures wrote { WroteText (O.log out.old) (O.log out.new) (notice_text notice) result }
    ensures shown { IfOk result (λ last. last ≡ states.Clean) }
{
    match notice.write(out) {
        Ok(()) => Ok(Shown::Clean),
        Err(Failed) => Err(Stop::WriteFault),
    }
}
