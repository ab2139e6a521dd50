//! Writing bytes and texts whole.

ghost use Rattle.sch_io.specs.Wrote.{Wrote, joined};

use crate::error::Failed;
use crate::sink::Sink;

/// Appends all of `piece`; after a failure a front of it was written.
pub fn write_all<O: Sink>(sink: &mut O, piece: &[u8]) -> Result<(), Failed>
    ensures { Wrote (O.log sink.old) (O.log sink.new) piece.now result }
{
    let mut done = 0;
    while done < piece.len() {
        let n = sink.write(&piece[done..])?;
        if n == 0 {
            return Err(Failed);
        }
        done += n;
    }
    Ok(())
}

/// Appends the texts one after another, as `write_all` does of each.
pub fn write_pieces<O: Sink>(sink: &mut O, pieces: &[&str]) -> Result<(), Failed>
    ensures { Wrote (O.log sink.old) (O.log sink.new) (joined pieces.now) result }
{
    for piece in pieces {
        write_all(sink, piece.as_bytes())?;
    }
    Ok(())
}
