//! Watched expressions: the file that is named, read as such, or what stops the run on the way.

ghost use Rattle.std.specs.Prelude.{◌≡◌, [], ◌∷◌};
ghost use Rattle.sch_loading.specs.Loading.{Watching};
ghost use Rattle.sch_loading.specs.Reads.{Reads, file};

use crate::loading::read_file;
use sch_base::Text;
use sch_io::Shelf;
use sch_stops::{SchemaRefusal, Stop, WatchesRefusal};
use std::alloc::Global;
use watch_lines::{WatchError, WatchList, read_watches};

/// The watched expressions of the named file; the name is kept for the line that tells of it.
pub fn load_watches<S: Shelf>(alloc: Global, name: Text, shelf: &mut S) -> Result<WatchList, Stop>
    ensures { Reads (S.state shelf.old) (S.state shelf.new) (file name ∷ []) (λ files. Watching files name) (λ list. list) result }
{
    let Some(bytes) = read_file(alloc, name, shelf)? else {
        return Err(refused_watches(WatchesRefusal::TooLarge));
    };
    match read_watches(alloc, bytes.as_slice()) {
        Ok(list) => Ok(list),
        Err(WatchError::Fault(fault)) => Err(refused_watches(WatchesRefusal::Faulted(fault))),
        Err(WatchError::Memory) => Err(Stop::Memory),
    }
}

/// What stops a run over a file of watched expressions that is refused so.
fn refused_watches(refusal: WatchesRefusal) -> Stop
    ensures { result ≡ Stop.SchemaRefused (SchemaRefusal.Watches refusal) }
{
    Stop::SchemaRefused(SchemaRefusal::Watches(refusal))
}
