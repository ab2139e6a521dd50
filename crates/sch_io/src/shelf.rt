//! Shelves: where files are read from.

ghost use Rattle.std.specs.Prelude.{◌≡◌, ◌<◌, ◌∷◌, [], ◌++◌, length};
ghost use Rattle.std.specs.Io.{ReadsAtMost};
ghost use Rattle.std.specs.Io.KnownBytes.{ReadConsumes};
ghost use Rattle.sch_io.specs.Counts.{CountsTaken, faults_after, faults_of_open, misses_of_open};
ghost use Rattle.sch_io.specs.Ends.{ends_after};
ghost use Rattle.sch_io.specs.Files.{Opens};
ghost use Rattle.sch_io.specs.ShelfState.{ShelfState};

use crate::error::{Failed, OpenError};

/// A place that files are opened at by their names and read from, one at a time.
///
/// Before the first `open`, and after an `open` that answered an error, there is nothing to read.
pub trait Shelf {
    // the files, the open one, the names opened and the ends told, and the counts of faults and misses
    ghost state: { Self → ShelfState };

    /// Makes the named file the open one, to be read from its start.
    fn open(&mut self, name: &str) -> Result<(), OpenError>
        ensures opened { Opens (state self.new).files (state self.new).rest name.now result }
        ensures fresh { (state self.new).taken ≡ 0 }
        ensures held { (state self.new).files ≡ (state self.old).files }
        ensures noted { (state self.new).opened ≡ (state self.old).opened ++ name.now ∷ [] }
        ensures ends { (state self.new).ends ≡ (state self.old).ends }
        ensures faults { (state self.new).faults ≡ faults_of_open result (state self.old).faults }
        ensures misses { (state self.new).misses ≡ misses_of_open result (state self.old).misses };

    /// Moves the next bytes of the open file into the front of `buf` and answers how many, 0 at the end alone.
    fn read(&mut self, buf: &mut [u8]) -> Result<usize, Failed>
        requires { 0 < length buf.old }
        ensures bound { ReadsAtMost result buf.new }
        ensures bytes { ReadConsumes (state self.old).rest (state self.new).rest result buf.new }
        ensures counted { CountsTaken (state self.old).taken (state self.new).taken result }
        ensures ends { (state self.new).ends ≡ ends_after result (state self.old).opened (state self.old).ends }
        ensures held { (state self.new).files ≡ (state self.old).files }
        ensures noted { (state self.new).opened ≡ (state self.old).opened }
        ensures faults { (state self.new).faults ≡ faults_after result (state self.old).faults }
        ensures misses { (state self.new).misses ≡ (state self.old).misses };
}
