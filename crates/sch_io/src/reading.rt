//! Reading a file whole.

ghost use Rattle.std.specs.Prelude.{◌≡◌, ◌<◌, ◌∷◌, [], ◌++◌, ◌↔◌, length, IfOk, IsErrOf, OnOk};
ghost use Rattle.std.specs.Io.KnownBytes.{IsAtEnd};
ghost use Rattle.sch_io.specs.Counts.{faults_of_reading, misses_of_reading};
ghost use Rattle.sch_io.specs.Ends.{ends_of_reading, ends_of_rest};
ghost use Rattle.sch_io.specs.Files.{Files};
ghost use Rattle.sch_io.specs.Reading.{ReadsWhole, ReadsRest};

use crate::bytes::Bytes;
use crate::error::{OpenError, ReadError};
use crate::shelf::Shelf;
use std::alloc::Global;

/// How many bytes a file may have, in bytes.
pub const MAX_FILE_BYTES: usize = 16_777_216;

/// How many bytes are asked for at a time.
const PIECE_BYTES: usize = 65_536;

/// The whole content of the named file, which is opened for it; no other file is opened, and nothing is read after its
/// end, which one read tells, or once it is too large.
///
/// Each byte is read once and copied once, so the time grows with the file's length.
pub fn read_all<S: Shelf>(alloc: Global, shelf: &mut S, name: &str) -> Result<Bytes, ReadError>
    ensures told { (files : Files) → (S.state shelf.old).files ≡ Some files → ReadsWhole files name.now result }
    ensures counted { IfOk result (λ bytes. (S.state shelf.new).taken ≡ length bytes) }
    ensures at_end { OnOk result (IsAtEnd (S.state shelf.new).rest) }
    ensures ends { (S.state shelf.new).ends ≡ ends_of_reading result name.now (S.state shelf.old).ends }
    ensures too_large { IsErrOf result ReadError.TooLarge ↔ (MAX_FILE_BYTES < (S.state shelf.new).taken) }
    ensures held { (S.state shelf.new).files ≡ (S.state shelf.old).files }
    ensures noted { (S.state shelf.new).opened ≡ (S.state shelf.old).opened ++ name.now ∷ [] }
    ensures faults { (S.state shelf.new).faults ≡ faults_of_reading result (S.state shelf.old).faults }
    ensures misses { (S.state shelf.new).misses ≡ misses_of_reading result (S.state shelf.old).misses }
{
    match shelf.open(name) {
        Ok(()) => read_rest(alloc, shelf),
        Err(OpenError::Missing) => Err(ReadError::Missing),
        Err(OpenError::Failed) => Err(ReadError::Failed),
    }
}

/// The rest of the open file, of which nothing was read yet.
fn read_rest<S: Shelf>(alloc: Global, shelf: &mut S) -> Result<Bytes, ReadError>
    requires { (S.state shelf.old).taken ≡ 0 }
    ensures told { ReadsRest (S.state shelf.old).rest result }
    ensures counted { IfOk result (λ bytes. (S.state shelf.new).taken ≡ length bytes) }
    ensures at_end { OnOk result (IsAtEnd (S.state shelf.new).rest) }
    ensures ends { (S.state shelf.new).ends ≡ ends_of_rest result (S.state shelf.old).opened (S.state shelf.old).ends }
    ensures too_large { IsErrOf result ReadError.TooLarge ↔ (MAX_FILE_BYTES < (S.state shelf.new).taken) }
    ensures held { (S.state shelf.new).files ≡ (S.state shelf.old).files }
    ensures noted { (S.state shelf.new).opened ≡ (S.state shelf.old).opened }
    ensures present { IsErrOf result ReadError.Missing → ⊥ }
    ensures faults { (S.state shelf.new).faults ≡ faults_of_reading result (S.state shelf.old).faults }
    ensures misses { (S.state shelf.new).misses ≡ (S.state shelf.old).misses }
{
    let mut bytes = Vec::new(alloc);
    let mut piece = [0u8; PIECE_BYTES];
    'reading: loop {
        let n = shelf.read(&mut piece)?;
        if n == 0 {
            return Ok(Bytes::of(bytes));
        }
        if n > MAX_FILE_BYTES - bytes.len() {
            return Err(ReadError::TooLarge);
        }
        bytes.extend_from_slice(&piece[..n])?;
    }
}
