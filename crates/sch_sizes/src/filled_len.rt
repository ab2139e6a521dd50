//! How long texts are with parameters replaced.

ghost use Rattle.std.specs.Prelude.{◌≡◌, IfOk, slice_index};
ghost use Rattle.sch_expansion.specs.Filled.{filled};
ghost use Rattle.sch_expansion.specs.Pieces.{piece_text};
ghost use Rattle.sch_flat.specs.FlatSize.{escapes_len};
ghost use Rattle.sch_sizes.specs.inner.Lengths.{lens_of_values};

use sch_expansion::{Filling, Piece};
use sch_flat::escaped_len;
use sch_model::Param;
use std::alloc::{AllocError, Global};
use std::marker::Model;

/// The parameters of an instance, with the lengths of their values: bytes with escapes. Contracts see their list.
#[derive(Drop)]
pub(crate) struct FilledLen<'a> {
    filling: Filling<'a>,
    value_lens: Vec<u64>,
}

impl<'a> Model for FilledLen<'a> {
    ghost use Rattle.std.specs.Prelude.{◌≡◌, List};
    ghost use Rattle.sch_model.specs.declared.raw.Param.{Param};
    ghost use Rattle.sch_sizes.specs.inner.Lengths.{lens_of_values};

    ghost Value = { List Param };

    ghost view = { λ f. f.filling };

    ghost invariant = { λ f. f.value_lens.items ≡ lens_of_values f.filling };
}

/// The lengths of the values.
fn lens_of(alloc: Global, params: &[Param]) -> Result<Vec<u64>, AllocError>
    ensures { IfOk result (λ lens. lens.items ≡ lens_of_values params.now) }
{
    let mut lens = Vec::new(alloc);
    for param in params {
        lens.push(escaped_len(param.value.as_str()))?;
    }
    Ok(lens)
}

impl<'a> FilledLen<'a> {
    /// The parameters, with the length of each value found once.
    pub(crate) fn new(alloc: Global, params: &'a [Param]) -> Result<FilledLen<'a>, AllocError>
        ensures { IfOk result (λ filled. filled ≡ params.now) }
    {
        let value_lens = lens_of(alloc, params)?;
        match Filling::new(alloc, params) {
            Ok(filling) => Ok(FilledLen {
                filling,
                value_lens,
            }),
            Err(error) => Err(error),
        }
    }

    /// The bytes of a piece, with its escapes.
    fn piece_len(&self, piece: Piece<'_>) -> u64
        ensures { result ≡ escapes_len (piece_text self.now piece.entry) }
    {
        match piece {
            Piece::Kept(text) => escaped_len(text),
            Piece::Value(place) => match self.value_lens.as_slice().get(place) {
                Some(len) => *len,
                None => 0,
            },
        }
    }

    /// The bytes of a text with its parameters replaced and with its escapes. The text is read once, and no value.
    pub(crate) fn len(&self, text: &str) -> u64
        ensures { result ≡ escapes_len (filled self.now text.now) }
    {
        let mut len: u64 = 0;
        let mut rest = text;
        while let Some((piece, behind)) = self.filling.next_piece(rest) {
            len = len.saturating_add(self.piece_len(piece));
            rest = behind;
        }
        len
    }
}
