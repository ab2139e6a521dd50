//! Texts with parameters replaced.

ghost use Rattle.std.specs.Prelude.{◌≡◌, ◌∷◌, ◌++◌, [], ℕ, List, MatchOption, IfOk, OnOk, string_bytes};
ghost use Rattle.sch_expansion.specs.Filled.{filled};
ghost use Rattle.sch_expansion.specs.Pieces.{IsNextPiece, piece_text};
ghost use Rattle.sch_expansion.specs.inner.Places.{kept_in, param_names, place_in};

use crate::places::Places;
use sch_base::Text;
use sch_model::Param;
use sch_texts::{after_name, before};
use std::alloc::{AllocError, Global};
use std::marker::Model;

/// A piece of a text in which parameters are replaced.
#[derive(Clone, Copy)]
pub enum Piece<'t> {
    /// What stays as it is.
    Kept(&'t str),
    /// The value of the parameter at this place among the parameters.
    Value(usize),
}

/// The parameters of an instance, seen by contracts as their list. Of two with one name the first counts.
///
/// A name is found in constant time.
#[derive(Drop)]
pub struct Filling<'a> {
    params: &'a [Param],
    places: Places,
}

impl<'a> Model for Filling<'a> {
    ghost use Rattle.std.specs.Prelude.{◌≡◌, ℕ, List};
    ghost use Rattle.sch_model.specs.declared.raw.Param.{Param};
    ghost use Rattle.sch_expansion.specs.inner.Places.{kept_in, param_names, place_in};

    ghost Value = { List Param };

    ghost view = { λ f. f.params.now };

    ghost invariant = { λ f. (name : List ℕ) → kept_in f.places name ≡ place_in (param_names f.params.now) 0 name };
}

/// The places of parameters by their names.
fn places_of(alloc: Global, params: &[Param]) -> Result<Places, AllocError>
    ensures { IfOk result (λ places. (name : List ℕ) → kept_in places name ≡ place_in (param_names params.now) 0 name) }
{
    let mut places = Places::new(alloc);
    for (place, param) in params.iter().enumerate() {
        places.add(param.name.as_str(), place)?;
    }
    Ok(places)
}

impl<'a> Filling<'a> {
    /// The parameters, with their names to be looked up.
    pub fn new(alloc: Global, params: &'a [Param]) -> Result<Filling<'a>, AllocError>
        ensures { IfOk result (λ filling. filling ≡ params.now) }
    {
        match places_of(alloc, params) {
            Ok(places) => Ok(Filling { params, places }),
            Err(error) => Err(error),
        }
    }

    /// The place of the first parameter with this name.
    fn place(&self, name: &str) -> Option<usize>
        ensures { result ≡ place_in (param_names self.now) 0 name.now }
    {
        self.places.find(name)
    }

    /// What a `$` and what follows it begin with: the value of the parameter that is named, or the `$` itself.
    fn dollar_piece<'t>(&self, behind: &'t str) -> (Piece<'t>, &'t str)
        ensures { IsNextPiece self.now (36 ∷ behind.now) result.0 result.1.now }
    {
        let rest = after_name(behind);
        match self.place(before(behind, rest)) {
            Some(place) => (Piece::Value(place), rest),
            None => (Piece::Kept("$"), behind),
        }
    }

    /// The first piece of a text, and what follows it in the text; None where the text is empty.
    ///
    /// A text is read once and each name after a `$` at most twice more, if it is taken piece by piece.
    pub fn next_piece<'t>(&self, text: &'t str) -> Option<(Piece<'t>, &'t str)>
        ensures { MatchOption result (text.now ≡ []) (λ next. IsNextPiece self.now text.now next.0 next.1.now) }
    {
        match text.split_once('$') {
            Some((front, behind)) if front.is_empty() => Some(self.dollar_piece(behind)),
            Some((front, _)) => Some((Piece::Kept(front), &text[front.len()..])),
            None if text.is_empty() => None,
            None => Some((Piece::Kept(text), "")),
        }
    }

    /// Puts the text of a piece at the end of a string.
    fn push_piece(&self, its: &mut String, piece: Piece<'_>) -> Result<(), AllocError>
        ensures { OnOk result (string_bytes its.new ≡ string_bytes its.old ++ piece_text self.now piece.entry) }
    {
        match piece {
            Piece::Kept(text) => its.push_str(text),
            Piece::Value(place) => match self.params.get(place) {
                Some(param) => its.push_str(param.value.as_str()),
                None => Ok(()),
            },
        }
    }

    /// The text with its parameters replaced.
    pub fn fill(&self, alloc: Global, text: &str) -> Result<Text, AllocError>
        ensures { IfOk result (λ its. its ≡ filled self.now text.now) }
    {
        let mut its = String::new(alloc);
        let mut rest = &*text;
        while let Some((piece, behind)) = self.next_piece(&*rest) {
            self.push_piece(&mut its, piece)?;
            rest = behind;
        }
        Ok(Text::from(its))
    }
}
