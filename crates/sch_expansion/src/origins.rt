//! The abstract patterns of a schema, by their ids.

ghost use Rattle.std.specs.Prelude.{◌≡◌, ◌∷◌, [], ℕ, List, map, slice_get, IfOk, OnOk};
ghost use Rattle.std.specs.Option.{option_copied, option_or};
ghost use Rattle.sch_expansion.specs.Flat.{pattern_among};
ghost use Rattle.sch_expansion.specs.inner.Places.{abstract_id, kept_in, place_in};

use crate::places::Places;
use sch_model::RawPattern;
use std::alloc::{AllocError, Global};
use std::marker::Model;

/// The patterns of a schema, seen by contracts as their list.
///
/// An abstract one is found by its id in constant time; of two with one id the first counts.
pub struct Origins<'s> {
    patterns: &'s [RawPattern],
    places: Places,
}

impl Drop for Origins<'_> {
    fn drop(self) {
        let Origins {
            patterns: _,
            places,
        } = self;
        drop(places);
    }
}

impl<'s> Model for Origins<'s> {
    ghost use Rattle.std.specs.Prelude.{◌≡◌, ℕ, List, map};
    ghost use Rattle.sch_model.specs.declared.raw.RawPattern.{RawPattern};
    ghost use Rattle.sch_expansion.specs.inner.Places.{abstract_id, kept_in, place_in};

    ghost Value = { List RawPattern };

    ghost view = { λ o. o.patterns.now };

    ghost invariant = { λ o. (name : List ℕ) → kept_in o.places name ≡ place_in (map abstract_id o.patterns.now) 0 name };
}

/// Keeps the place of a pattern by its id, if it is abstract.
fn add_pattern(places: &mut Places, place: usize, pattern: &RawPattern) -> Result<(), AllocError>
    ensures { OnOk result ((its : List ℕ) → kept_in places.new its ≡ option_or (kept_in places.old its) (place_in (abstract_id pattern.now ∷ []) place its)) }
{
    if !pattern.is_abstract {
        return Ok(());
    }
    match &pattern.id {
        Some(id) => places.add(id.as_str(), place),
        None => Ok(()),
    }
}

/// The places of the abstract patterns by their ids.
fn pattern_places(alloc: Global, patterns: &[RawPattern]) -> Result<Places, AllocError>
    ensures { IfOk result (λ places. (name : List ℕ) → kept_in places name ≡ place_in (map abstract_id patterns.now) 0 name) }
{
    let mut places = Places::new(alloc);
    for (place, pattern) in patterns.iter().enumerate() {
        add_pattern(&mut places, place, pattern)?;
    }
    Ok(places)
}

impl<'s> Origins<'s> {
    /// The patterns, with the ids of the abstract ones to be looked up.
    pub fn new(alloc: Global, patterns: &'s [RawPattern]) -> Result<Origins<'s>, AllocError>
        ensures { IfOk result (λ origins. origins ≡ patterns.now) }
    {
        match pattern_places(alloc, patterns) {
            Ok(places) => Ok(Origins { patterns, places }),
            Err(error) => Err(error),
        }
    }

    /// The place of the abstract pattern with this id.
    fn place(&self, name: &str) -> Option<usize>
        ensures { result ≡ place_in (map abstract_id self.now) 0 name.now }
    {
        self.places.find(name)
    }

    /// The pattern at a place.
    fn pattern(&self, place: usize) -> Option<&RawPattern>
        ensures { option_copied result ≡ slice_get self.now place }
    {
        self.patterns.get(place)
    }

    /// The abstract pattern with this id.
    pub fn named(&self, name: &str) -> Option<&RawPattern>
        ensures { option_copied result ≡ pattern_among self.now name.now }
    {
        match self.place(name) {
            Some(place) => self.pattern(place),
            None => None,
        }
    }
}
