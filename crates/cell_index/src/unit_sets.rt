//! The set of each unit, by its number.

ghost use Rattle.std.specs.Prelude.{◌≡◌, ℕ, ◌<◌, [], true, false, length, IfNone, IfOk, IfSome, OnErr, OnOk};
ghost use Rattle.std.specs.Bool.{OnFalse};
ghost use Rattle.std.specs.List.{list_any};
ghost use Rattle.cell_index.specs.inner.Chains.{InChain, Keeps};
ghost use Rattle.cell_index.specs.inner.Gathering.{Finds};
ghost use Rattle.cell_index.specs.inner.Sharing.{AreMembers, Joins, KeepsSets, is_member, set_of};

use crate::chains::Chains;
use crate::finding::{next_of, units_of};
use std::alloc::{AllocError, Global};
use std::marker::Model;

/// The number of the set of each unit, 0 where it has none; seen by contracts as their list.
///
/// From each set hints lead to the units that have it, its members; hints to units that left it stay. Takes 4 bytes a unit up to the
/// greatest number, 4 bytes a set and 8 bytes a hint.
#[derive(Drop)]
pub(crate) struct UnitSets {
    of_unit: Vec<u32>,
    members: Chains,
}

impl Model for UnitSets {
    ghost use Rattle.std.specs.Prelude.{List, ℕ};

    ghost Value = { List ℕ };

    ghost view = { λ u. u.of_unit.items };

    ghost use Rattle.cell_index.specs.inner.Sharing.{AreMembers};

    ghost invariant = { λ u. AreMembers u.of_unit.items u.members };
}

impl UnitSets {
    /// No unit has a set.
    pub(crate) fn new(alloc: Global) -> UnitSets
        ensures { result ≡ [] }
    {
        UnitSets {
            of_unit: Vec::new(alloc),
            members: Chains::new(alloc),
        }
    }

    /// How many hints there are.
    pub(crate) fn hints(&self) -> usize {
        self.members.len()
    }

    /// The set of a unit.
    pub(crate) fn set_of(&self, unit: usize) -> u32
        ensures { result ≡ set_of self.now unit }
    {
        set_of(self.of_unit.as_slice(), unit)
    }

    /// Gives a unit a set in the place of the one that it has.
    pub(crate) fn join(&mut self, unit: u32, set: u32) -> Result<(), AllocError>
        ensures joined { OnOk result (Joins unit set self.old self.new) }
        ensures unchanged { OnErr result (KeepsSets self.old self.new) }
    {
        join(&mut self.of_unit, &mut self.members, unit, set)
    }

    /// Takes a unit's set from it. Takes no memory.
    pub(crate) fn leave(&mut self, unit: usize)
        ensures { Joins unit 0 self.old self.new }
    {
        leave(&mut self.of_unit, unit);
    }

    /// A unit that has a set; None where no unit has it. Hints before it that lead to no such unit are dropped.
    pub(crate) fn next_of(&mut self, set: u32) -> Option<u32>
        ensures has { IfSome result (λ unit. is_member self.old set unit ≡ true) }
        ensures none { IfNone result ((unit : ℕ) → is_member self.old set unit ≡ false) }
        ensures same { self.new ≡ self.old }
    {
        next_of(self.of_unit.as_slice(), &mut self.members, set)
    }

    /// Whether a set has a hint to a unit.
    pub(crate) fn may_have(&self, set: usize) -> bool
        ensures { OnFalse result ((unit : ℕ) → is_member self.now set unit ≡ false) }
    {
        self.members.has_any(set)
    }

    /// The units that have one of some sets, in any order, some perhaps more than once.
    pub(crate) fn of_sets(&self, alloc: Global, sets: &[u64]) -> Result<Vec<u64>, AllocError>
        ensures { IfOk result (λ found. Finds (λ unit. list_any (λ set. is_member self.now set unit) sets.now) [] found.items) }
    {
        units_of(alloc, self.of_unit.as_slice(), &self.members, sets)
    }

    /// Makes the hints anew.
    pub(crate) fn renew(&mut self, alloc: Global) -> Result<(), AllocError>
        ensures { self.new ≡ self.old }
    {
        self.members = members_of(alloc, self.of_unit.as_slice())?;
        Ok(())
    }
}

/// The number of a unit in little room. There is no memory for 4,294,967,295 units and more.
pub(crate) fn small(unit: usize) -> Result<u32, AllocError>
    ensures { IfOk result (λ number. number ≡ unit) }
{
    match u32::try_from(unit) {
        Ok(number) => Ok(number),
        Err(_) => Err(AllocError),
    }
}

/// The set of a unit.
fn set_of(of_unit: &[u32], unit: usize) -> u32
    ensures { result ≡ set_of of_unit.now unit }
{
    match of_unit.get(unit) {
        Some(set) => *set,
        None => 0,
    }
}

/// Whether a unit has a set.
pub(crate) fn is_member(of_unit: &[u32], set: usize, unit: u32) -> bool
    ensures { result ≡ is_member of_unit.now set unit }
{
    0 < set && set_of(of_unit, unit as usize) as usize == set
}

/// Gives a unit a set in the place of the one that it has.
fn join(of_unit: &mut Vec<u32>, members: &mut Chains, unit: u32, set: u32) -> Result<(), AllocError>
    ensures members { AreMembers of_unit.old.items members.old → AreMembers of_unit.new.items members.new }
    ensures joined { OnOk result (Joins unit set of_unit.old.items of_unit.new.items) }
    ensures unchanged { OnErr result (KeepsSets of_unit.old.items of_unit.new.items) }
{
    reach(of_unit, unit)?;
    members.add(set as usize, unit)?;
    of_unit[unit as usize] = set;
    Ok(())
}

/// Makes a place for a unit. What is put at the end has no set.
fn reach(of_unit: &mut Vec<u32>, unit: u32) -> Result<(), AllocError>
    ensures there { OnOk result (unit < length of_unit.new.items) }
    ensures same { KeepsSets of_unit.old.items of_unit.new.items }
{
    if (unit as usize) < of_unit.len() {
        return Ok(());
    }
    of_unit.resize(unit as usize + 1, 0)
}

/// Takes a unit's set from it.
fn leave(of_unit: &mut Vec<u32>, unit: usize)
    ensures { Joins unit 0 of_unit.old.items of_unit.new.items }
{
    if unit < of_unit.len() {
        of_unit[unit] = 0;
    }
}

/// The members of each set, by the set of each unit.
fn members_of(alloc: Global, of_unit: &[u32]) -> Result<Chains, AllocError>
    ensures { IfOk result (AreMembers of_unit.now) }
{
    let mut members = Chains::new(alloc);
    for (unit, set) in of_unit.iter().enumerate() {
        add_member(&mut members, *set, unit)?;
    }
    Ok(members)
}

/// Makes a unit a member of a set, where it has one.
fn add_member(members: &mut Chains, set: u32, unit: usize) -> Result<(), AllocError>
    ensures keeps { Keeps members.old members.new }
    ensures added { OnOk result (0 < set → InChain members.new set unit) }
{
    if set == 0 {
        return Ok(());
    }
    members.add(set as usize, small(unit)?)
}
