//! What a validation evaluates, unit by unit (ISO/IEC 19757-3, clause 6): each let in force at the root, and each node under
//! each active pattern. A unit's outcome, what it reads and its visits are one definition.
//!
//! The definitions stand in `specs/`: the texts of messages in `Messages`, what a rule gives in `Firing`, the units in
//! `Units`, and what a plan says of a tree in `Validity`. This crate holds no evaluator.
#![tactic(auto)]

ghost use Rattle.sch_units.specs.Laws.{FirstMatchFires, LetsStandInOrder, PairsReadLetsInForce};

/// The first rule of a pattern that matches a node fires alone, and what it finds are findings of its own assertions. Where
/// no rule fires, none matches.
pub fn first_match_fires()
    ensures { FirstMatchFires }
{}

/// What a node under a pattern reads names only lets in force, and no let of a rule.
pub fn pairs_read_lets_in_force()
    ensures { PairsReadLetsInForce }
{}

/// Each let in force is evaluated under those before it.
pub fn lets_stand_in_order()
    ensures { LetsStandInOrder }
{}
