//! The active patterns of a plan: they grow at their end, and so do the rules of the last one.

ghost use Rattle.std.specs.Prelude.{◌≡◌, ◌==◌, ◌<◌, [], ◌∷◌, ◌++◌, length, slice_get, OnOk, OnErr};
ghost use Rattle.std.specs.Option.{option_copied};
ghost use Rattle.sch_compiled.specs.Patterns.{with_last_rule};

use crate::parts::{PlanPattern, PlanRule};
use sch_base::{ItemList, Text};
use std::alloc::{AllocError, Global};
use std::marker::Model;

/// A list of patterns, seen by contracts as that list.
#[derive(Drop)]
pub struct PlanPatternList {
    alloc: Global,
    patterns: Vec<PlanPattern>,
}

impl Model for PlanPatternList {
    ghost use Rattle.std.specs.Prelude.{List};
    ghost use Rattle.std.specs.Coded.{codes};
    ghost use Rattle.sch_compiled.specs.declared.parts.PlanPattern.{PlanPattern};
    ghost use Rattle.xp_typed_tree.specs.contracts.typed.Typed as typed;
    ghost use Rattle.xp_typed_tree.specs.contracts.typed.TypedPattern as typed_pattern;

    ghost Value = { List PlanPattern };

    ghost coded = { Prim.hlevel (codes, typed.the_row.coded, typed_pattern.the_row.coded) };

    ghost view = { λ l. l.patterns.items };
}

impl PlanPatternList {
    /// The empty list.
    pub fn new(alloc: Global) -> PlanPatternList
        ensures { result ≡ [] }
    {
        PlanPatternList {
            alloc,
            patterns: Vec::new(alloc),
        }
    }

    /// Puts a pattern without rules at the end; without memory the list stays as it was.
    pub fn push(&mut self, id: Option<Text>) -> Result<(), AllocError>
        ensures pushed { OnOk result (self.new ≡ self.old ++ record { id = id; rules = [] } ∷ []) }
        ensures unchanged { OnErr result (self.new ≡ self.old) }
    {
        let rules = ItemList::new(self.alloc);
        self.patterns.push(PlanPattern { id, rules })?;
        Ok(())
    }

    /// Puts a rule at the end of the last pattern; without memory the list stays as it was.
    pub fn push_rule(&mut self, rule: PlanRule) -> Result<(), AllocError>
        requires { 0 < length self.old }
        ensures pushed { OnOk result (self.new ≡ with_last_rule self.old rule) }
        ensures unchanged { OnErr result (self.new ≡ self.old) }
    {
        let last = self.patterns.len() - 1;
        let pattern = &mut self.patterns[last];
        pattern.rules.push(rule)?;
        Ok(())
    }

    /// How many patterns there are.
    pub fn len(&self) -> usize
        ensures { result ≡ length self.now }
    {
        self.patterns.len()
    }

    /// Whether there is no pattern.
    pub fn is_empty(&self) -> bool
        ensures { result ≡ (length self.now == 0) }
    {
        self.patterns.is_empty()
    }

    /// The patterns in order, lent.
    pub fn as_slice(&self) -> &[PlanPattern]
        ensures { result.now ≡ self.now }
    {
        self.patterns.as_slice()
    }

    /// The pattern at a place counted from 0, or None past the end.
    pub fn get(&self, index: usize) -> Option<&PlanPattern>
        ensures { option_copied result ≡ slice_get self.now index }
    {
        self.patterns.as_slice().get(index)
    }
}
