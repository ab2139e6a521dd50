//! The search for an order in which each rule stands after those that it extends: depth first, with a stack of its own.

ghost use Rattle.std.specs.Prelude.{◌≡◌, ℕ, List, [], ◌∷◌, true, IfOk, OnOk};
ghost use Rattle.sch_references.specs.Extends.{is_named};
ghost use Rattle.sch_references.specs.inner.Order.{Found};
ghost use Rattle.sch_references.specs.inner.Sorting.{After, Busy, FoundBy, Idle, IsLess, NextExtends, Visited, work};

use crate::order::RuleOrder;
use sch_model::{RawItem, RawRule};
use std::alloc::AllocError;

/// A rule that is being followed: the name that led to it, and the items that are left.
#[derive(Clone, Copy)]
pub(crate) struct Frame<'a> {
    name: &'a str,
    rule: &'a RawRule,
    rest: &'a [RawItem],
}

/// What comes next: the topmost rule, the end of a visit, or a cycle.
#[derive(Drop)]
pub(crate) enum Step<'a> {
    Next(Frame<'a>),
    Done,
    Cycle,
}

/// The rules that were entered, those that were left in the order of leaving, and those that led to the topmost one.
#[derive(Drop)]
pub(crate) struct Search<'a> {
    entered: RuleOrder<'a>,
    order: RuleOrder<'a>,
    below: Vec<Frame<'a>>,
}

impl<'a> Search<'a> {
    /// Leaves the topmost rule, whose items were all followed.
    fn leave(&mut self, rules: &RuleOrder<'a>, top: Frame<'a>) -> Result<Step<'a>, AllocError>
        requires busy { Busy rules.now self.old top }
        requires over { top.rest.now ≡ [] }
        ensures after { IfOk result (After rules.now self.new) }
        ensures less { IfOk result (IsLess rules.now self.new (work rules.now self.old top.entry)) }
        ensures kept { OnOk result (self.new.entered ≡ self.old.entered) }
    {
        self.order.add(top.rule)?;
        match self.below.pop() {
            Some(frame) => Ok(Step::Next(frame)),
            None => Ok(Step::Done),
        }
    }

    /// Follows an `extends` of the topmost rule.
    fn follow(
        &mut self,
        rules: &RuleOrder<'a>,
        top: Frame<'a>,
        name: &'a str,
        rest: &'a [RawItem],
    ) -> Result<Step<'a>, AllocError>
        requires busy { Busy rules.now self.old top }
        requires extends { NextExtends top rest.now name.now }
        ensures after { IfOk result (After rules.now self.new) }
        ensures less { IfOk result (IsLess rules.now self.new (work rules.now self.old top.entry)) }
        ensures kept { OnOk result ((name : List ℕ) → is_named self.old.entered name ≡ true → is_named self.new.entered name ≡ true) }
    {
        let Some(place) = rules.place_of(name) else {
            return Ok(Step::Next(Frame { rest, ..top }));
        };
        if self.order.place_of(name).is_some() {
            return Ok(Step::Next(Frame { rest, ..top }));
        }
        if self.entered.place_of(name).is_some() {
            return Ok(Step::Cycle);
        }
        let rule = rules.rule(place);
        self.entered.add(rule)?;
        self.below.push(top)?;
        Ok(Step::Next(Frame {
            name,
            rule,
            rest: rule.items.as_slice(),
        }))
    }

    /// Follows the next item of the topmost rule.
    fn step(&mut self, rules: &RuleOrder<'a>, top: Frame<'a>) -> Result<Step<'a>, AllocError>
        requires { Busy rules.now self.old top }
        ensures after { IfOk result (After rules.now self.new) }
        ensures less { IfOk result (IsLess rules.now self.new (work rules.now self.old top.entry)) }
        ensures kept { OnOk result ((name : List ℕ) → is_named self.old.entered name ≡ true → is_named self.new.entered name ≡ true) }
    {
        match top.rest.split_first() {
            None => self.leave(rules, top),
            Some((item, rest)) => match item.extended() {
                Some(name) => self.follow(rules, top, name, rest),
                None => Ok(Step::Next(Frame { rest, ..top })),
            },
        }
    }

    /// Visits the rule with a name and all to which it leads, unless it was entered; false where there is a cycle.
    fn visit(&mut self, rules: &RuleOrder<'a>, name: &'a str) -> Result<bool, AllocError>
        requires { Idle rules.now self.old }
        ensures visited { IfOk result (Visited rules.now self.new (Some name.now)) }
        ensures kept { OnOk result ((name : List ℕ) → is_named self.old.entered name ≡ true → is_named self.new.entered name ≡ true) }
    {
        let Some(place) = rules.place_of(name) else {
            return Ok(true);
        };
        if self.entered.place_of(name).is_some() {
            return Ok(true);
        }
        let rule = rules.rule(place);
        self.entered.add(rule)?;
        let mut top = Frame {
            name,
            rule,
            rest: rule.items.as_slice(),
        };
        loop {
            match self.step(rules, top)? {
                Step::Next(frame) => top = frame,
                Step::Done => return Ok(true),
                Step::Cycle => return Ok(false),
            }
        }
    }

    /// Visits a rule by its id.
    fn visit_rule(&mut self, rules: &RuleOrder<'a>, rule: &'a RawRule) -> Result<bool, AllocError>
        requires { Idle rules.now self.old }
        ensures visited { IfOk result (Visited rules.now self.new rule.now.id) }
        ensures kept { OnOk result ((name : List ℕ) → is_named self.old.entered name ≡ true → is_named self.new.entered name ≡ true) }
    {
        match &rule.id {
            Some(id) => self.visit(rules, id.as_str()),
            None => Ok(true),
        }
    }

    /// Visits all rules; false where there is a cycle.
    fn visit_all(&mut self, rules: &RuleOrder<'a>) -> Result<bool, AllocError>
        requires { Idle rules.now self.old }
        ensures { IfOk result (FoundBy rules.now self.new) }
    {
        for place in 0..rules.len() {
            if !self.visit_rule(rules, rules.rule(place))? {
                return Ok(false);
            }
        }
        Ok(true)
    }

    /// The rules in the order in which they were left.
    fn into_order(self) -> RuleOrder<'a>
        ensures { result ≡ self.entry.order }
    {
        let Search {
            entered,
            order,
            below,
        } = self;
        drop(entered);
        drop(below);
        order
    }
}

impl<'a> RuleOrder<'a> {
    /// These rules, each after those that it extends; None where there is a cycle. An unknown name extends nothing.
    ///
    /// It costs time linear in the rules and their items.
    pub(crate) fn sorted(&self) -> Result<Option<RuleOrder<'a>>, AllocError>
        ensures { IfOk result (Found self.now) }
    {
        let mut search = Search {
            entered: self.empty(),
            order: self.empty(),
            below: Vec::new(self.allocator()),
        };
        match search.visit_all(self) {
            Ok(true) => Ok(Some(search.into_order())),
            Ok(false) => {
                drop(search);
                Ok(None)
            }
            Err(error) => {
                drop(search);
                Err(error)
            }
        }
    }
}
