//! What the items of a rule stand for.

ghost use Rattle.std.specs.Prelude.{◌≡◌, ◌++◌, ◌∷◌, [], true, map, IfOk, OnOk};
ghost use Rattle.std.specs.List.{flat_map};
ghost use Rattle.sch_references.specs.Order.{is_sorted};
ghost use Rattle.sch_expansion.specs.Flat.{assertion_in, assertion_with, let_in, let_with};
ghost use Rattle.sch_expansion.specs.inner.Copies.{change_of};
ghost use Rattle.sch_expansion.specs.inner.Walks.{IsReachedBy, expanded};

use crate::copies::{Copier, RuleParts};
use crate::nothing::{items_of, nothings};
use sch_model::RawItem;
use sch_references::RuleOrder;
use std::alloc::{AllocError, Global};
use std::marker::Model;

/// The abstract rules of a schema, each after those that it extends, seen by contracts as their list.
///
/// It is known of each whether it stands for nothing.
#[derive(Drop)]
pub(crate) struct Expansion<'o, 'a> {
    alloc: Global,
    rules: &'o RuleOrder<'a>,
    nothing: Vec<bool>,
}

impl<'o, 'a> Model for Expansion<'o, 'a> {
    ghost use Rattle.std.specs.Prelude.{◌≡◌, List, [], true};
    ghost use Rattle.sch_model.specs.declared.raw.RawRule.{RawRule};
    ghost use Rattle.sch_references.specs.Order.{is_sorted};
    ghost use Rattle.sch_expansion.specs.inner.Walks.{Nothings};

    ghost Value = { List RawRule };

    ghost view = { λ e. e.rules.now };

    ghost invariant = { λ e. (is_sorted [] e.rules.now ≡ true) × Nothings e.rules.now e.nothing.items };
}

/// Puts stretches on the stack: what an item leads to on its top, and below it what stands behind the item.
fn stack_up<'t>(
    pending: &mut Vec<&'t [RawItem]>,
    rest: &'t [RawItem],
    reached: &'t [RawItem],
) -> Result<(), AllocError>
    ensures { OnOk result (map (λ items. items.now) pending.new.items ≡ (map (λ items. items.now) pending.old.items ++ rest.now ∷ []) ++ reached.now ∷ []) }
{
    pending.push(rest)?;
    pending.push(reached)?;
    Ok(())
}

impl<'o, 'a> Expansion<'o, 'a> {
    /// The expansion by these rules.
    pub(crate) fn new(
        alloc: Global,
        rules: &'o RuleOrder<'a>,
    ) -> Result<Expansion<'o, 'a>, AllocError>
        requires { is_sorted [] rules.now ≡ true }
        ensures { IfOk result (λ expansion. expansion ≡ rules.now) }
    {
        match nothings(alloc, rules) {
            Ok(nothing) => Ok(Expansion {
                alloc,
                rules,
                nothing,
            }),
            Err(error) => Err(error),
        }
    }

    /// The items that stand in the place of an `extends`, and none for another item.
    fn reached<'t>(&'t self, item: &'t RawItem) -> &'t [RawItem]
        ensures { IsReachedBy self.now item.now result.now }
    {
        match item {
            RawItem::Extends { rule, .. } => {
                items_of(self.rules, self.nothing.as_slice(), rule.as_str())
            }
            RawItem::Let(_) | RawItem::Assertion(_) => &[],
        }
    }

    /// Copies the lets and assertions that items stand for to the end of parts.
    ///
    /// Stretches of items that are still to be visited lie on a stack, the next one on its top. Each rule that is visited
    /// stands for something.
    fn push_all<'t>(
        &'t self,
        copier: &Copier<'_>,
        items: &'t [RawItem],
        pending: &mut Vec<&'t [RawItem]>,
        parts: &mut RuleParts,
    ) -> Result<(), AllocError>
        requires { pending.old.items ≡ [] }
        ensures lets { OnOk result (parts.new.lets ≡ parts.old.lets ++ map (let_with (change_of copier.now)) (flat_map let_in (expanded self.now items.now))) }
        ensures assertions { OnOk result (parts.new.assertions ≡ parts.old.assertions ++ map (assertion_with (change_of copier.now)) (flat_map assertion_in (expanded self.now items.now))) }
    {
        pending.push(items)?;
        while let Some(stretch) = pending.pop() {
            if let Some((item, rest)) = stretch.split_first() {
                parts.push(copier, item)?;
                stack_up(pending, rest, self.reached(item))?;
            }
        }
        Ok(())
    }

    /// The lets and assertions that items stand for.
    pub(crate) fn parts<'t>(
        &'t self,
        copier: &Copier<'_>,
        items: &'t [RawItem],
    ) -> Result<RuleParts, AllocError>
        ensures lets { IfOk result (λ parts. parts.lets ≡ map (let_with (change_of copier.now)) (flat_map let_in (expanded self.now items.now))) }
        ensures assertions { IfOk result (λ parts. parts.assertions ≡ map (assertion_with (change_of copier.now)) (flat_map assertion_in (expanded self.now items.now))) }
    {
        let mut parts = RuleParts::new(self.alloc);
        let mut pending = Vec::new(self.alloc);
        let pushed = self.push_all(copier, items, &mut pending, &mut parts);
        drop(pending);
        match pushed {
            Ok(()) => Ok(parts),
            Err(error) => {
                drop(parts);
                Err(error)
            }
        }
    }
}
