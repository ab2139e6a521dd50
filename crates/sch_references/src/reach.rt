//! To which rules a name leads by `extends`.

ghost use Rattle.std.specs.Prelude.{◌≡◌, [], false, IfOk, OnOk};
ghost use Rattle.std.specs.List.{flat_map};
ghost use Rattle.std.specs.Str.{bytes_eq};
ghost use Rattle.sch_references.specs.Cycles.{leads_to};
ghost use Rattle.sch_model.specs.Items.{extended_in};
ghost use Rattle.sch_references.specs.References.{is_among};
ghost use Rattle.sch_references.specs.inner.Ways.{Adds, AddsAll};

use crate::order::RuleOrder;
use sch_model::RawItem;
use std::alloc::AllocError;

/// Whether an item extends the rule with an id.
fn extends(item: &RawItem, id: &str) -> bool
    ensures { result ≡ is_among (extended_in item.now) id.now }
{
    match item {
        RawItem::Extends { rule, .. } => id == rule.as_str(),
        RawItem::Let(_) | RawItem::Assertion(_) => false,
    }
}

/// The same of one of the items.
fn is_extended(items: &[RawItem], id: &str) -> bool
    ensures { result ≡ is_among (flat_map extended_in items.now) id.now }
{
    for item in items {
        if extends(item, id) {
            return true;
        }
    }
    false
}

impl<'a> RuleOrder<'a> {
    /// Puts the rule with a name among those found, if there is one.
    fn meet(&self, found: &mut RuleOrder<'a>, name: &str) -> Result<(), AllocError>
        ensures { OnOk result (Adds self.now name.now found.old found.new) }
    {
        match self.place_of(name) {
            Some(place) => found.add(self.rule(place)),
            None => Ok(()),
        }
    }

    /// The same of the rule that an item extends.
    fn meet_item(&self, found: &mut RuleOrder<'a>, item: &RawItem) -> Result<(), AllocError>
        ensures { OnOk result (AddsAll self.now (extended_in item.now) found.old found.new) }
    {
        match item {
            RawItem::Extends { rule, .. } => self.meet(found, rule.as_str()),
            RawItem::Let(_) | RawItem::Assertion(_) => Ok(()),
        }
    }

    /// The same of each rule that one of the items extends.
    fn meet_items(&self, found: &mut RuleOrder<'a>, items: &[RawItem]) -> Result<(), AllocError>
        ensures { OnOk result (AddsAll self.now (flat_map extended_in items.now) found.old found.new) }
    {
        for item in items {
            self.meet_item(found, item)?;
        }
        Ok(())
    }

    /// Whether a name leads to an id by `extends`, which costs time linear in the rules.
    pub(crate) fn leads_to(&self, name: &str, id: &str) -> Result<bool, AllocError>
        ensures { IfOk result (λ leads. leads ≡ leads_to self.now name.now id.now) }
    {
        if name == id {
            return Ok(true);
        }
        let mut found = self.empty();
        let leads = self.search(&mut found, name, id);
        drop(found);
        leads
    }

    /// The same where the names differ; the rules to which the name leads are put among those found.
    fn search(&self, found: &mut RuleOrder<'a>, name: &str, id: &str) -> Result<bool, AllocError>
        requires differ { bytes_eq name.now id.now ≡ false }
        requires empty { found.old ≡ [] }
        ensures { IfOk result (λ leads. leads ≡ leads_to self.now name.now id.now) }
    {
        self.meet(found, name)?;
        let mut next = 0;
        while next < found.len() {
            let items = found.rule(next).items.as_slice();
            if is_extended(items, id) {
                return Ok(true);
            }
            self.meet_items(found, items)?;
            next += 1;
        }
        Ok(false)
    }
}
