//! The lines that say which rules fire, laid out once for all nodes that a pattern is asked of.

ghost use Rattle.std.specs.Prelude.{◌≡◌, ◌<◌, ◌++◌, length, IfOk, OnOk};
ghost use Rattle.svrl_out.specs.Report.{fired_rule};
ghost use Rattle.svrl_out.specs.inner.Laid.{AreLaid, fired_text};

use crate::page::Page;
use crate::parts::write_fired_rule;
use sch_compiled::{PlanRule, PlanRuleList};
use std::alloc::{AllocError, Global};
use xp_outcome::Slots;

/// Puts on the page that a rule fired. Its lines are laid out where they were not asked for before, and then pushed whole.
pub(crate) fn put_fired_rule(
    alloc: Global,
    rules: &PlanRuleList,
    rule: u32,
    laid: &mut Slots<Page>,
    page: &mut Page,
) -> Result<(), AllocError>
    requires there { rule < length rules.now }
    requires laid { AreLaid rules.now laid.old }
    ensures laid { OnOk result (AreLaid rules.now laid.new) }
    ensures put { OnOk result (page.new.bytes.items ≡ page.old.bytes.items ++ fired_text rules.now rule) }
{
    if let Some(lines) = laid.get(rule) {
        return page.put(lines.as_slice());
    }
    let lines = fired_lines(alloc, &rules.as_slice()[rule as usize])?;
    page.put(lines.as_slice())?;
    laid.set(rule, lines)
}

/// The lines that say that a rule fired.
fn fired_lines(alloc: Global, rule: &PlanRule) -> Result<Page, AllocError>
    ensures { IfOk result (λ lines. lines.bytes.items ≡ fired_rule rule.now) }
{
    let mut lines = Page::new(alloc);
    match write_fired_rule(&mut lines, rule) {
        Ok(()) => Ok(lines),
        Err(_) => Err(AllocError),
    }
}
