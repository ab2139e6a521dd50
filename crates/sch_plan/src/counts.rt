//! Counts that fit 32 bits.

ghost use Rattle.std.specs.Prelude.{◌≡◌, ◌+◌, ◌<◌, ◌^◌, ℕ, length, slice_get, IfOk, IsTrue, Some};
ghost use Rattle.sch_compiled.specs.Soundness.{IsCounted};
ghost use Rattle.sch_plan.specs.Compiled.{let_count};
ghost use Rattle.sch_plan.specs.inner.Counts.{ArePatternsCounted, IsPatternCounted, IsRuleCounted};

use sch_compiled::{Plan, PlanPattern, PlanRule};
use sch_model::LetDeclList;
use sch_phases::Choice;
use std::alloc::AllocError;

/// A number and a length, together.
fn and_length(count: u32, len: usize) -> Result<u32, AllocError>
    ensures { IfOk result (λ sum. sum ≡ count + len) }
{
    match u32::try_from(len) {
        Ok(len) => count.checked_add(len).ok_or(AllocError),
        Err(_) => Err(AllocError),
    }
}

/// How many lets are in force.
pub(crate) fn let_count(lets: &LetDeclList, choice: &Choice) -> Result<u32, AllocError>
    ensures { IfOk result (λ count. count ≡ let_count lets.now choice.now) }
{
    let own = and_length(0, lets.len())?;
    let mut count = and_length(own, choice.lets.len())?;
    for pattern in choice.patterns.as_slice() {
        count = and_length(count, pattern.lets.len())?;
    }
    Ok(count)
}

/// The greatest number of 32 bits.
const MOST: usize = 4_294_967_295;

/// Whether the numbers of a rule's assertions and slots fit.
fn is_rule_counted(rule: &PlanRule, lets: usize) -> bool
    requires { lets < 2 ^ 32 }
    ensures { IsTrue result → IsRuleCounted lets rule.now }
{
    rule.assertions.len() <= MOST && rule.lets.len() <= MOST - lets
}

/// Whether the numbers of a pattern's rules and of what they hold fit.
fn is_pattern_counted(pattern: &PlanPattern, lets: usize) -> bool
    requires { lets < 2 ^ 32 }
    ensures { IsTrue result → IsPatternCounted lets pattern.now }
{
    let rules = pattern.rules.as_slice();
    if rules.len() > MOST {
        return false;
    }
    for rule in rules {
        if !is_rule_counted(rule, lets) {
            return false;
        }
    }
    true
}

/// Whether the numbers of all patterns fit.
fn are_patterns_counted(patterns: &[PlanPattern], lets: usize) -> bool
    requires { lets < 2 ^ 32 }
    ensures { IsTrue result → ArePatternsCounted lets patterns.now }
{
    if patterns.len() > MOST {
        return false;
    }
    for pattern in patterns {
        if !is_pattern_counted(pattern, lets) {
            return false;
        }
    }
    true
}

/// Whether all numbers of a plan fit 32 bits. Costs time linear in the number of its rules.
pub(crate) fn is_counted(plan: &Plan) -> bool
    ensures { IsTrue result → IsCounted plan.now }
{
    let lets = plan.lets.len();
    if lets > MOST {
        return false;
    }
    if plan.namespaces.len() > MOST {
        return false;
    }
    are_patterns_counted(plan.patterns.as_slice(), lets)
}
