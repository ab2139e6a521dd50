//! The plan put together of what was compiled.

ghost use Rattle.std.specs.Prelude.{◌≡◌, ◌++◌, ◌∷◌, [], None, map, IfOk, OnOk};
ghost use Rattle.sch_plan.specs.Compiled.{in_force, pattern_lets, plan_ns, plan_of, plan_pattern};

use crate::walker::PatternPartsList;
use sch_base::{ItemList, Text};
use sch_compiled::{
    LetInForce, LetInForceList, Plan, PlanLetList, PlanNs, PlanNsList, PlanPatternList,
    PlanRuleList,
};
use sch_model::{Head, NsList};
use std::alloc::{AllocError, Global};

/// Puts lets in force at the end, as those of a pattern, or of the schema and the phase.
fn push_lets(
    list: &mut LetInForceList,
    pattern: Option<u32>,
    lets: PlanLetList,
) -> Result<(), AllocError>
    ensures { OnOk result (list.new ≡ list.old ++ map (in_force pattern) lets) }
{
    for its in lets.into_vec() {
        list.push(LetInForce {
            pattern,
            name: its.name,
            expr: its.expr,
        })?;
    }
    Ok(())
}

/// The lets of the schema and of the phase in force.
pub(crate) fn global_lets(
    alloc: Global,
    own: PlanLetList,
    its: PlanLetList,
) -> Result<LetInForceList, AllocError>
    ensures { IfOk result (λ list. list ≡ map (in_force None) (own ++ its)) }
{
    let mut list = ItemList::new(alloc);
    push_lets(&mut list, None, own)?;
    push_lets(&mut list, None, its)?;
    Ok(list)
}

/// The prefixes of a schema, which are moved.
fn plan_namespaces(alloc: Global, prefixes: NsList) -> Result<PlanNsList, AllocError>
    ensures { IfOk result (λ list. list ≡ map plan_ns prefixes) }
{
    let mut list = ItemList::new(alloc);
    for ns in prefixes.into_vec() {
        list.push(PlanNs {
            prefix: ns.prefix,
            uri: ns.uri,
        })?;
    }
    Ok(list)
}

/// Puts a pattern with its rules at the end.
fn push_pattern(
    patterns: &mut PlanPatternList,
    id: Option<Text>,
    rules: PlanRuleList,
) -> Result<(), AllocError>
    ensures { OnOk result (patterns.new ≡ patterns.old ++ record { id = id; rules = rules } ∷ []) }
{
    patterns.push(id)?;
    for rule in rules.into_vec() {
        patterns.push_rule(rule)?;
    }
    Ok(())
}

/// Puts patterns with their lets and rules at the end of a plan that has none.
fn push_patterns(plan: &mut Plan, patterns: PatternPartsList) -> Result<(), AllocError>
    ensures { OnOk result (plan.new ≡ record plan.old { lets = plan.old.lets ++ pattern_lets 0 patterns; patterns = plan.old.patterns ++ map plan_pattern patterns }) }
{
    let mut place: u32 = 0;
    for its in patterns.into_vec() {
        push_lets(&mut plan.lets, Some(place), its.lets)?;
        push_pattern(&mut plan.patterns, its.id, its.rules)?;
        place = place.checked_add(1).ok_or(AllocError)?;
    }
    Ok(())
}

/// The plan of what was compiled. Texts are moved.
pub(crate) fn plan_of(
    alloc: Global,
    head: Head,
    prefixes: NsList,
    phase: Option<Text>,
    lets: LetInForceList,
    patterns: PatternPartsList,
) -> Result<Plan, AllocError>
    ensures { IfOk result (λ plan. plan ≡ plan_of head prefixes phase lets patterns) }
{
    let mut plan = Plan::new(alloc);
    plan.set_head(head.title, head.schema_version, phase);
    plan.namespaces = plan_namespaces(alloc, prefixes)?;
    plan.lets = lets;
    push_patterns(&mut plan, patterns)?;
    Ok(plan)
}
