//! The choice of a phase.

ghost use Rattle.std.specs.Prelude.{◌≡◌, filter, IfOk};
ghost use Rattle.sch_phases.specs.Phases.{active_patterns, choice_of, chosen, chosen_name, is_named, no_phase, phase_of};
ghost use Rattle.sch_phases.specs.Walk.{Answers};
ghost use Rattle.sch_phases.specs.inner.Ids.{has_id};

use crate::ids::active_ids;
use doc_tree::NodeId;
use indexmap::IndexSet;
use sch_base::{ItemList, Text};
use sch_model::{
    Active, FlatPatternList, Head, LetDeclList, Phase, PhaseList, SchemaError, SchemaFault,
};
use std::alloc::{AllocError, Global};

/// The phase that is chosen, where not all patterns are; its lets; the active patterns, in the order of the schema.
#[derive(Drop)]
pub struct Choice {
    pub phase: Option<Text>,
    pub lets: LetDeclList,
    pub patterns: FlatPatternList,
}

/// The name of the phase that is meant; `#DEFAULT` is the schema's default, and all patterns for want of one.
fn chosen_name<'a>(head: &'a Head, phase: &'a str) -> &'a str
    ensures { result.now ≡ chosen_name head.now phase.now }
{
    if phase != "#DEFAULT" {
        return phase;
    }
    match &head.default_phase {
        Some(name) => name.as_str(),
        None => "#ALL",
    }
}

/// The phase of an id.
fn phase_of(phases: PhaseList, name: &str) -> Option<Phase>
    ensures { result ≡ phase_of phases name.now }
{
    for phase in phases.into_vec() {
        if name == phase.id.as_str() {
            return Some(phase);
        }
    }
    None
}

/// Whether a pattern's id is one of the ids.
fn is_named(ids: &IndexSet<String>, id: &Option<Text>) -> bool
    ensures { result ≡ is_named (has_id ids.now.keys) id.now }
{
    match id {
        Some(id) => ids.contains(id.as_str()),
        None => false,
    }
}

/// The patterns whose ids are among those of a phase.
fn kept_patterns(
    alloc: Global,
    ids: &IndexSet<String>,
    patterns: FlatPatternList,
) -> Result<FlatPatternList, AllocError>
    ensures { IfOk result (λ list. list ≡ filter (λ p. is_named (has_id ids.now.keys) p.id) patterns) }
{
    let mut list = ItemList::new(alloc);
    for pattern in patterns.into_vec() {
        let stays = is_named(ids, &pattern.id);
        list.push_if(pattern, stays)?;
    }
    Ok(list)
}

/// The patterns whose ids a phase names.
fn active_patterns(
    alloc: Global,
    active: &[Active],
    patterns: FlatPatternList,
) -> Result<FlatPatternList, AllocError>
    ensures { IfOk result (λ list. list ≡ active_patterns active.now patterns) }
{
    let ids = active_ids(alloc, active)?;
    kept_patterns(alloc, &ids, patterns)
}

/// The choice of a phase: its own lets, and the patterns that it makes active.
fn choice_of(alloc: Global, patterns: FlatPatternList, phase: Phase) -> Result<Choice, AllocError>
    ensures { IfOk result (λ choice. choice ≡ choice_of patterns phase) }
{
    let patterns = active_patterns(alloc, phase.active.as_slice(), patterns)?;
    Ok(Choice {
        phase: Some(phase.id),
        lets: phase.lets,
        patterns,
    })
}

/// Rule 20: there is no phase of a name.
fn no_phase(alloc: Global, node: NodeId, name: &str) -> Result<SchemaFault, AllocError>
    ensures { IfOk result (λ fault. fault ≡ no_phase node name.now) }
{
    let name = Text::copy(alloc, name)?;
    Ok(SchemaFault {
        rule: 20,
        node,
        name,
    })
}

/// The choice that a word makes, or rule 20: there is no such phase. Costs time linear in the schema's phases and patterns.
pub fn chosen(
    alloc: Global,
    head: &Head,
    phases: PhaseList,
    patterns: FlatPatternList,
    phase: &str,
) -> Result<Choice, SchemaError>
    ensures { Answers (chosen head.now phases patterns phase.now) result }
{
    let name = chosen_name(head, phase);
    if name == "#ALL" {
        return Ok(Choice {
            phase: None,
            lets: ItemList::new(alloc),
            patterns,
        });
    }
    match phase_of(phases, name) {
        Some(phase) => {
            let choice = choice_of(alloc, patterns, phase)?;
            Ok(choice)
        }
        None => {
            let fault = no_phase(alloc, head.node, name)?;
            Err(SchemaError::Fault(fault))
        }
    }
}
