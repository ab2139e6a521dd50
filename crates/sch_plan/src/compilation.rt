//! From a schema without abstract parts to the plan of a phase.

ghost use Rattle.std.specs.Prelude.{◌≡◌, [], List, IfOk};
ghost use Rattle.sch_compiled.specs.Soundness.{IsSound};
ghost use Rattle.sch_model.specs.declared.parts.Head.{Head};
ghost use Rattle.sch_model.specs.declared.parts.Ns.{Ns};
ghost use Rattle.sch_plan.specs.Broken.{too_many_patterns};
ghost use Rattle.sch_plan.specs.Compiled.{are_too_many, compiled, global_lets, let_count, walk};
ghost use Rattle.sch_plan.specs.Lets.{nothing_before};
ghost use Rattle.sch_phases.specs.Walk.{Answers, Unless};
ghost use Rattle.sch_plan.specs.inner.Ids.{kept_in, listed_in};
ghost use Rattle.sch_plan.specs.inner.Moved.{moved};
ghost use Rattle.sch_plan.specs.inner.Planned.{planned, walk_from};

use crate::counts::{is_counted, let_count};
use crate::faults::refusal;
use crate::ids::{NoteLists, notes_by_id};
use crate::plans::{global_lets, plan_of};
use crate::scopes::Scopes;
use crate::walker::{PatternPartsList, Walker};
use doc_tree::NodeId;
use sch_base::{MAX_ACTIVE_PATTERNS, Text};
use sch_compiled::{LetInForceList, Plan};
use sch_model::{FlatSchema, Head, LetDeclList, Ns, NsList, SchemaError};
use sch_phases::{Choice, chosen};
use std::alloc::{AllocError, Global};
use xp_types::slots_are_in_scope;

/// A walk that begins.
fn begin(alloc: Global, prefixes: &[Ns], notes: NoteLists, count: u32) -> Result<Walker, AllocError>
    ensures seen { IfOk result (λ walker. walker.seen ≡ nothing_before prefixes.now) }
    ensures notes { IfOk result (λ walker. kept_in walker.notes ≡ listed_in notes) }
    ensures count { IfOk result (λ walker. walker.count ≡ count) }
{
    let notes = notes_by_id(alloc, notes)?;
    let seen = Scopes::new(alloc, prefixes)?;
    Ok(Walker {
        alloc,
        seen,
        notes,
        count,
    })
}

/// The lets of the schema, then those of the phase.
fn walk_global_lets(
    alloc: Global,
    seen: &mut Scopes,
    lets: LetDeclList,
    phase_lets: LetDeclList,
) -> Result<LetInForceList, SchemaError>
    ensures { Answers (global_lets seen.old lets phase_lets) (moved seen.new result) }
{
    let own = seen.all_lets(alloc, lets)?;
    let its = seen.all_lets(alloc, phase_lets)?;
    let list = global_lets(alloc, own, its)?;
    Ok(list)
}

/// What the walk over what a phase chooses gives the plan.
struct Walked {
    phase: Option<Text>,
    lets: LetInForceList,
    patterns: PatternPartsList,
}

/// The walk that has begun: the lets of the schema and the phase, and then the patterns.
fn walk_all(walker: &mut Walker, lets: LetDeclList, choice: Choice) -> Result<Walked, SchemaError>
    ensures { (head : Head) (ns : List Ns) → Answers (walk_from (kept_in walker.old.notes) walker.old.count walker.old.seen head ns lets choice) (planned head ns result) }
{
    let lets = walk_global_lets(walker.alloc, &mut walker.seen, lets, choice.lets)?;
    let patterns = walker.all_patterns(choice.patterns)?;
    Ok(Walked {
        phase: choice.phase,
        lets,
        patterns,
    })
}

/// The walk over what a phase chooses, where so many lets are in force.
fn walk_counted(
    alloc: Global,
    prefixes: &[Ns],
    lets: LetDeclList,
    notes: NoteLists,
    choice: Choice,
    count: u32,
) -> Result<Walked, SchemaError>
    requires { count ≡ let_count lets choice }
    ensures { (head : Head) → Answers (walk head prefixes.now lets (listed_in notes) choice) (planned head prefixes.now result) }
{
    match begin(alloc, prefixes, notes, count) {
        Ok(mut walker) => {
            let walked = walk_all(&mut walker, lets, choice);
            drop(walker);
            walked
        }
        Err(_) => {
            drop(choice);
            drop(lets);
            Err(SchemaError::Memory)
        }
    }
}

/// The walk over what a phase chooses.
fn walk_choice(
    alloc: Global,
    prefixes: &[Ns],
    lets: LetDeclList,
    notes: NoteLists,
    choice: Choice,
) -> Result<Walked, SchemaError>
    ensures { (head : Head) → Answers (walk head prefixes.now lets (listed_in notes) choice) (planned head prefixes.now result) }
{
    match let_count(&lets, &choice) {
        Ok(count) => walk_counted(alloc, prefixes, lets, notes, choice, count),
        Err(_) => {
            drop(choice);
            drop(notes);
            drop(lets);
            Err(SchemaError::Memory)
        }
    }
}

/// What a schema says beside its phases and patterns.
#[derive(Drop)]
struct Declared {
    head: Head,
    ns: NsList,
    lets: LetDeclList,
    notes: NoteLists,
}

impl Declared {
    /// The document element.
    fn element(&self) -> NodeId
        ensures { result ≡ self.now.head.node }
    {
        self.head.node
    }
}

/// The plan of what a phase chooses.
fn walk(alloc: Global, declared: Declared, choice: Choice) -> Result<Plan, SchemaError>
    ensures { Answers (walk declared.head declared.ns declared.lets (listed_in declared.notes) choice) result }
{
    let Declared {
        head,
        ns,
        lets,
        notes,
    } = declared;
    let Walked {
        phase,
        lets,
        patterns,
    } = walk_choice(alloc, ns.as_slice(), lets, notes, choice)?;
    let plan = plan_of(alloc, head, ns, phase, lets, patterns)?;
    Ok(plan)
}

/// The plan of what a phase chooses, or rule 21: it makes too many patterns active.
fn walk_if_few(alloc: Global, declared: Declared, choice: Choice) -> Result<Plan, SchemaError>
    ensures { Answers (Unless (are_too_many choice.patterns) (too_many_patterns declared.head.node)
        (walk declared.head declared.ns declared.lets (listed_in declared.notes) choice)) result }
{
    let node = declared.element();
    if choice.patterns.len() <= MAX_ACTIVE_PATTERNS {
        walk(alloc, declared, choice)
    } else {
        drop(choice);
        drop(declared);
        Err(refusal(alloc, 21, node, "1024"))
    }
}

/// The plan of a phase, or the first broken rule from 20 to 31.
fn compiled(alloc: Global, flat: FlatSchema, phase: &str) -> Result<Plan, SchemaError>
    ensures { Answers (compiled flat phase.now) result }
{
    let FlatSchema {
        head,
        ns,
        lets,
        phases,
        patterns,
        diagnostics,
        properties,
    } = flat;
    let notes = NoteLists {
        diagnostics,
        properties,
    };
    let declared = Declared {
        head,
        ns,
        lets,
        notes,
    };
    match chosen(alloc, &declared.head, phases, patterns, phase) {
        Ok(choice) => walk_if_few(alloc, declared, choice),
        Err(error) => {
            drop(declared);
            Err(error)
        }
    }
}

/// The plan of a phase, or the first rule from 20 to 31 that the schema breaks.
///
/// The word for the phase is a phase's id, `#ALL` for all patterns, or `#DEFAULT` for what the schema says it is by default.
/// Schema, phase and active patterns are walked in order, and nothing after the first broken rule is looked at. A number
/// past 32 bits is answered as want of memory. Costs time linear in the texts that the walk meets, those of a diagnostic
/// or a property for each assertion that names it.
pub fn compile(alloc: Global, flat: FlatSchema, phase: &str) -> Result<Plan, SchemaError>
    ensures compiled { Answers (compiled flat phase.now) result }
    ensures sound { IfOk result IsSound }
{
    slots_are_in_scope();
    let plan = compiled(alloc, flat, phase)?;
    if !is_counted(&plan) {
        return Err(SchemaError::Memory);
    }
    Ok(plan)
}
