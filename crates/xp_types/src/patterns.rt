//! The types of match patterns.
//!
//! Costs time linear in the pattern's size.

ghost use Rattle.std.specs.Prelude.{◌≡◌, map};
ghost use Rattle.xp_tree.specs.PatternTree.{pattern_step_of, path_pattern_of};
ghost use Rattle.xp_typed_tree.specs.TypedView.{pattern_step_seen, paths_seen};
ghost use Rattle.xp_types.specs.inner.Checked.{ChecksAs};
ghost use Rattle.xp_types.specs.Terms.{pattern_axis};
ghost use Rattle.xp_types.specs.inner.PatternStep.{pattern_step_typed};
ghost use Rattle.xp_types.specs.inner.Typing.{pattern_start, pattern_steps_typed, pattern_typing};

use crate::env::Env;
use crate::faults::CheckError;
use crate::terms::{refusal, resolve};
use crate::typing::type_list;
use std::alloc::Global;
use xp_tree::{PathPattern, PatternStart, PatternStep};
use xp_typed_tree::{Axis, TypedPath, TypedPatternStep};

/// Whether a path pattern begins at the root; `id` and `key` are refused.
fn begins_at_root(alloc: Global, start: &PatternStart, offset: u32) -> Result<bool, CheckError>
    ensures { ChecksAs (pattern_start start.now offset) (λ b. b) result }
{
    match start {
        PatternStart::Here => Ok(false),
        PatternStart::Root => Ok(true),
        PatternStart::Id { .. } => Err(refusal(alloc, "id", offset)),
        PatternStart::Key { .. } => Err(refusal(alloc, "key", offset)),
    }
}

/// The steps of a path pattern.
fn type_pattern_steps(
    alloc: Global,
    steps: &[PatternStep],
    env: &Env,
) -> Result<Vec<TypedPatternStep>, CheckError>
    ensures { ChecksAs (pattern_steps_typed env.now (map pattern_step_of steps.now)) (λ v. map pattern_step_seen v.items) result }
{
    let mut typed = Vec::new(alloc);
    for step in steps {
        typed.push(type_pattern_step(alloc, step, env)?)?;
    }
    Ok(typed)
}

/// A step of a path pattern.
fn type_pattern_step(
    alloc: Global,
    step: &PatternStep,
    env: &Env,
) -> Result<TypedPatternStep, CheckError>
    ensures { ChecksAs (pattern_step_typed env.now (pattern_step_of step.now)) pattern_step_seen result }
{
    let test = resolve(alloc, &step.test, step.test_offset, env)?;
    match type_list(alloc, &step.predicates, env, false) {
        Ok(predicates) => {
            let axis = pattern_axis(step.is_attribute);
            Ok(TypedPatternStep::new(step.join, axis, test, predicates))
        }
        Err(error) => {
            drop(test);
            Err(error)
        }
    }
}

/// The axis of a step in a pattern.
fn pattern_axis(is_attribute: bool) -> Axis
    ensures { result ≡ pattern_axis is_attribute }
{
    if is_attribute {
        Axis::Attribute
    } else {
        Axis::Child
    }
}

/// The path patterns of a pattern.
pub(crate) fn type_paths(
    alloc: Global,
    paths: &[PathPattern],
    env: &Env,
) -> Result<Vec<TypedPath>, CheckError>
    ensures { ChecksAs (pattern_typing env.now (map path_pattern_of paths.now)) (λ v. paths_seen v.items) result }
{
    let mut typed = Vec::new(alloc);
    for path in paths {
        let from_root = begins_at_root(alloc, &path.start, path.offset)?;
        let steps = type_pattern_steps(alloc, &path.steps, env)?;
        typed.push(TypedPath { from_root, steps })?;
    }
    Ok(typed)
}
