//! The paths of a script.

ghost use Rattle.std.specs.Prelude.{◌≡◌, IfOk, MatchOption};
ghost use Rattle.std.specs.List.{slice_split};
ghost use Rattle.sch_base.specs.Characters.{is_slash};
ghost use Rattle.edit_script.specs.Paths.{bracketed, is_close, is_open, kind_of, path_of, step_of, steps_of};
ghost use Rattle.edit_script.specs.inner.Parts.{Parted, Whole};
ghost use Rattle.edit_script.specs.inner.Steps.{before_steps, steps_if};

use crate::command::{Path, PathStep};
use crate::fields::read_number;
use doc_tree::Kind;
use std::alloc::{AllocError, Global};

/// The path that a text is; None where it is none.
///
/// The time grows with its length.
pub(crate) fn read_path(alloc: Global, text: &str) -> Result<Option<Path>, AllocError>
    ensures { IfOk result (λ path. path ≡ path_of text.now) }
{
    match text.strip_prefix('/') {
        Some("") => Ok(Some(Path::new(alloc))),
        Some(steps) => read_steps(alloc, steps),
        None => Ok(None),
    }
}

/// The steps that a text is, parted by `/`.
fn read_steps(alloc: Global, text: &str) -> Result<Option<Path>, AllocError>
    ensures { IfOk result (λ path. path ≡ steps_of (slice_split is_slash text.now)) }
{
    let mut path = Path::new(alloc);
    match push_steps(&mut path, text) {
        Ok(true) => Ok(Some(path)),
        Ok(false) => {
            drop(path);
            Ok(None)
        }
        Err(error) => {
            drop(path);
            Err(error)
        }
    }
}

/// Puts the steps that a text is, parted by `/`, at the end of a path; false where some part is no step.
fn push_steps(path: &mut Path, text: &str) -> Result<bool, AllocError>
    ensures { IfOk result (λ are_steps. steps_if are_steps path.new ≡ before_steps path.old (steps_of (slice_split is_slash text.now))) }
{
    let mut rest = text;
    while let Some((front, back)) = split_slash(rest) {
        let Some(step) = read_step(front) else {
            return Ok(false);
        };
        path.push(step)?;
        rest = back;
    }
    let Some(step) = read_step(rest) else {
        return Ok(false);
    };
    path.push(step)?;
    Ok(true)
}

/// What stands in front of the first `/` and behind it; None where there is no `/`.
#[tactic(auto, using(crate::proofs::PartLemmas::whole_at, crate::proofs::PartLemmas::parted_at))]
fn split_slash(text: &str) -> Option<(&str, &str)>
    ensures { MatchOption result (Whole is_slash text.now) (λ parts. Parted is_slash text.now parts.0.now parts.1.now) }
{
    text.split_once('/')
}

/// What stands in front of the first `[` and behind it; None where there is no `[`.
#[tactic(auto, using(crate::proofs::PartLemmas::whole_at, crate::proofs::PartLemmas::parted_at))]
fn split_open(text: &str) -> Option<(&str, &str)>
    ensures { MatchOption result (Whole is_open text.now) (λ parts. Parted is_open text.now parts.0.now parts.1.now) }
{
    text.split_once('[')
}

/// What stands in front of the first `]` and behind it; None where there is no `]`.
#[tactic(auto, using(crate::proofs::PartLemmas::whole_at, crate::proofs::PartLemmas::parted_at))]
fn split_close(text: &str) -> Option<(&str, &str)>
    ensures { MatchOption result (Whole is_close text.now) (λ parts. Parted is_close text.now parts.0.now parts.1.now) }
{
    text.split_once(']')
}

/// The step that a text is, as `*[1]`; None where it is none.
fn read_step(text: &str) -> Option<PathStep>
    ensures { result ≡ step_of text.now }
{
    let (name, rest) = split_open(text)?;
    let kind = kind_of(name)?;
    let index = read_bracketed(rest)?;
    Some(PathStep { kind, index })
}

/// The kind that a step names; None where there is none.
#[tactic(auto, unfolding(crate::specs::Paths::kind_of))]
fn kind_of(name: &str) -> Option<Kind>
    ensures { result ≡ kind_of name.now }
{
    match name {
        "*" => Some(Kind::Element),
        "text()" => Some(Kind::Text),
        "comment()" => Some(Kind::Comment),
        "processing-instruction()" => Some(Kind::Pi),
        _ => None,
    }
}

/// The number in front of the `]` with which a step ends.
fn read_bracketed(text: &str) -> Option<u32>
    ensures { result ≡ bracketed text.now }
{
    match split_close(text) {
        Some((number, "")) => read_number(number),
        _ => None,
    }
}
