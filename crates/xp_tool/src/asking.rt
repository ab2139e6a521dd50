//! Questions about nodes: the value of an expression, and which of them match a pattern.

ghost use Rattle.std.specs.Prelude.{◌≡◌, ◌≤◌, length, true, false, IfOk};

use crate::scene::Scene;
use doc_tree::{Cell, NodeId, NodeList};
use std::alloc::{AllocError, Global};
use std::fmt::Debug;
use std::test::Fail;
use test_rows::parts;
use xp_cells::cells_read;
use xp_eval::Recorder;
use xp_syntax::{MAX_EXPRESSION_BYTES, parse_expr, parse_pattern};
use xp_tree::{Expr, Pattern};
use xp_typed_tree::{Typed, TypedPattern, ValueType};
use xp_types::{Env, check, check_pattern};

/// What is asked of nodes: the value of an expression, or which of them match a pattern; and whether how it ran is told too.
#[derive(Clone, Copy)]
pub struct Asked {
    pub is_value: bool,
    pub with_run: bool,
}

/// An answer as a text, and the visits that it took.
type Told = Result<(String, u64), Fail>;

/// The value of an expression at the first of some nodes, at position 1 of 1, or which of them match a pattern; or the first
/// fault. Where the run is asked too, also the cells and the slots that are read, and how many visits it takes.
pub fn ask(scene: &Scene<'_>, asked: Asked, nodes: &[NodeId], text: &str) -> Result<String, Fail> {
    if text.len() > MAX_EXPRESSION_BYTES {
        return Err("the text is too long".into());
    }
    let mut reads = Recorder::new(scene.alloc);
    let told = told_with(scene, asked, nodes, text, &mut reads);
    drop(reads);
    told
}

/// The answer to a question, with how it ran where that is asked.
fn told_with(
    scene: &Scene<'_>,
    asked: Asked,
    nodes: &[NodeId],
    text: &str,
    reads: &mut Recorder,
) -> Result<String, Fail>
    requires { length text.now ≤ MAX_EXPRESSION_BYTES }
{
    let (told, visits) = answered(scene, asked.is_value, nodes, text, reads)?;
    if asked.with_run {
        with_run(scene, told, visits, reads)
    } else {
        Ok(told)
    }
}

/// An answer with the cells and the slots that were read, and the visits.
fn with_run(
    scene: &Scene<'_>,
    told: String,
    visits: u64,
    reads: &mut Recorder,
) -> Result<String, Fail> {
    reads.settle();
    let cells = cells_in_order(scene, reads)?;
    let (answer, each, lets) = (told.as_str(), cells.as_slice(), reads.lets());
    let whole = format!(in scene.alloc; "{answer} reads {each:?} {lets:?} visits {visits}");
    drop(cells);
    drop(told);
    Ok(whole?)
}

/// Every cell that was read, in their order, each once.
fn cells_in_order(scene: &Scene<'_>, reads: &Recorder) -> Result<Vec<Cell>, AllocError> {
    let mut cells = cells_read(scene.alloc, scene.tree, reads)?.into_vec();
    cells.sort_unstable();
    cells.dedup();
    Ok(cells)
}

/// The answer to a question, and the visits.
fn answered(
    scene: &Scene<'_>,
    is_value: bool,
    nodes: &[NodeId],
    text: &str,
    reads: &mut Recorder,
) -> Told
    requires { length text.now ≤ MAX_EXPRESSION_BYTES }
{
    let env = scope(scene.alloc, !is_value)?;
    let told = if is_value {
        value(scene, nodes, text, &env, reads)
    } else {
        matched(scene, nodes, text, &env, reads)
    };
    drop(env);
    told
}

/// The value of an expression at the first of some nodes, or its first fault, and the visits.
fn value(scene: &Scene<'_>, nodes: &[NodeId], text: &str, env: &Env, reads: &mut Recorder) -> Told
    requires short { length text.now ≤ MAX_EXPRESSION_BYTES }
    requires place { env.now.in_pattern ≡ false }
{
    match parse_expr(scene.alloc, text) {
        Ok(expr) => checked_value(scene, nodes, expr, env, reads),
        Err(fault) => refused(scene.alloc, &fault),
    }
}

/// The value of an expression at the first of some nodes, or its first fault of types, and the visits.
fn checked_value(
    scene: &Scene<'_>,
    nodes: &[NodeId],
    expr: Expr,
    env: &Env,
    reads: &mut Recorder,
) -> Told
    requires { env.now.in_pattern ≡ false }
{
    match check(scene.alloc, expr, env) {
        Ok(expr) => {
            let told = value_at_first(scene, nodes, &expr, reads);
            drop(expr);
            told
        }
        Err(fault) => refused(scene.alloc, &fault),
    }
}

/// The value of a typed expression at the first of some nodes, and the visits.
fn value_at_first(scene: &Scene<'_>, nodes: &[NodeId], expr: &Typed, reads: &mut Recorder) -> Told {
    let node = nodes.first().ok_or("no node is asked")?;
    let found = scene.value_at(*node, expr, reads);
    let visits = found.visits;
    let told = parts(scene.alloc, &found.answer);
    drop(found);
    Ok((told?, visits))
}

/// A first fault, which takes no visits.
fn refused<T: Debug>(alloc: Global, fault: &T) -> Told {
    Ok((parts(alloc, fault)?, 0))
}

/// Those of some nodes that match a pattern, or its first fault, and the visits at the last of them.
fn matched(scene: &Scene<'_>, nodes: &[NodeId], text: &str, env: &Env, reads: &mut Recorder) -> Told
    requires short { length text.now ≤ MAX_EXPRESSION_BYTES }
    requires place { env.now.in_pattern ≡ true }
{
    match parse_pattern(scene.alloc, text) {
        Ok(pattern) => checked_match(scene, nodes, pattern, env, reads),
        Err(fault) => refused(scene.alloc, &fault),
    }
}

/// Those of some nodes that match a pattern, or its first fault of types, and the visits at the last of them.
fn checked_match(
    scene: &Scene<'_>,
    nodes: &[NodeId],
    pattern: Pattern,
    env: &Env,
    reads: &mut Recorder,
) -> Told
    requires { env.now.in_pattern ≡ true }
{
    match check_pattern(scene.alloc, pattern, env) {
        Ok(pattern) => {
            let told = matching(scene, nodes, &pattern, reads);
            drop(pattern);
            told
        }
        Err(fault) => refused(scene.alloc, &fault),
    }
}

/// Those of some nodes that match a pattern, and the visits at the last of them.
fn matching(
    scene: &Scene<'_>,
    nodes: &[NodeId],
    pattern: &TypedPattern,
    reads: &mut Recorder,
) -> Told {
    let mut found = NodeList::new(scene.alloc);
    let mut visits = 0;
    for node in nodes {
        if scene.tree.contains(*node) {
            reads.clear();
            let held = scene.match_at(*node, pattern, reads);
            visits = held.visits;
            found.push_if(*node, held.answer?)?;
        }
    }
    Ok((parts(scene.alloc, &found.as_slice())?, visits))
}

/// A scope without prefixes, and with the variable x, a node-set.
fn scope(alloc: Global, in_pattern: bool) -> Result<Env, AllocError>
    ensures { IfOk result (λ env. env.in_pattern ≡ in_pattern) }
{
    let mut env = Env::new(alloc, in_pattern);
    env.add_var("x", 0, ValueType::NodeSet)?;
    Ok(env)
}
