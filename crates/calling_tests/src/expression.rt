//! The value of an expression at a node.

ghost use Rattle.std.specs.Prelude.{◌≤◌, length};

use anyhow::Error;
use doc_tree::{NodeId, Tree};
use std::alloc::Global;
use std::sync::ledger::Ledger;
use xp_eval::{Context, Lets, Recorder, Steps, eval};
use xp_syntax::{MAX_EXPRESSION_BYTES, parse_expr};
use xp_types::{Env, check};
use xp_values::Value;

/// The value of the expression that a text spells, at a node of a document, with no prefixes and no variables.
pub fn value_at<L: Ledger>(
    alloc: Global,
    tree: &Tree,
    node: NodeId,
    text: &str,
    steps: &mut Steps<L>,
) -> Result<Value, Error>
    requires { length text.now ≤ MAX_EXPRESSION_BYTES }
{
    let expr = check(alloc, parse_expr(alloc, text)?, &Env::new(alloc, false))?;
    let at = Context {
        node,
        position: 1,
        size: 1,
        current: node,
    };
    let mut reads = Recorder::new(alloc);
    Ok(eval(
        alloc,
        tree,
        &expr,
        &at,
        &Lets::new(alloc),
        &mut reads,
        steps,
    )?)
}
