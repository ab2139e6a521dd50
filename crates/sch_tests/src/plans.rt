//! From the text of a schema to its tree, to the schema without abstract parts, and to a plan.

ghost use Rattle.std.specs.Prelude.{◌≡◌, true, IfOk};
ghost use Rattle.doc_tree.specs.Kinds.{is_document};
ghost use Rattle.sch_compiled.specs.Soundness.{IsSound};

use doc_tree::{MAX_LIVE_TEXT_BYTES, Tree};
use name_scopes::load_tree;
use sch_abstract::expand;
use sch_compiled::Plan;
use sch_model::{FlatSchema, SchemaError};
use sch_plan::compile;
use sch_read::read_schema;
use std::alloc::Global;
use std::test::Fail;

/// The tree of a text.
pub fn tree_of(alloc: Global, text: &str) -> Result<Tree, Fail>
    ensures { IfOk result (λ tree. is_document tree.nodes ≡ true) }
{
    if text.len() > MAX_LIVE_TEXT_BYTES {
        return Err("a text of a row is too long".into());
    }
    Ok(load_tree(alloc, text.as_bytes())?)
}

/// The plan of a schema's text.
pub fn plan_of(alloc: Global, text: &str) -> Result<Plan, Fail>
    ensures { IfOk result IsSound }
{
    let tree = tree_of(alloc, text)?;
    let plan = plan_of_tree(alloc, &tree);
    drop(tree);
    plan
}

/// The plan of a schema's tree.
fn plan_of_tree(alloc: Global, tree: &Tree) -> Result<Plan, Fail>
    requires { is_document tree.now.nodes ≡ true }
    ensures { IfOk result IsSound }
{
    let flat = flat_of(alloc, tree)?;
    Ok(compile(alloc, flat, "#DEFAULT")?)
}

/// A document's schema without abstract parts.
pub fn flat_of(alloc: Global, tree: &Tree) -> Result<FlatSchema, SchemaError>
    requires { is_document tree.now.nodes ≡ true }
{
    expand(alloc, read_schema(alloc, tree)?)
}
