//! From the texts of a schema and of a document to a session.

ghost use Rattle.std.specs.Prelude.{◌≡◌, ◌≤◌, true, length, IfOk};
ghost use Rattle.doc_tree.specs.Kinds.{is_document};
ghost use Rattle.sch_compiled.specs.Soundness.{IsSound};

use crate::texts::{DOCUMENT, SCHEMA};
use anyhow::Error;
use doc_tree::{MAX_LIVE_TEXT_BYTES, Tree};
use edit_session::Session;
use name_scopes::load_tree;
use sch_abstract::expand;
use sch_compiled::Plan;
use sch_plan::compile;
use sch_read::read_schema;
use std::alloc::Global;

/// The document under the schema's plan.
pub fn open_session(alloc: Global) -> Result<Session, Error> {
    let schema = document_of(alloc, SCHEMA)?;
    let plan = plan_of(alloc, &schema);
    drop(schema);
    session_under(alloc, plan?)
}

/// The document under a plan.
fn session_under(alloc: Global, plan: Plan) -> Result<Session, Error>
    requires { IsSound plan }
{
    match document_of(alloc, DOCUMENT) {
        Ok(document) => Ok(Session::open(alloc, plan, document)?),
        Err(error) => {
            drop(plan);
            Err(error)
        }
    }
}

/// The tree of a document's text.
fn document_of(alloc: Global, text: &[u8]) -> Result<Tree, Error>
    requires { length text.now ≤ MAX_LIVE_TEXT_BYTES }
    ensures { IfOk result (λ tree. is_document tree.nodes ≡ true) }
{
    Ok(load_tree(alloc, text)?)
}

/// The plan of a schema's tree, for the phase that it names as its default, or all patterns where it names none.
fn plan_of(alloc: Global, schema: &Tree) -> Result<Plan, Error>
    requires { is_document schema.now.nodes ≡ true }
    ensures { IfOk result IsSound }
{
    let raw = read_schema(alloc, schema)?;
    let flat = expand(alloc, raw)?;
    Ok(compile(alloc, flat, "#DEFAULT")?)
}
