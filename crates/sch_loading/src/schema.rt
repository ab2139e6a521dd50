//! From the tree of a schema to the schema without abstract parts and the plan of a phase, or what stops the run on the way.

ghost use Rattle.std.specs.Prelude.{◌≡◌, true, [], IfErr, IfOk};
ghost use Rattle.doc_tree.specs.Kinds.{is_document};
ghost use Rattle.sch_compiled.specs.Soundness.{IsSound};
ghost use Rattle.doc_locations.specs.Locations.{location_of};
ghost use Rattle.sch_loading.specs.Loading.{Compiling, Flattening, Reading};
ghost use Rattle.sch_loading.specs.Stages.{Then};
ghost use Rattle.sch_loading.specs.Reads.{EndsAs};
ghost use Rattle.sch_loading.specs.inner.Refusing.{IsInner, IsRefusal};

use doc_locations::location;
use doc_tree::{NodeId, Tree};
use sch_abstract::expand;
use sch_base::Text;
use sch_compiled::Plan;
use sch_model::{FlatSchema, RawSchema, SchemaError};
use sch_plan::compile;
use sch_read::read_schema;
use sch_stops::{SchemaRefusal, Stop};
use std::alloc::{AllocError, Global};

/// The plan of a phase of the schema that the tree of a document is.
pub(crate) fn plan_of(alloc: Global, tree: &Tree, phase: &str) -> Result<Plan, Stop>
    requires { is_document tree.now.nodes ≡ true }
    ensures ends { EndsAs (Then (Reading tree.now.nodes) (Compiling tree.now.nodes phase.now) []) (λ plan. plan) result }
    ensures sound { IfOk result IsSound }
    ensures inner { IfErr result IsInner }
{
    let flat = read_flat(alloc, tree)?;
    match compile(alloc, flat, phase) {
        Ok(plan) => Ok(plan),
        Err(error) => Err(refused(alloc, tree, error)),
    }
}

/// The schema that the tree of a document is, without abstract parts.
pub(crate) fn read_flat(alloc: Global, tree: &Tree) -> Result<FlatSchema, Stop>
    requires { is_document tree.now.nodes ≡ true }
    ensures ends { EndsAs (Reading tree.now.nodes []) (λ flat. flat) result }
    ensures inner { IfErr result IsInner }
{
    match read_schema(alloc, tree) {
        Ok(raw) => flat_of(alloc, tree, raw),
        Err(error) => Err(refused(alloc, tree, error)),
    }
}

/// The schema without abstract parts.
fn flat_of(alloc: Global, tree: &Tree, raw: RawSchema) -> Result<FlatSchema, Stop>
    ensures ends { EndsAs (Flattening tree.now.nodes raw []) (λ flat. flat) result }
    ensures inner { IfErr result IsInner }
{
    match expand(alloc, raw) {
        Ok(flat) => Ok(flat),
        Err(error) => Err(refused(alloc, tree, error)),
    }
}

/// What stops a run whose schema, with this tree, is refused for the error.
fn refused(alloc: Global, tree: &Tree, error: SchemaError) -> Stop
    ensures refusal { IsRefusal tree.now.nodes error result }
    ensures inner { IsInner result }
{
    let SchemaError::Fault(fault) = error else {
        return Stop::Memory;
    };
    match place_of(alloc, tree, fault.node) {
        Ok(location) => Stop::SchemaRefused(SchemaRefusal::Rule { fault, location }),
        Err(AllocError) => Stop::Memory,
    }
}

/// The location of a node, and nothing for a number that no node has.
#[tactic(auto, using(crate::proofs::SchemaLemmas::no_location))]
pub(crate) fn place_of(alloc: Global, tree: &Tree, n: NodeId) -> Result<Text, AllocError>
    ensures { IfOk result (λ location. location ≡ location_of tree.now.nodes n) }
{
    if tree.contains(n) {
        location(alloc, tree, n)
    } else {
        tree.laws();
        Text::copy(alloc, "")
    }
}
