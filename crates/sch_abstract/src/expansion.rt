//! From a schema as it is read to one without abstract parts.

ghost use Rattle.std.specs.Prelude.{◌≡◌, map, None, IfErr, IfOk, OnOk};
ghost use Rattle.sch_references.specs.Ended.{Refuses};
ghost use Rattle.sch_references.specs.Extends.{abstract_rules};
ghost use Rattle.sch_expansion.specs.Flat.{concrete_patterns, flat_pattern, flat_schema};
ghost use Rattle.sch_expansion.specs.Stands.{ExtendsAreReplaced};
ghost use Rattle.sch_abstract.specs.FirstFault.{Refused, first_fault};

use sch_expansion::{extends_are_replaced, flat_patterns};
use sch_model::{FlatPatternList, FlatSchema, RawSchema, SchemaError};
use sch_references::check_references;
use sch_sizes::check_sizes;
use std::alloc::Global;

/// The schema without abstract parts, or the first of the rules 10 to 19 and 32 that the schema breaks.
///
/// The first broken rule of 10 to 15 and 32 is the one at the element with the least node number, and there the one with the
/// least number: node numbers are taken to stand in document order, as those of a loaded document do, since a schema as it
/// is read keeps no other order between its phases and its patterns. Where none of these rules is broken, the first is the
/// one of the others with the least number; how large the schema is without abstract parts is counted before it is made.
pub fn expand(alloc: Global, raw: RawSchema) -> Result<FlatSchema, SchemaError>
    ensures refused { IfErr result (Refused raw) }
    ensures accepted { OnOk result (first_fault raw ≡ None) }
    ensures expanded { IfOk result (λ flat. flat ≡ flat_schema raw) }
    // each abstract rule stands for its items with each `extends` among them replaced
    ensures replaced { OnOk result (ExtendsAreReplaced (abstract_rules raw)) }
{
    let patterns = expanded_patterns(alloc, &raw)?;
    Ok(FlatSchema {
        head: raw.head,
        ns: raw.ns,
        lets: raw.lets,
        phases: raw.phases,
        patterns,
        diagnostics: raw.diagnostics,
        properties: raw.properties,
    })
}

/// The patterns without abstract parts, or the first rule that the schema breaks.
fn expanded_patterns(alloc: Global, raw: &RawSchema) -> Result<FlatPatternList, SchemaError>
    ensures refused { IfErr result (Refused raw.now) }
    ensures accepted { OnOk result (first_fault raw.now ≡ None) }
    ensures expanded { IfOk result (λ flat. flat ≡ map (flat_pattern raw.now) (concrete_patterns raw.now)) }
    ensures replaced { OnOk result (ExtendsAreReplaced (abstract_rules raw.now)) }
{
    let rules = check_references(alloc, raw)?;
    check_sizes(alloc, raw, &rules)?;
    extends_are_replaced(raw, &rules);
    Ok(flat_patterns(alloc, raw, &rules)?)
}
