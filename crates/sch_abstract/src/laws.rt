//! The law of the first broken rule.

ghost use Rattle.doc_tree.specs.Table.{Table};
ghost use Rattle.sch_abstract.specs.FirstFault.{FirstFaultAgrees};
ghost use Rattle.sch_rules.specs.RawSchema.{raw_schema};

/// The function that gives the first rule that a schema breaks gives just the rule that is the first, where the schema was
/// read from a document: a law, for the proofs of callers.
pub fn first_fault_agrees()
    ensures { (T : Table) → FirstFaultAgrees (raw_schema T) }
{}
