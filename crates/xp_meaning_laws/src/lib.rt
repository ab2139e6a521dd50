//! Laws of meaning: what is true of every meaning of an expression.
#![tactic(auto)]

ghost use Rattle.doc_tree.specs.Table.{Table};
ghost use Rattle.doc_tree.specs.Laws.{WellFormed};
ghost use Rattle.xp_meaning_laws.specs.Types.{ValuesHaveTypes};
ghost use Rattle.xp_meaning_laws.specs.Agreeing.{MeaningNeedsSlotsAlone};
ghost use Rattle.xp_meaning_laws.specs.Current.{PatternsNeedNoCurrent, StepsNeedNoCurrent};
ghost use Rattle.xp_meaning_laws.specs.KnownReads.{LetsReadAreNamed, CellsReadAreLive};
ghost use Rattle.xp_meaning_laws.specs.Bounds.{ValuesAreBounded};
ghost use Rattle.xp_meaning.specs.Laws.{ValuesAreProper};

use doc_tree::well_formed_is_enough;
use xp_meaning::values_are_proper;

/// A value has the type of its expression, where the expression is well typed and the slots that it names are set with
/// values of the types that it takes them for, or with faults. Its nodes are nodes of the tree, in document order and each once,
/// where the tree is well formed.
///
/// So the types that `result_type` gives to functions are those of what the functions give: a wrong one has no proof here.
pub fn values_have_types()
    ensures typed { (T : Table) → ValuesHaveTypes T }
    ensures proper { (T : Table) → WellFormed T → ValuesAreProper T }
{
    values_are_proper();
}

/// What an expression gives, reads and costs depends on the slots that it names, and on no other let.
pub fn meaning_needs_slots_alone()
    ensures { MeaningNeedsSlotsAlone }
{}

/// What an expression of a pattern gives, reads and costs doesn't depend on the node that `current()` would give, nor does
/// what a step with such predicates gives, reads and costs: a pattern calls no `current` (XSLT 1.0, section 12.4).
pub fn patterns_need_no_current()
    ensures expressions { PatternsNeedNoCurrent }
    ensures steps { StepsNeedNoCurrent }
{}

/// The lets that are read are those in slots that the expression names.
pub fn lets_read_are_named()
    ensures { LetsReadAreNamed }
{}

/// In each well-formed tree the cells that are read are of live nodes, where the context's nodes and those of the lets' values
/// live.
pub fn cells_read_are_live()
    ensures { (T : Table) → WellFormed T → CellsReadAreLive T }
{
    well_formed_is_enough();
}

/// A number that a well typed expression gives is in range, and a text has at most `MAX_TEXT_BYTES` bytes, where this holds
/// of the literals written in it, of the lets, of the names of the tree and of the context's place, and the string-values of
/// the tree, which is well formed, are UTF-8.
pub fn values_are_bounded()
    ensures { (T : Table) → WellFormed T → ValuesAreBounded T }
{
    well_formed_is_enough();
}
