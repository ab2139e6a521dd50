//! What holds of types.

ghost use Rattle.xp_types.specs.Laws.{EachIsTypedOrRefused, TypedHaveNoFault, TypesAreUnique, FirstTypeFaultsAreUnique, EachPatternIsTypedOrRefused, TypedPatternsHaveNoFault, PatternTypesAreUnique, FirstPatternTypeFaultsAreUnique, SlotsAreInScope, PatternSlotsAreInScope};

/// An expression has one typed tree and no fault, or it has faults, and one of them is the first.
pub fn expressions_are_typed_or_refused()
    ensures each { EachIsTypedOrRefused }
    ensures never_both { TypedHaveNoFault }
    ensures one_tree { TypesAreUnique }
    ensures one_first_fault { FirstTypeFaultsAreUnique }
{}

/// So it is with match patterns.
pub fn patterns_are_typed_or_refused()
    ensures each { EachPatternIsTypedOrRefused }
    ensures never_both { TypedPatternsHaveNoFault }
    ensures one_tree { PatternTypesAreUnique }
    ensures one_first_fault { FirstPatternTypeFaultsAreUnique }
{}

/// Typed trees name slots of variables in their scope, each with its variable's type.
pub fn slots_are_in_scope()
    ensures expressions { SlotsAreInScope }
    ensures patterns { PatternSlotsAreInScope }
{}
