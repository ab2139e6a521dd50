//! Expressions of XPath 1.0 and match patterns of XSLT 1.0: their texts, their trees and their first faults.
#![tactic(auto)]

mod laws;
mod parse;

pub use laws::{
    abbreviations_are_written_out, faulty_texts_spell_no_pattern, faulty_texts_spell_nothing,
    first_faults_are_unique, first_pattern_faults_are_unique, no_text_is_unjudged,
    no_text_is_unjudged_as_a_pattern, one_pattern_spelling, one_spelling,
};
pub use parse::{parse_expr, parse_pattern};
pub use sch_base::MAX_EXPRESSION_BYTES;
pub use xp_grammar::{SyntaxFault, SyntaxKind};
pub use xp_parse::ParseError;
pub use xp_print::print_expr;
pub use xp_tree::{
    AxisName, Chain, Expr, Join, Level, Operand, Operator, PathPattern, Pattern, PatternStart,
    PatternStep, Start, Step, StepTest,
};
pub use xp_typed_tree::{Function, Typed, TypedPattern, ValueType};
