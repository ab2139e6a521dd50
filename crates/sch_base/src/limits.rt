//! The limits of schemas, expressions and evaluations. Those of a file stand in `sch_io`, and those of a tree in
//! `doc_tree`, whose count of a whole document's text has the same value as the limit of one text made here.

/// Bytes of one text that an evaluation makes, and of the expanded schema.
pub const MAX_TEXT_BYTES: usize = 16_777_216;

/// Bytes of one expression or pattern, as it stands in the schema.
pub const MAX_EXPRESSION_BYTES: usize = 65_536;

/// Brackets and signs that are open at one place of an expression.
pub const MAX_NESTING: usize = 64;

/// Rules of the expanded schema.
pub const MAX_RULES: usize = 4_096;

/// Assertions and reports of the expanded schema, together.
pub const MAX_ASSERTIONS: usize = 16_384;

/// Lets of the expanded schema.
pub const MAX_LETS: usize = 1_024;

/// Active patterns of a plan.
pub const MAX_ACTIVE_PATTERNS: usize = 1_024;

/// Includes of a schema in all.
pub const MAX_INCLUDES: usize = 256;

/// Includes that stand inside one another.
pub const MAX_INCLUDE_DEPTH: usize = 16;

/// Active patterns times live nodes.
pub const MAX_PAIRS: usize = 4_194_304;
