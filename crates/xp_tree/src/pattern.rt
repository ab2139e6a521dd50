//! Match patterns of XSLT 1.0.

use crate::expr::Expr;
use crate::terms::StepTest;
use sch_base::Text;

/// A match pattern (XSLT 1.0, section 5.2): path patterns joined by `|`, at least one.
#[derive(Debug, Drop)]
pub struct Pattern {
    pub paths: Vec<PathPattern>,
}

/// A path pattern: where it begins, and its steps from the left to the right.
#[derive(Debug, Drop)]
pub struct PathPattern {
    pub offset: u32,
    pub start: PatternStart,
    pub steps: Vec<PatternStep>,
}

/// Where a path pattern begins.
#[derive(Debug, Drop)]
pub enum PatternStart {
    /// With its first step.
    Here,
    /// With `/` or `//`.
    Root,
    /// With `id('value')`.
    Id { value: Text },
    /// With `key('name', 'value')`.
    Key { name: Text, value: Text },
}

/// A step of a path pattern, whose axis is child or attribute.
#[derive(Debug, Drop)]
pub struct PatternStep {
    /// What stands before the step.
    pub join: Join,
    pub offset: u32,
    /// Whether the axis is attribute, and not child.
    pub is_attribute: bool,
    pub test: StepTest,
    /// Where the node test begins, and with it a name's prefix.
    pub test_offset: u32,
    pub predicates: Vec<Expr>,
}

/// What stands before a step of a path pattern.
#[derive(Clone, Copy, Debug)]
pub enum Join {
    /// Nothing: the step begins the pattern.
    Nothing,
    /// `/`
    Slash,
    /// `//`
    DoubleSlash,
}
