//! Reports as values. Each list keeps the order of the report, and each text is as the report says it.

use sch_base::{ItemList, Text};

/// What a report says of a schema, its phase, and what was found by it.
#[derive(Drop)]
pub struct SvrlReport {
    pub title: Option<Text>,
    /// The id of the chosen phase.
    pub phase: Option<Text>,
    pub schema_version: Option<Text>,
    /// The prefixes of the schema's expressions.
    pub prefixes: PrefixList,
    /// The active patterns.
    pub patterns: SvrlPatternList,
}

/// A prefix of the schema's expressions, and its namespace.
#[derive(Drop)]
pub struct Prefix {
    pub prefix: Text,
    pub uri: Text,
}

/// An active pattern, and its rules that fired, one for each node that fired one.
#[derive(Drop)]
pub struct SvrlPattern {
    pub id: Option<Text>,
    pub fired: FiredList,
}

/// A rule that fired at a node, and what was found there.
#[derive(Drop)]
pub struct Fired {
    pub id: Option<Text>,
    pub context: Text,
    pub role: Option<Text>,
    pub flag: Option<Text>,
    pub findings: SvrlFindingList,
}

/// An assert that is false, or a report that is true.
#[derive(Drop)]
pub struct SvrlFinding {
    /// Whether it is an assert.
    pub assertion: bool,
    pub id: Option<Text>,
    pub location: Text,
    pub role: Option<Text>,
    pub flag: Option<Text>,
    pub test: Text,
    pub refs: RefList,
    pub message: Text,
}

/// A diagnostic or a property that a finding names, and what it says.
#[derive(Drop)]
pub struct Ref {
    /// Whether it is a property.
    pub property: bool,
    /// The id of the diagnostic or the property.
    pub name: Text,
    pub body: Text,
}

pub type PrefixList = ItemList<Prefix>;

pub type SvrlPatternList = ItemList<SvrlPattern>;

pub type FiredList = ItemList<Fired>;

pub type SvrlFindingList = ItemList<SvrlFinding>;

pub type RefList = ItemList<Ref>;
