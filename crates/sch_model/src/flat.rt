//! Schemas without their abstract parts.

use crate::parts::{AssertionList, DiagnosticList, Head, LetDeclList, NsList, PhaseList};
use doc_tree::NodeId;
use sch_base::{ItemList, Text};

/// A rule: the nodes that match its context, its lets in order, and its assertions in order.
#[derive(Drop)]
pub struct FlatRule {
    pub node: NodeId,
    pub id: Option<Text>,
    pub context: Text,
    /// The subject of its assertions that have none of their own.
    pub subject: Option<Text>,
    pub role: Option<Text>,
    pub flag: Option<Text>,
    pub lets: LetDeclList,
    pub assertions: AssertionList,
}

/// A pattern: of its rules each node fires the first that matches.
#[derive(Drop)]
pub struct FlatPattern {
    pub node: NodeId,
    pub id: Option<Text>,
    pub lets: LetDeclList,
    pub rules: FlatRuleList,
}

/// A schema in which nothing is abstract.
#[derive(Drop)]
pub struct FlatSchema {
    pub head: Head,
    pub ns: NsList,
    pub lets: LetDeclList,
    pub phases: PhaseList,
    pub patterns: FlatPatternList,
    pub diagnostics: DiagnosticList,
    pub properties: DiagnosticList,
}

pub type FlatRuleList = ItemList<FlatRule>;

pub type FlatPatternList = ItemList<FlatPattern>;
