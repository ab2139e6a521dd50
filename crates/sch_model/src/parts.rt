//! The parts that a schema has as it is read and without its abstract parts.
//!
//! Each `node` is the element in the schema's tree.

use doc_tree::NodeId;
use sch_base::{ItemList, Text};

/// What a schema says of itself.
#[derive(Drop)]
pub struct Head {
    pub node: NodeId,
    pub schema_version: Option<Text>,
    pub default_phase: Option<Text>,
    pub title: Option<Text>,
}

/// A prefix for the expressions of the schema, and its namespace.
#[derive(Drop)]
pub struct Ns {
    pub node: NodeId,
    pub prefix: Text,
    pub uri: Text,
}

/// A variable, and the expression that gives its value.
#[derive(Drop)]
pub struct LetDecl {
    pub node: NodeId,
    pub name: Text,
    pub value: Text,
}

/// A pattern that a phase makes active.
#[derive(Drop)]
pub struct Active {
    pub node: NodeId,
    pub pattern: Text,
}

/// A choice of patterns.
#[derive(Drop)]
pub struct Phase {
    pub node: NodeId,
    pub id: Text,
    pub lets: LetDeclList,
    pub active: ActiveList,
}

/// A part of a message.
#[derive(Drop)]
pub enum Part {
    /// Characters as they are written.
    Chars(Text),
    /// The text of an expression's value.
    ValueOf { node: NodeId, select: Text },
    /// The name of the path's first node, or of the context node where there is no path.
    Name { node: NodeId, path: Option<Text> },
}

/// A message that assertions name: a diagnostic, or a property.
#[derive(Drop)]
pub struct Diagnostic {
    pub node: NodeId,
    pub id: Text,
    pub message: PartList,
}

/// An assert, or a report.
#[derive(Drop)]
pub struct Assertion {
    pub node: NodeId,
    /// Whether it is a report, which finds where its test is true.
    pub report: bool,
    pub id: Option<Text>,
    pub role: Option<Text>,
    pub flag: Option<Text>,
    pub test: Text,
    /// The expression that finds the node at which it tells what it found.
    pub subject: Option<Text>,
    /// The ids of the diagnostics that it names, in their order.
    pub diagnostics: TextList,
    /// The ids of the properties that it names, in their order.
    pub properties: TextList,
    pub message: PartList,
}

pub type TextList = ItemList<Text>;

pub type NsList = ItemList<Ns>;

pub type LetDeclList = ItemList<LetDecl>;

pub type ActiveList = ItemList<Active>;

pub type PhaseList = ItemList<Phase>;

pub type PartList = ItemList<Part>;

pub type DiagnosticList = ItemList<Diagnostic>;

pub type AssertionList = ItemList<Assertion>;
