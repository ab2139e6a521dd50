//! The parts of a compiled schema, whose expressions are well typed.

use sch_base::{ItemList, Text};
use xp_typed_tree::{Typed, TypedPattern};

/// A variable of a rule, and the expression that gives its value.
#[derive(Drop)]
pub struct PlanLet {
    pub name: Text,
    pub expr: Typed,
}

/// A part of a message.
#[derive(Drop)]
pub enum PlanPart {
    /// Characters as they are written.
    Chars(Text),
    /// The text of an expression's value.
    ValueOf(Typed),
    /// The name of the first node of an expression's node-set, or of the context node where there is no expression.
    Name(Option<Typed>),
}

/// A diagnostic or a property: a message that goes with the findings of the assertions which name it.
#[derive(Drop)]
pub struct PlanDiagnostic {
    pub id: Text,
    pub message: PlanPartList,
}

/// An assert, or a report.
#[derive(Drop)]
pub struct PlanAssert {
    /// Whether it is a report, which finds where its test is true; an assert finds where its test is false.
    pub report: bool,
    pub id: Option<Text>,
    pub role: Option<Text>,
    pub flag: Option<Text>,
    /// The test as the schema writes it.
    pub test_text: Text,
    pub test: Typed,
    /// What selects the node that a finding is at; None where the rule's subject does.
    pub subject: Option<Typed>,
    /// The diagnostics that it names, in their order.
    pub diagnostics: PlanDiagnosticList,
    /// The properties that it names, in their order.
    pub properties: PlanDiagnosticList,
    pub message: PlanPartList,
}

/// A rule: the nodes that match its context, its lets in order, and its assertions in order.
///
/// The slot of a let is the number of lets in force plus its place in the rule, counted from 0.
#[derive(Drop)]
pub struct PlanRule {
    pub id: Option<Text>,
    /// The context as the schema writes it.
    pub context_text: Text,
    pub context: TypedPattern,
    /// The subject of the assertions that have none of their own.
    pub subject: Option<Typed>,
    pub role: Option<Text>,
    pub flag: Option<Text>,
    pub lets: PlanLetList,
    pub assertions: PlanAssertList,
}

/// A prefix of the schema, and its namespace.
#[derive(Drop)]
pub struct PlanNs {
    pub prefix: Text,
    pub uri: Text,
}

/// A variable that is in force whatever rule fires: of the schema, of the phase, or of an active pattern.
///
/// Its slot is its place among the lets in force, counted from 0.
#[derive(Drop)]
pub struct LetInForce {
    /// Which active pattern it belongs to, counted from 0; None for a let of the schema or the phase.
    pub pattern: Option<u32>,
    pub name: Text,
    pub expr: Typed,
}

/// An active pattern: of its rules each node fires the first that matches.
#[derive(Drop)]
pub struct PlanPattern {
    pub id: Option<Text>,
    pub rules: PlanRuleList,
}

pub type PlanLetList = ItemList<PlanLet>;

pub type PlanPartList = ItemList<PlanPart>;

pub type PlanDiagnosticList = ItemList<PlanDiagnostic>;

pub type PlanAssertList = ItemList<PlanAssert>;

pub type PlanRuleList = ItemList<PlanRule>;

pub type PlanNsList = ItemList<PlanNs>;

pub type LetInForceList = ItemList<LetInForce>;
