//! Schemas as they are read.

ghost use Rattle.std.specs.Prelude.{◌≡◌};
ghost use Rattle.std.specs.Option.{option_copied, option_to_list};
ghost use Rattle.sch_model.specs.Items.{extended_in};

use crate::parts::{Assertion, DiagnosticList, Head, LetDecl, LetDeclList, NsList, PhaseList};
use doc_tree::NodeId;
use sch_base::{ItemList, Text};

/// A parameter of an abstract pattern, and the text that stands for it.
#[derive(Drop)]
pub struct Param {
    pub node: NodeId,
    pub name: Text,
    pub value: Text,
}

/// What a rule holds, in the order of the schema.
#[derive(Drop)]
pub enum RawItem {
    Let(LetDecl),
    Assertion(Assertion),
    /// The lets and assertions of an abstract rule stand here.
    Extends { node: NodeId, rule: Text },
}

impl RawItem {
    /// The name of the rule that it extends.
    pub fn extended(&self) -> Option<&str>
        ensures { option_to_list (option_copied result) ≡ extended_in self.now }
    {
        match self {
            RawItem::Extends { rule, .. } => Some(rule.as_str()),
            RawItem::Let(_) | RawItem::Assertion(_) => None,
        }
    }
}

/// A rule; an abstract one has an id and no context.
#[derive(Drop)]
pub struct RawRule {
    pub node: NodeId,
    pub is_abstract: bool,
    pub id: Option<Text>,
    pub context: Option<Text>,
    /// The subject of its assertions that have none of their own.
    pub subject: Option<Text>,
    pub role: Option<Text>,
    pub flag: Option<Text>,
    pub items: RawItemList,
}

/// A pattern, which may be abstract, or an instance of an abstract one.
#[derive(Drop)]
pub struct RawPattern {
    pub node: NodeId,
    pub is_abstract: bool,
    pub id: Option<Text>,
    /// The id of the abstract pattern of which it is an instance.
    pub is_a: Option<Text>,
    pub params: ParamList,
    pub lets: LetDeclList,
    pub rules: RawRuleList,
}

/// A schema as it is read.
#[derive(Drop)]
pub struct RawSchema {
    pub head: Head,
    pub ns: NsList,
    pub lets: LetDeclList,
    pub phases: PhaseList,
    pub patterns: RawPatternList,
    pub diagnostics: DiagnosticList,
    pub properties: DiagnosticList,
}

pub type ParamList = ItemList<Param>;

pub type RawItemList = ItemList<RawItem>;

pub type RawRuleList = ItemList<RawRule>;

pub type RawPatternList = ItemList<RawPattern>;
