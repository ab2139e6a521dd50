//! Examples of single nodes under a schema's patterns: which rule fires, what it finds, and how many steps that takes. Rows set the
//! schema and the document; others name a pattern and a node, each by its place from 0, the nodes in document order.

ghost use Rattle.std.specs.Prelude.{◌≡◌, ◌<◌, true, length};
ghost use Rattle.doc_tree.specs.Table.{is_live};
ghost use Rattle.sch_compiled.specs.Soundness.{IsCounted, IsSound};

use crate::plans::{plan_of, tree_of};
use doc_tree::{NodeId, Tree};
use rule_run::{Lets, run_pair};
use sch_compiled::{FindingList, Outcome, Plan};
use std::alloc::Global;
use std::marker::Brand;
use std::sync::ledger::{Blank, Ledger};
use std::test::Fail;
use test_rows::{Answers, copy, first_word, named, number};
use xp_outcome::Steps;

/// The schema and the document that the rows set last.
#[derive(Drop)]
pub struct Pairs {
    alloc: Global,
    schema: String,
    document: String,
}

/// What a row sets or asks.
#[derive(Clone, Copy)]
enum Question {
    Schema,
    Document,
    At,
}

/// The questions by the kinds of rows.
const QUESTIONS: [(&str, Question); 3] = [
    ("schema", Question::Schema),
    ("document", Question::Document),
    ("at", Question::At),
];

impl Answers for Pairs {
    fn answer(&mut self, kind: &str, input: &str) -> Result<String, Fail> {
        match named(&QUESTIONS, kind)? {
            Question::Schema => self.set_schema(input),
            Question::Document => self.set_document(input),
            Question::At => self.told_at(input),
        }
    }
}

impl Pairs {
    /// No schema and no document.
    pub fn new(alloc: Global) -> Pairs {
        Pairs {
            alloc,
            schema: String::new(alloc),
            document: String::new(alloc),
        }
    }

    /// Sets the schema; nothing is told of it.
    fn set_schema(&mut self, text: &str) -> Result<String, Fail> {
        self.schema = copy(self.alloc, text)?;
        Ok(String::new(self.alloc))
    }

    /// Sets the document; nothing is told of it.
    fn set_document(&mut self, text: &str) -> Result<String, Fail> {
        self.document = copy(self.alloc, text)?;
        Ok(String::new(self.alloc))
    }

    /// What the pattern and the node of two places give.
    fn told_at(&self, places: &str) -> Result<String, Fail> {
        let (pattern, node) = first_word(places);
        let plan = plan_of(self.alloc, self.schema.as_str())?;
        let told = told_under(self.alloc, &plan, self.document.as_str(), pattern, node);
        drop(plan);
        told
    }
}

/// What a pattern and a node of a document give.
fn told_under(
    alloc: Global,
    plan: &Plan,
    document: &str,
    pattern: &str,
    node: &str,
) -> Result<String, Fail>
    requires { IsSound plan.now }
{
    let tree = tree_of(alloc, document)?;
    let told = told_in(alloc, plan, &tree, pattern, node);
    drop(tree);
    told
}

/// What a pattern and a node of a tree give.
fn told_in(
    alloc: Global,
    plan: &Plan,
    tree: &Tree,
    pattern: &str,
    node: &str,
) -> Result<String, Fail>
    requires { IsCounted plan.now }
{
    let p = u32::try_from(number(pattern)?)?;
    let node = node_at(alloc, tree, number(node)?)?;
    if p >= plan.pattern_count() {
        return Err("there is no such pattern".into());
    }
    if !tree.contains(node) {
        return Err("the node is gone".into());
    }
    told_of_pair::<Brand>(alloc, plan, tree, p, node, Blank::new(1))
}

/// The node at a place in document order.
fn node_at(alloc: Global, tree: &Tree, place: usize) -> Result<NodeId, Fail> {
    let nodes = tree.nodes_in_order(alloc)?;
    let node = nodes.as_slice().get(place);
    Ok(*node.ok_or("no node has that place")?)
}

/// What a pattern and a live node give, and the steps by a count over the ledger of the blank.
fn told_of_pair<L: Ledger>(
    alloc: Global,
    plan: &Plan,
    tree: &Tree,
    p: u32,
    n: NodeId,
    blank: Blank,
) -> Result<String, Fail>
    requires counted { IsCounted plan.now }
    requires active { p < length plan.now.patterns }
    requires live { is_live tree.now.nodes n ≡ true }
    requires name { blank.name ≡ L.name }
    requires parts { blank.parts ≡ L.parts }
    requires some { 0 < L.parts }
{
    let mut lets = Lets::new(alloc);
    let mut steps: Steps<L> = Steps::start(blank);
    let kept = run_pair(alloc, plan, tree, p, n, &mut lets, &mut steps)?;
    let told = told_outcome(alloc, &kept.outcome, steps.taken());
    drop(kept);
    told
}

/// An outcome, and the steps that were taken for it.
fn told_outcome(alloc: Global, outcome: &Outcome, steps: u64) -> Result<String, Fail> {
    match outcome {
        Outcome::NoRule => Ok(format!(in alloc; "no rule, {steps} steps")?),
        Outcome::Fired { rule, findings } => told_findings(alloc, *rule, findings, steps),
        Outcome::Fault { kind } => Ok(format!(in alloc; "fault {kind:?}")?),
    }
}

/// A rule that fires, its findings, and the steps that were taken.
fn told_findings(
    alloc: Global,
    rule: u32,
    findings: &FindingList,
    steps: u64,
) -> Result<String, Fail> {
    let mut text = format!(in alloc; "rule {rule}, {steps} steps")?;
    for finding in findings.as_slice() {
        write!(
            text,
            ", finding {}: {}",
            finding.assertion,
            finding.message.as_str()
        )?;
    }
    Ok(text)
}
