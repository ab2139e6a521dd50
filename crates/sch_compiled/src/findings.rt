//! What validation found: the outcome of each node under each pattern.

ghost use Rattle.std.specs.Prelude.{◌≡◌, ◌+◌, ◌*◌, ◌<◌, ◌^◌, Some, None, IfOk, OnOk, OnErr};
ghost use Rattle.std.specs.Option.{option_copied};
ghost use Rattle.sch_compiled.specs.Findings.{outcome_at, AreTold, IsEmptyFor, Puts};
ghost use Rattle.sch_compiled.specs.inner.Marks.{mark_of};

use crate::marks::{make_room, marked_nodes};
use doc_tree::{NodeId, NodeList};
use sch_base::{ItemList, Text};
use std::alloc::{AllocError, Global};
use std::marker::Model;
use xp_values::EvalFault;

/// An assert that is false at a node, or a report that is true there.
#[derive(Drop)]
pub struct Finding {
    /// Which assertion of the rule, counted from 0.
    pub assertion: u32,
    /// The node that the finding is at: the first that the subject selects, or the context node.
    pub at: NodeId,
    /// The texts of the diagnostics that the assertion names, in their order.
    pub diagnostics: TextList,
    /// The texts of the properties that the assertion names, in their order.
    pub properties: TextList,
    /// The text of the assertion's message.
    pub message: Text,
}

pub type TextList = ItemList<Text>;

/// The findings at a node, in the order of the assertions.
pub type FindingList = ItemList<Finding>;

/// What a pattern says of a node (ISO/IEC 19757-3, clause 6): the first of its rules that the node matches fires alone.
#[derive(Drop)]
pub enum Outcome {
    /// No rule of the pattern matches the node.
    NoRule,
    /// The rule, counted from 0, fires, and finds this.
    Fired { rule: u32, findings: FindingList },
    /// The evaluation met a fault.
    Fault { kind: EvalFault },
}

/// A table of outcomes by pattern and node.
#[derive(Drop)]
pub struct Findings {
    patterns: u32,
    cells: Vec<Option<Outcome>>,
    /// The mark of each cell: 1 where a rule fired or a fault was met, else 0.
    marks: Vec<u8>,
}

impl Model for Findings {
    ghost use Rattle.std.specs.Coded.{codes};
    ghost use Rattle.sch_compiled.specs.Findings.{OutcomeTable};
    ghost use Rattle.sch_compiled.specs.inner.Cells.{table_code, shown};

    ghost Value = { OutcomeTable };

    ghost coded = { table_code (Prim.hlevel codes) };

    ghost view = { λ f. shown f.patterns f.cells.items };

    ghost use Rattle.sch_compiled.specs.inner.Marks.{IsMarked};

    ghost invariant = { λ f. IsMarked f.patterns f.cells.items f.marks.items };
}

impl Findings {
    /// A table without outcomes, for patterns counted from 0.
    pub fn new(alloc: Global, patterns: u32) -> Result<Findings, AllocError>
        ensures { IfOk result (λ table. IsEmptyFor table patterns) }
    {
        Findings::for_nodes(alloc, patterns, 0)
    }

    /// The same, with the cells of so many nodes, by their numbers, made at once.
    pub fn for_nodes(alloc: Global, patterns: u32, nodes: u32) -> Result<Findings, AllocError>
        ensures { IfOk result (λ table. IsEmptyFor table patterns) }
    {
        let count = nodes as usize * patterns as usize;
        let mut marks = Vec::new(alloc);
        make_room(&mut marks, count)?;
        let mut cells = Vec::new(alloc);
        cells.resize_with(count, || None)?;
        Ok(Findings {
            patterns,
            cells,
            marks,
        })
    }

    /// For how many patterns the table is.
    pub fn patterns(&self) -> u32
        ensures { result ≡ self.now.patterns }
    {
        self.patterns
    }

    /// Puts the outcome of the node under the pattern, in place of an old one.
    pub fn put(&mut self, p: u32, n: NodeId, o: Outcome) -> Result<(), AllocError>
        requires { p < self.old.patterns }
        ensures puts { OnOk result (Puts self.old self.new p n (Some o)) }
        ensures unchanged { OnErr result (self.new ≡ self.old) }
    {
        let place = place_of(self.patterns, p, n);
        make_room(&mut self.marks, place + 1)?;
        if place >= self.cells.len() {
            self.cells.resize_with(place + 1, || None)?;
        }
        self.marks[place] = mark_of(&o);
        self.cells[place] = Some(o);
        Ok(())
    }

    /// Takes the outcome of the node under the pattern away.
    pub fn clear(&mut self, p: u32, n: NodeId)
        requires { p < self.old.patterns }
        ensures { Puts self.old self.new p n None }
    {
        let place = place_of(self.patterns, p, n);
        if place < self.cells.len() {
            self.marks[place] = 0;
            self.cells[place] = None;
        }
    }

    /// The outcome of the node under the pattern, or None where none was put or it was cleared since.
    pub fn get(&self, p: u32, n: NodeId) -> Option<&Outcome>
        requires { p < self.now.patterns }
        ensures { option_copied result ≡ outcome_at self.now p n }
    {
        let place = place_of(self.patterns, p, n);
        self.cells.get(place)?.as_ref()
    }

    /// The nodes at which a rule fired or a fault was met, by their numbers.
    ///
    /// Looks at a byte for each node and pattern, many at a time.
    pub fn told_nodes(&self, alloc: Global) -> Result<NodeList, AllocError>
        ensures { IfOk result (AreTold self.now) }
    {
        marked_nodes(alloc, self.patterns, self.marks.as_slice())
    }
}

/// How the cell of an outcome is marked.
fn mark_of(outcome: &Outcome) -> u8
    ensures { result ≡ mark_of (Some outcome.now) }
{
    match outcome {
        Outcome::NoRule => 0,
        Outcome::Fired { .. } | Outcome::Fault { .. } => 1,
    }
}

/// Where in the table the outcome of the node under the pattern stands.
fn place_of(patterns: u32, p: u32, n: NodeId) -> usize
    ensures place { result ≡ n * patterns + p }
    ensures bounded { p < patterns → result < 2 ^ 32 * patterns }
{
    n.index() * patterns as usize + p as usize
}
