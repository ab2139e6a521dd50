//! Examples of what an evaluation notes down, and of values that no expression reaches.

use crate::slots::{SlotTable, slot_of};
use crate::values::{are_same, joined};
use doc_tree::{Cell, NodeId};
use std::alloc::Global;
use std::test::Fail;
use test_rows::{Answers, copy, first_word, named, number, parts, shown};
use xp_outcome::Recorder;

/// What answers the rows: calls of a recorder and of slots, and cells of one node.
#[derive(Drop)]
pub struct Records {
    alloc: Global,
    node: NodeId,
    reads: Recorder,
    slots: SlotTable,
}

/// What a row asks.
#[derive(Clone, Copy)]
enum Question {
    Recorder,
    Slots,
    Joined,
    Same,
}

/// The questions by the kinds of rows.
const QUESTIONS: [(&str, Question); 4] = [
    ("recorder", Question::Recorder),
    ("slots", Question::Slots),
    ("joined", Question::Joined),
    ("same", Question::Same),
];

/// A call of the recorder, or the cells that it adds.
#[derive(Clone, Copy)]
enum Call {
    Read,
    Few,
    CutLets,
    Settle,
    Clear,
    AddLet,
    AddShape,
    AddText,
    AddKids,
    AddTurns,
}

/// The calls of the recorder by their words.
const CALLS: [(&str, Call); 10] = [
    ("read", Call::Read),
    ("few", Call::Few),
    ("cut", Call::CutLets),
    ("settle", Call::Settle),
    ("clear", Call::Clear),
    ("let", Call::AddLet),
    ("shape", Call::AddShape),
    ("text", Call::AddText),
    ("kids", Call::AddKids),
    ("turns", Call::AddTurns),
];

impl Answers for Records {
    fn answer(&mut self, kind: &str, input: &str) -> Result<String, Fail> {
        let (first, second) = first_word(input);
        match named(&QUESTIONS, kind)? {
            Question::Recorder => self.recorder_call(first, second),
            Question::Slots => self.slots.answer(first, second),
            Question::Joined => joined(self.alloc, first, second),
            Question::Same => are_same(self.alloc, first, second),
        }
    }
}

impl Records {
    /// Nothing noted down, and a node whose cells are read.
    pub fn new(alloc: Global, node: NodeId) -> Records {
        Records {
            alloc,
            node,
            reads: Recorder::new(alloc),
            slots: SlotTable::new(alloc),
        }
    }

    /// What a call of the recorder comes to.
    fn recorder_call(&mut self, word: &str, rest: &str) -> Result<String, Fail> {
        let (shape, kids) = (Cell::Shape(self.node), Cell::Kids(self.node));
        match named(&CALLS, word)? {
            Call::Read => self.told_reads(),
            Call::Few => self.told_few(rest),
            Call::CutLets => self.cut_lets(rest),
            Call::Settle => self.settle(),
            Call::Clear => self.clear(),
            Call::AddLet => self.add_let(rest),
            Call::AddShape => self.add(&[shape], "1"),
            Call::AddText => self.add(&[Cell::Text(self.node)], "1"),
            Call::AddKids => self.add(&[kids], rest),
            Call::AddTurns => self.add(&[shape, kids], rest),
        }
    }

    /// What a call without a value comes to.
    fn done(&self) -> Result<String, Fail> {
        copy(self.alloc, "done")
    }

    /// The cells and the slots that the recorder holds.
    fn told_reads(&self) -> Result<String, Fail> {
        parts(self.alloc, &(self.reads.cells(), self.reads.lets()))
    }

    /// Whether the recorder holds at most so many cells, and so many slots.
    fn told_few(&self, count: &str) -> Result<String, Fail> {
        let count = number(count)?;
        let are_few = self.reads.cells().len() <= count && self.reads.lets().len() <= count;
        shown(self.alloc, &are_few)
    }

    /// Forgets the slots from one on.
    fn cut_lets(&mut self, slot: &str) -> Result<String, Fail> {
        self.reads.cut_lets(slot_of(slot)?);
        self.done()
    }

    /// Keeps what was read.
    fn settle(&mut self) -> Result<String, Fail> {
        self.reads.settle();
        self.done()
    }

    /// Forgets what was read.
    fn clear(&mut self) -> Result<String, Fail> {
        self.reads.clear();
        self.done()
    }

    /// Adds cells, one after another, so many times.
    fn add(&mut self, cells: &[Cell], count: &str) -> Result<String, Fail> {
        for _ in 0..number(count)? {
            for cell in cells {
                self.reads.add(*cell)?;
            }
        }
        self.done()
    }

    /// Adds a slot so many times.
    fn add_let(&mut self, call: &str) -> Result<String, Fail> {
        let (slot, count) = first_word(call);
        let slot = slot_of(slot)?;
        for _ in 0..number(count)? {
            self.reads.add_let(slot)?;
        }
        self.done()
    }
}
