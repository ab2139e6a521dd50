//! Tables of rows, and what answers them.

ghost use Rattle.std.specs.Prelude.{◌≡◌, ◌++◌, IfOk};

use crate::texts::text_of;
use std::io;
use std::process::ExitCode;
use std::test::Fail;

/// What answers the rows of a table, one after another.
pub trait Answers {
    /// The answer to a call of that kind.
    fn answer(&mut self, kind: &str, input: &str) -> Result<String, Fail>;
}

/// Tries each row on standard input, in which a character stands for a line end: writes the rows that do not hold, and at
/// the end how many do. It stops at a line that is no row, and at a row without an answer.
pub fn hold_rows<A: Answers>(
    rt: &HostRuntime,
    line_end: char,
    answers: &mut A,
) -> Result<ExitCode, Fail> {
    let table = io::read_to_string(rt.alloc(), rt.reader())?;
    let counts = count_rows(rt, line_end, answers, table.as_str());
    drop(table);
    counts?.tell(rt)
}

/// Tries each row of a table.
fn count_rows<A: Answers>(
    rt: &HostRuntime,
    line_end: char,
    answers: &mut A,
    table: &str,
) -> Result<Counts, Fail> {
    let mut counts = Counts { rows: 0, held: 0 };
    for line in table.lines() {
        if is_row(line) {
            counts.add(told(rt, line_end, answers, line)?);
        }
    }
    Ok(counts)
}

/// How many rows were tried, and how many of them hold.
#[derive(Clone, Copy)]
struct Counts {
    rows: u64,
    held: u64,
}

impl Counts {
    /// One row more.
    fn add(&mut self, holds: bool) {
        self.rows = self.rows.saturating_add(1);
        self.held = self.held.saturating_add(u64::from(holds));
    }

    /// Writes how many rows hold; success where all do.
    fn tell(&self, rt: &HostRuntime) -> Result<ExitCode, Fail> {
        println!(rt; "{} rows hold", self.held)?;
        Ok(if self.rows == self.held {
            ExitCode::SUCCESS
        } else {
            ExitCode::FAILURE
        })
    }
}

/// Whether a line is a row, and neither empty nor a comment.
fn is_row(line: &str) -> bool {
    !line.is_empty() && !line.starts_with('#')
}

/// Whether a row holds; one without an answer is written.
fn told<A: Answers>(
    rt: &HostRuntime,
    line_end: char,
    answers: &mut A,
    line: &str,
) -> Result<bool, Fail> {
    match holds(rt, line_end, answers, line) {
        Ok(holds) => Ok(holds),
        Err(fail) => {
            let _ = println!(rt; "{line}\n  has no answer");
            Err(fail)
        }
    }
}

/// Whether a row holds; one that does not is written, with the answer that came.
fn holds<A: Answers>(
    rt: &HostRuntime,
    line_end: char,
    answers: &mut A,
    line: &str,
) -> Result<bool, Fail> {
    let (question, wanted) = parted(line, " => ")?;
    let found = answered(rt, line_end, answers, question)?;
    let holds = is_answered(rt, line_end, line, found.as_str(), wanted);
    drop(found);
    holds
}

/// Whether an answer is what a side of a row stands for; where it isn't, row and answer are written.
fn is_answered(
    rt: &HostRuntime,
    line_end: char,
    line: &str,
    found: &str,
    side: &str,
) -> Result<bool, Fail> {
    let holds = is_wanted(rt, line_end, found, side)?;
    if !holds {
        println!(rt; "{line}\n  but {found}")?;
    }
    Ok(holds)
}

/// The answer to a row's question.
fn answered<A: Answers>(
    rt: &HostRuntime,
    line_end: char,
    answers: &mut A,
    question: &str,
) -> Result<String, Fail> {
    let (kind, input) = parted(question, ": ")?;
    let input = text_of(rt.alloc(), input, line_end)?;
    let answer = answers.answer(kind, input.as_str());
    drop(input);
    answer
}

/// Whether an answer is what a side of a row stands for.
fn is_wanted(rt: &HostRuntime, line_end: char, found: &str, side: &str) -> Result<bool, Fail> {
    let wanted = text_of(rt.alloc(), side, line_end)?;
    let is_same = found == wanted.as_str();
    drop(wanted);
    Ok(is_same)
}

/// The two parts of a row, about the first mark.
pub fn parted<'l>(row: &'l str, mark: &str) -> Result<(&'l str, &'l str), Fail>
    ensures { IfOk result (λ parts. row.now ≡ parts.0.now ++ (mark.now ++ parts.1.now)) }
{
    match row.split_once(mark) {
        Some(parts) => Ok(parts),
        None => Err("a row without its mark".into()),
    }
}

/// What a table gives for a word.
pub fn named<T: Copy>(table: &[(&str, T)], word: &str) -> Result<T, Fail> {
    for (name, thing) in table {
        if *name == word {
            return Ok(*thing);
        }
    }
    Err("no such kind of rows".into())
}
