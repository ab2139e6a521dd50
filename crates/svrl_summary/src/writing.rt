//! The lines of a summary.

ghost use Rattle.std.specs.Prelude.{◌≡◌, ◌++◌, ◌≤◌, ◌<◌, ◌^◌, codes, length, suc};
ghost use Rattle.std.specs.List.{flat_map};
ghost use Rattle.pyx_core.specs.Escapes.{escaped};
ghost use Rattle.sch_io.specs.Wrote.{Wrote};
ghost use Rattle.svrl_summary.specs.Lines.{id_text, label_line, lines_of, numbered, pattern_line, pattern_lines, tally_text, whole_line};

use crate::summary::{LabelCount, LabelCountList, PatternCount, PatternCountList, Summary};
use crate::tally::Tally;
use itoa::Buffer;
use pyx_write::write_line_rest;
use sch_base::Text;
use sch_io::{Failed, Sink, write_all, write_pieces};

/// Writes the lines of what was counted of a report. Takes no memory; after an error a front of them was written.
#[tactic(auto, using(sch_io::proofs::Writes::writes))]
pub fn write_summary<O: Sink>(summary: &Summary, out: &mut O) -> Result<(), Failed>
    ensures { Wrote (O.log out.old) (O.log out.new) (lines_of summary.now) result }
{
    write_whole(out, summary.patterns.len(), summary.whole)?;
    write_held(out, summary)
}

/// Writes the lines of patterns and labels.
#[tactic(auto, using(sch_io::proofs::Writes::writes))]
fn write_held<O: Sink>(out: &mut O, summary: &Summary) -> Result<(), Failed>
    ensures { Wrote (O.log out.old) (O.log out.new) (pattern_lines 1 summary.now.patterns
        ++ (flat_map (label_line (codes "role ")) summary.now.roles ++ flat_map (label_line (codes "flag ")) summary.now.flags)) result }
{
    write_patterns(out, &summary.patterns)?;
    write_all_labels(out, summary)
}

/// Writes the lines of roles and flags.
#[tactic(auto, using(sch_io::proofs::Writes::writes))]
fn write_all_labels<O: Sink>(out: &mut O, summary: &Summary) -> Result<(), Failed>
    ensures { Wrote (O.log out.old) (O.log out.new)
        (flat_map (label_line (codes "role ")) summary.now.roles ++ flat_map (label_line (codes "flag ")) summary.now.flags) result }
{
    write_labels(out, "role ", &summary.roles)?;
    write_labels(out, "flag ", &summary.flags)
}

/// Writes the line of the whole report.
#[tactic(auto, using(sch_io::proofs::Writes::writes))]
fn write_whole<O: Sink>(out: &mut O, patterns: usize, tally: Tally) -> Result<(), Failed>
    ensures { Wrote (O.log out.old) (O.log out.new) (whole_line patterns tally) result }
{
    write_numbered(out, "patterns ", patterns as u64)?;
    write_tally_line(out, tally)
}

/// Writes a tally, and the end of the line.
#[tactic(auto, using(sch_io::proofs::Writes::writes))]
fn write_tally_line<O: Sink>(out: &mut O, tally: Tally) -> Result<(), Failed>
    ensures { Wrote (O.log out.old) (O.log out.new) (tally_text tally ++ codes "\n") result }
{
    write_tally(out, tally)?;
    write_all(out, b"\n")
}

/// Writes a word and a number.
#[tactic(auto, unfolding(crate::specs::Lines::numbered))]
fn write_numbered<O: Sink>(out: &mut O, word: &str, number: u64) -> Result<(), Failed>
    ensures { Wrote (O.log out.old) (O.log out.new) (numbered word.now number) result }
{
    let mut buffer = Buffer::new();
    let number = buffer.format(number);
    write_pieces(out, &[word, number])
}

/// Writes what a line tells of fired rules, asserts and reports.
#[tactic(auto, unfolding(crate::specs::Lines::tally_text))]
fn write_tally<O: Sink>(out: &mut O, tally: Tally) -> Result<(), Failed>
    ensures { Wrote (O.log out.old) (O.log out.new) (tally_text tally) result }
{
    let mut fired = Buffer::new();
    let fired = fired.format(tally.fired);
    let mut asserts = Buffer::new();
    let asserts = asserts.format(tally.asserts);
    let mut reports = Buffer::new();
    let reports = reports.format(tally.reports);
    write_pieces(
        out,
        &[" fired ", fired, " asserts ", asserts, " reports ", reports],
    )
}

/// Writes the lines of patterns, which are numbered from 1.
fn write_patterns<O: Sink>(out: &mut O, patterns: &PatternCountList) -> Result<(), Failed>
    ensures { Wrote (O.log out.old) (O.log out.new) (pattern_lines 1 patterns.now) result }
{
    let mut number = 0;
    for pattern in patterns.as_slice() {
        number += 1;
        write_pattern(out, number, pattern)?;
    }
    Ok(())
}

/// Writes the line of the pattern with a number.
#[tactic(auto, using(sch_io::proofs::Writes::writes))]
fn write_pattern<O: Sink>(out: &mut O, number: u64, pattern: &PatternCount) -> Result<(), Failed>
    ensures { Wrote (O.log out.old) (O.log out.new) (pattern_line number pattern.now) result }
{
    write_numbered(out, "pattern ", number)?;
    write_pattern_rest(out, pattern)
}

/// Writes the rest of a pattern's line.
#[tactic(auto, using(sch_io::proofs::Writes::writes))]
fn write_pattern_rest<O: Sink>(out: &mut O, pattern: &PatternCount) -> Result<(), Failed>
    ensures { Wrote (O.log out.old) (O.log out.new) (tally_text pattern.now.tally ++ id_text pattern.now.id) result }
{
    write_tally(out, pattern.tally)?;
    write_id(out, &pattern.id)
}

/// Writes the end of a pattern's line: its id where it has one.
fn write_id<O: Sink>(out: &mut O, id: &Option<Text>) -> Result<(), Failed>
    ensures { Wrote (O.log out.old) (O.log out.new) (id_text id.now) result }
{
    match id {
        Some(id) => write_behind(out, b" id ", id),
        None => write_all(out, b"\n"),
    }
}

/// Writes the lines of labels, behind the word for their kind.
fn write_labels<O: Sink>(out: &mut O, word: &str, labels: &LabelCountList) -> Result<(), Failed>
    ensures { Wrote (O.log out.old) (O.log out.new) (flat_map (label_line word.now) labels.now) result }
{
    for counted in labels.as_slice() {
        write_label(out, word, counted)?;
    }
    Ok(())
}

/// Writes the line of a label.
#[tactic(auto, using(sch_io::proofs::Writes::writes))]
fn write_label<O: Sink>(out: &mut O, word: &str, counted: &LabelCount) -> Result<(), Failed>
    ensures { Wrote (O.log out.old) (O.log out.new) (label_line word.now counted.now) result }
{
    write_numbered(out, word, counted.count)?;
    write_behind(out, b" ", &counted.label)
}

/// Writes the end of a line: a text behind something, with the escapes of PYX.
#[tactic(auto, using(sch_io::proofs::Writes::writes))]
fn write_behind<O: Sink>(out: &mut O, before: &[u8], text: &Text) -> Result<(), Failed>
    ensures { Wrote (O.log out.old) (O.log out.new) (before.now ++ (escaped text.now ++ codes "\n")) result }
{
    write_all(out, before)?;
    write_line_rest(out, text.as_str())
}
