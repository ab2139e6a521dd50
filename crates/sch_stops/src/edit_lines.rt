//! The lines between the states of a script that is followed: what came of each command and each undo.

ghost use Rattle.std.specs.Prelude.{◌≡◌};
ghost use Rattle.sch_io.specs.Wrote.{Wrote};
ghost use Rattle.sch_stops.specs.EditLines.{edit_line, no_history_line, refusal_words, refused_line, undo_line};

use doc_tree::EditRefusal;
use itoa::Buffer;
use sch_io::{Failed, Sink, write_pieces};

/// Writes the line in front of the state behind the command with the number.
#[tactic(auto, unfolding(crate::specs::EditLines::edit_line))]
pub fn write_edit_line<O: Sink>(number: u64, out: &mut O) -> Result<(), Failed>
    ensures { Wrote (O.log out.old) (O.log out.new) (edit_line number) result }
{
    let mut buffer = Buffer::new();
    let number = buffer.format(number);
    write_pieces(out, &["?edit ", number, "\n"])
}

/// Writes the line in front of the state to which the undo with the number goes back.
#[tactic(auto, unfolding(crate::specs::EditLines::undo_line))]
pub fn write_undo_line<O: Sink>(number: u64, out: &mut O) -> Result<(), Failed>
    ensures { Wrote (O.log out.old) (O.log out.new) (undo_line number) result }
{
    let mut buffer = Buffer::new();
    let number = buffer.format(number);
    write_pieces(out, &["?undo ", number, "\n"])
}

/// Writes the line of the command with the number, which is refused for the reason.
#[tactic(auto, unfolding(crate::specs::EditLines::refused_line))]
pub fn write_refused_line<O: Sink>(
    number: u64,
    reason: EditRefusal,
    out: &mut O,
) -> Result<(), Failed>
    ensures { Wrote (O.log out.old) (O.log out.new) (refused_line number reason) result }
{
    let mut buffer = Buffer::new();
    let number = buffer.format(number);
    let reason = refusal_words(reason);
    write_pieces(out, &["?refused ", number, " ", reason, "\n"])
}

/// Writes the line of the undo with the number, which is refused: no edit is left that can be undone.
pub fn write_no_history_line<O: Sink>(number: u64, out: &mut O) -> Result<(), Failed>
    ensures { Wrote (O.log out.old) (O.log out.new) (no_history_line number) result }
{
    let mut buffer = Buffer::new();
    let number = buffer.format(number);
    write_pieces(out, &["?refused ", number, " NoHistory\n"])
}

/// The name of a reason against a command.
fn refusal_words(reason: EditRefusal) -> &'static str
    ensures { result.now ≡ refusal_words reason }
{
    match reason {
        EditRefusal::NoNode => "NoNode",
        EditRefusal::WrongKind => "WrongKind",
        EditRefusal::NotInRange => "NotInRange",
        EditRefusal::RootElement => "RootElement",
        EditRefusal::TextBeside => "TextBeside",
        EditRefusal::EmptyText => "EmptyText",
        EditRefusal::NoPrefix => "NoPrefix",
        EditRefusal::XmlnsName => "XmlnsName",
        EditRefusal::NoAttribute => "NoAttribute",
        EditRefusal::TooManyNodes => "TooManyNodes",
        EditRefusal::TooDeep => "TooDeep",
        EditRefusal::TooMuchText => "TooMuchText",
        EditRefusal::IdsSpent => "IdsSpent",
        EditRefusal::TooManyPairs => "TooManyPairs",
        EditRefusal::SameAttribute => "SameAttribute",
    }
}
