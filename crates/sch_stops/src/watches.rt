//! Why a file of watched expressions is refused, and the line that says so.

ghost use Rattle.std.specs.Prelude.{◌≡◌, ◌++◌, codes};
ghost use Rattle.sch_io.specs.Wrote.{Wrote};
ghost use Rattle.sch_stops.specs.Watches.{kind_line, offset_text, thing_line, type_line, watch_fault_line, watch_place, watches_refused_line};

use itoa::Buffer;
use sch_io::{Failed, Sink, write_all, write_pieces};
use watch_lines::{WatchFault, WatchKind};
use xp_types::{TypeFault, TypeKind};

/// Why a file of watched expressions is refused.
#[derive(Drop)]
pub enum WatchesRefusal {
    /// It has more bytes than a file may have.
    TooLarge,
    /// It has this fault first.
    Faulted(WatchFault),
}

impl WatchesRefusal {
    /// Writes the line of a file of watched expressions that is refused for it.
    pub(crate) fn tell<E: Sink>(&self, err: &mut E) -> Result<(), Failed>
        ensures { Wrote (E.log err.old) (E.log err.new) (watches_refused_line self.now) result }
    {
        match self {
            WatchesRefusal::TooLarge => write_all(err, b"sch: watch refused: TooLarge\n"),
            WatchesRefusal::Faulted(fault) => tell_fault(fault, err),
        }
    }
}

/// Writes the line of a file with a fault.
#[tactic(auto, using(sch_io::proofs::Writes::writes))]
fn tell_fault<E: Sink>(fault: &WatchFault, err: &mut E) -> Result<(), Failed>
    ensures { Wrote (E.log err.old) (E.log err.new) (watch_fault_line fault.now) result }
{
    write_watch_place(fault.line, err)?;
    tell_kind(&fault.kind, err)
}

/// Writes in which line the fault is.
#[tactic(auto, unfolding(crate::specs::Watches::watch_place))]
fn write_watch_place<E: Sink>(line: u64, err: &mut E) -> Result<(), Failed>
    ensures { Wrote (E.log err.old) (E.log err.new) (watch_place line) result }
{
    let mut buffer = Buffer::new();
    let line = buffer.format(line);
    write_pieces(err, &["sch: watch refused: line ", line, " "])
}

/// Writes what the fault is, and the end of the line.
fn tell_kind<E: Sink>(kind: &WatchKind, err: &mut E) -> Result<(), Failed>
    ensures { Wrote (E.log err.old) (E.log err.new) (kind_line kind.now) result }
{
    match kind {
        WatchKind::BadChar => write_all(err, b"BadChar\n"),
        WatchKind::BadWord => write_all(err, b"BadWord\n"),
        WatchKind::BadPrefix => write_all(err, b"BadPrefix\n"),
        WatchKind::TooLong => write_all(err, b"TooLong\n"),
        WatchKind::TooMany => write_all(err, b"TooMany\n"),
        WatchKind::Syntax(fault) => tell_offset(fault.kind.name(), fault.offset, err),
        WatchKind::Types(fault) => tell_type(fault, err),
    }
}

/// Writes the kind of a fault of an expression, where it stands, and the end of the line.
#[tactic(auto, using(sch_io::proofs::Writes::writes))]
fn tell_offset<E: Sink>(kind: &str, offset: u32, err: &mut E) -> Result<(), Failed>
    ensures { Wrote (E.log err.old) (E.log err.new) (offset_text kind.now offset ++ codes "\n") result }
{
    write_offset(kind, offset, err)?;
    write_all(err, b"\n")
}

/// Writes a fault of types, what is refused where that is the fault, and the end of the line.
#[tactic(auto, using(sch_io::proofs::Writes::writes))]
fn tell_type<E: Sink>(fault: &TypeFault, err: &mut E) -> Result<(), Failed>
    ensures { Wrote (E.log err.old) (E.log err.new) (type_line fault.now) result }
{
    write_offset(fault.kind.name(), fault.offset, err)?;
    tell_thing(&fault.kind, err)
}

/// Writes the kind of a fault of an expression, and where it stands.
#[tactic(auto, unfolding(crate::specs::Watches::offset_text))]
fn write_offset<E: Sink>(kind: &str, offset: u32, err: &mut E) -> Result<(), Failed>
    ensures { Wrote (E.log err.old) (E.log err.new) (offset_text kind.now offset) result }
{
    let mut buffer = Buffer::new();
    let offset = buffer.format(offset);
    write_pieces(err, &[kind, " ", offset])
}

/// Writes what is refused, where that is the fault, and the end of the line.
fn tell_thing<E: Sink>(kind: &TypeKind, err: &mut E) -> Result<(), Failed>
    ensures { Wrote (E.log err.old) (E.log err.new) (thing_line kind.now) result }
{
    match kind {
        TypeKind::Refused { thing } => write_pieces(err, &[" ", thing.as_str(), "\n"]),
        TypeKind::UnknownFunction
        | TypeKind::Arity
        | TypeKind::NodeSetWanted
        | TypeKind::UnknownVariable
        | TypeKind::UnknownPrefix
        | TypeKind::NumberTooLarge => write_all(err, b"\n"),
    }
}
