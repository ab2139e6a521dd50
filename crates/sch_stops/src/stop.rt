//! What stops a run before its output is whole, and what is told of it.

ghost use Rattle.std.specs.Prelude.{◌≡◌, ◌++◌, codes};
ghost use Rattle.pyx_core.specs.Escapes.{escaped};
ghost use Rattle.sch_io.specs.Wrote.{Wrote};
ghost use Rattle.sch_stops.specs.declared.stop.Stop.TheVariants as stops;
ghost use Rattle.sch_stops.specs.Stops.{line_of, of_script, status_of};

use crate::refusal::{DocumentRefusal, SchemaRefusal, ScriptRefusal};
use edit_script::ScriptError;
use pyx_write::write_line_rest;
use sch_base::Text;
use sch_io::{Failed, Sink, write_all};
use sch_words::Status;
use std::alloc::AllocError;

/// What stops a run before its output is whole.
#[derive(Drop)]
pub enum Stop {
    /// The words are not accepted.
    Usage,
    /// The schema is refused.
    SchemaRefused(SchemaRefusal),
    /// The document is refused.
    DocumentRefused(DocumentRefusal),
    /// The script of edits is refused.
    ScriptRefused(ScriptRefusal),
    /// There is no file of that name.
    Missing { name: Text },
    /// The file of that name was not read whole.
    ReadFault { name: Text },
    /// The output was not written whole.
    WriteFault,
    /// Memory ran out.
    Memory,
}

impl From<AllocError> for Stop {
    ghost from_gives = { λ _ stop. stop ≡ stops.Memory };

    fn from(_refused: AllocError) -> Self {
        Stop::Memory
    }
}

impl From<Failed> for Stop {
    ghost from_gives = { λ _ stop. stop ≡ stops.WriteFault };

    fn from(_failed: Failed) -> Self {
        Stop::WriteFault
    }
}

impl From<ScriptError> for Stop {
    ghost from_gives = { λ error stop. stop ≡ of_script error };

    fn from(error: ScriptError) -> Self {
        match error {
            ScriptError::Fault(fault) => Stop::ScriptRefused(ScriptRefusal::Faulted(fault)),
            ScriptError::Memory => Stop::Memory,
        }
    }
}

impl Stop {
    /// The status of a run that ends so.
    pub fn status(&self) -> Status
        ensures { result ≡ status_of self.now }
    {
        match self {
            Stop::Usage => Status::Usage,
            Stop::SchemaRefused(_) => Status::SchemaRefused,
            Stop::DocumentRefused(_) => Status::DocumentRefused,
            Stop::ScriptRefused(_) => Status::ScriptRefused,
            Stop::Missing { .. } => Status::Missing,
            Stop::ReadFault { .. } => Status::ReadFault,
            Stop::WriteFault => Status::WriteFault,
            Stop::Memory => Status::Memory,
        }
    }

    /// Writes its line.
    pub fn tell<E: Sink>(&self, err: &mut E) -> Result<(), Failed>
        ensures { Wrote (E.log err.old) (E.log err.new) (line_of self.now) result }
    {
        match self {
            Stop::Usage => write_all(err, b"sch: usage\n"),
            Stop::SchemaRefused(refusal) => refusal.tell(err),
            Stop::DocumentRefused(refusal) => refusal.tell(err),
            Stop::ScriptRefused(refusal) => refusal.tell(err),
            Stop::Missing { name } => write_named(err, b"sch: missing: ", name),
            Stop::ReadFault { name } => write_named(err, b"sch: read fault: ", name),
            Stop::WriteFault => write_all(err, b"sch: write fault\n"),
            Stop::Memory => write_all(err, b"sch: out of memory\n"),
        }
    }
}

/// Writes a line that ends with a file's name, which has the escapes of PYX.
#[tactic(auto, using(sch_io::proofs::Writes::writes))]
fn write_named<E: Sink>(err: &mut E, text: &[u8], name: &Text) -> Result<(), Failed>
    ensures { Wrote (E.log err.old) (E.log err.new) (text.now ++ (escaped name.now ++ codes "\n")) result }
{
    write_all(err, text)?;
    write_line_rest(err, name.as_str())
}
