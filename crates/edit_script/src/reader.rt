//! The reader of a script, command by command.

ghost use Rattle.std.specs.Prelude.{◌≡◌, ◌≤◌, ◌+◌, true, false, suc, length, Ok, IfOk, IfErr, IfNone, IfSome};
ghost use Rattle.sch_base.specs.Lists.{is_nil};
ghost use Rattle.edit_script.specs.CommandLine.{command_line};
ghost use Rattle.edit_script.specs.declared.command.Said.TheVariants.{Opening};
ghost use Rattle.edit_script.specs.Script.{Takes, at_start, left_by, nothing, onto, script_left, stops};
ghost use Rattle.edit_script.specs.Undos.{behind_undo};
ghost use Rattle.edit_script.specs.WellFormed.{WellFormedCommand};
ghost use Rattle.edit_script.specs.declared.limits.TheConstants.{MAX_SCRIPT_BYTES};
ghost use Rattle.edit_script.specs.Faults.{IfFault};
ghost use Rattle.edit_script.specs.inner.Reader.{Breaks, IsTaken};

use crate::command::{Command, Path, Said};
use crate::command_line::command_line;
use crate::lines::{Numbered, is_undo, next_line};
use crate::payload::read_insertion;
use crate::{ScriptError, ScriptFault};
use std::alloc::Global;
use std::marker::Model;

/// A reader of a script, seen by contracts as the lines that are left, the number of the first, and whether their fault was answered.
///
/// The time of all calls together grows with the bytes, asking again after a fault apart: the line with the fault, or the
/// insert whose fragment has it, is then read again.
#[derive(Drop)]
pub struct ScriptReader<'a> {
    alloc: Global,
    /// The number of the first line that is left, counted from 1.
    number: u64,
    /// The lines that are left.
    rest: &'a [u8],
    /// Whether the fault of these lines was answered.
    faulted: bool,
}

impl<'a> Model for ScriptReader<'a> {
    ghost use Rattle.std.specs.Prelude.{◌≤◌, length};
    ghost use Rattle.edit_script.specs.Script.{LinesLeft, left_from};
    ghost use Rattle.edit_script.specs.inner.Reader.{IsWithin};

    ghost Value = { LinesLeft };

    ghost view = { λ r. left_from r.number r.rest.now r.faulted };

    ghost invariant = { λ r. IsWithin r.number r.rest.now };
}

impl<'a> ScriptReader<'a> {
    /// A reader before the first command of a script.
    pub fn new(alloc: Global, bytes: &'a [u8]) -> ScriptReader<'a>
        requires { length bytes.now ≤ MAX_SCRIPT_BYTES }
        ensures { result ≡ at_start bytes.now }
    {
        ScriptReader {
            alloc,
            number: 1,
            rest: bytes,
            faulted: false,
        }
    }

    /// The next command; None exactly at the end of the script.
    ///
    /// After a fault the reader answers it again, and after want of memory it stands in front of the command.
    pub fn next(&mut self) -> Result<Option<Command>, ScriptError>
        ensures command { IfOk result (λ next. IfSome next (λ command. script_left self.old ≡ onto command (script_left self.new))) }
        // and the reader stands behind its lines
        ensures taken { IfOk result (λ next. IfSome next (λ command. Takes command self.old self.new)) }
        ensures formed { IfOk result (λ next. IfSome next WellFormedCommand) }
        ensures end { IfOk result (λ next. IfNone next ((script_left self.old ≡ nothing) × (self.new ≡ self.old))) }
        ensures fault { IfErr result (IfFault (λ found. script_left self.old ≡ stops found)) }
        ensures stands { IfErr result (λ error. self.new ≡ left_by error self.old) }
    {
        let Some(next) = next_line(self.number, self.rest) else {
            return Ok(None);
        };
        match read_command(self.alloc, next) {
            Ok(taken) => {
                self.number = taken.number;
                self.rest = taken.rest;
                Ok(Some(taken.command))
            }
            Err(ScriptError::Fault(found)) => {
                self.faulted = true;
                Err(ScriptError::Fault(found))
            }
            Err(ScriptError::Memory) => Err(ScriptError::Memory),
        }
    }

    /// Takes the line `undo`, where it is the next that isn't empty, and answers whether it did: for scripts in which edits may be
    /// taken back. Asked before each `next`, which finds no command in such a line.
    ///
    /// A reader that has answered a fault takes none. Takes no memory; costs the empty lines in front.
    pub fn take_undo(&mut self) -> bool
        ensures taken { result ≡ true → behind_undo self.old ≡ Some self.new }
        ensures none { result ≡ false → behind_undo self.old ≡ None }
        ensures unchanged { result ≡ false → self.new ≡ self.old }
    {
        if self.faulted {
            return false;
        }
        let Some(next) = next_line(self.number, self.rest) else {
            return false;
        };
        if !is_undo(next.line) {
            return false;
        }
        self.number = next.number + 1;
        self.rest = next.rest;
        true
    }
}

/// A command, and where the script goes on.
#[derive(Drop)]
struct Taken<'a> {
    command: Command,
    /// The number of the line behind the command.
    number: u64,
    rest: &'a [u8],
}

/// The command in a line, with the fragment behind an insert.
fn read_command(alloc: Global, next: Numbered) -> Result<Taken, ScriptError>
    requires filled { is_nil next.line.now ≡ false }
    requires some { 1 ≤ next.number }
    requires few { next.number + length next.rest.now ≤ suc MAX_SCRIPT_BYTES }
    ensures taken { IfOk result (IsTaken next.entry.number next.entry.line.now next.entry.rest.now) }
    ensures formed { IfOk result (λ taken. WellFormedCommand taken.command) }
    ensures fault { IfErr result (IfFault (Breaks next.entry.number next.entry.line.now next.entry.rest.now)) }
{
    match command_line(alloc, next.line)? {
        Ok(Said::Whole { command }) => Ok(Taken {
            command,
            number: next.number + 1,
            rest: next.rest,
        }),
        Ok(Said::Opening { path, at }) => read_opened(alloc, next, path, at),
        Err(kind) => Err(ScriptError::Fault(ScriptFault {
            line: next.number,
            kind,
        })),
    }
}

/// The insert that a line opens, with the fragment behind it.
fn read_opened(alloc: Global, next: Numbered, path: Path, at: u32) -> Result<Taken, ScriptError>
    requires filled { is_nil next.line.now ≡ false }
    requires opens { command_line next.line.now ≡ Ok (Opening path at) }
    requires some { 1 ≤ next.number }
    requires few { next.number + length next.rest.now ≤ suc MAX_SCRIPT_BYTES }
    ensures taken { IfOk result (IsTaken next.entry.number next.entry.line.now next.entry.rest.now) }
    ensures formed { IfOk result (λ taken. WellFormedCommand taken.command) }
    ensures fault { IfErr result (IfFault (Breaks next.entry.number next.entry.line.now next.entry.rest.now)) }
{
    match read_insertion(alloc, next.number, next.rest) {
        Ok(done) => Ok(Taken {
            command: Command::Insert {
                path,
                at,
                piece: done.piece,
            },
            number: done.number,
            rest: done.rest,
        }),
        Err(error) => {
            drop(path);
            Err(error)
        }
    }
}
