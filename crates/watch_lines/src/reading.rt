//! The lines of a file of watched expressions, read.

ghost use Rattle.std.specs.Prelude.{◌≡◌, ◌≤◌, [], Err, Ok, IfErr, IfOk, OnOk, length};
ghost use Rattle.xp_tree.specs.View.{tree_of};
ghost use Rattle.xp_typed_tree.specs.Slots.{slots_in};
ghost use Rattle.sch_base.specs.declared.limits.TheConstants.{MAX_EXPRESSION_BYTES};
ghost use Rattle.watch_lines.specs.Watches.{JudgesText, LineSays, TypesTree, WatchesAre, WatchSays, WordSays, may_bind, namespace_said, plain_scope, word_of};
ghost use Rattle.watch_lines.specs.Faults.{IfFault};
ghost use Rattle.watch_lines.specs.inner.Reading.{IfKind, IsPlain, Passes, Says, Stops};

use crate::cutting::{first_line, split_space, text_of_chars};
use crate::fault::{LineError, WatchError, WatchFault, WatchKind};
use doc_tree::{is_xml, is_xmlns, xml_namespace};
use sch_base::{MAX_EXPRESSION_BYTES, is_ncname};
use std::alloc::Global;
use watch_list::WatchList;
use xp_parse::ParseError;
use xp_syntax::parse_expr;
use xp_tree::Expr;
use xp_typed_tree::Typed;
use xp_types::{CheckError, Env, check, slots_are_in_scope};

/// Watched expressions of a file.
pub const MAX_WATCHES: usize = 1_024;

/// The watched expressions of a file, in order, or the first fault of its first bad line.
///
/// An error is that fault, or want of memory. The time grows with the bytes.
pub fn read_watches(alloc: Global, bytes: &[u8]) -> Result<WatchList, WatchError>
    ensures watches { IfOk result (λ list. WatchesAre bytes.now (Ok list)) }
    ensures fault { IfErr result (IfFault (λ found. WatchesAre bytes.now (Err found))) }
{
    let mut reading = Reading::new(alloc);
    match reading.read_lines(alloc, bytes) {
        Ok(()) => Ok(reading.into_list()),
        Err(error) => {
            drop(reading);
            Err(error)
        }
    }
}

/// The words with which lines begin.
#[derive(Clone, Copy)]
pub enum LineWord {
    /// `ns`: a prefix and its namespace.
    Namespace,
    /// `watch`: an expression.
    Expression,
}

/// What lines have said so far: the prefixes that they bound, and the expressions.
#[derive(Drop)]
struct Reading {
    env: Env,
    list: WatchList,
}

impl Reading {
    /// Before the first line.
    fn new(alloc: Global) -> Reading
        ensures env { result.env ≡ plain_scope }
        ensures list { result.list ≡ [] }
    {
        Reading {
            env: Env::new(alloc, false),
            list: WatchList::new(alloc),
        }
    }

    /// The expressions.
    fn into_list(self) -> WatchList
        ensures { result ≡ self.list }
    {
        let Reading { env, list } = self;
        drop(env);
        list
    }

    /// Reads the lines of a file, from before the first one on.
    fn read_lines(&mut self, alloc: Global, bytes: &[u8]) -> Result<(), WatchError>
        requires env { self.old.env ≡ plain_scope }
        requires list { self.old.list ≡ [] }
        ensures watches { OnOk result (WatchesAre bytes.now (Ok self.new.list)) }
        ensures fault { IfErr result (IfFault (λ found. WatchesAre bytes.now (Err found))) }
    {
        let mut rest = bytes;
        let mut number = 1;
        while let Some((line, after)) = first_line(rest) {
            match self.take_line(alloc, number, line) {
                Ok(()) => (),
                Err(error) => return Err(error),
            }
            number += 1;
            rest = after;
        }
        Ok(())
    }

    /// Reads the line with a number.
    fn take_line(&mut self, alloc: Global, number: u64, line: &[u8]) -> Result<(), WatchError>
        requires { IsPlain self.old.env }
        ensures passes { OnOk result (Passes number line.now self.old self.new) }
        ensures plain { OnOk result (IsPlain self.new.env) }
        ensures stops { IfErr result (IfFault (Stops number line.now self.old)) }
    {
        if line.is_empty() {
            return Ok(());
        }
        match self.read_line(alloc, line) {
            Ok(()) => Ok(()),
            Err(LineError::Kind(kind)) => Err(WatchError::Fault(WatchFault { line: number, kind })),
            Err(LineError::Memory) => Err(WatchError::Memory),
        }
    }

    /// Takes over what a line says that isn't empty.
    fn read_line(&mut self, alloc: Global, line: &[u8]) -> Result<(), LineError>
        requires { IsPlain self.old.env }
        ensures says { OnOk result (Says (LineSays self.old.env (length self.old.list) line.now) self.old self.new) }
        ensures fault { IfErr result (IfKind (λ what. LineSays self.old.env (length self.old.list) line.now (Err what))) }
    {
        let Some(text) = text_of_chars(line) else {
            return Err(LineError::Kind(WatchKind::BadChar));
        };
        let Some((word, behind)) = split_space(text) else {
            return Err(LineError::Kind(WatchKind::BadWord));
        };
        self.read_behind(alloc, word_of(word), behind)
    }

    /// Takes over what a line says by its word and what stands behind that.
    fn read_behind(
        &mut self,
        alloc: Global,
        word: Option<LineWord>,
        text: &str,
    ) -> Result<(), LineError>
        requires { IsPlain self.old.env }
        ensures says { OnOk result (Says (WordSays self.old.env (length self.old.list) word text.now) self.old self.new) }
        ensures fault { IfErr result (IfKind (λ what. WordSays self.old.env (length self.old.list) word text.now (Err what))) }
    {
        match word {
            Some(LineWord::Namespace) => self.bind(text),
            Some(LineWord::Expression) => self.watch(alloc, text),
            None => Err(LineError::Kind(WatchKind::BadWord)),
        }
    }

    /// Binds the prefix in front of a space to the namespace behind it.
    fn bind(&mut self, text: &str) -> Result<(), LineError>
        ensures says { OnOk result (Says (λ said. said ≡ namespace_said self.old.env.prefixes text.now) self.old self.new) }
        ensures fault { IfErr result (IfKind (λ what. Err what ≡ namespace_said self.old.env.prefixes text.now)) }
    {
        let Some((prefix, uri)) = split_space(text) else {
            return Err(LineError::Kind(WatchKind::BadWord));
        };
        if !self.may_bind(prefix, uri) {
            return Err(LineError::Kind(WatchKind::BadPrefix));
        }
        self.env.add_prefix(prefix, uri)?;
        Ok(())
    }

    /// Whether a prefix may be bound to a namespace.
    fn may_bind(&self, prefix: &str, uri: &str) -> bool
        ensures { result ≡ may_bind self.now.env.prefixes prefix.now uri.now }
    {
        is_ncname(prefix)
            && !is_xmlns(prefix)
            && (!is_xml(prefix) || uri == xml_namespace())
            && !self.env.has_prefix(prefix)
            && !uri.is_empty()
    }

    /// Adds the expression of a text.
    fn watch(&mut self, alloc: Global, text: &str) -> Result<(), LineError>
        requires { IsPlain self.old.env }
        ensures says { OnOk result (Says (WatchSays self.old.env (length self.old.list) text.now) self.old self.new) }
        ensures fault { IfErr result (IfKind (λ what. WatchSays self.old.env (length self.old.list) text.now (Err what))) }
    {
        if text.len() > MAX_EXPRESSION_BYTES {
            return Err(LineError::Kind(WatchKind::TooLong));
        }
        if self.list.len() >= MAX_WATCHES {
            return Err(LineError::Kind(WatchKind::TooMany));
        }
        let expr = expression(alloc, &self.env, text)?;
        self.list.add(expr)?;
        Ok(())
    }
}

/// The word with which a line begins; None for another.
#[tactic(auto, unfolding(crate::specs::Watches::word_of))]
fn word_of(word: &str) -> Option<LineWord>
    ensures { result ≡ word_of word.now }
{
    match word {
        "ns" => Some(LineWord::Namespace),
        "watch" => Some(LineWord::Expression),
        _ => None,
    }
}

/// The expression of a text that isn't too long, which names no variable.
fn expression(alloc: Global, env: &Env, text: &str) -> Result<Typed, LineError>
    requires short { length text.now ≤ MAX_EXPRESSION_BYTES }
    requires plain { IsPlain env.now }
    ensures typed { IfOk result (λ expr. JudgesText env.now text.now (Ok expr)) }
    ensures named { IfOk result (λ expr. slots_in expr ≡ []) }
    ensures fault { IfErr result (IfKind (λ what. JudgesText env.now text.now (Err what))) }
{
    match parse_expr(alloc, text) {
        Ok(expr) => typed(alloc, env, expr),
        Err(ParseError::Fault(fault)) => Err(LineError::Kind(WatchKind::Syntax(fault))),
        Err(ParseError::Memory) => Err(LineError::Memory),
    }
}

/// An expression with its types, which names no variable.
fn typed(alloc: Global, env: &Env, expr: Expr) -> Result<Typed, LineError>
    requires { IsPlain env.now }
    ensures typed { IfOk result (λ typed. TypesTree env.now (tree_of expr) (Ok typed)) }
    ensures named { IfOk result (λ typed. slots_in typed ≡ []) }
    ensures fault { IfErr result (IfKind (λ what. TypesTree env.now (tree_of expr) (Err what))) }
{
    slots_are_in_scope();
    match check(alloc, expr, env) {
        Ok(typed) => Ok(typed),
        Err(CheckError::Fault(fault)) => Err(LineError::Kind(WatchKind::Types(fault))),
        Err(CheckError::Memory) => Err(LineError::Memory),
    }
}
