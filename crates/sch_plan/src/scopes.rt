//! What is seen at a place of the walk.

ghost use Rattle.std.specs.Prelude.{◌≡◌, ◌<◌, ◌^◌, false, [], length, take, IfOk, OnOk};
ghost use Rattle.sch_plan.specs.Expressions.{expression, match_pattern, path};
ghost use Rattle.sch_plan.specs.Lets.{is_seen, nothing_before, pattern_scope, scope, seen_after, with_prefix, with_prefixes};
ghost use Rattle.sch_plan.specs.Rules.{optional_path};
ghost use Rattle.sch_phases.specs.Walk.{Answers};

use crate::expressions::{expression, match_pattern, path};
use doc_tree::NodeId;
use sch_base::Text;
use sch_model::{Ns, SchemaError};
use std::alloc::{AllocError, Global};
use std::marker::Model;
use xp_typed_tree::{Typed, TypedPattern, ValueType};
use xp_types::Env;

/// The prefixes and the variables that are seen, and the slot of the next let.
///
/// They are kept twice, since expressions and patterns are checked in scopes of their own.
#[derive(Drop)]
pub(crate) struct Scopes {
    alloc: Global,
    expressions: Env,
    patterns: Env,
    count: usize,
    next: u32,
}

impl Model for Scopes {
    ghost use Rattle.sch_plan.specs.Lets.{Seen};

    ghost Value = { Seen };

    ghost use Rattle.std.specs.Prelude.{◌≡◌, true, false, length};

    ghost view = { λ s. record { prefixes = s.expressions.prefixes; variables = s.expressions.variables; next = s.next } };

    ghost invariant = { λ s. (s.expressions.in_pattern ≡ false) × (s.patterns ≡ record s.expressions { in_pattern = true }) × (s.count ≡ length s.expressions.variables) };
}

/// Binds a prefix, unless it is bound.
fn bind(env: &mut Env, ns: &Ns) -> Result<(), AllocError>
    ensures { OnOk result (env.new ≡ record env.old { prefixes = with_prefix env.old.prefixes ns.now }) }
{
    if env.has_prefix(ns.prefix.as_str()) {
        return Ok(());
    }
    env.add_prefix(ns.prefix.as_str(), ns.uri.as_str())
}

/// The prefixes of a schema.
fn bound(alloc: Global, in_pattern: bool, prefixes: &[Ns]) -> Result<Env, AllocError>
    ensures { IfOk result (λ env. env ≡ record { in_pattern = in_pattern; prefixes = with_prefixes [] prefixes.now; variables = [] }) }
{
    let mut env = Env::new(alloc, in_pattern);
    for ns in prefixes {
        bind(&mut env, ns)?;
    }
    Ok(env)
}

impl Scopes {
    /// What the first let of a schema sees.
    pub(crate) fn new(alloc: Global, prefixes: &[Ns]) -> Result<Scopes, AllocError>
        ensures { IfOk result (λ seen. seen ≡ nothing_before prefixes.now) }
    {
        let expressions = bound(alloc, false, prefixes)?;
        let patterns = bound(alloc, true, prefixes)?;
        Ok(Scopes {
            alloc,
            expressions,
            patterns,
            count: 0,
            next: 0,
        })
    }

    /// An expression at an element.
    pub(crate) fn expression(&self, node: NodeId, text: &str) -> Result<Typed, SchemaError>
        ensures { Answers (expression (scope self.now) node text.now) result }
    {
        expression(self.alloc, &self.expressions, node, text)
    }

    /// The path of a name, or a subject, at an element.
    pub(crate) fn path(&self, node: NodeId, text: &str) -> Result<Typed, SchemaError>
        ensures { Answers (path (scope self.now) node text.now) result }
    {
        path(self.alloc, &self.expressions, node, text)
    }

    /// The path of a name, or a subject, at an element, where there is one.
    pub(crate) fn optional_path(
        &self,
        node: NodeId,
        path: &Option<Text>,
    ) -> Result<Option<Typed>, SchemaError>
        ensures { Answers (optional_path self.now node path.now) result }
    {
        match path {
            Some(text) => {
                let expr = self.path(node, text.as_str())?;
                Ok(Some(expr))
            }
            None => Ok(None),
        }
    }

    /// A match pattern at an element.
    pub(crate) fn match_pattern(
        &self,
        node: NodeId,
        text: &str,
    ) -> Result<TypedPattern, SchemaError>
        ensures { Answers (match_pattern (pattern_scope self.now) node text.now) result }
    {
        match_pattern(self.alloc, &self.patterns, node, text)
    }

    /// Whether a let of the name is seen.
    pub(crate) fn has(&self, name: &str) -> bool
        ensures { result ≡ is_seen self.now name.now }
    {
        self.expressions.has_var(name)
    }

    /// Adds a let whose name isn't seen yet.
    pub(crate) fn add(&mut self, name: &str, ty: ValueType) -> Result<(), AllocError>
        requires { is_seen self.old name.now ≡ false }
        ensures { OnOk result (self.new ≡ seen_after self.old name.now ty) }
    {
        let (Some(next), Some(count)) = (self.next.checked_add(1), self.count.checked_add(1)) else {
            return Err(AllocError);
        };
        self.patterns.add_var(name, self.next, ty)?;
        if let Err(error) = self.expressions.add_var(name, self.next, ty) {
            self.patterns.cut_vars(self.count);
            return Err(error);
        }
        self.count = count;
        self.next = next;
        Ok(())
    }

    /// How many variables are seen.
    pub(crate) fn mark(&self) -> usize
        ensures { result ≡ length self.now.variables }
    {
        self.count
    }

    /// Keeps the variables that were seen first, so many of them.
    pub(crate) fn cut(&mut self, mark: usize)
        ensures { self.new ≡ record self.old { variables = take mark self.old.variables } }
    {
        self.expressions.cut_vars(mark);
        self.patterns.cut_vars(mark);
        self.count = self.count.min(mark);
    }

    /// The slot of the next let.
    pub(crate) fn next(&self) -> u32
        ensures { result ≡ self.now.next }
    {
        self.next
    }

    /// Lets the slots of the next lets begin here.
    pub(crate) fn go_on_at(&mut self, next: u32)
        ensures { self.new ≡ record self.old { next = next } }
    {
        self.next = next;
    }
}
