//! The names of nodes (XPath 1.0, section 4.1), which are read.

ghost use Rattle.std.specs.Prelude.{◌≡◌, ◌<◌, ℕ, length, option_map, IfSome, IfOk};
ghost use Rattle.doc_tree.specs.Table.{Name, name_of, numbered};
ghost use Rattle.doc_tree.specs.QNames.{spelled_name, written_in};
ghost use Rattle.xp_meaning.specs.Functions.{named_node};
ghost use Rattle.xp_outcome.specs.Running.{Ran};
ghost use Rattle.xp_meaning.specs.Names.{local_in, uri_in, name_at, of_name};
ghost use Rattle.xp_meaning.specs.Results.{shown};
ghost use Rattle.xp_values.specs.declared.values.Value.TheVariants as values;

use crate::arguments::named_node;
use crate::caller::Caller;
use crate::reading::read_name;
use crate::text_functions::as_chars;
use doc_tree::{NameId, NodeId, Tree};
use sch_base::Text;
use std::alloc::{AllocError, Global};
use xp_meaning::Context;
use xp_outcome::Recorder;
use xp_values::{EvalError, Value};

impl Caller<'_> {
    /// `local-name`: the local part of the name, empty where there is none.
    pub(crate) fn local_name(
        &self,
        at: &Context,
        args: &[Value],
        reads: &mut Recorder,
    ) -> Result<Value, EvalError>
        ensures { (count : ℕ) → Ran (of_name self.now.tree.now.nodes (named_node at.now args.now) (λ name. values.Chars (local_in name))) (shown result) reads.old reads.new count count }
    {
        let named = named_node(at, args);
        read_name(self.tree, &named, reads)?;
        as_chars(self.local_part(named))
    }

    /// `namespace-uri`: the namespace of the name, empty where there is none.
    pub(crate) fn namespace_uri(
        &self,
        at: &Context,
        args: &[Value],
        reads: &mut Recorder,
    ) -> Result<Value, EvalError>
        ensures { (count : ℕ) → Ran (of_name self.now.tree.now.nodes (named_node at.now args.now) (λ name. values.Chars (uri_in name))) (shown result) reads.old reads.new count count }
    {
        let named = named_node(at, args);
        read_name(self.tree, &named, reads)?;
        as_chars(self.namespace_of(named))
    }

    /// `name`: the name as it is written, empty where there is none.
    pub(crate) fn name(
        &self,
        at: &Context,
        args: &[Value],
        reads: &mut Recorder,
    ) -> Result<Value, EvalError>
        ensures { (count : ℕ) → Ran (of_name self.now.tree.now.nodes (named_node at.now args.now) (λ name. values.Chars (written_in name))) (shown result) reads.old reads.new count count }
    {
        let named = named_node(at, args);
        read_name(self.tree, &named, reads)?;
        as_chars(self.written_name(named))
    }

    /// The local part of the node's name, empty where there is none.
    fn local_part(&self, n: Option<NodeId>) -> Result<Text, AllocError>
        ensures { IfOk result (λ text. text ≡ local_in (name_at self.now.tree.now.nodes n)) }
    {
        match name_at(self.tree, n) {
            Some(name) => Text::copy(self.alloc, self.tree.local_of(name)),
            None => Text::copy(self.alloc, ""),
        }
    }

    /// The namespace of the node's name, empty where there is none.
    fn namespace_of(&self, n: Option<NodeId>) -> Result<Text, AllocError>
        ensures { IfOk result (λ text. text ≡ uri_in (name_at self.now.tree.now.nodes n)) }
    {
        match name_at(self.tree, n) {
            Some(name) => Text::copy(self.alloc, self.tree.uri_of(name)),
            None => Text::copy(self.alloc, ""),
        }
    }

    /// The node's name as it is written, empty where there is none.
    fn written_name(&self, n: Option<NodeId>) -> Result<Text, AllocError>
        ensures { IfOk result (λ text. text ≡ written_in (name_at self.now.tree.now.nodes n)) }
    {
        match name_at(self.tree, n) {
            Some(name) => spelled_name(
                self.alloc,
                self.tree.prefix_of(name),
                self.tree.local_of(name),
            ),
            None => Text::copy(self.alloc, ""),
        }
    }
}

/// The name of a node, where there is a node that has one.
fn name_at(tree: &Tree, n: Option<NodeId>) -> Option<NameId>
    ensures name { option_map (numbered tree.now.names) result ≡ name_at tree.now.nodes n }
    ensures known { IfSome result (λ id. id < length tree.now.names) }
{
    match n {
        Some(n) => tree.name(n),
        None => None,
    }
}

/// A name as it is written: the prefix, where there is one, a colon, and the local part.
fn spelled_name(alloc: Global, prefix: &str, local: &str) -> Result<Text, AllocError>
    ensures { IfOk result (λ text. text ≡ spelled_name prefix.now local.now) }
{
    if prefix.is_empty() {
        return Text::copy(alloc, local);
    }
    let mut name = String::from_str(alloc, prefix)?;
    name.push_str(":")?;
    name.push_str(local)?;
    Ok(Text::from(name))
}
