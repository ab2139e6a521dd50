//! What is in scope where an expression stands.

ghost use Rattle.std.specs.Prelude.{◌≡◌, ◌++◌, ◌∷◌, [], None, take, is_some, OnOk, OnErr};
ghost use Rattle.std.specs.Option.{option_copied};
ghost use Rattle.xp_types.specs.Scope.{bound, namespace_of, variable_of};

use doc_tree::{is_xml, xml_namespace};
use indexmap::IndexMap;
use sch_base::Text;
use std::alloc::{AllocError, Global};
use std::marker::Model;
use xp_typed_tree::ValueType;

/// A variable: where its value is kept, and the type of that value.
#[derive(Clone, Copy)]
pub struct Variable {
    pub slot: u32,
    pub ty: ValueType,
}

/// The prefixes and the variables in scope, seen by contracts as their lists.
///
/// A look-up takes time that doesn't depend on how many there are.
#[derive(Drop)]
pub struct Env {
    alloc: Global,
    in_pattern: bool,
    prefixes: IndexMap<String, Text>,
    variables: IndexMap<String, Variable>,
}

impl Model for Env {
    ghost use Rattle.xp_types.specs.Scope.{Scope};

    ghost Value = { Scope };

    ghost use Rattle.std.specs.Prelude.{map};
    ghost use Rattle.xp_types.specs.inner.ScopeTables.{binding_of, variable_in};

    ghost view = { λ e. record { in_pattern = e.in_pattern; prefixes = map binding_of e.prefixes.entries; variables = map variable_in e.variables.entries } };
}

impl Env {
    /// A scope without prefixes and variables.
    pub fn new(alloc: Global, in_pattern: bool) -> Env
        ensures { result ≡ record { in_pattern = in_pattern; prefixes = []; variables = [] } }
    {
        Env {
            alloc,
            in_pattern,
            prefixes: IndexMap::new(alloc),
            variables: IndexMap::new(alloc),
        }
    }

    /// Binds a prefix that isn't bound yet to a namespace.
    pub fn add_prefix(&mut self, prefix: &str, uri: &str) -> Result<(), AllocError>
        requires { bound self.old.prefixes prefix.now ≡ None }
        ensures added { OnOk result (self.new ≡ record self.old { prefixes = self.old.prefixes ++ record { prefix = prefix.now; uri = uri.now } ∷ [] }) }
        ensures unchanged { OnErr result (self.new ≡ self.old) }
    {
        let key = String::from_str(self.alloc, prefix)?;
        let value = Text::copy(self.alloc, uri)?;
        self.prefixes.insert(key, value)?;
        Ok(())
    }

    /// Adds a variable whose name isn't there yet.
    pub fn add_var(&mut self, name: &str, slot: u32, ty: ValueType) -> Result<(), AllocError>
        requires { variable_of self.old.variables name.now ≡ None }
        ensures added { OnOk result (self.new ≡ record self.old { variables = self.old.variables ++ record { name = name.now; place = slot; type = ty } ∷ [] }) }
        ensures unchanged { OnErr result (self.new ≡ self.old) }
    {
        let key = String::from_str(self.alloc, name)?;
        self.variables.insert(key, Variable { slot, ty })?;
        Ok(())
    }

    /// Keeps the variables that were added first, so many of them.
    pub fn cut_vars(&mut self, len: usize)
        ensures { self.new ≡ record self.old { variables = take len self.old.variables } }
    {
        self.variables.truncate(len);
    }

    /// Whether a prefix was bound.
    pub fn has_prefix(&self, prefix: &str) -> bool
        ensures { result ≡ is_some (bound self.now.prefixes prefix.now) }
    {
        self.prefixes.contains_key(prefix)
    }

    /// Whether there is a variable of the name.
    pub fn has_var(&self, name: &str) -> bool
        ensures { result ≡ is_some (variable_of self.now.variables name.now) }
    {
        self.variable(name).is_some()
    }

    /// Whether the expression stands in a match pattern.
    pub(crate) fn in_pattern(&self) -> bool
        ensures { result ≡ self.now.in_pattern }
    {
        self.in_pattern
    }

    /// The namespace of a prefix; `xml` is always bound.
    pub(crate) fn namespace(&self, prefix: &str) -> Option<&str>
        ensures { option_copied result ≡ namespace_of self.now prefix.now }
    {
        if is_xml(prefix) {
            return Some(xml_namespace());
        }
        match self.prefixes.get(prefix) {
            Some(uri) => Some(uri.as_str()),
            None => None,
        }
    }

    /// The variable of a name.
    pub(crate) fn variable(&self, name: &str) -> Option<Variable>
        ensures { result ≡ variable_of self.now.variables name.now }
    {
        self.variables.get(name).copied()
    }
}
