//! The declarations in scope at a place of a document.

ghost use Rattle.std.specs.Prelude.{◌≡◌, ◌∷◌, ◌++◌, ◌<◌, [], List, ℕ, None, Some, drop, length, vec_len, IfSome, OnErr, OnOk, slice_get, slice_index_or, slice_set};
ghost use Rattle.std.specs.Option.{option_copied, option_map};
ghost use Rattle.doc_tree.specs.Scope.{first_declared, namespace_in};
ghost use Rattle.name_scopes.specs.inner.Scope.{uri_of};

use crate::recent_names::{SLOTS, slot};
use doc_tree::{WordTable, is_xml, is_xmlns, undeclared_namespace, xml_namespace};
use sch_base::Text;
use std::alloc::{AllocError, Global};
use std::marker::Model;

/// A declaration: the number of its prefix among the words, its namespace, and the place of the declaration of this
/// prefix that it shadows.
#[derive(Drop)]
pub(crate) struct Binding {
    pub(crate) number: usize,
    pub(crate) uri: Text,
    pub(crate) shadowed: Option<usize>,
}

/// The declarations in scope, seen by contracts as their list, nearest first.
///
/// A prefix is found in constant time, however many elements are open and declare something.
#[derive(Drop)]
pub(crate) struct Scope {
    alloc: Global,
    prefixes: WordTable,
    bindings: Vec<Binding>,
    /// The place of the nearest declaration of each prefix.
    latest: Vec<Option<usize>>,
    /// The number of the prefix that was declared last in each slot, a hint alone.
    hints: [usize; SLOTS],
}

impl Model for Scope {
    ghost use Rattle.doc_tree.specs.Scope.{Decl};
    ghost use Rattle.std.specs.Prelude.{List, map};
    ghost use Rattle.name_scopes.specs.inner.Scope.{Bound, bound, newest_first};

    ghost Value = { List Decl };

    ghost view = { λ s. map (bound s.prefixes) (newest_first s.bindings.items) };

    ghost invariant = { λ s. Bound s.prefixes s.bindings.items s.latest.items };
}

impl Scope {
    /// Nothing is declared.
    pub(crate) fn new(alloc: Global) -> Scope
        ensures { result ≡ [] }
    {
        Scope {
            alloc,
            prefixes: WordTable::new(alloc),
            bindings: Vec::new(alloc),
            latest: Vec::new(alloc),
            hints: [0; SLOTS],
        }
    }

    /// Declares the namespace of a prefix, in front of all others.
    pub(crate) fn declare(&mut self, prefix: &str, uri: &str) -> Result<(), AllocError>
        ensures { OnOk result (self.new ≡ (prefix.now, uri.now) ∷ self.old) }
    {
        let number = self.prefixes.number(self.alloc, prefix)?;
        extend(&mut self.latest, number)?;
        let shadowed = place_at(&self.latest, number);
        let place = self.bindings.len();
        push_binding(&mut self.bindings, self.alloc, number, uri, shadowed)?;
        put_place(&mut self.latest, number, Some(place));
        self.hints[slot(prefix)] = number;
        Ok(())
    }

    /// How many declarations are in scope.
    pub(crate) fn len(&self) -> usize
        ensures { result ≡ length self.now }
    {
        self.bindings.len()
    }

    /// Forgets so many of the nearest declarations.
    pub(crate) fn forget(&mut self, count: usize)
        ensures { self.new ≡ drop count self.old }
    {
        for _ in 0..count {
            self.forget_one();
        }
    }

    /// The namespace of a prefix in scope; None where it isn't in scope (Namespaces in XML 1.0, section 6).
    pub(crate) fn namespace(&self, prefix: &str) -> Option<&str>
        ensures { option_copied result ≡ namespace_in self.now prefix.now }
    {
        if prefix.is_empty() {
            return Some(self.default_namespace());
        }
        if is_xmlns(prefix) {
            return None;
        }
        if is_xml(prefix) {
            return Some(xml_namespace());
        }
        match self.nearest(prefix) {
            Some(uri) => Some(uri),
            None => undeclared_namespace(prefix),
        }
    }

    /// The default namespace, which is empty where none is declared (section 6.2).
    fn default_namespace(&self) -> &str
        ensures { namespace_in self.now [] ≡ Some result.now }
    {
        match self.nearest("") {
            Some(uri) => uri,
            None => "",
        }
    }

    /// The namespace that the nearest declaration of a prefix gives it.
    fn nearest(&self, prefix: &str) -> Option<&str>
        ensures { option_copied result ≡ first_declared self.now prefix.now }
    {
        if self.bindings.is_empty() {
            return None;
        }
        self.prefixes.laws();
        let hint = self.hints[slot(prefix)];
        if let Some(place) = hinted_place(&self.prefixes, &self.latest, hint, prefix) {
            return uri_at(&self.bindings, place);
        }
        match self.prefixes.find(prefix) {
            Some(number) => match place_at(&self.latest, number) {
                Some(place) => uri_at(&self.bindings, place),
                None => None,
            },
            None => None,
        }
    }

    /// Forgets the nearest declaration.
    fn forget_one(&mut self)
        ensures { self.new ≡ drop 1 self.old }
    {
        if let Some(binding) = self.bindings.pop() {
            put_place(&mut self.latest, binding.number, binding.shadowed);
        }
    }
}

/// Puts a declaration behind the others, with a copy of its namespace.
fn push_binding(
    bindings: &mut Vec<Binding>,
    alloc: Global,
    number: usize,
    uri: &str,
    shadowed: Option<usize>,
) -> Result<(), AllocError>
    ensures pushed { OnOk result (bindings.new.items ≡ bindings.old.items ++ record { number = number; uri = uri.now; shadowed = shadowed } ∷ []) }
    ensures unchanged { OnErr result (bindings.new.items ≡ bindings.old.items) }
{
    let uri = Text::copy(alloc, uri)?;
    bindings.push(Binding {
        number,
        uri,
        shadowed,
    })?;
    Ok(())
}

/// The namespace of the declaration at a place.
fn uri_at(bindings: &Vec<Binding>, place: usize) -> Option<&str>
    ensures { option_copied result ≡ option_map uri_of (slice_get bindings.now.items place) }
{
    match bindings.get(place) {
        Some(binding) => Some(binding.uri.as_str()),
        None => None,
    }
}

/// The place that is kept for a number, None where there is none.
fn place_at(latest: &Vec<Option<usize>>, number: usize) -> Option<usize>
    ensures { result ≡ slice_index_or latest.now.items number None }
{
    match latest.get(number) {
        Some(place) => *place,
        None => None,
    }
}

/// The place that is kept for a number, where a prefix is the word with this number.
fn hinted_place(
    prefixes: &WordTable,
    latest: &Vec<Option<usize>>,
    number: usize,
    prefix: &str,
) -> Option<usize>
    ensures { IfSome result (λ place. (slice_index_or prefixes.now number [] ≡ prefix.now) × (slice_index_or latest.now.items number None ≡ Some place)) }
{
    let place = place_at(latest, number)?;
    if prefixes.word(number) == prefix {
        return Some(place);
    }
    None
}

/// Puts a place for a number, where there is room for it.
fn put_place(latest: &mut Vec<Option<usize>>, number: usize, place: Option<usize>)
    ensures { latest.new.items ≡ slice_set latest.old.items number place }
{
    if number < latest.len() {
        latest[number] = place;
    }
}

/// Makes room for the place of a number.
fn extend(latest: &mut Vec<Option<usize>>, number: usize) -> Result<(), AllocError>
    ensures same { (i : ℕ) → slice_index_or latest.new.items i None ≡ slice_index_or latest.old.items i None }
    ensures room { OnOk result (number < vec_len latest.new) }
{
    while latest.len() <= number {
        latest.push(None)?;
    }
    Ok(())
}
