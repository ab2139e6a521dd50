//! The tree of a schema under way: files are read and put together.

ghost use Rattle.std.specs.Prelude.{◌≡◌, ◌⊎◌, ℕ, List, ◌+◌, ◌-◌, ◌≤◌, ◌∷◌, [], ◌++◌, true, codes, length, None, Some, Ok, Err, nat_lt, IfOk, IfErr, OnOk, OnErr, MatchOption};
ghost use Rattle.std.specs.List.{list_any};
ghost use Rattle.std.specs.Str.{bytes_eq};
ghost use Rattle.sch_io.specs.Files.{Files};
ghost use Rattle.sch_io.specs.ReadThrough.{ReadsThrough};
ghost use Rattle.doc_tree.specs.Laws.{WellFormed};
ghost use Rattle.doc_tree.specs.limits.TheConstants.{MAX_DEPTH, MAX_LIVE_NODES, MAX_LIVE_TEXT_BYTES};
ghost use Rattle.sch_base.specs.declared.limits.TheConstants.{MAX_INCLUDE_DEPTH};
ghost use Rattle.doc_tree.specs.Table.{is_live, kids_of, root_alone};
ghost use Rattle.doc_tree.specs.Walks.{below};
ghost use Rattle.sch_rules.specs.Attributes.{said};
ghost use Rattle.sch_rules.specs.Elements.{document_element};
ghost use Rattle.sch_include.specs.Ends.{NamesLast, extent_of_including, faults_of_including, misses_of_including};
ghost use Rattle.sch_include.specs.Includes.{is_include};
ghost use Rattle.sch_include.specs.Taking.{fault_of, included_name, text_below};
ghost use Rattle.sch_include.specs.inner.Joining.{IsFault, IsFile, IsJudged, IsNamed, Loads, LoadsFile, Shows, extent_of_loading, faults_of_loading, fit_fault, misses_of_loading, refused_kind, source_of, standing_of};

use crate::fault::{IncludeError, IncludeFault, IncludeKind};
use crate::href::{file_named, has_fragment, has_scheme};
use crate::source::{
    OpenFile, count_below, document_element, href, is_deep_below, is_include, text_below,
};
use doc_tree::{MAX_LIVE_NODES, MAX_LIVE_TEXT_BYTES, NodeId, Tree};
use name_scopes::{LoadError, load_tree};
use sch_base::{ItemList, MAX_INCLUDE_DEPTH, MAX_INCLUDES, Text};
use sch_io::{ReadError, Shelf, read_all};
use std::alloc::{AllocError, Global};

/// A tree that grows, and how large it is with the includes that are not taken yet as elements; the names of the files that
/// were opened, in their order, and of those that are being read, one inside another.
#[derive(Drop)]
pub(crate) struct Joiner {
    pub(crate) alloc: Global,
    pub(crate) tree: Tree,
    pub(crate) nodes: usize,
    pub(crate) text: usize,
    pub(crate) opened: ItemList<Text>,
    pub(crate) reading: Vec<Text>,
}

/// Why a file is no tree.
#[derive(Drop)]
enum Refusal {
    Kind(IncludeKind),
    Memory,
}

/// The tree of a file.
fn load<S: Shelf>(alloc: Global, shelf: &mut S, name: &str) -> Result<Tree, Refusal>
    ensures told { (files : Files) → (S.state shelf.old).files ≡ Some files → Loads files name.now result }
    ensures is_file { IfOk result (λ tree. IsFile tree.nodes) }
    ensures held { (S.state shelf.new).files ≡ (S.state shelf.old).files }
    ensures noted { (S.state shelf.new).opened ≡ (S.state shelf.old).opened ++ name.now ∷ [] }
    ensures misses { (S.state shelf.new).misses ≡ misses_of_loading result (S.state shelf.old).misses }
    ensures faults { (S.state shelf.new).faults ≡ faults_of_loading result (S.state shelf.old).faults }
    ensures through { ReadsThrough (extent_of_loading result) (S.state shelf.old) (S.state shelf.new) }
{
    match read_all(alloc, shelf, name) {
        Ok(bytes) => match load_tree(alloc, bytes.as_slice()) {
            Ok(tree) => Ok(tree),
            Err(LoadError::Fault(fault)) => Err(Refusal::Kind(IncludeKind::Doc(fault))),
            Err(LoadError::Memory) => Err(Refusal::Memory),
        },
        Err(ReadError::Missing) => Err(Refusal::Kind(IncludeKind::Missing)),
        Err(ReadError::Failed) => Err(Refusal::Kind(IncludeKind::Failed)),
        Err(ReadError::TooLarge) => Err(Refusal::Kind(IncludeKind::TooLarge)),
        Err(ReadError::Memory) => Err(Refusal::Memory),
    }
}

/// The tree of a file, or what is wrong with it; a copy of its name is there for the fault.
fn tree_of<S: Shelf>(
    alloc: Global,
    shelf: &mut S,
    name: &str,
    copied: Text,
) -> Result<Tree, IncludeError>
    requires { copied ≡ name.now }
    ensures told { (files : Files) → (S.state shelf.old).files ≡ Some files → LoadsFile files name.now result }
    ensures is_file { IfOk result (λ tree. IsFile tree.nodes) }
    ensures held { (S.state shelf.new).files ≡ (S.state shelf.old).files }
    ensures noted { (S.state shelf.new).opened ≡ (S.state shelf.old).opened ++ name.now ∷ [] }
    ensures misses { (S.state shelf.new).misses ≡ misses_of_including result (S.state shelf.old).misses }
    ensures faults { (S.state shelf.new).faults ≡ faults_of_including result (S.state shelf.old).faults }
    ensures named { IfErr result (NamesLast ((S.state shelf.old).opened ++ name.now ∷ [])) }
    ensures through { ReadsThrough (extent_of_including result) (S.state shelf.old) (S.state shelf.new) }
{
    match load(alloc, shelf, name) {
        Ok(tree) => {
            drop(copied);
            Ok(tree)
        }
        Err(Refusal::Kind(kind)) => Err(IncludeError::Fault(IncludeFault { kind, name: copied })),
        Err(Refusal::Memory) => {
            drop(copied);
            Err(IncludeError::Memory)
        }
    }
}

impl Joiner {
    /// The root alone, and no file opened.
    pub(crate) fn new(alloc: Global) -> Result<Joiner, AllocError>
        ensures tree { IfOk result (λ joiner. joiner.tree ≡ root_alone) }
        ensures nodes { IfOk result (λ joiner. joiner.nodes ≡ 0) }
        ensures text { IfOk result (λ joiner. joiner.text ≡ 0) }
        ensures opened { IfOk result (λ joiner. joiner.opened ≡ []) }
        ensures reading { IfOk result (λ joiner. joiner.reading.items ≡ []) }
    {
        Ok(Joiner {
            alloc,
            tree: Tree::new(alloc)?,
            nodes: 0,
            text: 0,
            opened: ItemList::new(alloc),
            reading: Vec::new(alloc),
        })
    }

    /// The tree that was put together.
    pub(crate) fn into_tree(self) -> Tree
        ensures { result ≡ self.tree }
    {
        self.tree
    }

    /// Opens a file and reads its tree.
    pub(crate) fn open<S: Shelf>(&mut self, shelf: &mut S, name: &str) -> Result<Tree, IncludeError>
        ensures shows { Shows (S.state shelf.old) (S.state shelf.new) self.old.opened self.new.opened result }
        ensures told { (files : Files) → (S.state shelf.old).files ≡ Some files → LoadsFile files name.now result }
        ensures is_file { IfOk result (λ tree. IsFile tree.nodes) }
        ensures noted { (result ≡ Err IncludeError.Memory → ⊥) → (S.state shelf.new).opened ≡ (S.state shelf.old).opened ++ name.now ∷ [] }
        ensures opened { (result ≡ Err IncludeError.Memory → ⊥) → self.new.opened ≡ self.old.opened ++ name.now ∷ [] }
        ensures once { (self.new.opened ≡ self.old.opened) ⊎ (self.new.opened ≡ self.old.opened ++ name.now ∷ []) }
        ensures same { self.new ≡ record self.old { opened = self.new.opened } }
    {
        let copied = Text::copy(self.alloc, name)?;
        match self.note_opened(name) {
            Ok(()) => tree_of(self.alloc, shelf, name, copied),
            Err(_) => {
                drop(copied);
                Err(IncludeError::Memory)
            }
        }
    }

    /// Notes the name of a file that is opened.
    fn note_opened(&mut self, name: &str) -> Result<(), AllocError>
        ensures noted { OnOk result (self.new.opened ≡ self.old.opened ++ name.now ∷ []) }
        ensures unchanged { OnErr result (self.new.opened ≡ self.old.opened) }
        ensures same { self.new ≡ record self.old { opened = self.new.opened } }
    {
        self.opened.push(Text::copy(self.alloc, name)?)
    }

    /// Notes that a file is being read.
    pub(crate) fn enter(&mut self, name: &str) -> Result<(), AllocError>
        ensures entered { OnOk result (self.new.reading.items ≡ self.old.reading.items ++ name.now ∷ []) }
        ensures tree { self.new.tree ≡ self.old.tree }
        ensures nodes { self.new.nodes ≡ self.old.nodes }
        ensures text { self.new.text ≡ self.old.text }
        ensures opened { self.new.opened ≡ self.old.opened }
    {
        self.reading.push(Text::copy(self.alloc, name)?)?;
        Ok(())
    }

    /// Notes that the file which was entered last is read.
    pub(crate) fn leave(&mut self)
        ensures left { (before : List (List ℕ)) (name : List ℕ) → self.old.reading.items ≡ before ++ name ∷ [] → self.new.reading.items ≡ before }
        ensures tree { self.new.tree ≡ self.old.tree }
        ensures nodes { self.new.nodes ≡ self.old.nodes }
        ensures text { self.new.text ≡ self.old.text }
        ensures opened { self.new.opened ≡ self.old.opened }
    {
        let _ = self.reading.pop();
    }

    /// The name of the file that an include names, or what refuses it.
    pub(crate) fn included_name(&self, source: &OpenFile, n: NodeId) -> Result<Text, IncludeError>
        ensures named { IsNamed (included_name (source_of self.now source.now) (standing_of self.now) n) result }
        // an include that names nothing is told, and want of memory never in its place
        ensures nameless { said source.now.tree.now.nodes n (codes "href") ≡ None → result ≡ Err (IncludeError.Fault (fault_of IncludeKind.NoHref [])) }
    {
        let href = match href(source.tree, n) {
            Some(href) => href,
            None => return Err(without_href(self.alloc)),
        };
        if has_scheme(href) {
            return Err(self.fault(IncludeKind::Scheme, href));
        }
        if has_fragment(href) {
            return Err(self.fault(IncludeKind::Fragment, href));
        }
        let name = file_named(self.alloc, source.name, href)?;
        match self.refused(name.as_str()) {
            Some(kind) => Err(IncludeError::Fault(IncludeFault { kind, name })),
            None => Ok(name),
        }
    }

    /// A fault of an `href`.
    fn fault(&self, kind: IncludeKind, href: &str) -> IncludeError
        ensures { IsFault (fault_of kind href.now) result }
    {
        match Text::copy(self.alloc, href) {
            Ok(name) => IncludeError::Fault(IncludeFault { kind, name }),
            Err(_) => IncludeError::Memory,
        }
    }

    /// Why a file may not be read now.
    fn refused(&self, name: &str) -> Option<IncludeKind>
        ensures { result ≡ refused_kind self.now.reading.items self.now.opened name.now }
    {
        if self.is_read(name) {
            Some(IncludeKind::Cycle)
        } else if self.reading.len() > MAX_INCLUDE_DEPTH {
            Some(IncludeKind::TooDeep)
        } else if self.opened.len() > MAX_INCLUDES {
            Some(IncludeKind::TooMany)
        } else {
            None
        }
    }

    /// Whether a file of this name is being read.
    fn is_read(&self, name: &str) -> bool
        ensures { result ≡ list_any (bytes_eq name.now) self.now.reading.items }
    {
        self.reading.iter().any(|other| name == other.as_str())
    }

    /// Counts the document element of a tree in place of a node, or refuses it with its name.
    pub(crate) fn judge(
        &mut self,
        source: &Tree,
        n: NodeId,
        tree: &Tree,
        above: usize,
        name: Text,
    ) -> Result<(), IncludeError>
        requires lives { is_live source.now.nodes n ≡ true }
        requires room { length (below source.now.nodes n) ≤ self.old.nodes }
        requires few { self.old.nodes ≤ MAX_LIVE_NODES }
        requires bytes { text_below source.now.nodes n ≤ self.old.text }
        requires little { self.old.text ≤ MAX_LIVE_TEXT_BYTES }
        requires shallow { above ≤ MAX_DEPTH }
        // a limit that is passed is told, and want of memory never in its place
        ensures judged { IsJudged (fit_fault source.now.nodes n tree.now.nodes above (standing_of self.old)) name result }
        ensures nodes { OnOk result (self.new.nodes ≡ (self.old.nodes + length (below tree.now.nodes (document_element tree.now.nodes))) - length (below source.now.nodes n)) }
        ensures text { OnOk result (self.new.text ≡ (self.old.text + text_below tree.now.nodes (document_element tree.now.nodes)) - text_below source.now.nodes n) }
        ensures same { self.new ≡ record self.old { nodes = self.new.nodes; text = self.new.text } }
        ensures kept { OnErr result (self.new ≡ self.old) }
    {
        match self.fit(source, n, tree, above) {
            Some(kind) => Err(IncludeError::Fault(IncludeFault { kind, name })),
            None => {
                drop(name);
                Ok(())
            }
        }
    }

    /// Counts the document element of a tree in place of a node, or tells the limit that the tree then passes.
    fn fit(&mut self, source: &Tree, n: NodeId, tree: &Tree, above: usize) -> Option<IncludeKind>
        requires lives { is_live source.now.nodes n ≡ true }
        requires room { length (below source.now.nodes n) ≤ self.old.nodes }
        requires few { self.old.nodes ≤ MAX_LIVE_NODES }
        requires bytes { text_below source.now.nodes n ≤ self.old.text }
        requires little { self.old.text ≤ MAX_LIVE_TEXT_BYTES }
        requires shallow { above ≤ MAX_DEPTH }
        ensures kind { result ≡ fit_fault source.now.nodes n tree.now.nodes above (standing_of self.old) }
        ensures nodes { result ≡ None → self.new.nodes ≡ (self.old.nodes + length (below tree.now.nodes (document_element tree.now.nodes))) - length (below source.now.nodes n) }
        ensures text { result ≡ None → self.new.text ≡ (self.old.text + text_below tree.now.nodes (document_element tree.now.nodes)) - text_below source.now.nodes n }
        ensures same { self.new ≡ record self.old { nodes = self.new.nodes; text = self.new.text } }
        ensures kept { (result ≡ None → ⊥) → self.new ≡ self.old }
    {
        source.laws();
        tree.laws();
        let element = document_element(tree);
        let nodes = (self.nodes + count_below(tree, element)) - count_below(source, n);
        let text = (self.text + text_below(tree, element)) - text_below(source, n);
        if nodes > MAX_LIVE_NODES as usize {
            return Some(IncludeKind::TooManyNodes);
        }
        if is_deep_below(tree, tree.root(), 0, above) {
            return Some(IncludeKind::TreeTooDeep);
        }
        if text > MAX_LIVE_TEXT_BYTES {
            return Some(IncludeKind::TooMuchText);
        }
        self.nodes = nodes;
        self.text = text;
        None
    }
}

/// The fault of an include without an `href`, which names nothing and so wants no memory.
fn without_href(alloc: Global) -> IncludeError
    ensures { result ≡ IncludeError.Fault (fault_of IncludeKind.NoHref []) }
{
    IncludeError::Fault(IncludeFault {
        kind: IncludeKind::NoHref,
        name: Text::from(String::new(alloc)),
    })
}
