//! A schema's file with its includes replaced.

ghost use Rattle.std.specs.Prelude.{◌≡◌, [], Some, OnOk, IfOk};
ghost use Rattle.sch_io.specs.ReadThrough.{ReadsThrough};
ghost use Rattle.doc_tree.specs.Table.{root_alone};
ghost use Rattle.doc_tree.specs.limits.TheConstants.{MAX_LIVE_NODES};
ghost use Rattle.sch_include.specs.Ends.{IsRead, extent_of_including, faults_of_including, misses_of_including};
ghost use Rattle.sch_include.specs.Included.{IsNumberedDocument};
ghost use Rattle.sch_include.specs.inner.Joining.{IsFile, ReadsWhole, Shows, with_tree};

use crate::fault::IncludeError;
use crate::joiner::Joiner;
use crate::source::{OpenFile, count_below, text_below};
use doc_tree::Tree;
use sch_io::Shelf;
use std::alloc::Global;

/// The tree of the file with this name in which each `include` of Schematron gives way to the document element of the file
/// that it names (ISO/IEC 19757-3:2016, section 5.4.4), depth first; files are read one at a time, each where it is named.
///
/// Elements keep the names that their files gave them. The numbers of the tree stand in document order.
///
/// # Errors
///
/// The first fault on the way, or want of memory.
pub fn include_all<S: Shelf>(alloc: Global, shelf: &mut S, name: &str) -> Result<Tree, IncludeError>
    // the named file is read first, then those that are included; over a shelf that tells its files they decide what comes of it
    ensures read { IsRead (S.state shelf.old).files name.now (S.state shelf.old).opened (S.state shelf.new).opened result }
    ensures document { IfOk result (λ tree. IsNumberedDocument tree.nodes) }
    // the most that a tree can hold, as of each new tree
    ensures cap { IfOk result (λ tree. tree.pair_cap ≡ MAX_LIVE_NODES) }
    ensures held { (S.state shelf.new).files ≡ (S.state shelf.old).files }
    // a file is told as missing, or its reading as failed, exactly where the shelf counted it
    ensures misses { (S.state shelf.new).misses ≡ misses_of_including result (S.state shelf.old).misses }
    ensures faults { (S.state shelf.new).faults ≡ faults_of_including result (S.state shelf.old).faults }
    // each opened file was read to its end and no further, but for one that is missing, fails or is too large, the last
    ensures through { ReadsThrough (extent_of_including result) (S.state shelf.old) (S.state shelf.new) }
{
    let mut joiner = Joiner::new(alloc)?;
    match joiner.read_own(shelf, name) {
        Ok(()) => Ok(joiner.into_tree()),
        Err(error) => {
            drop(joiner);
            Err(error)
        }
    }
}

impl Joiner {
    /// Opens the schema's own file, and puts the whole of it under the root.
    fn read_own<S: Shelf>(&mut self, shelf: &mut S, name: &str) -> Result<(), IncludeError>
        requires alone { self.old.tree ≡ root_alone }
        requires unopened { self.old.opened ≡ [] }
        requires unread { self.old.reading.items ≡ [] }
        ensures read { IsRead (S.state shelf.old).files name.now (S.state shelf.old).opened (S.state shelf.new).opened (with_tree result self.new.tree) }
        ensures document { OnOk result (IsNumberedDocument self.new.tree.nodes) }
        ensures cap { OnOk result (self.new.tree.pair_cap ≡ MAX_LIVE_NODES) }
        ensures held { (S.state shelf.new).files ≡ (S.state shelf.old).files }
        ensures misses { (S.state shelf.new).misses ≡ misses_of_including result (S.state shelf.old).misses }
        ensures faults { (S.state shelf.new).faults ≡ faults_of_including result (S.state shelf.old).faults }
        ensures through { ReadsThrough (extent_of_including result) (S.state shelf.old) (S.state shelf.new) }
    {
        let tree = self.open(shelf, name)?;
        self.read_whole(shelf, &tree, name)?;
        Ok(())
    }

    /// Puts the whole of the schema's own file, which was opened, under the root.
    fn read_whole<'file, S: Shelf>(
        &mut self,
        shelf: &mut S,
        tree: &'file Tree,
        name: &'file str,
    ) -> Result<(), IncludeError>
        requires is_file { IsFile tree.now.nodes }
        requires alone { self.old.tree ≡ root_alone }
        requires unread { self.old.reading.items ≡ [] }
        ensures shows { Shows (S.state shelf.old) (S.state shelf.new) self.old.opened self.new.opened result }
        ensures cap { self.new.tree.pair_cap ≡ self.old.tree.pair_cap }
        ensures document { OnOk result (IsNumberedDocument self.new.tree.nodes) }
        ensures reads { ReadsWhole self.old self.new tree.now.nodes name.now result (λ files. (S.state shelf.old).files ≡ Some files) }
    {
        tree.laws();
        self.nodes = count_below(tree, tree.root());
        self.text = text_below(tree, tree.root());
        self.enter(name)?;
        let source = OpenFile {
            tree,
            name,
            above: 0,
        };
        let root = self.tree.root();
        self.walk_kids(shelf, &source, tree.root(), root)?;
        self.tree.laws();
        Ok(())
    }
}
