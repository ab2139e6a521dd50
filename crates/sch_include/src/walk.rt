//! The walk through a schema's files: what is no include is copied, and an include gives way to the document element of its file.

ghost use Rattle.std.specs.Prelude.{◌≡◌, List, ◌≤◌, ◌+◌, true, length, None, Some, Ok, IfOk, OnOk};
ghost use Rattle.sch_base.specs.declared.limits.TheConstants.{MAX_INCLUDE_DEPTH};
ghost use Rattle.doc_tree.specs.Table.{kids_of};
ghost use Rattle.sch_rules.specs.Elements.{document_element};
ghost use Rattle.sch_include.specs.Includes.{is_include};
ghost use Rattle.sch_include.specs.inner.Joining.{CanWalk, CanWalkKids, Keeps, Shows, TakesFile, Walks, WalksFile, WalksKids, source_of, standing_of};

use crate::copy::copy_node;
use crate::fault::IncludeError;
use crate::joiner::Joiner;
use crate::source::{OpenFile, document_element, is_include};
use doc_tree::NodeId;
use sch_base::Text;
use sch_io::Shelf;

impl Joiner {
    /// Puts a node of a file and all below it at the end of a node of the tree.
    #[cycle(walk)]
    pub(crate) fn walk<S: Shelf>(
        &mut self,
        shelf: &mut S,
        source: &OpenFile,
        n: NodeId,
        parent: NodeId,
    ) -> Result<(), IncludeError>
        requires can { CanWalk self.old source.now n parent }
        ensures shows { Shows (S.state shelf.old) (S.state shelf.new) self.old.opened self.new.opened result }
        ensures cap { self.new.tree.pair_cap ≡ self.old.tree.pair_cap }
        ensures keeps { OnOk result (Keeps self.old self.new source.now n) }
        ensures walks { Walks self.old self.new source.now n parent result (λ files. (S.state shelf.old).files ≡ Some files) }
    {
        source.tree.laws();
        if is_include(source.tree, n) {
            self.take(shelf, source, n, parent)
        } else {
            let copy = copy_node(&mut self.tree, parent, source.tree, n)?;
            let walked = self.walk_kids(shelf, source, n, copy);
            self.tree.laws();
            walked
        }
    }

    /// Puts the kids of a node of a file and all below them below its copy, which has none yet.
    #[cycle(walk)]
    pub(crate) fn walk_kids<S: Shelf>(
        &mut self,
        shelf: &mut S,
        source: &OpenFile,
        n: NodeId,
        copy: NodeId,
    ) -> Result<(), IncludeError>
        requires can { CanWalkKids self.old source.now n copy }
        ensures shows { Shows (S.state shelf.old) (S.state shelf.new) self.old.opened self.new.opened result }
        ensures cap { self.new.tree.pair_cap ≡ self.old.tree.pair_cap }
        ensures walks { WalksKids self.old self.new source.now n (kids_of source.now.tree.now.nodes n) copy result (λ files. (S.state shelf.old).files ≡ Some files) }
    {
        source.tree.laws();
        for kid in source.tree.kids(n) {
            self.tree.laws();
            self.walk(shelf, source, *kid, copy)?;
        }
        Ok(())
    }

    /// Puts what an include stands for at the end of a node of the tree.
    #[cycle(walk)]
    fn take<S: Shelf>(
        &mut self,
        shelf: &mut S,
        source: &OpenFile,
        n: NodeId,
        parent: NodeId,
    ) -> Result<(), IncludeError>
        requires can { CanWalk self.old source.now n parent }
        requires include { is_include source.now.tree.now.nodes n ≡ true }
        ensures shows { Shows (S.state shelf.old) (S.state shelf.new) self.old.opened self.new.opened result }
        ensures cap { self.new.tree.pair_cap ≡ self.old.tree.pair_cap }
        ensures keeps { OnOk result (Keeps self.old self.new source.now n) }
        ensures walks { Walks self.old self.new source.now n parent result (λ files. (S.state shelf.old).files ≡ Some files) }
    {
        source.tree.laws();
        let name = self.included_name(source, n)?;
        self.take_file(shelf, source, n, parent, name.as_str())
    }

    /// Puts the document element of the file that an include names at the end of a node of the tree.
    #[cycle(walk)]
    fn take_file<S: Shelf>(
        &mut self,
        shelf: &mut S,
        source: &OpenFile,
        n: NodeId,
        parent: NodeId,
        name: &str,
    ) -> Result<(), IncludeError>
        requires can { CanWalk self.old source.now n parent }
        requires include { is_include source.now.tree.now.nodes n ≡ true }
        requires files { length self.old.reading.items ≤ MAX_INCLUDE_DEPTH }
        ensures shows { Shows (S.state shelf.old) (S.state shelf.new) self.old.opened self.new.opened result }
        ensures cap { self.new.tree.pair_cap ≡ self.old.tree.pair_cap }
        ensures keeps { OnOk result (Keeps self.old self.new source.now n) }
        ensures takes { TakesFile self.old self.new source.now n parent name.now result (λ files. (S.state shelf.old).files ≡ Some files) }
    {
        let told = Text::copy(self.alloc, name)?;
        let tree = self.open(shelf, name)?;
        source.tree.laws();
        tree.laws();
        let above = source.above + source.tree.depth(n) as usize - 1;
        self.judge(source.tree, n, &tree, above, told)?;
        self.walk_included(
            shelf,
            &OpenFile {
                tree: &tree,
                name,
                above,
            },
            parent,
        )
    }

    /// Puts the document element of a file, which is noted meanwhile as one that is being read, at the end of a node of the tree.
    #[cycle(walk)]
    fn walk_included<S: Shelf>(
        &mut self,
        shelf: &mut S,
        file: &OpenFile,
        parent: NodeId,
    ) -> Result<(), IncludeError>
        requires can { CanWalk self.old file.now (document_element file.now.tree.now.nodes) parent }
        requires files { length self.old.reading.items ≤ MAX_INCLUDE_DEPTH }
        ensures shows { Shows (S.state shelf.old) (S.state shelf.new) self.old.opened self.new.opened result }
        ensures cap { self.new.tree.pair_cap ≡ self.old.tree.pair_cap }
        ensures keeps { OnOk result (Keeps self.old self.new file.now (document_element file.now.tree.now.nodes)) }
        ensures walks { WalksFile self.old self.new file.now parent result (λ files. (S.state shelf.old).files ≡ Some files) }
    {
        file.tree.laws();
        let element = document_element(file.tree);
        self.enter(file.name)?;
        self.walk(shelf, file, element, parent)?;
        self.leave();
        Ok(())
    }
}
