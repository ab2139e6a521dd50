//! The start tags that are open at a place of a fragment.

ghost use Rattle.std.specs.Prelude.{◌≡◌, ◌∷◌, [], List, OnOk};
ghost use Rattle.doc_tree.specs.Scope.{Decl, scope_at};
ghost use Rattle.name_scopes.specs.Declarations.{declarations};
ghost use Rattle.name_scopes.specs.DocFaults.{outer_scopes};
ghost use Rattle.name_scopes.specs.inner.Piece.{Stands, scopes_after};

use crate::around::declare_above;
use crate::build::declare;
use crate::scope::Scope;
use doc_tree::{NodeId, Tree};
use pyx_core::{Attr, Event};
use std::alloc::{AllocError, Global};

/// The declarations in scope, and how many of them each open start tag has, the innermost last; in front of these is the
/// number of those around the fragment.
#[derive(Drop)]
pub(crate) struct OpenTags {
    pub(crate) scope: Scope,
    pub(crate) counts: Vec<usize>,
}

impl OpenTags {
    /// Nothing is in scope.
    pub(crate) fn new(alloc: Global) -> OpenTags
        ensures { Stands [] result }
    {
        OpenTags {
            scope: Scope::new(alloc),
            counts: Vec::new(alloc),
        }
    }

    /// Puts what is in scope at a node in scope around the fragment.
    pub(crate) fn stand_under(&mut self, tree: &Tree, parent: NodeId) -> Result<(), AllocError>
        requires { Stands [] self.old }
        ensures { OnOk result (Stands (scope_at tree.now.nodes parent ∷ []) self.new) }
    {
        declare_above(&mut self.scope, tree, parent)?;
        self.counts.push(self.scope.len())?;
        Ok(())
    }

    /// Goes on behind an event; at a start tag its own declarations come in scope.
    pub(crate) fn take(&mut self, event: &Event) -> Result<(), AllocError>
        ensures { OnOk result ((scopes : List (List Decl)) → Stands scopes self.old → Stands (scopes_after scopes event.now) self.new) }
    {
        match event {
            Event::Start { name: _, attrs } => self.start(attrs.as_slice()),
            Event::End { name: _ } => {
                self.end();
                Ok(())
            }
            Event::Chars { text: _ } => Ok(()),
            Event::Pi { target: _, body: _ } => Ok(()),
            Event::Comment { text: _ } => Ok(()),
        }
    }

    /// A start tag opens.
    fn start(&mut self, attrs: &[Attr]) -> Result<(), AllocError>
        ensures { OnOk result ((scopes : List (List Decl)) → Stands scopes self.old → Stands (declarations attrs.now ∷ scopes) self.new) }
    {
        let before = self.scope.len();
        declare(&mut self.scope, attrs)?;
        self.counts.push(self.scope.len() - before)?;
        Ok(())
    }

    /// The innermost start tag is closed.
    fn end(&mut self)
        ensures { (scopes : List (List Decl)) → Stands scopes self.old → Stands (outer_scopes scopes) self.new }
    {
        if let Some(count) = self.counts.pop() {
            self.scope.forget(count);
        }
    }
}
