//! A piece under way: the events of a fragment that is known to fit are put one by one.

ghost use Rattle.std.specs.Prelude.{◌≡◌, ◌∷◌, ◌++◌, [], true, List, ℕ, OnOk};
ghost use Rattle.pyx_core.specs.declared.event.Event.{Event};
ghost use Rattle.pyx_core.specs.declared.event.Event.TheVariants as event_kind;
ghost use Rattle.pyx_core.specs.declared.mode.Mode.TheVariants.{Document};
ghost use Rattle.pyx_core.specs.Nesting.{Place, after};
ghost use Rattle.doc_tree.specs.Scope.{Decl, scope_at};
ghost use Rattle.name_scopes.specs.DocFaults.{Standing, moved};
ghost use Rattle.name_scopes.specs.inner.Build.{IsLeaf, IsNew};
ghost use Rattle.name_scopes.specs.inner.Piece.{IsAcceptable, IsPiece, PieceComes, PieceIsReady, PieceLoads, begins_element};

use crate::around::declare_above;
use crate::build::{Loader, append_leaf, declare};
use crate::fault::EventError;
use doc_tree::{NodeId, Tree};
use pyx_core::{Attr, Event};
use std::alloc::AllocError;

impl Loader {
    /// Puts a fragment that begins with a start tag and is to come under a node of a tree; no event was put yet.
    pub(crate) fn put_piece(
        &mut self,
        tree: &Tree,
        parent: NodeId,
        events: &[Event],
    ) -> Result<(), AllocError>
        requires new { IsNew self.old }
        requires acceptable { IsAcceptable (scope_at tree.now.nodes parent) events.now }
        requires element { begins_element events.now ≡ true }
        ensures { OnOk result (IsPiece (scope_at tree.now.nodes parent) events.now self.new.tree.nodes) }
    {
        declare_above(&mut self.scope, tree, parent)?;
        for event in events {
            self.put(event)?;
        }
        self.tree.laws();
        Ok(())
    }

    /// Puts an event.
    fn put(&mut self, event: &Event) -> Result<(), AllocError>
        requires { PieceIsReady self.old event.now }
        ensures { OnOk result ((around : List Decl) (taken : List Event) (place : Place) (standing : Standing) → PieceLoads around taken place standing self.old → PieceComes around taken place standing event.now →
            PieceLoads around (taken ++ event.now ∷ []) (after Document place event.now) (moved standing event.now) self.new) }
    {
        match event {
            Event::Start { name, attrs } => self.put_start(name.as_str(), attrs.as_slice()),
            Event::End { name: _ } => {
                self.tree.laws();
                self.end();
                Ok(())
            }
            Event::Chars { text: _ } => self.put_leaf(event),
            Event::Pi { target: _, body: _ } => self.put_leaf(event),
            Event::Comment { text: _ } => self.put_leaf(event),
        }
    }

    /// Begins an element.
    fn put_start(&mut self, name: &str, attrs: &[Attr]) -> Result<(), AllocError>
        requires { PieceIsReady self.old (event_kind.Start name.now attrs.now) }
        ensures { OnOk result ((around : List Decl) (taken : List Event) (place : Place) (standing : Standing) → PieceLoads around taken place standing self.old → PieceComes around taken place standing (event_kind.Start name.now attrs.now) →
            PieceLoads around (taken ++ event_kind.Start name.now attrs.now ∷ []) (after Document place (event_kind.Start name.now attrs.now)) (moved standing (event_kind.Start name.now attrs.now)) self.new) }
    {
        self.tree.laws();
        declare(&mut self.scope, attrs)?;
        let id = match self.recent.element(&mut self.tree, &self.scope, name)? {
            Some(id) => id,
            None => unreachable!(),
        };
        match self.begin(id, name, attrs) {
            Ok(()) => Ok(()),
            Err(EventError::Memory) => Err(AllocError),
            Err(EventError::Kind(_)) => unreachable!(),
        }
    }

    /// Puts the node of an event that is no tag under the innermost element.
    fn put_leaf(&mut self, event: &Event) -> Result<(), AllocError>
        requires leaf { IsLeaf event.now }
        requires ready { PieceIsReady self.old event.now }
        ensures { OnOk result ((around : List Decl) (taken : List Event) (place : Place) (standing : Standing) → PieceLoads around taken place standing self.old → PieceComes around taken place standing event.now →
            PieceLoads around (taken ++ event.now ∷ []) (after Document place event.now) (moved standing event.now) self.new) }
    {
        self.tree.laws();
        append_leaf(&mut self.tree, self.place, event)?;
        Ok(())
    }
}
