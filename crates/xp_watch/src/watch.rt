//! Watched expressions over a document.

ghost use Rattle.std.specs.Option.{option_copied};
ghost use Rattle.std.specs.Prelude.{◌≡◌, ◌↔◌, ◌⊎◌, ◌+◌, ◌≤◌, ℕ, count_by, true, length, slice_get, Some, None, IfErr, IfOk, IfSome, IsNone, OnErr, OnOk};
ghost use Rattle.doc_tree.specs.Kinds.{is_document};
ghost use Rattle.doc_tree.specs.Laws.{WellFormed};
ghost use Rattle.doc_tree.specs.limits.TheConstants.{MAX_LIVE_NODES};
ghost use Rattle.doc_edit_laws.specs.Along.{Edit};
ghost use Rattle.name_scopes.specs.Scoping.{InScope};
ghost use Rattle.edit_script.specs.WellFormed.{WellFormedCommand};
ghost use Rattle.edit_commands.specs.Commands.{IsEdited, RefusesCommand, command_refusal};
ghost use Rattle.edit_commands.specs.Touched.{touched_by};
ghost use Rattle.xp_typed_tree.specs.TypedTree.{TypedTree};
ghost use Rattle.xp_watch.specs.Costs.{Raised, cost_of};
ghost use Rattle.xp_watch.specs.Kept.{GoesOn, IsFresh, IsRight, Marks, is_stale, stale_watches, value_of};
ghost use Rattle.xp_watch.specs.Watched.{dirty_watches, watched, watches_of};

use crate::kept::KeptWatches;
use crate::laws::{dirty_are_stale, edits_keep};
use cover_laws::names_are_touched_alike;
use doc_tree::{MAX_LIVE_NODES, Tree};
use edit_commands::{ApplyError, apply_to};
use edit_script::Command;
use std::alloc::{AllocError, Global};
use std::marker::Model;
use std::sync::ledger::Ledger;
use watch_list::WatchList;
use xp_eval::Steps;
use xp_meaning_laws::cells_read_are_live;
use xp_values::{EvalFault, Value};

/// Expressions that are watched over a document, which commands edit.
///
/// What each gave at the root, and what it read, is kept, so that after an edit those alone are evaluated anew that read what it touched.
/// Contracts see the tree, the expressions, and what is kept of each.
pub struct Watch {
    alloc: Global,
    tree: Tree,
    list: WatchList,
    /// What the expressions gave and read.
    kept: KeptWatches,
}

impl Model for Watch {
    ghost use Rattle.std.specs.Coded.{codes};
    ghost use Rattle.xp_typed_tree.specs.contracts.typed.Typed as typed;
    ghost use Rattle.xp_outcome.specs.contracts.recorder.Recorder as recorder;
    ghost use Rattle.xp_watch.specs.Watching.{Watching};

    ghost Value = { Watching };

    ghost coded = { Prim.hlevel (codes, typed.the_row.coded, recorder.the_row.coded) };

    ghost use Rattle.xp_watch.specs.inner.Held.{Stands, watching};

    ghost view = { watching };

    ghost invariant = { Stands };
}

impl Watch {
    /// Opens a document with watched expressions. None is evaluated yet; the tree gets the pair cap 262,144.
    pub fn open(alloc: Global, tree: Tree, list: WatchList) -> Result<Watch, AllocError>
        requires { is_document tree.nodes ≡ true }
        ensures tree { IfOk result (λ watch. watch.tree ≡ record tree { pair_cap = MAX_LIVE_NODES }) }
        ensures expressions { IfOk result (λ watch. watch.expressions ≡ list) }
        ensures stale { IfOk result (λ watch. (k : ℕ) → is_stale watch.kept k ≡ true) }
    {
        match KeptWatches::new(alloc, list.len()) {
            Ok(kept) => {
                let mut tree = tree;
                tree.set_pair_cap(MAX_LIVE_NODES);
                Ok(Watch {
                    alloc,
                    tree,
                    list,
                    kept,
                })
            }
            Err(error) => {
                drop(tree);
                drop(list);
                Err(error)
            }
        }
    }

    /// The document.
    pub fn tree(&self) -> &Tree
        ensures { result.now ≡ self.now.tree }
    {
        &self.tree
    }

    /// What holds of each: its tree is a document, with the pair cap 262,144, and what is kept of a watch that isn't stale is right.
    pub fn laws(&self)
        ensures document { is_document self.now.tree.nodes ≡ true }
        ensures well_formed { WellFormed self.now.tree.nodes }
        ensures cap { self.now.tree.pair_cap ≡ MAX_LIVE_NODES }
        ensures right { IsRight self.now.tree.nodes self.now.expressions self.now.kept }
    {
        self.tree.laws();
    }

    /// The allocator of which it takes memory.
    pub fn alloc(&self) -> Global {
        self.alloc
    }

    /// How many watches there are.
    pub fn len(&self) -> usize
        ensures { result ≡ length self.now.expressions }
    {
        self.list.len()
    }

    /// How many watches are stale: those that were not evaluated yet, and those that read what an edit has touched since.
    ///
    /// Looks at each of them.
    pub fn stale_count(&self) -> usize
        ensures { result ≡ count_by (is_stale self.now.kept) (watches_of self.now.expressions) }
    {
        self.kept.stale_count(self.list.len())
    }

    /// The value of a watch, counted from 0, or the fault that its evaluation met; None exactly past the last watch, and where it is
    /// stale.
    pub fn value(&self, k: usize) -> Option<&Result<Value, EvalFault>>
        ensures value { option_copied result ≡ value_of self.now.kept k }
        ensures none { IsNone result ↔ ((length self.now.expressions ≤ k) ⊎ (is_stale self.now.kept k ≡ true)) }
        ensures watched { IfSome result (λ given. (expr : TypedTree) → slice_get self.now.expressions k ≡ Some expr →
            given.now ≡ (watched self.now.tree.nodes expr).answer) }
    {
        self.kept.value(k)
    }

    /// Does a command of an edit script on the document, and marks the watches as stale that read what it touches.
    ///
    /// A refused command changes nothing, nor does one that finds no memory; marking takes none. Costs what the edit of the tree
    /// costs, and a look at what those watches read that read a touched cell.
    pub fn apply(&mut self, command: &Command) -> Result<(), ApplyError>
        requires formed { WellFormedCommand command.now }
        ensures within { OnOk result (command_refusal self.old.tree command.now ≡ None) }
        ensures edited { OnOk result (IsEdited self.old.tree.nodes command.now self.new.tree.nodes) }
        ensures edit { OnOk result (Edit self.old.tree.nodes self.new.tree.nodes (touched_by self.old.tree.nodes command.now)) }
        ensures marked { OnOk result (Marks self.old.tree.nodes (touched_by self.old.tree.nodes command.now) self.old.kept self.new.kept) }
        ensures dirty { OnOk result (IsFresh self.old.tree.nodes self.old.expressions self.old.kept →
            stale_watches self.new.kept self.old.expressions ≡
            dirty_watches self.old.tree.nodes (touched_by self.old.tree.nodes command.now) self.old.expressions) }
        ensures scope { InScope self.old.tree.nodes → InScope self.new.tree.nodes }
        ensures document { is_document self.new.tree.nodes ≡ true }
        ensures refused { IfErr result (RefusesCommand self.old.tree command.now) }
        ensures unchanged { OnErr result (self.new ≡ self.old) }
        ensures expressions { self.new.expressions ≡ self.old.expressions }
        ensures cap { self.new.tree.pair_cap ≡ self.old.tree.pair_cap }
    {
        edits_keep();
        dirty_are_stale();
        names_are_touched_alike();
        self.tree.laws();
        cells_read_are_live();
        match apply_to(self.alloc, &mut self.tree, command) {
            Ok(touched) => {
                self.tree.laws();
                self.kept.mark(&self.tree, &touched);
                Ok(())
            }
            Err(error) => Err(error),
        }
    }

    /// Evaluates the stale watches; all, where they were not evaluated yet.
    ///
    /// Costs their visits, and a look at each watch. After want of memory those that were evaluated are kept, and a later call goes on.
    pub fn refresh<L: Ledger>(&mut self, steps: &mut Steps<L>) -> Result<(), AllocError>
        ensures tree { self.new.tree ≡ self.old.tree }
        ensures expressions { self.new.expressions ≡ self.old.expressions }
        ensures fresh { OnOk result (IsFresh self.old.tree.nodes self.old.expressions self.new.kept) }
        ensures raised { OnOk result (Raised self.old.tree.nodes self.old.expressions
            (stale_watches self.old.kept self.old.expressions) steps.old steps.new) }
        ensures goes_on { GoesOn self.old.tree.nodes self.old.expressions self.old.kept self.new.kept }
        ensures at_most { steps.new ≤ steps.old + cost_of self.old.tree.nodes self.old.expressions
            (stale_watches self.old.kept self.old.expressions) }
        ensures steps { steps.old ≤ steps.new }
    {
        self.kept.refresh(self.alloc, &self.tree, &self.list, steps)
    }
}

impl Drop for Watch {
    fn drop(self) {
        let Watch {
            alloc: _,
            tree,
            list,
            kept,
        } = self;
        drop(tree);
        drop(list);
        drop(kept);
    }
}
