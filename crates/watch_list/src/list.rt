//! Lists of watched expressions.

ghost use Rattle.std.specs.Prelude.{◌≡◌, [], ◌∷◌, ◌++◌, length, slice_get, OnErr, OnOk};
ghost use Rattle.std.specs.Option.{option_copied};
ghost use Rattle.xp_typed_tree.specs.Slots.{slots_in};

use sch_base::ItemList;
use std::alloc::{AllocError, Global};
use std::marker::Model;
use xp_typed_tree::Typed;

/// Expressions that name no variable, seen by contracts as the list of their typed trees.
#[derive(Drop)]
pub struct WatchList {
    items: ItemList<Typed>,
}

impl Model for WatchList {
    ghost use Rattle.std.specs.Coded.{codes};
    ghost use Rattle.std.specs.Prelude.{List};
    ghost use Rattle.xp_typed_tree.specs.TypedTree.{TypedTree};
    ghost use Rattle.xp_typed_tree.specs.contracts.typed.Typed as typed;

    ghost Value = { List TypedTree };

    ghost coded = { Prim.hlevel (codes, typed.the_row.coded) };

    ghost view = { λ l. l.items };
}

impl WatchList {
    /// No expression.
    pub fn new(alloc: Global) -> WatchList
        ensures { result ≡ [] }
    {
        WatchList {
            items: ItemList::new(alloc),
        }
    }

    /// Puts an expression at the end; without memory the list stays as it was.
    pub fn add(&mut self, expr: Typed) -> Result<(), AllocError>
        requires { slots_in expr ≡ [] }
        ensures added { OnOk result (self.new ≡ self.old ++ expr ∷ []) }
        ensures unchanged { OnErr result (self.new ≡ self.old) }
    {
        self.items.push(expr)
    }

    /// How many expressions there are.
    pub fn len(&self) -> usize
        ensures { result ≡ length self.now }
    {
        self.items.len()
    }

    /// The expression at a place counted from 0, or None past the end.
    pub fn get(&self, index: usize) -> Option<&Typed>
        ensures { option_copied result ≡ slice_get self.now index }
    {
        self.items.get(index)
    }
}
