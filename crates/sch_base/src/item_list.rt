//! The lists of every layer: they grow at their end and are read by place.

ghost use Rattle.std.specs.Prelude.{◌≡◌, ◌<◌, ◌≤◌, ◌==◌, [], ◌∷◌, ◌++◌, if◌then◌else◌, length, reverse, take, drop, slice_get, suc, IfOk, OnOk, OnErr};
ghost use Rattle.std.specs.Option.{option_copied};

use std::alloc::{AllocError, Global};
use std::marker::Model;

/// A list of items, seen by contracts as that list.
#[derive(Debug, Drop)]
pub struct ItemList<T> {
    items: Vec<T>,
}

impl<T> Model for ItemList<T> {
    ghost use Rattle.std.specs.Prelude.{List};

    ghost Value = { List T };

    ghost view = { λ l. l.items.items };
}

impl<T> ItemList<T> {
    /// The empty list.
    pub fn new(alloc: Global) -> ItemList<T>
        ensures { result ≡ [] }
    {
        ItemList {
            items: Vec::new(alloc),
        }
    }

    /// How many items there are.
    pub fn len(&self) -> usize
        ensures { result ≡ length self.now }
    {
        self.items.len()
    }

    /// Whether there is no item.
    pub fn is_empty(&self) -> bool
        ensures { result ≡ (length self.now == 0) }
    {
        self.items.is_empty()
    }

    /// The items in order, lent.
    pub fn as_slice(&self) -> &[T]
        ensures { result.now ≡ self.now }
    {
        self.items.as_slice()
    }

    /// The item at a place counted from 0, or None past the end.
    pub fn get(&self, index: usize) -> Option<&T>
        ensures { option_copied result ≡ slice_get self.now index }
    {
        self.items.as_slice().get(index)
    }

    /// The items themselves, to be taken one by one.
    pub fn into_vec(self) -> Vec<T>
        ensures { result.items ≡ self }
    {
        self.items
    }

    /// The items from the last to the first. They are turned round where they are, so that no memory is taken.
    pub fn reversed(mut self) -> ItemList<T>
        ensures { result ≡ reverse self }
    {
        self.items.reverse();
        self
    }
}

impl<T: Drop> ItemList<T> {
    /// Puts the item at the end; without memory the item is dropped and the list stays as it was.
    pub fn push(&mut self, item: T) -> Result<(), AllocError>
        ensures pushed { OnOk result (self.new ≡ self.old ++ item ∷ []) }
        ensures unchanged { OnErr result (self.new ≡ self.old) }
    {
        self.items.push(item)?;
        Ok(())
    }

    /// Puts the item at the end if it stays, and else drops it; without memory the list stays as it was.
    pub fn push_if(&mut self, item: T, stays: bool) -> Result<(), AllocError>
        ensures pushed { OnOk result (self.new ≡ self.old ++ (if stays then item ∷ [] else [])) }
        ensures unchanged { OnErr result (self.new ≡ self.old) }
    {
        if stays {
            self.push(item)?;
        }
        Ok(())
    }

    /// Puts the item at a place counted from 0; those from there on move down. Without memory the item is dropped and the
    /// list stays as it was.
    pub fn insert(&mut self, index: usize, item: T) -> Result<(), AllocError>
        requires { index ≤ length self.old }
        ensures inserted { OnOk result (self.new ≡ take index self.old ++ item ∷ drop index self.old) }
        ensures unchanged { OnErr result (self.new ≡ self.old) }
    {
        self.items.insert(index, item)?;
        Ok(())
    }

    /// Drops the item at a place counted from 0; those behind it move up.
    pub fn remove(&mut self, index: usize)
        requires { index < length self.old }
        ensures { self.new ≡ take index self.old ++ drop (suc index) self.old }
    {
        self.items.remove(index);
    }

    /// The list of one item.
    pub fn of_one(alloc: Global, item: T) -> Result<ItemList<T>, AllocError>
        ensures { IfOk result (λ list. list ≡ item ∷ []) }
    {
        let mut list = ItemList::new(alloc);
        list.push(item)?;
        Ok(list)
    }
}

impl<T: Copy> ItemList<T> {
    /// Puts the items at the end in their order; without memory the list stays as it was. Memory is asked for once.
    pub fn push_all(&mut self, items: &[T]) -> Result<(), AllocError>
        ensures pushed { OnOk result (self.new ≡ self.old ++ items.now) }
        ensures unchanged { OnErr result (self.new ≡ self.old) }
    {
        self.items.extend_from_slice(items)
    }

    /// A list of its own with the same items.
    pub fn copy_of(alloc: Global, items: &[T]) -> Result<ItemList<T>, AllocError>
        ensures { IfOk result (λ list. list ≡ items.now) }
    {
        let mut list = ItemList::new(alloc);
        list.push_all(items)?;
        Ok(list)
    }
}
