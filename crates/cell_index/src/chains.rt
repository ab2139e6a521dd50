//! Chains of numbers, each with a number as its key.

ghost use Rattle.std.specs.Prelude.{◌≡◌, ℕ, ◌+◌, ◌<◌, length, slice_index_or, slice_set, IfOk, OnErr, OnOk, OnSome};
ghost use Rattle.std.specs.Bool.{OnFalse};
ghost use Rattle.std.specs.List.{Contains};
ghost use Rattle.cell_index.specs.inner.Links.{link_at};
ghost use Rattle.cell_index.specs.inner.Chains.{Drops, InChain, Keeps, PutsFirst, items_added, newest, newest_item};

use crate::links::{Link, link_at};
use std::alloc::{AllocError, Global};

/// From each key to its items: those of a key are linked, the newest first.
///
/// An item may be in a chain more than once. Takes 4 bytes a key up to the greatest, and 8 bytes an item, also for one that was dropped.
#[derive(Drop)]
pub(crate) struct Chains {
    /// By the key of a chain, the number of its newest link; 0 where it has none.
    heads: Vec<u32>,
    links: Vec<Link>,
}

impl Chains {
    /// No chain has an item.
    pub(crate) fn new(alloc: Global) -> Chains
        ensures { (key : ℕ) → newest result key ≡ 0 }
    {
        Chains {
            heads: Vec::new(alloc),
            links: Vec::new(alloc),
        }
    }

    /// How many items were added, those that were dropped since counted too.
    pub(crate) fn len(&self) -> usize
        ensures { result ≡ items_added self.now }
    {
        self.links.len()
    }

    /// The number of the newest link of a key, 0 where it has none.
    pub(crate) fn newest(&self, key: usize) -> u32
        ensures { result ≡ newest self.now key }
    {
        match self.heads.get(key) {
            Some(number) => *number,
            None => 0,
        }
    }

    /// The link with a number.
    pub(crate) fn link(&self, number: u32) -> Option<Link>
        ensures { result ≡ link_at self.now.links.items number }
    {
        link_at(&self.links, number)
    }

    /// Whether the chain of a key has an item.
    pub(crate) fn has_any(&self, key: usize) -> bool
        ensures { OnFalse result ((item : ℕ) → InChain self.now key item → ⊥) }
    {
        self.newest(key) != 0
    }

    /// The items of a key, the newest first.
    pub(crate) fn items(&self, alloc: Global, key: usize) -> Result<Vec<u32>, AllocError>
        ensures { IfOk result (λ items. (item : ℕ) → InChain self.now key item → Contains items.items item) }
    {
        let mut items = Vec::new(alloc);
        let mut number = self.newest(key);
        while let Some(link) = self.link(number) {
            items.push(link.item)?;
            number = link.earlier(number);
        }
        Ok(items)
    }

    /// The item that came last to the chain of a key; None where it has none.
    pub(crate) fn newest_item(&self, key: usize) -> Option<u32>
        ensures { result ≡ newest_item self.now key }
    {
        match self.link(self.newest(key)) {
            Some(link) => Some(link.item),
            None => None,
        }
    }

    /// Drops the item that came last to the chain of a key.
    pub(crate) fn drop_newest(&mut self, key: usize)
        ensures drops { Drops self.old self.new key }
        ensures falls { OnSome (newest_item self.old key) (newest self.new key < newest self.old key) }
    {
        let newest = self.newest(key);
        if let Some(link) = self.link(newest) {
            self.set_newest(key, link.earlier(newest));
        }
    }

    /// Makes a link the newest of a key.
    fn set_newest(&mut self, key: usize, number: u32)
        ensures links { self.new.links.items ≡ self.old.links.items }
        ensures heads { self.new.heads.items ≡ slice_set self.old.heads.items key number }
    {
        if key < self.heads.len() {
            self.heads[key] = number;
        }
    }

    /// Adds an item to the chain of a key.
    ///
    /// After want of memory, as after 4,294,967,295 items, each item is in its chain still.
    pub(crate) fn add(&mut self, key: usize, item: u32) -> Result<(), AllocError>
        ensures added { OnOk result (InChain self.new key item) }
        ensures keeps { Keeps self.old self.new }
    {
        reach(&mut self.heads, key)?;
        self.put_first(key, item)
    }

    /// Puts an item before those of a key.
    fn put_first(&mut self, key: usize, item: u32) -> Result<(), AllocError>
        requires { key < length self.old.heads.items }
        ensures added { OnOk result (PutsFirst self.old self.new key item) }
        ensures unchanged { OnErr result (self.new.heads ≡ self.old.heads) }
        ensures same { OnErr result (self.new.links.items ≡ self.old.links.items) }
    {
        let number = next_number(&self.links)?;
        let next = self.heads[key];
        self.links.push(Link { item, next })?;
        self.heads[key] = number;
        Ok(())
    }
}

/// Puts zeros at the end until there is a number at a place.
fn reach(heads: &mut Vec<u32>, place: usize) -> Result<(), AllocError>
    ensures there { OnOk result (place < length heads.new.items) }
    ensures same { (at : ℕ) → slice_index_or heads.new.items at 0 ≡ slice_index_or heads.old.items at 0 }
{
    if place < heads.len() {
        return Ok(());
    }
    match place.checked_add(1) {
        Some(len) => heads.resize(len, 0),
        None => Err(AllocError),
    }
}

/// The number of a link that comes next.
fn next_number(links: &[Link]) -> Result<u32, AllocError>
    ensures { IfOk result (λ number. number ≡ length links.now + 1) }
{
    match u32::try_from(links.len()) {
        Ok(count) if count < u32::MAX => Ok(count + 1),
        _ => Err(AllocError),
    }
}
