//! The count of steps.

ghost use Rattle.std.specs.Prelude.{◌≡◌, ◌+◌, ◌<◌, min};

use std::marker::Model;
use std::sync::ledger::{Blank, Book, Ledger, Share};

/// How many steps were taken: a step is one visit of evaluation. Only `tick` and `tick_times` change it.
///
/// Contracts see the whole count; 64 bits of it are kept for those who ask.
#[derive(Drop)]
pub struct Steps<L: Ledger> {
    book: Book<L>,
    share: Share<L>,
    taken: u64,
}

impl<L: Ledger> Model for Steps<L> {
    ghost use Rattle.std.specs.Prelude.{◌≡◌, ℕ, ◌<◌, min};

    ghost Value = { ℕ };

    ghost view = { λ s. s.book.total };

    ghost invariant = { λ s. (0 < s.share.parts) × (s.taken ≡ min s.book.total 18446744073709551615) };
}

impl<L: Ledger> Steps<L> {
    /// A count of no steps over a ledger that nothing stands for yet.
    pub fn start(blank: Blank) -> Steps<L>
        requires name { blank.name ≡ L.name }
        requires parts { blank.parts ≡ L.parts }
        requires some { 0 < L.parts }
        ensures { result ≡ 0 }
    {
        let (book, share) = blank.open();
        Steps {
            book,
            share,
            taken: 0,
        }
    }

    /// The count, or the greatest number of 64 bits where it is more.
    pub fn taken(&self) -> u64
        ensures { result ≡ min self.now 18446744073709551615 }
    {
        self.taken
    }

    /// One step more.
    pub fn tick(&mut self)
        ensures { self.new ≡ self.old + 1 }
    {
        self.book.add(&mut self.share, 1);
        self.taken = self.taken.saturating_add(1);
    }

    /// So many steps more.
    pub fn tick_times(&mut self, count: usize)
        ensures { self.new ≡ self.old + count }
    {
        self.book.add(&mut self.share, count as u64);
        self.taken = self.taken.saturating_add(count as u64);
    }
}
