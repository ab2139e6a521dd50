//! Links, each of which leads to an earlier one.

ghost use Rattle.std.specs.Prelude.{◌≡◌};
ghost use Rattle.cell_index.specs.inner.Links.{earlier, link_at};

/// An item of a chain, and the number of the link before it. Links are numbered from 1 on; 0 is none.
#[derive(Clone, Copy)]
pub(crate) struct Link {
    pub(crate) item: u32,
    pub(crate) next: u32,
}

impl Link {
    /// The number of the link before this one, whose number is given; a link leads to an earlier one.
    pub(crate) fn earlier(self, number: u32) -> u32
        ensures { result ≡ earlier self number }
    {
        if self.next < number { self.next } else { 0 }
    }
}

/// The link with a number.
pub(crate) fn link_at(links: &[Link], number: u32) -> Option<Link>
    ensures { result ≡ link_at links.now number }
{
    if number == 0 {
        return None;
    }
    links.get(number as usize - 1).copied()
}
