//! What stands in the document of a schema, as it is measured.

ghost use Rattle.std.specs.Prelude.{◌≡◌, List};
ghost use Rattle.std.specs.List.{flat_map};
ghost use Rattle.pyx_core.specs.declared.event.Event.{Event};
ghost use Rattle.sch_flat.specs.FlatSize.{size_of};

use crate::size::FlatSize;
use sch_base::ItemList;

/// What stands in the document of a schema, of which no event has to be made to tell its size.
pub(crate) trait Measured {
    // its events
    ghost events: { Self → List Event };

    /// How large the events are.
    fn size(&self) -> FlatSize
        ensures { result ≡ size_of (events self.now) };
}

/// How large the events of all items are.
pub(crate) fn size_of_all<T: Measured>(items: &ItemList<T>) -> FlatSize
    ensures { result ≡ size_of (flat_map T.events items.now) }
{
    let mut size = FlatSize::none();
    for item in items.as_slice() {
        size = size.then(item.size());
    }
    size
}
