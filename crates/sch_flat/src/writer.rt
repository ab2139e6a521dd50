//! A writer of events.

ghost use Rattle.std.specs.Prelude.{◌≡◌, ◌∷◌, [], ◌++◌, List, map, IfOk, OnOk};
ghost use Rattle.std.specs.List.{flat_map};
ghost use Rattle.pyx_core.specs.declared.event.Event.{Event};
ghost use Rattle.pyx_core.specs.declared.event.Event.TheVariants as event;
ghost use Rattle.sch_flat.specs.FlatDocument.{characters, element, only_given};
ghost use Rattle.sch_texts.specs.Ids.{id_list};
ghost use Rattle.sch_flat.specs.inner.Given.{seen};

use crate::given::Given;
use pyx_core::{Attr, AttrList, Event, EventList};
use sch_base::{ItemList, Text};
use sch_model::TextList;
use sch_texts::joined_ids;
use std::alloc::{AllocError, Global};

/// What stands in the document of a schema.
pub(crate) trait InDocument {
    // its events
    ghost events: { Self → List Event };

    /// Writes the events. Texts are copied once.
    fn write(&self, writer: &mut Writer) -> Result<(), AllocError>
        ensures { OnOk result (writer.new.events ≡ writer.old.events ++ events self.now) };
}

/// Writes events, one after another.
#[derive(Drop)]
pub(crate) struct Writer {
    alloc: Global,
    events: EventList,
}

impl Writer {
    /// A writer that has written nothing.
    pub(crate) fn new(alloc: Global) -> Writer
        ensures { result.events ≡ [] }
    {
        Writer {
            alloc,
            events: ItemList::new(alloc),
        }
    }

    /// The events that were written.
    pub(crate) fn into_events(self) -> EventList
        ensures { result ≡ self.events }
    {
        self.events
    }

    /// An element begins.
    pub(crate) fn start(&mut self, name: &str, attributes: &[Given<'_>]) -> Result<(), AllocError>
        ensures { OnOk result (self.new.events ≡ self.old.events ++ event.Start name.now (only_given (map seen attributes.now)) ∷ []) }
    {
        let attrs = attr_list(self.alloc, attributes)?;
        let name = Text::copy(self.alloc, name)?;
        self.events.push(Event::Start { name, attrs })
    }

    /// The innermost open element, which has this name, ends.
    pub(crate) fn end(&mut self, name: &str) -> Result<(), AllocError>
        ensures { OnOk result (self.new.events ≡ self.old.events ++ event.End name.now ∷ []) }
    {
        let name = Text::copy(self.alloc, name)?;
        self.events.push(Event::End { name })
    }

    /// An element that holds nothing.
    pub(crate) fn empty(&mut self, name: &str, attributes: &[Given<'_>]) -> Result<(), AllocError>
        ensures { OnOk result (self.new.events ≡ self.old.events ++ element name.now (map seen attributes.now) []) }
    {
        self.start(name, attributes)?;
        self.end(name)
    }

    /// Characters, and nothing for an empty text.
    pub(crate) fn chars(&mut self, text: &Text) -> Result<(), AllocError>
        ensures { OnOk result (self.new.events ≡ self.old.events ++ characters text.now) }
    {
        if text.as_str().is_empty() {
            return Ok(());
        }
        let text = Text::copy(self.alloc, text.as_str())?;
        self.events.push(Event::Chars { text })
    }

    /// What stands in the document one after another.
    pub(crate) fn all<T: InDocument>(&mut self, items: &ItemList<T>) -> Result<(), AllocError>
        ensures { OnOk result (self.new.events ≡ self.old.events ++ flat_map T.events items.now) }
    {
        for item in items.as_slice() {
            item.write(self)?;
        }
        Ok(())
    }
}

/// The attributes that are given.
fn attr_list(alloc: Global, attributes: &[Given<'_>]) -> Result<AttrList, AllocError>
    ensures { IfOk result (λ attrs. attrs ≡ only_given (map seen attributes.now)) }
{
    let mut attrs = ItemList::new(alloc);
    for given in attributes {
        push_given(alloc, &mut attrs, *given)?;
    }
    Ok(attrs)
}

/// Puts an attribute at the end, if it is given.
fn push_given(alloc: Global, attrs: &mut AttrList, given: Given<'_>) -> Result<(), AllocError>
    ensures { OnOk result (attrs.new ≡ attrs.old ++ only_given (seen given.entry ∷ [])) }
{
    match given {
        Given::Fixed(name, value) => push_attr(alloc, attrs, name, value),
        Given::Always(name, value) => push_attr(alloc, attrs, name, value.as_str()),
        Given::IfAny(name, Some(value)) => push_attr(alloc, attrs, name, value.as_str()),
        Given::IfFixed(name, Some(value)) => push_attr(alloc, attrs, name, value),
        Given::IfAny(_, None) | Given::IfFixed(_, None) => Ok(()),
        Given::Ids(name, ids) => push_ids(alloc, attrs, name, ids),
    }
}

/// Puts an attribute with ids at the end, if there are some.
fn push_ids(
    alloc: Global,
    attrs: &mut AttrList,
    name: &str,
    ids: &TextList,
) -> Result<(), AllocError>
    ensures { OnOk result (attrs.new ≡ attrs.old ++ only_given ((name.now, id_list ids.now) ∷ [])) }
{
    match joined_ids(alloc, ids)? {
        Some(value) => push_attr(alloc, attrs, name, value.as_str()),
        None => Ok(()),
    }
}

/// Puts an attribute at the end.
fn push_attr(alloc: Global, attrs: &mut AttrList, name: &str, value: &str) -> Result<(), AllocError>
    ensures { OnOk result (attrs.new ≡ attrs.old ++ record { name = name.now; value = value.now } ∷ []) }
{
    let name = Text::copy(alloc, name)?;
    let value = Text::copy(alloc, value)?;
    attrs.push(Attr { name, value })
}
