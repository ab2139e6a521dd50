//! What a fragment breaks whatever is in scope around it (Namespaces in XML 1.0).

ghost use Rattle.std.specs.Prelude.{◌≡◌, None, Some, OnOk, IfErr};
ghost use Rattle.std.specs.List.{list_any};
ghost use Rattle.name_scopes.specs.DocFaults.{has_pair, same_qname};
ghost use Rattle.name_scopes.specs.Fragments.{names_fault, own_fault, own_tag_fault};

use crate::fault::DocKind;
use crate::tag::declaring_fault;
use pyx_core::{Attr, Event, EventList};

/// Finds what a fragment breaks whatever is in scope around it: the first start tag with two attributes of one QName, with
/// a declaration that may not be, or with a namespace that has both kinds of quotes.
///
/// Takes no memory. Costs a comparison for each two attributes of a start tag, and else time linear in the events.
pub fn check_names(events: &EventList) -> Result<(), DocKind>
    ensures good { OnOk result (names_fault events.now ≡ None) }
    ensures fault { IfErr result (λ found. names_fault events.now ≡ Some found) }
{
    for event in events.as_slice() {
        if let Some(fault) = own_fault(event) {
            return Err(fault);
        }
    }
    Ok(())
}

/// The first such rule that an event breaks.
fn own_fault(event: &Event) -> Option<DocKind>
    ensures { result ≡ own_fault event.now }
{
    match event {
        Event::Start { name: _, attrs } => own_tag_fault(attrs.as_slice()),
        Event::End { name: _ } => None,
        Event::Chars { text: _ } => None,
        Event::Pi { target: _, body: _ } => None,
        Event::Comment { text: _ } => None,
    }
}

/// The first such rule that the attributes of a start tag break.
fn own_tag_fault(attrs: &[Attr]) -> Option<DocKind>
    ensures { result ≡ own_tag_fault attrs.now }
{
    if pair_qnames(attrs) {
        return Some(DocKind::SameAttribute);
    }
    declaring_fault(attrs)
}

/// Whether two attributes have one QName.
pub(crate) fn pair_qnames(attrs: &[Attr]) -> bool
    ensures { result ≡ has_pair same_qname attrs.now }
{
    let mut place = 0usize;
    while place < attrs.len() {
        if share_qname(&attrs[place], &attrs[place + 1..]) {
            return true;
        }
        place += 1;
    }
    false
}

/// Whether one of the others has the QName of an attribute.
fn share_qname(attr: &Attr, others: &[Attr]) -> bool
    ensures { result ≡ list_any (same_qname attr.now) others.now }
{
    for other in others {
        if attr.name.as_str() == other.name.as_str() {
            return true;
        }
    }
    false
}
