//! What an element says of itself.

ghost use Rattle.std.specs.Prelude.{◌≡◌, map, option_map};
ghost use Rattle.xml_document.specs.Items.{item_of};
ghost use Rattle.xml_parts.specs.Parts.{attribute_in, items_from, text_in};

use crate::spans::bytes_at;
use xml_document::{Document, Event};

/// The events of a document from a place on.
#[tactic(auto, using(crate::proofs::Places::from_place))]
pub(crate) fn events_from(document: &Document, place: usize) -> &[Event]
    ensures { map (item_of document.now.bytes.items) result.now ≡ items_from document.now place }
{
    &document.events[place.min(document.events.len())..]
}

/// The value of the attribute with a name, among those that events begin with.
fn attribute_among<'a>(bytes: &'a [u8], events: &[Event], name: &[u8]) -> Option<&'a [u8]>
    ensures { option_map (λ value. value.now) result ≡ attribute_in name.now (map (item_of bytes.now) events.now) }
{
    match events {
        [] => None,
        [event, rest @ ..] => match *event {
            Event::Attribute { name: other, value } => {
                if bytes_at(bytes, other) == name {
                    Some(bytes_at(bytes, value))
                } else {
                    attribute_among(bytes, rest, name)
                }
            }
            _ => None,
        },
    }
}

/// The value of the attribute with a name, of the element behind whose name a place is.
pub fn attribute<'a>(document: &'a Document, place: usize, name: &[u8]) -> Option<&'a [u8]>
    ensures { option_map (λ value. value.now) result ≡ attribute_in name.now (items_from document.now place) }
{
    attribute_among(&document.bytes, events_from(document, place), name)
}

/// The characters that come first in events, behind attributes.
fn text_among<'a>(bytes: &'a [u8], events: &[Event]) -> &'a [u8]
    ensures { result.now ≡ text_in (map (item_of bytes.now) events.now) }
{
    match events {
        [] => &[],
        [event, rest @ ..] => match *event {
            Event::Attribute { .. } => text_among(bytes, rest),
            Event::Characters { text } => bytes_at(bytes, text),
            _ => &[],
        },
    }
}

/// The characters that an element begins with, behind whose name a place is; none where it begins with an element or has nothing in it.
pub fn text(document: &Document, place: usize) -> &[u8]
    ensures { result.now ≡ text_in (items_from document.now place) }
{
    text_among(&document.bytes, events_from(document, place))
}
