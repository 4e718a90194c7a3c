//! Where jumps lead.

ghost use Rattle.std.specs.Prelude.{◌≡◌, ◌∷◌, [], IsTrue, codes, false, map};
ghost use Rattle.std.specs.Option.{option_map_or};
ghost use Rattle.std.specs.Str.{bytes_eq};
ghost use Rattle.xml_parts.specs.Parts.{attribute_in, items_from, part_of};
ghost use Rattle.plc_elements.specs.Effects.{Lands, LeadsTo, is_label, labels_from};

use crate::names::Body;
use network_check::Effect;
use xml_document::Document;
use xml_parts::{Part, attribute, bytes_at};

/// Whether an element has this word as the name of a label.
fn has_label(document: &Document, place: usize, word: &[u8]) -> bool
    ensures { result ≡ option_map_or (bytes_eq word.now) (attribute_in (codes "label") (items_from document.now place)) false }
{
    match attribute(document, place, b"label") {
        Some(found) => word == found,
        None => false,
    }
}

/// Whether a part is a label with this word.
fn is_label(document: &Document, part: Part, word: &[u8]) -> bool
    ensures { result ≡ is_label word.now (part_of document.now part) }
{
    bytes_at(&document.bytes, part.name) == b"label".as_slice()
        && has_label(document, part.inside, word)
}

/// Whether no part, counted from a number on, is a label with this word.
fn has_no_label(document: &Document, parts: &[Part], from: usize, word: &[u8]) -> bool
    ensures { IsTrue result → labels_from from word.now (map (part_of document.now) parts.now) ≡ [] }
{
    let [part, rest @ ..] = parts else {
        return true;
    };
    if is_label(document, *part, word) {
        return false;
    }
    match from.checked_add(1) {
        Some(next) => has_no_label(document, rest, next, word),
        None => false,
    }
}

/// Whether the part with a number is the only one, counted from a number on, that is a label with this word.
fn is_only_label(
    document: &Document,
    parts: &[Part],
    from: usize,
    word: &[u8],
    target: usize,
) -> bool
    ensures { IsTrue result → labels_from from word.now (map (part_of document.now) parts.now) ≡ target ∷ [] }
{
    let [part, rest @ ..] = parts else {
        return false;
    };
    let Some(next) = from.checked_add(1) else {
        return false;
    };
    if is_label(document, *part, word) {
        return from == target && has_no_label(document, rest, next, word);
    }
    is_only_label(document, rest, next, word, target)
}

/// Whether a jump over so many of the parts that act behind it leads to its label.
fn leads_to(body: Body<'_>, place: usize, over: usize, behind: &[usize]) -> bool
    ensures { IsTrue result → LeadsTo body.entry (items_from body.entry.document.now place) over behind.now }
{
    let (Some(word), Some(target)) = (attribute(body.document, place, b"label"), behind.get(over))
    else {
        return false;
    };
    is_only_label(body.document, body.parts, 0, word, *target)
}

/// Whether a jump leads over some of the parts that act behind it to its label; true of whatever else a part does.
pub(crate) fn lands(body: Body<'_>, place: usize, effect: Effect, behind: &[usize]) -> bool
    ensures { IsTrue result → Lands body.entry (items_from body.entry.document.now place) effect behind.now }
{
    match effect {
        Effect::Jump { over, .. } => leads_to(body, place, over, behind),
        Effect::Coil { .. }
        | Effect::Trigger { .. }
        | Effect::Call { .. }
        | Effect::Return { .. }
        | Effect::Label => true,
    }
}
