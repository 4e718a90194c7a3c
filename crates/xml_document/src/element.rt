//! Elements within one another.

ghost use Rattle.std.specs.Prelude.{◌≡◌, ◌∷◌, [], IfOk};
ghost use Rattle.xml_document.specs.Elements.{Content, Element};
ghost use Rattle.xml_document.specs.Items.{closes};
ghost use Rattle.xml_document.specs.Reads.{Gap, Grows};

use crate::content::read_text;
use crate::document::{Document, Event, Span};
use crate::fault::{Reason, Refusal, refused};
use crate::tag::{behind_end_tag, read_tag};

/// How many elements that have an end tag may stand within one another.
pub const DEPTH: usize = 200;

/// Reads what stands between two tags, as one event if it is anything, and gives what is from the next tag on.
fn read_gap<'a>(document: &mut Document, text: &'a [u8]) -> Result<&'a [u8], Refusal>
    ensures { IfOk result (λ rest. Grows (Gap text.now rest.now) document.old document.new) }
{
    let start = document.bytes.len();
    let rest = read_text(&mut document.bytes, text)?;
    let end = document.bytes.len();
    if start == end {
        return Ok(rest);
    }
    let text = Span { start, end };
    document.events.push(Event::Characters { text })?;
    Ok(rest)
}

/// Adds the end of an element.
fn close(document: &mut Document) -> Result<(), Refusal>
    ensures { IfOk result (λ _. Grows (λ items. items ≡ closes ∷ []) document.old document.new) }
{
    document.events.push(Event::Close)?;
    Ok(())
}

/// Whether a tag that opens an element may begin the text.
fn begins_element(text: &[u8]) -> bool {
    text.starts_with(b"<") && !text.starts_with(b"</")
}

/// Reads the content at the start of a text, and gives what is from its end tag on; `left` more elements may stand within one another.
#[cycle(element)]
fn read_content<'a>(
    document: &mut Document,
    left: usize,
    text: &'a [u8],
) -> Result<&'a [u8], Refusal>
    ensures { IfOk result (λ rest. Grows (Content text.now rest.now) document.old document.new) }
{
    let mut rest = read_gap(document, text)?;
    while begins_element(rest) {
        let behind = read_element(document, left, rest)?;
        rest = read_gap(document, behind)?;
    }
    Ok(rest)
}

/// Reads the element at the start of a text, and gives what is behind it; `left` more may stand within one another.
#[cycle(element)]
pub(crate) fn read_element<'a>(
    document: &mut Document,
    left: usize,
    text: &'a [u8],
) -> Result<&'a [u8], Refusal>
    ensures { IfOk result (λ rest. Grows (Element text.now rest.now) document.old document.new) }
{
    let tag = read_tag(document, text)?;
    if tag.is_empty {
        close(document)?;
        return Ok(tag.rest);
    }
    if left == 0 {
        return Err(refused(Reason::Depth, text));
    }
    let end = read_content(document, left - 1, tag.rest)?;
    let Some(rest) = behind_end_tag(end, tag.name) else {
        return Err(refused(Reason::EndTag, end));
    };
    close(document)?;
    Ok(rest)
}
