//! Tags and their attributes.

ghost use Rattle.std.specs.Prelude.{◌≡◌, ◌++◌, ◌≤◌, ℕ, List, IfOk, IfSome, IsTrue, true, vec_len};
ghost use Rattle.xml_document.specs.Characters.{Space};
ghost use Rattle.xml_document.specs.Elements.{Attributes, EndTag, Equals, IsNew};
ghost use Rattle.xml_document.specs.Items.{Item, has};
ghost use Rattle.xml_document.specs.Reads.{Are, Grows, OneAttribute, OpenedName, OpensTag, Stands, StandsFor};

use crate::characters::{behind, behind_blanks, first_of, is_name_start, name_at};
use crate::document::{Document, Event, Span};
use crate::fault::{Reason, Refusal, refused};
use crate::value::read_value;

/// How many attributes a tag may have.
pub const ATTRIBUTES: usize = 256;

/// A tag that opens an element.
#[derive(Clone, Copy)]
pub(crate) struct Tag<'a> {
    pub name: &'a [u8],
    /// It closes the element too.
    pub is_empty: bool,
    /// What is behind it.
    pub rest: &'a [u8],
}

/// Appends a word, and says where it stands.
fn append(bytes: &mut Vec<u8>, word: &[u8]) -> Result<Span, Refusal>
    ensures whole { IfOk result (λ span. bytes.new.items ≡ bytes.old.items ++ word.now) }
    ensures stands { IfOk result (λ span. Stands bytes.new.items span word.now) }
{
    let start = bytes.len();
    bytes.extend_from_slice(word)?;
    Ok(Span {
        start,
        end: bytes.len(),
    })
}

/// What is behind the equals sign, with blanks around it, at the start of a text.
pub(crate) fn behind_equals(text: &[u8]) -> Option<&[u8]>
    ensures { IfSome result (λ rest. Equals text.now rest.now) }
{
    let after = behind(b"=", behind_blanks(text))?;
    Some(behind_blanks(after))
}

/// The bytes of a document at a range of them; none where there is no such range.
fn bytes_at(bytes: &[u8], span: Span) -> &[u8]
    ensures { (word : List ℕ) → Stands bytes.now span word → result.now ≡ word }
{
    if span.start <= span.end && span.end <= bytes.len() {
        &bytes[span.start..span.end]
    } else {
        &[]
    }
}

/// Whether an event is an attribute of this name.
fn is_named(bytes: &[u8], event: Event, name: &[u8]) -> bool
    ensures { (word value : List ℕ) → StandsFor bytes.now event (has word value) → word ≡ name.now → result ≡ true }
{
    match event {
        Event::Attribute { name: other, .. } => bytes_at(bytes, other) == name,
        _ => false,
    }
}

/// Whether no event is an attribute of this name.
fn is_new(bytes: &[u8], events: &[Event], name: &[u8]) -> bool
    ensures { IsTrue result → (items : List Item) → Are bytes.now events.now items → IsNew items name.now }
{
    match events {
        [] => true,
        [event, others @ ..] => { !is_named(bytes, *event, name) && is_new(bytes, others, name) }
    }
}

/// What is behind the blanks that the text begins with, if there are some and a name is behind them.
fn attribute_start(text: &[u8]) -> Option<&[u8]>
    ensures { IfSome result (λ start. Space text.now start.now) }
{
    let start = behind_blanks(text);
    let (b, _) = first_of(start)?;
    if start.len() == text.len() || !is_name_start(b) {
        return None;
    }
    Some(start)
}

/// Reads the attribute at the start of a text, and gives what is behind it. The attributes of the tag are the events from `first` on.
fn read_attribute<'a>(
    document: &mut Document,
    first: usize,
    text: &'a [u8],
) -> Result<&'a [u8], Refusal>
    requires { first ≤ vec_len document.old.events }
    ensures { IfOk result (λ rest. Grows (OneAttribute text.now rest.now first document.old) document.old document.new) }
{
    let Some((name, after)) = name_at(text) else {
        return Err(refused(Reason::Attribute, text));
    };
    let Some(value_text) = behind_equals(after) else {
        return Err(refused(Reason::Attribute, text));
    };
    if document.events.len() - first >= ATTRIBUTES {
        return Err(refused(Reason::Attributes, text));
    }
    if !is_new(&document.bytes, &document.events[first..], name) {
        return Err(refused(Reason::Twice, text));
    }
    let name = append(&mut document.bytes, name)?;
    let start = document.bytes.len();
    let rest = read_value(&mut document.bytes, value_text)?;
    let value = Span {
        start,
        end: document.bytes.len(),
    };
    document.events.push(Event::Attribute { name, value })?;
    Ok(rest)
}

/// Reads attributes, each behind blanks, and gives what is behind them.
fn read_attributes<'a>(document: &mut Document, text: &'a [u8]) -> Result<&'a [u8], Refusal>
    ensures { IfOk result (λ rest. Grows (Attributes text.now rest.now) document.old document.new) }
{
    let first = document.events.len();
    let mut rest = text;
    while let Some(start) = attribute_start(rest) {
        rest = read_attribute(document, first, start)?;
    }
    Ok(rest)
}

/// Reads the tag at the start of a text, which opens an element.
pub(crate) fn read_tag<'a>(document: &mut Document, text: &'a [u8]) -> Result<Tag<'a>, Refusal>
    ensures { IfOk result (λ tag. Grows (OpensTag text.now tag.rest.now tag.name.now tag.is_empty) document.old document.new) }
{
    let Some((name, after)) = opened_name(text) else {
        return Err(refused(Reason::Tag, text));
    };
    let span = append(&mut document.bytes, name)?;
    document.events.push(Event::Open { name: span })?;
    let end = behind_blanks(read_attributes(document, after)?);
    if let Some(rest) = behind(b">", end) {
        return Ok(Tag {
            name,
            is_empty: false,
            rest,
        });
    }
    if let Some(rest) = behind(b"/>", end) {
        return Ok(Tag {
            name,
            is_empty: true,
            rest,
        });
    }
    Err(refused(Reason::Tag, end))
}

/// The name of the tag at the start of a text, and what is behind it.
fn opened_name(text: &[u8]) -> Option<(&[u8], &[u8])>
    ensures { IfSome result (λ x. OpenedName text.now x.1.now x.0.now) }
{
    name_at(behind(b"<", text)?)
}

/// What is behind the end tag of this name at the start of a text.
pub(crate) fn behind_end_tag<'a>(text: &'a [u8], name: &[u8]) -> Option<&'a [u8]>
    ensures { IfSome result (λ rest. EndTag text.now rest.now name.now) }
{
    let (found, after) = name_at(behind(b"</", text)?)?;
    if found != name {
        return None;
    }
    behind(b">", behind_blanks(after))
}
