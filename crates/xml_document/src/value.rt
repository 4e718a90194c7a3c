//! Values of attributes.

ghost use Rattle.std.specs.Prelude.{◌≡◌, IfOk, MatchOption};
ghost use Rattle.xml_document.specs.Elements.{Given, Quoted, is_quote};
ghost use Rattle.xml_document.specs.Reads.{Begins, Decodes};

use crate::characters::first_of;
use crate::fault::{Reason, Refusal, refused};
use crate::reference::{push_character, reference_at};

/// Whether a byte can begin a value.
pub(crate) fn is_quote(b: u8) -> bool
    ensures { result ≡ is_quote b }
{
    matches!(b, b'\'' | b'"')
}

/// Appends what the byte or the reference at the start of a text stands for, and gives what is behind it; None at the quote.
fn read_given<'a>(
    bytes: &mut Vec<u8>,
    quote: u8,
    text: &'a [u8],
) -> Result<Option<&'a [u8]>, Refusal>
    ensures { IfOk result (λ o. MatchOption o (Begins text.now quote × (bytes.new.items ≡ bytes.old.items))
        (λ rest. Decodes (Given quote text.now rest.now) bytes.old.items bytes.new.items)) }
{
    let Some((b, rest)) = first_of(text) else {
        return Err(refused(Reason::Attribute, text));
    };
    if b == quote {
        return Ok(None);
    }
    if b == b'<' {
        return Err(refused(Reason::Attribute, text));
    }
    if b == b'&' {
        let Some((c, rest)) = reference_at(text) else {
            return Err(refused(Reason::Reference, text));
        };
        push_character(bytes, c)?;
        return Ok(Some(rest));
    }
    bytes.push(b)?;
    Ok(Some(rest))
}

/// Appends what the value at the start of a text stands for, and gives what is behind it.
pub(crate) fn read_value<'a>(bytes: &mut Vec<u8>, text: &'a [u8]) -> Result<&'a [u8], Refusal>
    ensures { IfOk result (λ rest. Decodes (Quoted text.now rest.now) bytes.old.items bytes.new.items) }
{
    let Some((quote, start)) = first_of(text) else {
        return Err(refused(Reason::Attribute, text));
    };
    if !is_quote(quote) {
        return Err(refused(Reason::Attribute, text));
    }
    let mut rest = start;
    while let Some(after) = read_given(bytes, quote, rest)? {
        rest = after;
    }
    match first_of(rest) {
        Some((_, behind)) => Ok(behind),
        None => Err(refused(Reason::Attribute, rest)),
    }
}
