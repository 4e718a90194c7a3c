//! What stands between two tags.

ghost use Rattle.std.specs.Prelude.{◌≡◌, IfOk, MatchOption};
ghost use Rattle.xml_document.specs.Markup.{Piece, Text};
ghost use Rattle.xml_document.specs.Reads.{Decodes};

use crate::characters::first_of;
use crate::fault::{Reason, Refusal, refused};
use crate::markup::{behind_comment, behind_instruction, section_at};
use crate::reference::{push_character, reference_at};

/// Appends what the comment, instruction or CDATA section stands for with which the text begins, and gives what is behind it.
fn read_markup<'a>(bytes: &mut Vec<u8>, text: &'a [u8]) -> Result<Option<&'a [u8]>, Refusal>
    ensures { IfOk result (λ o. MatchOption o (bytes.new.items ≡ bytes.old.items)
        (λ rest. Decodes (Piece text.now rest.now) bytes.old.items bytes.new.items)) }
{
    if text.starts_with(b"<!--") {
        let Some(rest) = behind_comment(text) else {
            return Err(refused(Reason::Comment, text));
        };
        return Ok(Some(rest));
    }
    if text.starts_with(b"<?") {
        let Some(rest) = behind_instruction(text) else {
            return Err(refused(Reason::Instruction, text));
        };
        return Ok(Some(rest));
    }
    if text.starts_with(b"<![CDATA[") {
        let Some((inside, rest)) = section_at(text) else {
            return Err(refused(Reason::Section, text));
        };
        bytes.extend_from_slice(inside)?;
        return Ok(Some(rest));
    }
    Ok(None)
}

/// Appends what the piece at the start of a text stands for, and gives what is behind it; None where a tag begins, or nothing.
fn read_piece<'a>(bytes: &mut Vec<u8>, text: &'a [u8]) -> Result<Option<&'a [u8]>, Refusal>
    ensures { IfOk result (λ o. MatchOption o (bytes.new.items ≡ bytes.old.items)
        (λ rest. Decodes (Piece text.now rest.now) bytes.old.items bytes.new.items)) }
{
    let Some((b, rest)) = first_of(text) else {
        return Ok(None);
    };
    if b == b'<' {
        return read_markup(bytes, text);
    }
    if b == b'&' {
        let Some((c, rest)) = reference_at(text) else {
            return Err(refused(Reason::Reference, text));
        };
        push_character(bytes, c)?;
        return Ok(Some(rest));
    }
    if text.starts_with(b"]]>") {
        return Err(refused(Reason::SectionEnd, text));
    }
    bytes.push(b)?;
    Ok(Some(rest))
}

/// Appends what stands at the start of a text up to the next tag, and gives what is from there on.
pub(crate) fn read_text<'a>(bytes: &mut Vec<u8>, text: &'a [u8]) -> Result<&'a [u8], Refusal>
    ensures { IfOk result (λ rest. Decodes (Text text.now rest.now) bytes.old.items bytes.new.items) }
{
    let mut rest = text;
    while let Some(after) = read_piece(bytes, rest)? {
        rest = after;
    }
    Ok(rest)
}
