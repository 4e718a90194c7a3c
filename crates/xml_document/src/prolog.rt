//! What stands before and behind the root element.

ghost use Rattle.std.specs.Prelude.{◌≡◌, ◌++◌, IfOk, IfSome, IsTrue, codes};
ghost use Rattle.xml_document.specs.Documents.{Declaration, Declared, IsUtf8Name, IsVersion, IsYesOrNo, Maybe, Misc, One, OrderMark};

use crate::characters::{Kind, behind, behind_blanks, first_of, is_blank, run_of};
use crate::fault::{Reason, Refusal, refused};
use crate::markup::{behind_comment, behind_instruction};
use crate::tag::behind_equals;
use crate::value::is_quote;

/// What is behind a byte order mark, if there is one.
pub(crate) fn behind_order_mark(text: &[u8]) -> &[u8]
    ensures { OrderMark text.now result.now }
{
    match behind(b"\xEF\xBB\xBF", text) {
        Some(rest) => rest,
        None => text,
    }
}

/// The value that a word of the XML declaration has, where it begins the text behind blanks, and what is behind it.
fn declared_at<'a>(word: &[u8], text: &'a [u8]) -> Option<(&'a [u8], &'a [u8])>
    ensures { IfSome result (λ x. Declared word.now text.now x.1.now x.0.now) }
{
    let start = behind_blanks(text);
    if start.len() == text.len() {
        return None;
    }
    let (quote, value_text) = first_of(behind_equals(behind(word, start)?)?)?;
    let (value, end) = run_of(Kind::Before(quote), value_text);
    let (closing, rest) = first_of(end)?;
    if !is_quote(quote) || closing != quote {
        return None;
    }
    Some((value, rest))
}

/// Whether a value is a version 1 of XML.
fn is_version(value: &[u8]) -> bool
    ensures { IsTrue result → IsVersion value.now }
{
    let Some(digits) = behind(b"1.", value) else {
        return false;
    };
    let (run, rest) = run_of(Kind::Digit, digits);
    !run.is_empty() && rest.is_empty()
}

/// What is behind the encoding, if the text begins with one.
fn behind_encoding(text: &[u8]) -> Result<&[u8], Refusal>
    ensures { IfOk result (λ rest. Maybe (codes "encoding") IsUtf8Name text.now rest.now) }
{
    let Some((value, rest)) = declared_at(b"encoding", text) else {
        return Ok(text);
    };
    if !value.eq_ignore_ascii_case(b"utf-8") {
        return Err(refused(Reason::Encoding, text));
    }
    Ok(rest)
}

/// Whether a value is `yes` or `no`.
fn is_yes_or_no(value: &[u8]) -> bool
    ensures { IsTrue result → IsYesOrNo value.now }
{
    value == b"yes".as_slice() || value == b"no".as_slice()
}

/// What is behind `standalone`, if the text begins with it.
fn behind_standalone(text: &[u8]) -> Result<&[u8], Refusal>
    ensures { IfOk result (λ rest. Maybe (codes "standalone") IsYesOrNo text.now rest.now) }
{
    let Some((value, rest)) = declared_at(b"standalone", text) else {
        return Ok(text);
    };
    if !is_yes_or_no(value) {
        return Err(refused(Reason::Declaration, text));
    }
    Ok(rest)
}

/// What is behind `<?xml`, if a blank is.
fn declaration_start(text: &[u8]) -> Option<&[u8]>
    ensures { IfSome result (λ start. text.now ≡ codes "<?xml" ++ start.now) }
{
    let start = behind(b"<?xml", text)?;
    let (b, _) = first_of(start)?;
    if !is_blank(b) {
        return None;
    }
    Some(start)
}

/// What is behind the XML declaration, if there is one.
pub(crate) fn behind_declaration(text: &[u8]) -> Result<&[u8], Refusal>
    ensures { IfOk result (λ rest. Declaration text.now rest.now) }
{
    let Some(start) = declaration_start(text) else {
        return Ok(text);
    };
    let Some((version, after)) = declared_at(b"version", start) else {
        return Err(refused(Reason::Declaration, text));
    };
    if !is_version(version) {
        return Err(refused(Reason::Declaration, text));
    }
    let end = behind_blanks(behind_standalone(behind_encoding(after)?)?);
    let Some(rest) = behind(b"?>", end) else {
        return Err(refused(Reason::Declaration, end));
    };
    Ok(rest)
}

/// What is behind the comments, processing instructions and blanks at the start of a text.
pub(crate) fn behind_misc(text: &[u8]) -> Result<&[u8], Refusal>
    ensures { IfOk result (λ rest. Misc text.now rest.now) }
{
    let mut rest = text;
    while let Some(after) = behind_one(rest)? {
        rest = after;
    }
    Ok(rest)
}

/// What is behind the blank, the comment or the processing instruction at the start of a text; None where none begins.
fn behind_one(text: &[u8]) -> Result<Option<&[u8]>, Refusal>
    ensures { IfOk result (λ o. IfSome o (λ rest. One text.now rest.now)) }
{
    if text.starts_with(b"<!--") {
        let Some(rest) = behind_comment(text) else {
            return Err(refused(Reason::Comment, text));
        };
        return Ok(Some(rest));
    }
    if text.starts_with(b"<?") {
        let Some(rest) = behind_instruction(text) else {
            return Err(refused(Reason::Instruction, text));
        };
        return Ok(Some(rest));
    }
    match first_of(text) {
        Some((b, rest)) if is_blank(b) => Ok(Some(rest)),
        _ => Ok(None),
    }
}
