//! Characters, blanks and names.

ghost use Rattle.std.specs.Prelude.{◌≡◌, ◌<◌, ◌≤◌, ◌∷◌, ◌++◌, [], None, IfOk, IfSome, length};
ghost use Rattle.xml_document.specs.Kinds.{is_of};
ghost use Rattle.xml_document.specs.Characters.{is_blank, is_char, is_name_byte, is_name_start, Blanks, IsText, Name, Run, UpTo};

use crate::fault::{Reason, Refusal};

/// The first byte of a text, and those behind it.
pub(crate) fn first_of(text: &[u8]) -> Option<(u8, &[u8])>
    ensures first { IfSome result (λ x. text.now ≡ x.0 ∷ x.1.now) }
    ensures none { result ≡ None → text.now ≡ [] }
{
    match text {
        [b, rest @ ..] => Some((*b, rest)),
        [] => None,
    }
}

/// What is behind a mark that the text begins with.
pub(crate) fn behind<'a>(mark: &[u8], text: &'a [u8]) -> Option<&'a [u8]>
    ensures { IfSome result (λ rest. text.now ≡ mark.now ++ rest.now) }
{
    if !text.starts_with(mark) {
        return None;
    }
    Some(&text[mark.len()..])
}

/// Whether XML allows a character.
#[tactic(auto, unfolding(crate::specs::Characters::is_char))]
pub(crate) fn is_char(c: char) -> bool
    ensures { result ≡ is_char c }
{
    matches!(c, '\t' | '\n' | '\r' | ' '..='\u{D7FF}' | '\u{E000}'..='\u{FFFD}' | '\u{10000}'..='\u{10FFFF}')
}

/// The text is UTF-8 of characters that XML allows.
pub(crate) fn check_characters(text: &[u8]) -> Result<(), Refusal>
    ensures { IfOk result (λ _. IsText text.now) }
{
    let characters = match std::str::from_utf8(text) {
        Ok(characters) => characters,
        Err(error) => return Err(refused_at(text, error.valid_up_to())),
    };
    let mut at: usize = 0;
    for c in characters.chars() {
        if !is_char(c) {
            return Err(refused_at(text, at));
        }
        at = at.saturating_add(c.len_utf8());
    }
    Ok(())
}

/// No character that XML allows stands at a place of the text.
fn refused_at(text: &[u8], at: usize) -> Refusal {
    Refusal::Text {
        reason: Reason::Character,
        left: text.len().saturating_sub(at),
    }
}

/// Whether a byte is a blank.
pub(crate) fn is_blank(b: u8) -> bool
    ensures { result ≡ is_blank b }
{
    matches!(b, b' ' | b'\t' | b'\r' | b'\n')
}

/// Whether a name can begin with a byte.
pub(crate) fn is_name_start(b: u8) -> bool
    ensures { result ≡ is_name_start b }
{
    b.is_ascii_alphabetic() || matches!(b, b':' | b'_')
}

/// Whether a byte can be in a name.
fn is_name_byte(b: u8) -> bool
    ensures { result ≡ is_name_byte b }
{
    b.is_ascii_alphanumeric() || matches!(b, b':' | b'_' | b'-' | b'.')
}

/// What bytes side by side may be.
#[derive(Clone, Copy)]
pub(crate) enum Kind {
    Blank,
    OfName,
    Digit,
    /// Any but this one.
    Before(u8),
}

/// Whether a byte is of a kind.
fn is_of(kind: Kind, b: u8) -> bool
    ensures { result ≡ is_of kind b }
{
    match kind {
        Kind::Blank => is_blank(b),
        Kind::OfName => is_name_byte(b),
        Kind::Digit => b.is_ascii_digit(),
        Kind::Before(quote) => b != quote,
    }
}

/// The bytes of a kind at the start of a text, as many as there are, and what is behind them.
pub(crate) fn run_of(kind: Kind, text: &[u8]) -> (&[u8], &[u8])
    ensures { Run (is_of kind) text.now result.1.now result.0.now }
{
    let mut rest = text;
    while let Some((b, after)) = first_of(rest) {
        if !is_of(kind, b) {
            break;
        }
        rest = after;
    }
    (&text[..text.len() - rest.len()], rest)
}

/// What is behind the blanks at the start of a text.
pub(crate) fn behind_blanks(text: &[u8]) -> &[u8]
    ensures { Blanks text.now result.now }
{
    let (_, rest) = run_of(Kind::Blank, text);
    rest
}

/// The name at the start of a text, and what is behind it.
pub(crate) fn name_at(text: &[u8]) -> Option<(&[u8], &[u8])>
    ensures { IfSome result (λ x. Name text.now x.1.now x.0.now) }
{
    let (name, rest) = run_of(Kind::OfName, text);
    let (first, _) = first_of(name)?;
    if !is_name_start(first) {
        return None;
    }
    Some((name, rest))
}

/// What is before the first mark in a text, and what is behind it.
pub(crate) fn up_to<'a>(text: &'a [u8], mark: &[u8]) -> Option<(&'a [u8], &'a [u8])>
    ensures { IfSome result (λ x. UpTo mark.now text.now x.1.now x.0.now) }
{
    let mut rest = text;
    while !rest.starts_with(mark) {
        let (_, after) = first_of(rest)?;
        rest = after;
    }
    Some((&text[..text.len() - rest.len()], &rest[mark.len()..]))
}
