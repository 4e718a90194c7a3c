//! References to characters and entities.

ghost use Rattle.std.specs.Prelude.{◌≡◌, ◌≤◌, ◌++◌, IfSome, OnOk, codes, encode_utf8, true};
ghost use Rattle.xml_document.specs.Characters.{is_char};
ghost use Rattle.xml_document.specs.Markup.{Digits, Reference};

use crate::characters::{behind, first_of, is_char};
use crate::fault::Refusal;

/// The number that digits at the start of a text are, and what is behind them; None where it is greater than that of any character.
fn number_at(text: &[u8], base: u32) -> Option<(u32, &[u8])>
    requires low { 2 ≤ base }
    requires high { base ≤ 16 }
    ensures { IfSome result (λ x. Digits base text.now x.1.now x.0) }
{
    let mut number = 0;
    let mut rest = text;
    while let Some((b, after)) = first_of(rest) {
        let Some(digit) = (b as char).to_digit(base) else {
            return Some((number, rest));
        };
        number = number * base + digit;
        if number > 0x10FFFF {
            return None;
        }
        rest = after;
    }
    Some((number, rest))
}

/// The character that digits and a semicolon at the start of a text stand for, and what is behind them.
fn character_at(text: &[u8], base: u32) -> Option<(char, &[u8])>
    requires low { 2 ≤ base }
    requires high { base ≤ 16 }
    ensures { IfSome result (λ x. Digits base text.now (codes ";" ++ x.1.now) x.0 × (is_char x.0 ≡ true)) }
{
    let (number, end) = number_at(text, base)?;
    let rest = behind(b";", end)?;
    let c = char::from_u32(number)?;
    if !is_char(c) {
        return None;
    }
    Some((c, rest))
}

/// The character of an entity at the start of a text, and what is behind it.
fn entity_at(text: &[u8]) -> Option<(char, &[u8])>
    ensures { IfSome result (λ x. Reference text.now x.1.now x.0) }
{
    if let Some(rest) = behind(b"&lt;", text) {
        return Some(('<', rest));
    }
    if let Some(rest) = behind(b"&gt;", text) {
        return Some(('>', rest));
    }
    if let Some(rest) = behind(b"&amp;", text) {
        return Some(('&', rest));
    }
    if let Some(rest) = behind(b"&apos;", text) {
        return Some(('\'', rest));
    }
    Some(('"', behind(b"&quot;", text)?))
}

/// The character that a reference at the start of a text stands for, and what is behind it.
pub(crate) fn reference_at(text: &[u8]) -> Option<(char, &[u8])>
    ensures { IfSome result (λ x. Reference text.now x.1.now x.0) }
{
    if let Some(digits) = behind(b"&#x", text) {
        return character_at(digits, 16);
    }
    if let Some(digits) = behind(b"&#", text) {
        return character_at(digits, 10);
    }
    entity_at(text)
}

/// Appends a character in UTF-8.
pub(crate) fn push_character(bytes: &mut Vec<u8>, c: char) -> Result<(), Refusal>
    ensures { OnOk result (bytes.new.items ≡ bytes.old.items ++ encode_utf8 c) }
{
    let mut room = [0; 4];
    let encoded = c.encode_utf8(&mut room);
    bytes.extend_from_slice(encoded.as_bytes())?;
    Ok(())
}
