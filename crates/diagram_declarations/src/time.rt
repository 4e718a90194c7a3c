//! Duration literals.

ghost use Rattle.std.specs.Prelude.{◌≡◌, ◌↔◌, ◌≤◌, ◌<◌, ◌+◌, ◌*◌, ◌^◌, min, length, ℕ, IsTrue, IfSome, IfNone};
ghost use Rattle.std.specs.Map.{lookup};
ghost use Rattle.std.specs.Str.{str_eq_ignore_ascii_case};
ghost use Rattle.std.specs.List.{prefix_len};
ghost use Rattle.std.specs.Char.{is_ascii_alphabetic};
ghost use Rattle.diagram_declarations.specs.Duration.{IsDuration};
ghost use Rattle.diagram_declarations.specs.ReadTimes.{millis_of, range_of, units, part_at, after_underscore, total_of, after_word, after_prefix, Gives};

use crate::digits::{CAP, digits_len, number};
use crate::letters::same_letters;

/// The largest duration, in milliseconds.
pub const LARGEST_TIME: u32 = u32::MAX;

/// A unit of a duration.
#[derive(Clone, Copy)]
pub(crate) enum Unit {
    Day,
    Hour,
    Minute,
    Second,
    Milli,
}

impl Unit {
    /// How many milliseconds one unit has.
    fn millis(self) -> u64
        ensures { result ≡ millis_of self }
    {
        match self {
            Unit::Day => 86_400_000,
            Unit::Hour => 3_600_000,
            Unit::Minute => 60_000,
            Unit::Second => 1000,
            Unit::Milli => 1,
        }
    }

    /// How many of this unit make the next larger one.
    fn range(self) -> u64
        ensures { result ≡ range_of self }
    {
        match self {
            Unit::Day => 1,
            Unit::Hour => 24,
            Unit::Minute | Unit::Second => 60,
            Unit::Milli => 1000,
        }
    }
}

/// The unit that the letters of a part stand for, whatever their case.
fn unit_of(letters: &[u8]) -> Option<Unit>
    ensures { result ≡ lookup (str_eq_ignore_ascii_case letters.now) units }
{
    if same_letters(letters, b"d") {
        Some(Unit::Day)
    } else if same_letters(letters, b"h") {
        Some(Unit::Hour)
    } else if same_letters(letters, b"m") {
        Some(Unit::Minute)
    } else if same_letters(letters, b"s") {
        Some(Unit::Second)
    } else if same_letters(letters, b"ms") {
        Some(Unit::Milli)
    } else {
        None
    }
}

/// How many letters a text begins with.
fn letters_len(text: &[u8]) -> usize
    ensures value { result ≡ prefix_len is_ascii_alphabetic text.now }
    ensures within { result ≤ length text.now }
{
    text.iter().take_while(|b| b.is_ascii_alphabetic()).count()
}

/// The part of a duration that a text begins with: its number, capped at 2^32, its unit, and the text after it.
#[tactic(auto, unfolding(crate::specs::ReadTimes::part_at))]
fn part_at(text: &[u8]) -> Option<(u64, Unit, &[u8])>
    ensures value { Gives (λ p. record { number = p.0; unit = p.1; rest = p.2.now }) result (part_at text.now) }
    ensures shorter { IfSome result (λ p. length p.2.now < length text.now) }
    ensures small { IfSome result (λ p. p.0 ≤ 2 ^ 32) }
{
    let (digits, after) = text.split_at(digits_len(text));
    if digits.is_empty() {
        return None;
    }
    let (letters, rest) = after.split_at(letters_len(after));
    let unit = unit_of(letters)?;
    Some((number(digits), unit, rest))
}

/// The text after the underscore at its start, where there is one.
fn after_underscore(text: &[u8]) -> &[u8]
    ensures value { result.now ≡ after_underscore text.now }
    ensures shorter { length result.now ≤ length text.now }
{
    match text {
        [b'_', rest @ ..] => rest,
        _ => text,
    }
}

/// The milliseconds with one more part, or 2^32 where they are more.
fn with_part(total: u64, number: u64, unit: Unit) -> u64
    requires total { total ≤ 2 ^ 32 }
    requires number { number ≤ 2 ^ 32 }
    ensures value { result ≡ min (total + number * millis_of unit) (2 ^ 32) }
    ensures small { result ≤ 2 ^ 32 }
{
    (total + number * unit.millis()).min(CAP)
}

/// Whether the unit is smaller than the last one, and the number in its range.
fn may_follow(last: Unit, number: u64, unit: Unit) -> bool
    ensures { IsTrue result ↔ (millis_of unit < millis_of last) × (number < range_of unit) }
{
    unit.millis() < last.millis() && number < unit.range()
}

/// The milliseconds of a duration after its prefix, or 2^32 where they are more.
#[tactic(auto, unfolding(crate::specs::ReadTimes::total_of))]
fn total_of(text: &[u8]) -> Option<u64>
    ensures { result ≡ total_of text.now }
{
    let (number, unit, mut rest) = part_at(text)?;
    let mut total = with_part(0, number, unit);
    let mut last = unit;
    while !rest.is_empty() {
        let (number, unit, after) = part_at(after_underscore(rest))?;
        if !may_follow(last, number, unit) {
            return None;
        }
        total = with_part(total, number, unit);
        last = unit;
        rest = after;
    }
    Some(total)
}

/// What follows a word at the start, whatever the case of its letters.
fn after_word<'a>(word: &[u8], text: &'a [u8]) -> Option<&'a [u8]>
    ensures { Gives (λ rest. rest.now) result (after_word word.now text.now) }
{
    let (front, rest) = text.split_at(word.len().min(text.len()));
    if same_letters(front, word) {
        Some(rest)
    } else {
        None
    }
}

/// What follows `T#` or `TIME#` at the start of a duration literal.
fn after_prefix(text: &[u8]) -> Option<&[u8]>
    ensures { Gives (λ rest. rest.now) result (after_prefix text.now) }
{
    match after_word(b"T#", text) {
        Some(rest) => Some(rest),
        None => after_word(b"TIME#", text),
    }
}

/// The milliseconds of a duration literal such as `T#1h_30m`.
///
/// It is None where the text is no such literal, or one of more than 4,294,967,295 ms.
pub fn read_time(text: &[u8]) -> Option<u32>
    ensures some { IfSome result (λ n. IsDuration text.now n) }
    ensures none { IfNone result ((n : ℕ) → IsDuration text.now n → ⊥) }
    // A literal has one value.
    ensures only { IfSome result (λ n. (m : ℕ) → IsDuration text.now m → m ≡ n) }
{
    let total = total_of(after_prefix(text)?)?;
    if total < CAP {
        Some(total as u32)
    } else {
        None
    }
}
