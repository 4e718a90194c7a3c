//! Whether two names differ by one character.

ghost use Rattle.std.specs.Prelude.{◌≡◌, ◌≤◌, ◌↔◌, IsTrue, length};
ghost use Rattle.std.specs.Char.{is_ascii_digit};
ghost use Rattle.text_warnings.specs.Similar.{AddsFirst, AreSimilar, DifferAt, ReplacesFirst};

use diagram_declarations::same_letters;

/// Whether a character is a decimal digit; names that differ in digits alone are numbered on purpose.
fn is_digit(byte: u8) -> bool
    ensures { result ≡ is_ascii_digit byte }
{
    byte.is_ascii_digit()
}

/// Whether the first character was replaced: neither is a digit, and more follows.
fn replaces_first(a: &[u8], b: &[u8]) -> bool
    ensures { IsTrue result ↔ ReplacesFirst a.now b.now }
{
    match a {
        [] => false,
        [old, behind @ ..] => match b {
            [] => false,
            [new, after @ ..] => {
                !is_digit(*old)
                    && !is_digit(*new)
                    && behind.len() >= 1
                    && same_letters(behind, after)
            }
        },
    }
}

/// Whether the one text is the other with a character before it that is no digit.
fn adds_first(a: &[u8], b: &[u8]) -> bool
    ensures { IsTrue result ↔ AddsFirst a.now b.now }
{
    match a {
        [] => false,
        [added, behind @ ..] => !is_digit(*added) && same_letters(behind, b),
    }
}

/// Whether the names are the same but for one character at the place.
#[tactic(auto, unfolding(crate::specs::Similar::DifferAt))]
fn differ_at(a: &[u8], b: &[u8], place: usize) -> bool
    requires { (place ≤ length a.now) × (place ≤ length b.now) }
    ensures { IsTrue result ↔ DifferAt a.now b.now place }
{
    let (rest, other) = (&a[place..], &b[place..]);
    same_letters(&a[..place], &b[..place])
        && (replaces_first(rest, other) || adds_first(rest, other) || adds_first(other, rest))
}

/// Whether the names are long enough to be told apart at a glance, and differ by one character.
#[tactic(auto, unfolding(crate::specs::Similar::AreSimilar))]
pub(crate) fn are_similar(a: &[u8], b: &[u8]) -> bool
    ensures { IsTrue result ↔ AreSimilar a.now b.now }
{
    if a.len() < 4 && b.len() < 4 || same_letters(a, b) {
        return false;
    }
    for place in 0..a.len().min(b.len()) + 1 {
        if differ_at(a, b, place) {
            return true;
        }
    }
    false
}
