//! Numbers in decimal, capped where they are too large for any use.

ghost use Rattle.std.specs.Prelude.{◌≡◌, ◌^◌, ◌≤◌, ◌+◌, ◌-◌, ◌*◌, min, length};
ghost use Rattle.std.specs.List.{prefix_len};
ghost use Rattle.std.specs.Char.{is_ascii_digit};
ghost use Rattle.diagram_declarations.specs.Duration.{number_of};

/// Larger than any number of a declaration.
pub(crate) const CAP: u64 = 1 << 32;

/// A number with one more decimal digit, at most `CAP`: no number that large is in the range of anything that is read.
fn with_digit(n: u64, digit: u8) -> u64
    requires { n ≤ 2 ^ 32 }
    ensures { result ≡ min (n * 10 + (digit - 48)) (2 ^ 32) }
{
    (n * 10 + u64::from(digit.saturating_sub(b'0'))).min(CAP)
}

/// The number that digits spell, or 2^32 where it is larger.
pub fn number(digits: &[u8]) -> u64
    ensures { result ≡ min (number_of digits.now) (2 ^ 32) }
{
    let mut n: u64 = 0;
    for digit in digits {
        n = with_digit(n, *digit);
    }
    n
}

/// How many decimal digits a text begins with.
pub fn digits_len(text: &[u8]) -> usize
    ensures value { result ≡ prefix_len is_ascii_digit text.now }
    ensures within { result ≤ length text.now }
{
    text.iter().take_while(|b| b.is_ascii_digit()).count()
}
