//! What a field says: whole numbers without needless zeros, and bits.

ghost use Rattle.std.specs.Prelude.{◌≡◌, ◌≢◌, ◌<◌, ◌^◌, ℕ, ℤ, None, IfSome, FitsSigned, decimal};
ghost use Rattle.std.specs.Fmt.{signed_decimal};
ghost use Rattle.std.specs.Int.{w16};
ghost use Rattle.io_text.specs.Text.{bit_text};

use itoa::Buffer;

/// The number that `decimal` writes as this field, if it is one.
pub fn read_number(field: &[u8]) -> Option<u64>
    ensures some { IfSome result (λ n. field.now ≡ decimal n) }
    ensures small { IfSome result (λ n. n < 2 ^ 64) }
    ensures none { result ≡ None → (n : ℕ) → n < 2 ^ 64 → field.now ≢ decimal n }
{
    let Ok(text) = str::from_utf8(field) else {
        return None;
    };
    let Ok(number) = text.parse::<u64>() else {
        return None;
    };
    let mut digits = Buffer::new();
    if digits.format(number).as_bytes() == field {
        Some(number)
    } else {
        None
    }
}

/// The whole number of 16 bits that `signed_decimal` writes as this field, if it is one.
pub fn read_signed(field: &[u8]) -> Option<i16>
    ensures some { IfSome result (λ z. field.now ≡ signed_decimal z) }
    ensures fits { IfSome result (λ z. FitsSigned w16 z) }
    ensures none { result ≡ None → (z : ℤ) → FitsSigned w16 z → field.now ≢ signed_decimal z }
{
    let Ok(text) = str::from_utf8(field) else {
        return None;
    };
    let Ok(value) = text.parse::<i16>() else {
        return None;
    };
    let mut digits = Buffer::new();
    if digits.format(value).as_bytes() == field {
        Some(value)
    } else {
        None
    }
}

/// A bit as a field: `1` for ON and `0` for OFF.
pub fn bit_field(value: bool) -> &'static [u8]
    ensures { result.now ≡ bit_text value }
{
    if value { b"1" } else { b"0" }
}
