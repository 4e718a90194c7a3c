//! The parts of a field, and the number in it.

ghost use Rattle.std.specs.Prelude.{◌≡◌, ◌^◌, ◌≤◌, ◌==◌, IfNone, IfSome, not, length};
ghost use Rattle.std.specs.List.{prefix_len};
ghost use Rattle.std.specs.Char.{is_ascii_digit};
ghost use Rattle.clp_project.specs.Format.{after_blanks, before, behind, is_blank, number_in, number_of, other_in};

/// How many blanks a field begins with; the carriage return of a line end is one.
fn blanks_len(text: &[u8]) -> usize
    ensures value { result ≡ prefix_len is_blank text.now }
    ensures within { result ≤ length text.now }
{
    text.iter()
        .take_while(|b| **b == b' ' || **b == b'\t' || **b == b'\r')
        .count()
}

/// The text without the blanks at its start.
pub(crate) fn after_blanks(text: &[u8]) -> &[u8]
    ensures { result.now ≡ after_blanks text.now }
{
    &text[blanks_len(text)..]
}

/// How many bytes are before the first one that is the mark.
fn length_before(mark: u8, text: &[u8]) -> usize
    ensures value { result ≡ prefix_len (λ b. not (b == mark)) text.now }
    ensures within { result ≤ length text.now }
{
    text.iter().take_while(|b| **b != mark).count()
}

/// The bytes before the first mark.
#[tactic(auto, unfolding(crate::specs::Format::before))]
pub fn before(mark: u8, text: &[u8]) -> &[u8]
    ensures { result.now ≡ before mark text.now }
{
    &text[..length_before(mark, text)]
}

/// The bytes after the first mark.
#[tactic(auto, unfolding(crate::specs::Format::behind))]
pub(crate) fn behind(mark: u8, text: &[u8]) -> &[u8]
    ensures { result.now ≡ behind mark text.now }
{
    let count = length_before(mark, text);
    if count < text.len() {
        &text[count + 1..]
    } else {
        &[]
    }
}

/// The number that digits spell, where it is below 2^32.
#[tactic(auto, using(crate::proofs::Numbers::at_least))]
fn number_of(digits: &[u8]) -> Option<u32>
    ensures some { IfSome result (λ n. n ≡ number_of digits.now) }
    ensures none { IfNone result (2 ^ 32 ≤ number_of digits.now) }
{
    let mut number: u32 = 0;
    for digit in digits {
        number = number
            .checked_mul(10)?
            .checked_add(u32::from(digit.saturating_sub(b'0')))?;
    }
    Some(number)
}

/// How many decimal digits a field begins with.
fn digits_len(text: &[u8]) -> usize
    ensures value { result ≡ prefix_len is_ascii_digit text.now }
    ensures within { result ≤ length text.now }
{
    text.iter().take_while(|b| b.is_ascii_digit()).count()
}

/// The number that a field is, in decimal between blanks.
#[tactic(auto, unfolding(crate::specs::Format::number_in))]
pub fn number_in(field: &[u8]) -> Option<u32>
    ensures { result ≡ number_in field.now }
{
    let text = after_blanks(field);
    let count = digits_len(text);
    if count >= 1 && after_blanks(&text[count..]).is_empty() {
        number_of(&text[..count])
    } else {
        None
    }
}

/// The number that a field is, or `-1`, which stands for none.
#[tactic(auto, unfolding(crate::specs::Format::other_in))]
pub(crate) fn other_in(field: &[u8]) -> Option<Option<u32>>
    ensures { result ≡ other_in field.now }
{
    let text = after_blanks(field);
    if text.starts_with(b"-1") && after_blanks(&text[2..]).is_empty() {
        Some(None)
    } else {
        Some(Some(number_in(field)?))
    }
}
