//! Where a line begins, and whether it begins in a comment.

ghost use Rattle.std.specs.Prelude.{◌≡◌, ◌<◌};
ghost use Rattle.text_reasons.specs.Outside.{behind_lines, is_code, lines_after, next_within};
ghost use Rattle.text_reasons.specs.declared.outside.Within.TheVariants as within;

/// What a byte of a text belongs to.
#[derive(Clone, Copy)]
pub(crate) enum Within {
    Code,
    /// On the star of `(*`.
    Opening,
    Comment,
    /// On the parenthesis of `*)`.
    Closing,
    LineComment,
}

/// What the byte after this one belongs to.
pub(crate) fn next_within(within: Within, b: u8, after: &[u8]) -> Within
    ensures { result ≡ next_within within b after.now }
{
    match within {
        Within::Code => {
            if b == b'(' && matches!(after, [b'*', ..]) {
                Within::Opening
            } else if b == b'/' && matches!(after, [b'/', ..]) {
                Within::LineComment
            } else {
                Within::Code
            }
        }
        // The star of `(*` closes nothing.
        Within::Opening => Within::Comment,
        Within::Comment => {
            if b == b'*' && matches!(after, [b')', ..]) {
                Within::Closing
            } else {
                Within::Comment
            }
        }
        Within::Closing => Within::Code,
        Within::LineComment => {
            if b == b'\n' {
                Within::Code
            } else {
                Within::LineComment
            }
        }
    }
}

/// Whether a byte is in no comment.
pub(crate) fn is_code(within: Within) -> bool
    ensures { result ≡ is_code within }
{
    match within {
        Within::Code => true,
        Within::Opening | Within::Comment | Within::Closing | Within::LineComment => false,
    }
}

/// How many lines are left to be passed over, after a byte.
fn lines_after(b: u8, lines: usize) -> usize
    requires { 0 < lines }
    ensures { result ≡ lines_after b lines }
{
    if b == b'\n' { lines - 1 } else { lines }
}

/// The text behind so many line feeds, and what its first byte belongs to.
pub(crate) fn behind_lines(text: &[u8], lines: usize) -> (Within, &[u8])
    ensures { (result.0, result.1.now) ≡ behind_lines within.Code text.now lines }
{
    let mut within = Within::Code;
    let mut left = lines;
    let mut rest = text;
    while let [b, after @ ..] = rest {
        if left == 0 {
            return (within, rest);
        }
        within = next_within(within, *b, after);
        left = lines_after(*b, left);
        rest = after;
    }
    (within, rest)
}
