//! Cuts a text into tokens.

ghost use Rattle.std.specs.Prelude.{◌≡◌, ◌≤◌, ◌<◌, ◌||◌, ◌==◌, ◌∷◌, length, Ok, IfOk, IfSome, IfNone};
ghost use Rattle.std.specs.List.{prefix_len};
ghost use Rattle.std.specs.Char.{is_ascii_alphanumeric};
ghost use Rattle.diagram_declarations.specs.Text.{is_word_byte, token_len};
ghost use Rattle.diagram_declarations.specs.ReadText.{skip_from, token_at, Gives};

use crate::fault::{Fault, VarRule};

/// What a byte in a gap between two tokens belongs to: blanks or a comment.
#[derive(Clone, Copy)]
enum Within {
    Blanks,
    /// On the star of `(*`.
    Opening,
    Comment,
    /// On the parenthesis of `*)`.
    Closing,
    LineComment,
}

/// Where in a gap the byte after this one is; None where the gap ends before this byte.
fn next_within(within: Within, b: u8, after: &[u8]) -> Option<Within>
    ensures some { IfSome result (λ next. skip_from within (b ∷ after.now) ≡ skip_from next after.now) }
    ensures none { IfNone result (skip_from within (b ∷ after.now) ≡ Ok (b ∷ after.now)) }
{
    match within {
        Within::Blanks if matches!(b, b' ' | b'\t' | b'\n') => Some(Within::Blanks),
        Within::Blanks if b == b'\r' && matches!(after, [b'\n', ..]) => Some(Within::Blanks),
        Within::Blanks if b == b'(' && matches!(after, [b'*', ..]) => Some(Within::Opening),
        Within::Blanks if b == b'/' && matches!(after, [b'/', ..]) => Some(Within::LineComment),
        Within::Blanks => None,
        Within::LineComment if b == b'\n' => Some(Within::Blanks),
        Within::LineComment => Some(Within::LineComment),
        // The star of `(*` closes nothing.
        Within::Opening => Some(Within::Comment),
        Within::Comment if b == b'*' && matches!(after, [b')', ..]) => Some(Within::Closing),
        Within::Comment => Some(Within::Comment),
        Within::Closing => Some(Within::Blanks),
    }
}

/// The text after the blanks and comments at its start.
fn skip(text: &[u8]) -> Result<&[u8], Fault>
    ensures shorter { IfOk result (λ rest. length rest.now ≤ length text.now) }
    ensures value { Gives (λ rest. rest.now) result (skip_from Within.Blanks text.now) }
{
    let mut rest = text;
    let mut within = Within::Blanks;
    while let [b, after @ ..] = rest {
        match next_within(within, *b, after) {
            Some(next) => within = next,
            None => return Ok(rest),
        }
        rest = after;
    }
    match within {
        Within::Blanks | Within::LineComment => Ok(rest),
        Within::Opening | Within::Comment | Within::Closing => Err(Fault {
            rule: VarRule::Unfinished,
            left: 0,
        }),
    }
}

/// How many bytes at the start of a text are those of one word: letters, digits, `_`, `#` and points.
pub(crate) fn word_len(text: &[u8]) -> usize
    ensures value { result ≡ prefix_len is_word_byte text.now }
    ensures within { result ≤ length text.now }
{
    text.iter()
        .take_while(|b| b.is_ascii_alphanumeric() || matches!(**b, b'_' | b'#' | b'.'))
        .count()
}

/// How many bytes at the start of a text can be those of an address after its `%`: letters, digits and points.
fn address_len(text: &[u8]) -> usize
    ensures value { result ≡ prefix_len (λ c. is_ascii_alphanumeric c || c == 46) text.now }
    ensures within { result ≤ length text.now }
{
    text.iter()
        .take_while(|b| b.is_ascii_alphanumeric() || **b == b'.')
        .count()
}

/// How long the token at the start of a text is: 0 where there is none.
fn token_len(text: &[u8]) -> usize
    ensures value { result ≡ token_len text.now }
    ensures within { result ≤ length text.now }
{
    match text {
        [b'%', rest @ ..] => 1 + address_len(rest),
        [b':', b'=', ..] => 2,
        [b'(', b'*', ..] => 0,
        [b':' | b'(' | b';' | b')', ..] => 1,
        _ => word_len(text),
    }
}

/// The first token of a text, and what follows it.
#[tactic(auto, unfolding(crate::specs::ReadText::token_at))]
pub(crate) fn token(text: &[u8]) -> Result<(&[u8], &[u8]), Fault>
    ensures value { Gives (λ x. (x.0.now, x.1.now)) result (token_at text.now) }
    ensures shorter { IfOk result (λ x. length x.1.now < length text.now) }
{
    let rest = skip(text)?;
    let len = token_len(rest);
    if len > 0 {
        return Ok(rest.split_at(len));
    }
    let rule = match rest {
        [] => VarRule::Unfinished,
        [b'!'..=b'~', ..] => VarRule::BadToken,
        [_, ..] => VarRule::BadByte,
    };
    Err(Fault {
        rule,
        left: rest.len(),
    })
}
