//! What begins a text between two tokens of a block of declarations.

ghost use Rattle.std.specs.Prelude.{◌≡◌, ◌+◌, ◌≤◌, length, IfSome};
ghost use Rattle.std.specs.List.{prefix_len};
ghost use Rattle.diagram_declarations.specs.Text.{is_blank, token_len};
ghost use Rattle.assume_comments.specs.Comments.{is_in_line};
ghost use Rattle.assume_comments.specs.Front.{behind_close, comment_start, start_of, start_read, token_start, Gives, IsWithin};

use crate::token::token_len;
use diagram_declarations::same_letters;

/// What begins a text, and what is behind it.
#[derive(Clone, Copy)]
pub(crate) enum Front<'a> {
    /// END_VAR.
    End,
    /// A comment `(* .. *)`.
    Comment { inside: &'a [u8], rest: &'a [u8] },
    /// A blank, a comment `//` or another token.
    Other(&'a [u8]),
}

/// Whether a byte before these is a blank. CR is one before LF alone.
fn is_blank(b: u8, after: &[u8]) -> bool
    ensures { result ≡ is_blank b after.now }
{
    matches!(b, b' ' | b'\t' | b'\n') || b == b'\r' && matches!(after, [b'\n', ..])
}

/// How many bytes at the start of a text are before the end of its line.
fn line_len(text: &[u8]) -> usize
    ensures value { result ≡ prefix_len is_in_line text.now }
    ensures within { result ≤ length text.now }
{
    text.iter().take_while(|b| **b != b'\n').count()
}

/// What is behind the first `*)`.
fn behind_close(text: &[u8]) -> Option<&[u8]>
    ensures value { Gives (λ rest. rest.now) result (behind_close text.now) }
    ensures shorter { IfSome result (λ rest. length rest.now + 2 ≤ length text.now) }
{
    let mut rest = text;
    while let [b, after @ ..] = rest {
        match after {
            [b')', behind @ ..] if *b == b'*' => return Some(behind),
            _ => rest = after,
        }
    }
    None
}

/// The comment that begins right before the text, by its `(*`; None where it has no end.
fn comment_front(text: &[u8]) -> Option<Front>
    ensures value { Gives start_read result (comment_start text.now (behind_close text.now)) }
    ensures shorter { IfSome result (IsWithin (length text.now)) }
{
    let rest = behind_close(text)?;
    let inside = &text[..text.len() - (rest.len() + 2)];
    Some(Front::Comment { inside, rest })
}

/// The token that begins a text; None where there is none.
fn token_front(text: &[u8]) -> Option<Front>
    ensures value { Gives start_read result (token_start (token_len text.now) text.now) }
    ensures shorter { IfSome result (IsWithin (length text.now)) }
{
    let len = token_len(text);
    if len == 0 {
        return None;
    }
    let (word, rest) = text.split_at(len);
    if same_letters(word, b"END_VAR") {
        Some(Front::End)
    } else {
        Some(Front::Other(rest))
    }
}

/// What begins a text; None where that is neither a blank nor a token nor a comment that has an end.
#[tactic(auto, unfolding(crate::specs::Front::start_of))]
pub(crate) fn front_of(text: &[u8]) -> Option<Front>
    ensures value { Gives start_read result (start_of text.now) }
    ensures shorter { IfSome result (IsWithin (length text.now)) }
{
    match text {
        [b, rest @ ..] if is_blank(*b, rest) => Some(Front::Other(rest)),
        [b'(', b'*', inside @ ..] => comment_front(inside),
        [b'/', b'/', inside @ ..] => Some(Front::Other(&inside[line_len(inside)..])),
        _ => token_front(text),
    }
}
