//! What a comment assumes.

ghost use Rattle.std.specs.Prelude.{◌≡◌, ◌≤◌, length};
ghost use Rattle.std.specs.List.{prefix_len};
ghost use Rattle.assume_comments.specs.Comments.{assumption_of, behind_spaces, behind_word, is_space};
ghost use Rattle.assume_comments.specs.Front.{Gives};

use diagram_declarations::same_letters;

/// How many bytes at the start of a text are spaces.
fn space_len(text: &[u8]) -> usize
    ensures value { result ≡ prefix_len is_space text.now }
    ensures within { result ≤ length text.now }
{
    text.iter()
        .take_while(|b| matches!(**b, b' ' | b'\t' | b'\r' | b'\n'))
        .count()
}

/// What is behind the spaces at the start of a text.
fn behind_spaces(text: &[u8]) -> &[u8]
    ensures { result.now ≡ behind_spaces text.now }
{
    &text[space_len(text)..]
}

/// What is behind spaces and a word at the start of a text. Letter case makes no difference.
fn behind_word<'a>(word: &[u8], text: &'a [u8]) -> Option<&'a [u8]>
    ensures { Gives (λ rest. rest.now) result (behind_word word.now text.now) }
{
    let start = behind_spaces(text);
    let (front, rest) = start.split_at(word.len().min(start.len()));
    if same_letters(front, word) {
        Some(rest)
    } else {
        None
    }
}

/// What is behind `assume` and a colon at the start of a comment; None where it begins otherwise.
pub(crate) fn assumption_of(comment: &[u8]) -> Option<&[u8]>
    ensures { Gives (λ rest. rest.now) result (assumption_of comment.now) }
{
    behind_word(b":", behind_word(b"assume", comment)?)
}
