//! How long a token is.

ghost use Rattle.std.specs.Prelude.{◌≡◌, ◌≤◌, ◌||◌, ◌==◌, length};
ghost use Rattle.std.specs.List.{prefix_len};
ghost use Rattle.std.specs.Char.{is_ascii_alphanumeric};
ghost use Rattle.diagram_declarations.specs.Text.{is_word_byte, token_len};

/// How many bytes at the start of a text are those of one word: letters, digits, `_`, `#` and points.
fn word_len(text: &[u8]) -> usize
    ensures value { result ≡ prefix_len is_word_byte text.now }
    ensures within { result ≤ length text.now }
{
    text.iter()
        .take_while(|b| b.is_ascii_alphanumeric() || matches!(**b, b'_' | b'#' | b'.'))
        .count()
}

/// How many bytes at the start of a text can be those of an address after its `%`: letters, digits and points.
fn address_len(text: &[u8]) -> usize
    ensures value { result ≡ prefix_len (λ c. is_ascii_alphanumeric c || c == 46) text.now }
    ensures within { result ≤ length text.now }
{
    text.iter()
        .take_while(|b| b.is_ascii_alphanumeric() || **b == b'.')
        .count()
}

/// How long the token at the start of a text is: 0 where there is none.
pub(crate) fn token_len(text: &[u8]) -> usize
    ensures value { result ≡ token_len text.now }
    ensures within { result ≤ length text.now }
{
    match text {
        [b'%', rest @ ..] => 1 + address_len(rest),
        [b':', b'=', ..] => 2,
        [b'(', b'*', ..] => 0,
        [b':' | b'(' | b';' | b')', ..] => 1,
        _ => word_len(text),
    }
}
