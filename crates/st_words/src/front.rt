//! What begins a text.

ghost use Rattle.std.specs.Prelude.{◌≡◌, ◌<◌, ◌≤◌, ◌==◌, length, drop, Option, IfSome};
ghost use Rattle.std.specs.List.{prefix_len};
ghost use Rattle.st_words.specs.Words.{is_blank, is_in_line, is_opening, is_pair, is_symbol, is_word_byte};
ghost use Rattle.st_words.specs.Front.{behind_close, front_of, symbol_front, Gives};

/// What begins a text, and what is behind it.
#[derive(Clone, Copy)]
pub(crate) struct Front<'a> {
    /// It is a word, and neither a blank nor a comment.
    pub is_word: bool,
    pub rest: &'a [u8],
}

/// Whether a byte is a blank.
fn is_blank(b: u8) -> bool
    ensures { result ≡ is_blank b }
{
    matches!(b, b' ' | b'\t' | b'\r' | b'\n')
}

/// Whether a byte is one of a name, a number, an address or a duration.
fn is_word_byte(b: u8) -> bool
    ensures { result ≡ is_word_byte b }
{
    b.is_ascii_alphanumeric() || matches!(b, b'_' | b'#' | b'%' | b'.')
}

/// Whether a byte can be a symbol by itself.
fn is_symbol(b: u8) -> bool
    ensures { result ≡ is_symbol b }
{
    matches!(
        b,
        b'(' | b')'
            | b'*'
            | b'+'
            | b','
            | b'-'
            | b'/'
            | b':'
            | b';'
            | b'<'
            | b'='
            | b'>'
            | b'['
            | b']'
            | b'&'
    )
}

/// Whether two bytes are one symbol.
fn is_pair(a: u8, b: u8) -> bool
    ensures { result ≡ is_pair a b }
{
    matches!(
        (a, b),
        (b':', b'=') | (b'=', b'>') | (b'<', b'>') | (b'<', b'=') | (b'>', b'=')
    )
}

/// How many bytes at the start of a text are those of one word.
fn run_len(text: &[u8]) -> usize
    ensures value { result ≡ prefix_len is_word_byte text.now }
    ensures within { result ≤ length text.now }
{
    text.iter().take_while(|b| is_word_byte(**b)).count()
}

/// How many bytes at the start of a text are before the end of its line.
fn line_len(text: &[u8]) -> usize
    ensures value { result ≡ prefix_len is_in_line text.now }
    ensures within { result ≤ length text.now }
{
    text.iter().take_while(|b| **b != b'\n').count()
}

/// What is behind the first `*)`.
fn behind_close(text: &[u8]) -> Option<&[u8]>
    ensures value { Gives (λ rest. rest.now) result (behind_close text.now) }
    ensures shorter { IfSome result (λ rest. length rest.now < length text.now) }
{
    let mut rest = text;
    while let [b, after @ ..] = rest {
        match after {
            [b')', behind @ ..] if *b == b'*' => return Some(behind),
            _ => rest = after,
        }
    }
    None
}

/// What begins a text behind a byte that is no blank and of no longer word.
fn symbol_front<'a>(first: u8, text: &'a [u8]) -> Option<Front<'a>>
    ensures value { Gives (λ f. record { is_word = f.is_word; rest = f.rest.now }) result (symbol_front first text.now) }
    ensures shorter { IfSome result (λ f. length f.rest.now ≤ length text.now) }
{
    match text {
        [b'*', inside @ ..] if first == b'(' => Some(Front {
            is_word: false,
            rest: behind_close(inside)?,
        }),
        [b'/', inside @ ..] if first == b'/' => Some(Front {
            is_word: false,
            rest: &inside[line_len(inside)..],
        }),
        [second, rest @ ..] if is_pair(first, *second) => Some(Front {
            is_word: true,
            rest,
        }),
        _ if is_symbol(first) => Some(Front {
            is_word: true,
            rest: text,
        }),
        _ => None,
    }
}

/// What begins a text; None where the text is empty, or where no word begins and no comment that has an end.
#[tactic(auto, unfolding(crate::specs::Front::front_of))]
pub(crate) fn front_of(text: &[u8]) -> Option<Front>
    ensures value { Gives (λ f. record { is_word = f.is_word; rest = f.rest.now }) result (front_of text.now) }
    ensures shorter { IfSome result (λ f. length f.rest.now < length text.now) }
{
    let [first, after @ ..] = text else {
        return None;
    };
    if is_blank(*first) {
        return Some(Front {
            is_word: false,
            rest: after,
        });
    }
    if is_word_byte(*first) {
        return Some(Front {
            is_word: true,
            rest: &after[run_len(after)..],
        });
    }
    symbol_front(*first, after)
}
