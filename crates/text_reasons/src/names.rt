//! V3: the word that is no name, and the alias by which it could be kept.

ghost use Rattle.std.specs.Prelude.{◌≡◌, ◌≤◌, ◌==◌, length, not};
ghost use Rattle.std.specs.List.{after_first, list_all, list_any, prefix_len};
ghost use Rattle.diagram_declarations.specs.Name.{has_name_form, is_name_byte, same_letters};
ghost use Rattle.diagram_declarations.specs.Text.{is_word_byte};
ghost use Rattle.io_text.specs.Buffer.{Sends};
ghost use Rattle.text_reasons.specs.Names.{after_blanks, alias_text, first_word, formed_text, is_blank, is_formed, keyword_text, length_text, long_text, longest_of, may_be_name, name_text, own_type, type_word, whose, word_at, word_text};

use diagram_declarations::limits::{LONGEST_BISTABLE, LONGEST_INSTANCE, LONGEST_NAME};
use diagram_declarations::{LONGEST_TITLE, Name, same_letters};
use io_text::{Piece, Sink, TextBuffer, WriteFault, add_pieces};

const TIMERS: [&[u8]; 5] = [b"TON", b"TOF", b"TP", b"CTU", b"CTD"];

const BISTABLES: [&[u8]; 2] = [b"SR", b"RS"];

const OPENINGS: [&[u8]; 5] = [b"VAR", b"AT", b"BOOL", b"TRUE", b"FALSE"];

/// How many spaces and tabs a text begins with.
fn blanks_len(text: &[u8]) -> usize
    ensures value { result ≡ prefix_len is_blank text.now }
    ensures within { result ≤ length text.now }
{
    text.iter()
        .take_while(|b| **b == b' ' || **b == b'\t')
        .count()
}

/// The text without the spaces and tabs at its start.
fn after_blanks(text: &[u8]) -> &[u8]
    ensures { result.now ≡ after_blanks text.now }
{
    &text[blanks_len(text)..]
}

/// How many bytes at the start are those of one word.
pub(crate) fn word_len(text: &[u8]) -> usize
    ensures value { result ≡ prefix_len is_word_byte text.now }
    ensures within { result ≤ length text.now }
{
    text.iter()
        .take_while(|b| b.is_ascii_alphanumeric() || matches!(**b, b'_' | b'#' | b'.'))
        .count()
}

/// The word at the start of a text.
fn word_at(text: &[u8]) -> &[u8]
    ensures { result.now ≡ word_at text.now }
{
    &text[..word_len(text)]
}

/// How many bytes are before the first colon.
fn colon_at(text: &[u8]) -> usize
    ensures value { result ≡ prefix_len (λ b. not (b == 58)) text.now }
    ensures within { result ≤ length text.now }
{
    text.iter().take_while(|b| **b != b':').count()
}

/// What is behind the first colon.
fn behind_colon(text: &[u8]) -> &[u8]
    ensures { result.now ≡ after_first (λ b. b == 58) text.now }
{
    let at = colon_at(text);
    if at < text.len() {
        &text[at + 1..]
    } else {
        &[]
    }
}

/// Whether a word is one of several, whatever the letter case.
fn is_one_of(words: &[&[u8]], word: &[u8]) -> bool
    ensures { result ≡ list_any (λ w. same_letters word.now w.now) words.now }
{
    words.iter().any(|w| same_letters(word, w))
}

/// How many characters a name has at most that is declared with this type.
#[tactic(auto, unfolding(crate::specs::Names::longest_of))]
fn longest_of(kind: &[u8]) -> usize
    ensures { result ≡ longest_of kind.now }
{
    if is_one_of(&TIMERS, kind) {
        LONGEST_INSTANCE
    } else if is_one_of(&BISTABLES, kind) {
        LONGEST_BISTABLE
    } else {
        LONGEST_NAME
    }
}

/// Whether all bytes may be part of a name.
fn are_name_bytes(bytes: &[u8]) -> bool
    ensures { result ≡ list_all is_name_byte bytes.now }
{
    bytes
        .iter()
        .all(|b| b.is_ascii_alphanumeric() || *b == b'_')
}

/// Whether a word is a letter or an underscore, and then letters, digits and underscores.
fn has_name_form(word: &[u8]) -> bool
    ensures { result ≡ has_name_form word.now }
{
    match word {
        [] => false,
        [first, rest @ ..] => {
            (first.is_ascii_alphabetic() || *first == b'_') && are_name_bytes(rest)
        }
    }
}

/// Whether a word has the form of a name, and is no keyword with which a line of a good block can begin.
#[tactic(auto, unfolding(crate::specs::Names::is_formed))]
fn is_formed(word: &[u8]) -> bool
    ensures { result ≡ is_formed word.now }
{
    if is_one_of(&OPENINGS, word) {
        false
    } else {
        has_name_form(word)
    }
}

/// Whether a word is a name.
#[tactic(auto, unfolding(crate::specs::Names::may_be_name))]
fn may_be_name(word: &[u8]) -> bool
    ensures { result ≡ may_be_name word.now }
{
    Name::new(word).is_some()
}

/// Adds the alias by which a word could be kept that is too long for a name.
fn add_alias<W: Sink>(
    buffer: &mut TextBuffer,
    word: &[u8],
    longest: usize,
    writer: &mut W,
) -> Result<(), WriteFault>
    ensures { Sends (W.log writer.old) (W.log writer.new) buffer.old buffer.new result (alias_text word.now longest) }
{
    if LONGEST_TITLE < word.len() {
        return Ok(());
    }
    let pieces = [
        Piece::Text(b"use an alias: "),
        Piece::Text(&word[..longest.min(word.len())]),
        Piece::Text(b" (* "),
        Piece::Text(word),
        Piece::Text(b" *)\n"),
    ];
    add_pieces(buffer, pieces.as_slice(), writer)
}

/// Whose names the limit is one of.
fn whose(longest: usize) -> &'static [u8]
    ensures { result.now ≡ whose longest }
{
    if longest == LONGEST_NAME {
        b" characters; a name"
    } else {
        b" characters; a name of type "
    }
}

/// The type, where the limit is one of its own.
fn own_type(kind: &[u8], longest: usize) -> &[u8]
    ensures { result.now ≡ own_type kind.now longest }
{
    if longest == LONGEST_NAME { &[] } else { kind }
}

/// Adds how long a word is, and how long a name may be.
fn add_length<'a, W: Sink>(
    buffer: &mut TextBuffer,
    word: &'a [u8],
    kept_by: &'a [u8],
    kind: &'a [u8],
    longest: usize,
    writer: &mut W,
) -> Result<(), WriteFault>
    ensures { Sends (W.log writer.old) (W.log writer.new) buffer.old buffer.new result (length_text word.now kept_by.now kind.now longest) }
{
    let pieces = [
        Piece::Text(word),
        Piece::Text(b" has "),
        Piece::Number(word.len() as u64),
        Piece::Text(kept_by),
        Piece::Text(kind),
        Piece::Text(b" has at most "),
        Piece::Number(longest as u64),
        Piece::Text(b"\n"),
    ];
    add_pieces(buffer, pieces.as_slice(), writer)
}

/// Adds that a word is too long for a name, and its alias.
fn add_long<W: Sink>(
    buffer: &mut TextBuffer,
    word: &[u8],
    kind: &[u8],
    longest: usize,
    writer: &mut W,
) -> Result<(), WriteFault>
    ensures { Sends (W.log writer.old) (W.log writer.new) buffer.old buffer.new result (long_text word.now kind.now longest) }
{
    add_length(
        buffer,
        word,
        whose(longest),
        own_type(kind, longest),
        longest,
        writer,
    )?;
    add_alias(buffer, word, longest, writer)
}

/// Adds that a word is a keyword, if it is no name.
fn add_keyword<W: Sink>(
    buffer: &mut TextBuffer,
    word: &[u8],
    writer: &mut W,
) -> Result<(), WriteFault>
    ensures { Sends (W.log writer.old) (W.log writer.new) buffer.old buffer.new result (keyword_text word.now) }
{
    if may_be_name(word) {
        return Ok(());
    }
    let pieces = [
        Piece::Text(word),
        Piece::Text(b" is a keyword, and no name\n"),
    ];
    add_pieces(buffer, pieces.as_slice(), writer)
}

/// Adds why a word of a name's form is no name, or none that is so short.
fn add_formed<W: Sink>(
    buffer: &mut TextBuffer,
    word: &[u8],
    kind: &[u8],
    longest: usize,
    writer: &mut W,
) -> Result<(), WriteFault>
    ensures { Sends (W.log writer.old) (W.log writer.new) buffer.old buffer.new result (formed_text word.now kind.now longest) }
{
    if longest < word.len() {
        return add_long(buffer, word, kind, longest, writer);
    }
    add_keyword(buffer, word, writer)
}

/// Adds why a word that is declared with this type is no name.
fn add_word<W: Sink>(
    buffer: &mut TextBuffer,
    word: &[u8],
    kind: &[u8],
    writer: &mut W,
) -> Result<(), WriteFault>
    ensures { Sends (W.log writer.old) (W.log writer.new) buffer.old buffer.new result (word_text word.now kind.now) }
{
    if is_formed(word) {
        return add_formed(buffer, word, kind, longest_of(kind), writer);
    }
    Ok(())
}

/// The first word of a line.
#[tactic(auto, unfolding(crate::specs::Names::first_word))]
fn first_word(line: &[u8]) -> &[u8]
    ensures { result.now ≡ first_word line.now }
{
    word_at(after_blanks(line))
}

/// The word behind the first colon of a line.
#[tactic(auto, unfolding(crate::specs::Names::type_word))]
fn type_word(line: &[u8]) -> &[u8]
    ensures { result.now ≡ type_word line.now }
{
    word_at(after_blanks(behind_colon(line)))
}

/// Adds why the first word of a line is no name, where it is none.
#[tactic(auto, unfolding(crate::specs::Names::name_text))]
pub(crate) fn add_name<W: Sink>(
    buffer: &mut TextBuffer,
    line: &[u8],
    writer: &mut W,
) -> Result<(), WriteFault>
    ensures { Sends (W.log writer.old) (W.log writer.new) buffer.old buffer.new result (name_text line.now) }
{
    add_word(buffer, first_word(line), type_word(line), writer)
}
