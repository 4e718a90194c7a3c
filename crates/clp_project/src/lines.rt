//! The lines of a text, and its parts.

ghost use Rattle.std.specs.Prelude.{◌≡◌, ◌≤◌, ◌==◌, IfOk, length, map, not};
ghost use Rattle.std.specs.List.{prefix_len, slice_split};
ghost use Rattle.clp_project.specs.Format.{body_of, ends_part, is_data, is_line, lines_of, part_of, value_of};
ghost use Rattle.clp_project.specs.Rungs.{fields_of};

use crate::number::after_blanks;
use std::alloc::{AllocError, Global};

/// The lines of a text, without their line feeds.
///
/// # Errors
///
/// An error when out of memory.
pub fn lines_of(alloc: Global, text: &[u8]) -> Result<Vec<&[u8]>, AllocError>
    ensures { IfOk result (λ v. map (λ l. l.now) v.items ≡ lines_of text.now) }
{
    text.split(|b| *b == b'\n').collect(alloc)
}

/// The fields of a line, without the commas between them.
pub(crate) fn fields_of(alloc: Global, line: &[u8]) -> Result<Vec<&[u8]>, AllocError>
    ensures { IfOk result (λ v. map (λ l. l.now) v.items ≡ fields_of line.now) }
{
    line.split(|b| *b == b',').collect(alloc)
}

/// Whether a line is this word, with nothing but blanks after it.
#[tactic(auto, unfolding(crate::specs::Format::is_line))]
pub(crate) fn is_line(word: &[u8], line: &[u8]) -> bool
    ensures { result ≡ is_line word.now line.now }
{
    line.starts_with(word) && after_blanks(&line[word.len()..]).is_empty()
}

/// Whether a line of a table has data: it isn't blank and no remark.
#[tactic(auto, unfolding(crate::specs::Format::is_data))]
pub(crate) fn is_data(line: &[u8]) -> bool
    ensures { result ≡ is_data line.now }
{
    match line {
        [] => false,
        [b, ..] => !(*b == b'#' || *b == b';' || after_blanks(line).is_empty()),
    }
}

/// How many lines a part of the file has before the line that ends it.
fn body_len(lines: &[&[u8]]) -> usize
    ensures value { result ≡ prefix_len (λ l. not (ends_part l.now)) lines.now }
    ensures within { result ≤ length lines.now }
{
    lines
        .iter()
        .take_while(|line| !line.starts_with(b"_/FILE"))
        .count()
}

/// The lines of a part of the file, up to the line that ends it.
pub(crate) fn body_of<'a, 'b>(lines: &'a [&'b [u8]]) -> &'a [&'b [u8]]
    ensures { map (λ l. l.now) result.now ≡ body_of (map (λ l. l.now) lines.now) }
{
    &lines[..body_len(lines)]
}

/// The lines of the first part that begins with this line, nothing where there is none.
pub(crate) fn part_of<'a, 'b>(head: &[u8], mut lines: &'a [&'b [u8]]) -> &'a [&'b [u8]]
    ensures { map (λ l. l.now) result.now ≡ part_of head.now (map (λ l. l.now) lines.entry.now) }
{
    while let [line, rest @ ..] = lines {
        if is_line(head, line) {
            return body_of(rest);
        }
        lines = rest;
    }
    &[]
}

/// What follows a key at the start of the first line that has it; nothing where none has.
pub(crate) fn value_of<'a>(key: &[u8], mut lines: &[&'a [u8]]) -> &'a [u8]
    ensures { result.now ≡ value_of key.now (map (λ l. l.now) lines.entry.now) }
{
    while let [line, rest @ ..] = lines {
        if line.starts_with(key) {
            return &line[key.len()..];
        }
        lines = rest;
    }
    &[]
}
