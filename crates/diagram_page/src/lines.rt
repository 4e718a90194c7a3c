//! The lines of a drawing, and which of them are rungs.

ghost use Rattle.std.specs.Prelude.{◌≡◌, ◌≤◌, ◌+◌, ◌-◌, ◌++◌, ◌==◌, length, map, take, drop, IfOk, OnOk, All, None};
ghost use Rattle.std.specs.List.{slice_split, prefix_len};
ghost use Rattle.diagram_program.specs.Bytes.{line_feed};
ghost use Rattle.diagram_declarations.specs.Text.{begins};
ghost use Rattle.diagram_page.specs.Lines.{last_gap};
ghost use Rattle.diagram_program.specs.Bytes.{is_upright};
ghost use Rattle.diagram_page.specs.ReadLines.{next_inside, shown_byte, blanked_from, unclosed_line, is_settled, shown_run, parts_from, parts_of, IsWithin};
ghost use Rattle.diagram_page.specs.declared.lines.Inside.TheVariants as inside;

use std::alloc::{AllocError, Global};

/// What a byte of the drawing belongs to: a line of a rung, other text, or a comment.
#[derive(Clone, Copy)]
pub(crate) enum Inside {
    /// Nothing: a line begins here.
    LineStart,
    /// A gap line.
    Plain,
    /// A rung line.
    RungLine,
    /// The second byte of `(*`.
    Opening,
    /// A comment.
    Block,
    /// The second byte of `*)`.
    Closing,
    /// A comment to the end of the line.
    LineComment,
}

/// A rung, from the line `start` to before the line `end`, and its gap lines, which begin at `from`.
#[derive(Clone, Copy)]
pub struct Part {
    pub from: usize,
    pub start: usize,
    pub end: usize,
}

/// Whether a line that begins with this byte is one of a rung: its left rail is `|` or `+`.
fn is_rung_start(b: u8) -> bool
    ensures { result ≡ is_upright b }
{
    b == b'|' || b == b'+'
}

/// What the byte after `b` belongs to (a line of a rung, other text, a comment), by what `b` belongs to and what comes after it. In
/// a line of a rung no comment begins.
fn next_inside(inside: Inside, b: u8, after: &[u8]) -> Inside
    ensures { result ≡ next_inside inside b after.now }
{
    match inside {
        Inside::LineStart if is_rung_start(b) => Inside::RungLine,
        Inside::LineStart | Inside::Plain => {
            if b == b'\n' {
                Inside::LineStart
            } else if b == b'(' && matches!(after, [b'*', ..]) {
                Inside::Opening
            } else if b == b'/' && matches!(after, [b'/', ..]) {
                Inside::LineComment
            } else {
                Inside::Plain
            }
        }
        Inside::RungLine => {
            if b == b'\n' {
                Inside::LineStart
            } else {
                Inside::RungLine
            }
        }
        Inside::Opening => Inside::Block,
        Inside::Block => {
            if b == b'*' && matches!(after, [b')', ..]) {
                Inside::Closing
            } else {
                Inside::Block
            }
        }
        Inside::Closing => Inside::Plain,
        Inside::LineComment => {
            if b == b'\n' {
                Inside::LineStart
            } else {
                Inside::LineComment
            }
        }
    }
}

/// What the drawing has in place of a byte: a comment becomes blanks, so that all that follows keeps its column. `next` is what the
/// next byte belongs to.
fn shown_byte(inside: Inside, next: Inside, b: u8, after: &[u8]) -> u8
    requires { next ≡ next_inside inside b after.now }
    ensures { result ≡ shown_byte inside b after.now }
{
    if b == b'\n' {
        b'\n'
    } else if b == b'\r' && matches!(after, [b'\n', ..]) {
        b' '
    } else {
        match (inside, next) {
            (
                Inside::LineStart | Inside::Plain | Inside::RungLine,
                Inside::LineStart | Inside::Plain | Inside::RungLine,
            ) => b,
            (
                Inside::LineStart | Inside::Plain | Inside::RungLine,
                Inside::Opening | Inside::Block | Inside::Closing | Inside::LineComment,
            )
            | (Inside::Opening | Inside::Block | Inside::Closing | Inside::LineComment, _) => b' ',
        }
    }
}

/// How many bytes at the start are shown in the same way whatever follows them, so that they are copied at once.
fn run_len(inside: Inside, text: &[u8]) -> usize
    ensures value { result ≡ prefix_len (is_settled inside) text.now }
    ensures within { result ≤ length text.now }
{
    match inside {
        Inside::LineStart | Inside::Opening | Inside::Closing => 0,
        Inside::Plain => text
            .iter()
            .take_while(|b| !(**b == b'\n' || **b == b'\r' || **b == b'(' || **b == b'/'))
            .count(),
        Inside::RungLine => text
            .iter()
            .take_while(|b| !(**b == b'\n' || **b == b'\r'))
            .count(),
        Inside::Block => text
            .iter()
            .take_while(|b| !(**b == b'\n' || **b == b'*'))
            .count(),
        Inside::LineComment => text.iter().take_while(|b| **b != b'\n').count(),
    }
}

/// Adds what the drawing has in place of a run of such bytes.
fn show_run(seen: &mut Vec<u8>, inside: Inside, run: &[u8]) -> Result<(), AllocError>
    ensures { OnOk result (seen.new.items ≡ seen.old.items ++ shown_run inside run.now) }
{
    if run.is_empty() {
        return Ok(());
    }
    match inside {
        Inside::LineStart | Inside::Plain | Inside::RungLine => seen.extend_from_slice(run),
        Inside::Opening | Inside::Block | Inside::Closing | Inside::LineComment => {
            seen.resize(seen.len() + run.len(), b' ')
        }
    }
}

/// A text as its lines show it.
#[derive(Drop)]
pub struct Shown {
    /// The text with its comments taken as spaces.
    pub text: Vec<u8>,
    /// The line on which a comment begins that never ends.
    pub unclosed: Option<usize>,
}

/// What the lines of a text show, and whether a comment in it never ends.
///
/// # Errors
///
/// `AllocError` when out of memory.
pub fn shown_text(alloc: Global, mut text: &[u8]) -> Result<Shown, AllocError>
    ensures text { IfOk result (λ s. s.text.items ≡ blanked_from inside.Plain text.entry.now) }
    ensures unclosed { IfOk result (λ s. s.unclosed ≡ unclosed_line text.entry.now) }
{
    let mut seen = Vec::with_capacity(alloc, text.len())?;
    let mut inside = Inside::Plain;
    let mut line = 0;
    let mut unclosed = None;
    while let [b, rest @ ..] = text {
        let next = next_inside(inside, *b, rest);
        seen.push(shown_byte(inside, next, *b, rest))?;
        unclosed = match next {
            Inside::Opening => Some(line),
            Inside::Closing => None,
            Inside::LineStart
            | Inside::Plain
            | Inside::RungLine
            | Inside::Block
            | Inside::LineComment => unclosed,
        };
        if *b == b'\n' {
            line += 1;
        }
        let (run, behind) = rest.split_at(run_len(next, rest));
        show_run(&mut seen, next, run)?;
        inside = next;
        text = behind;
    }
    Ok(Shown {
        text: seen,
        unclosed,
    })
}

/// The lines of a text, without their line feeds.
///
/// # Errors
///
/// `AllocError` when out of memory.
pub fn lines(alloc: Global, text: &[u8]) -> Result<Vec<&[u8]>, AllocError>
    ensures { IfOk result (λ v. map (λ l. l.now) v.items ≡ slice_split (λ b. b == line_feed) text.now) }
{
    text.split(|b| *b == b'\n').collect(alloc)
}

/// Whether a line begins at the left rail, so that it is one of a rung.
fn begins_rung(line: &[u8]) -> bool
    ensures { result ≡ begins is_upright line.now }
{
    match line {
        [] => false,
        [b, ..] => is_rung_start(*b),
    }
}

/// The parts in all lines but the first, which is what the declarations leave of theirs: one for each run of lines that begin at the
/// left rail, with the gap lines before it.
fn parts_after(alloc: Global, mut lines: &[&[u8]]) -> Result<Vec<Part>, AllocError>
    ensures exact { IfOk result (λ v. v.items ≡ parts_from 0 1 None (map (λ l. l.now) lines.entry.now)) }
    ensures within { IfOk result (λ v. All (IsWithin (length lines.entry.now + 1)) v.items) }
{
    let mut parts = Vec::new(alloc);
    let mut at = 0;
    let mut line = 1;
    let mut run: Option<usize> = None;
    while let [first, rest @ ..] = lines {
        match run {
            None => {
                if begins_rung(first) {
                    run = Some(line);
                }
            }
            Some(start) => {
                if !begins_rung(first) {
                    parts.push(Part {
                        from: at,
                        start,
                        end: line,
                    })?;
                    at = line;
                    run = None;
                }
            }
        }
        line += 1;
        lines = rest;
    }
    if let Some(start) = run {
        parts.push(Part {
            from: at,
            start,
            end: line,
        })?;
    }
    Ok(parts)
}

/// The rungs, in order, each with its gap.
///
/// # Errors
///
/// `AllocError` when out of memory.
pub fn parts(alloc: Global, lines: &[&[u8]]) -> Result<Vec<Part>, AllocError>
    ensures exact { IfOk result (λ v. v.items ≡ parts_of (map (λ l. l.now) lines.now)) }
    ensures within { IfOk result (λ v. All (IsWithin (length lines.now)) v.items) }
{
    match lines {
        [] => Ok(Vec::new(alloc)),
        [_, rest @ ..] => parts_after(alloc, rest),
    }
}

/// The lines from number `start` to before number `end`.
pub(crate) fn lines_between<'a, 'b>(
    lines: &'a [&'b [u8]],
    start: usize,
    end: usize,
) -> &'a [&'b [u8]]
    requires { (start ≤ end) × (end ≤ length lines.now) }
    ensures value { map (λ l. l.now) result.now ≡ take (end - start) (drop start (map (λ l. l.now) lines.now)) }
    ensures count { length result.now ≡ end - start }
{
    &lines[start..end]
}

/// The number of the first line after the last rung.
pub fn last_gap(parts: &[Part]) -> usize
    ensures { result ≡ last_gap parts.now }
{
    match parts {
        [] => 0,
        [.., last] => last.end,
    }
}
