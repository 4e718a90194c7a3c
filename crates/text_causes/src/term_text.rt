//! A group as a condition: its literals joined by AND.

ghost use Rattle.std.specs.Prelude.{◌≡◌, ◌≤◌, ◌<◌, ◌==◌, ◌++◌, false, length, map, slice_get};
ghost use Rattle.std.specs.Int.{bit_at};
ghost use Rattle.io_text.specs.Buffer.{Sends};
ghost use Rattle.search_groups.specs.Groups.{cells};
ghost use Rattle.text_causes.specs.TermParts.{after, before, negation, term_left};
ghost use Rattle.text_causes.specs.Rows.{name_in};
ghost use Rattle.text_causes.specs.TermText.{literals};

use crate::row_text::name_bytes;
use diagram_declarations::Decls;
use io_text::{Sink, TextBuffer, WriteFault};
use search_groups::Group;

/// Whether an input doesn't matter in a group, by its place counted from the last listed one.
pub(crate) fn is_dash(group: Group, place: usize) -> bool
    requires { place < 64 }
    ensures { result ≡ (bit_at group.dashes place == 1) }
{
    (group.dashes >> place) & 1 == 1
}

/// Whether an input is ON in a group in which it matters.
pub(crate) fn is_on(group: Group, place: usize) -> bool
    requires { place < 64 }
    ensures { result ≡ (bit_at group.value place == 1) }
{
    (group.value >> place) & 1 == 1
}

/// What is around a term.
#[derive(Clone, Copy)]
pub enum Brackets {
    Round,
    Without,
}

/// What is written before a literal: AND, and before the first one the opening bracket.
fn before(brackets: Brackets, begun: bool) -> &'static [u8]
    ensures { result.now ≡ before brackets begun }
{
    if begun {
        return b" AND ";
    }
    match brackets {
        Brackets::Round => b"(",
        Brackets::Without => b"",
    }
}

/// What is written after the last literal: the closing bracket, and `TRUE` for a group without a literal.
fn after(brackets: Brackets, begun: bool) -> &'static [u8]
    ensures { result.now ≡ after brackets begun }
{
    if !begun {
        return b"TRUE";
    }
    match brackets {
        Brackets::Round => b")",
        Brackets::Without => b"",
    }
}

/// What is written before the name of an input: NOT, if it is OFF in the group.
fn negation(is_on: bool) -> &'static [u8]
    ensures { result.now ≡ negation is_on }
{
    if is_on { b"" } else { b"NOT " }
}

/// Adds what is written before a literal, and the literal: the name of an input, after NOT where it is OFF.
fn add_literal<W: Sink>(
    buffer: &mut TextBuffer,
    before: &[u8],
    name: &[u8],
    is_on: bool,
    writer: &mut W,
) -> Result<(), WriteFault>
    ensures { Sends (W.log writer.old) (W.log writer.new) buffer.old buffer.new result (before.now ++ (negation is_on ++ name.now)) }
{
    buffer.add(before, writer)?;
    buffer.add(negation(is_on), writer)?;
    buffer.add(name, writer)
}

/// Adds a group as a term: the listed inputs that matter in it.
///
/// # Errors
///
/// `WriteFault` when the writer failed.
pub fn add_term<W: Sink>(
    buffer: &mut TextBuffer,
    brackets: Brackets,
    decls: &Decls,
    listed: &[usize],
    group: Group,
    writer: &mut W,
) -> Result<(), WriteFault>
    requires { length listed.now ≤ 32 }
    ensures { Sends (W.log writer.old) (W.log writer.new) buffer.old buffer.new result
        (term_left brackets false (literals (map (λ v. name_in (slice_get decls.now.vars v)) listed.now) (cells (length listed.now) group))) }
{
    let mut begun = false;
    for index in 0..listed.len() {
        let place = listed.len() - (index + 1);
        if !is_dash(group, place) {
            let name = name_bytes(decls, listed[index]);
            add_literal(
                buffer,
                before(brackets, begun),
                name,
                is_on(group, place),
                writer,
            )?;
            begun = true;
        }
    }
    buffer.add(after(brackets, begun), writer)
}
