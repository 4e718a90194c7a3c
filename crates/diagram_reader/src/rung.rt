//! The rules of one rung: its characters, its size, and then those of its places.

ghost use Rattle.std.specs.Prelude.{◌≡◌, ◌<◌, ◌+◌, ℕ, length, map, IfSome, IfNone, [], true, drop, not, nat_le, ◌&&◌};
ghost use Rattle.std.specs.List.{list_any};
ghost use Rattle.diagram_program.specs.Bytes.{space};
ghost use Rattle.diagram_program.specs.declared.geometry.TheConstants.{RUNGS, LINES};
ghost use Rattle.diagram_page.specs.Lines.{part_in};
ghost use Rattle.diagram_page.specs.Seen.{seen};
ghost use Rattle.diagram_reader.specs.Checks.{is_dirty_at, is_wide_at};
ghost use Rattle.diagram_reader.specs.Rung.{RungBreaks, IsSoundRung};

use crate::grid_rule::{GridRule, Rule};
use crate::rules::broken_place;
use diagram_page::PageView;
use diagram_page::page::rung_at;
use diagram_page::picture::{has_text, line_at};
use diagram_program::geometry::{LINES, RAIL};

/// The first place past the right rail.
const PAST_RAIL: usize = RAIL + 1;

/// Whether a line has a byte that isn't printable ASCII.
fn is_dirty(line: &[u8]) -> bool
    ensures { result ≡ list_any (λ b. not (nat_le space b && nat_le b 126)) line.now }
{
    line.iter().any(|b| !(b' ' <= *b && *b <= b'~'))
}

/// What is left of a line from a place on, and nothing where it is shorter.
fn past(line: &[u8], place: usize) -> &[u8]
    ensures { result.now ≡ drop place line.now }
{
    if place < line.len() {
        &line[place..]
    } else {
        &[]
    }
}

/// The first line of a rung with a byte that isn't printable ASCII.
fn dirty_line(lines: &[&[u8]]) -> Option<usize>
    ensures some { IfSome result (λ line. (line < length lines.now) × (is_dirty_at (map (λ l. l.now) lines.now) line ≡ true)) }
    ensures none { IfNone result ((line : ℕ) → line < length lines.now → is_dirty_at (map (λ l. l.now) lines.now) line ≡ true → ⊥) }
{
    for line in 0..lines.len() {
        if is_dirty(line_at(lines, line)) {
            return Some(line);
        }
    }
    None
}

/// The first line of a rung with text past the right rail.
fn wide_line(lines: &[&[u8]]) -> Option<usize>
    ensures some { IfSome result (λ line. (line < length lines.now) × (is_wide_at (map (λ l. l.now) lines.now) line ≡ true)) }
    ensures none { IfNone result ((line : ℕ) → line < length lines.now → is_wide_at (map (λ l. l.now) lines.now) line ≡ true → ⊥) }
{
    for line in 0..lines.len() {
        if has_text(past(line_at(lines, line), PAST_RAIL)) {
            return Some(line);
        }
    }
    None
}

/// The first rule that the rung breaks, and the line of the rung.
pub(crate) fn broken_rule(page: PageView<'_, '_>, rung: usize) -> Option<(Rule, usize)>
    requires rungs { rung < length page.parts.now }
    requires few { rung < RUNGS }
    ensures some { IfSome result (λ x. RungBreaks x.0 (seen page.entry) rung x.1) }
    ensures near { IfSome result (λ x. (part_in page.entry.parts.now rung).start + x.1 < (part_in page.entry.parts.now rung).end + LINES) }
    ensures none { IfNone result (IsSoundRung (seen page.entry) rung) }
{
    let lines = rung_at(page, rung);
    if let Some(line) = dirty_line(lines) {
        return Some((Rule::BadByte, line));
    }
    if lines.len() > LINES {
        return Some((Rule::Grid(GridRule::TooTall), LINES));
    }
    if let Some(line) = wide_line(lines) {
        return Some((Rule::Grid(GridRule::TooWide), line));
    }
    match broken_place(page, rung) {
        Some((rule, line)) => Some((Rule::Grid(rule), line)),
        None => None,
    }
}
