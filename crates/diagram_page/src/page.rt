//! What is where on the page that a drawing is read from.

ghost use Rattle.std.specs.Prelude.{◌≡◌, ◌==◌, ◌+◌, ◌-◌, ◌<◌, if◌then◌else◌, map, length, All, IfOk, None};
ghost use Rattle.diagram_program.specs.declared.geometry.TheConstants.{RUNGS, ROWS, COLUMNS};
ghost use Rattle.diagram_page.specs.ReadLines.{IsWithin, forms_of};
ghost use Rattle.diagram_page.specs.Tables.{over_with, overs_of};
ghost use Rattle.diagram_page.specs.Picture.{has_text};
ghost use Rattle.diagram_page.specs.Texts.{text_over};
ghost use Rattle.diagram_page.specs.Lines.{part_in, rung_of};
ghost use Rattle.diagram_page.specs.Page.{rung_at, form_at, name_over, instance_at};
ghost use Rattle.diagram_page.specs.Seen.{seen};

use crate::form::{Form, form_at as form_of};
use crate::lines::{Part, lines_between};
use crate::operand::{NameOver, Reference, refer_to, word_in};
use crate::picture::{Half, half_line, has_text, text_at};
use crate::view::PageView;
use diagram_declarations::{Decls, Symbol};
use diagram_program::geometry::{PLACES, Place, RUNGS};
use std::alloc::{AllocError, Global};

/// The lines of the rung with this number, by where its part is.
#[tactic(auto, unfolding(crate::specs::Lines::rung_of))]
fn rung_in<'a, 'b>(lines: &'a [&'b [u8]], parts: &[Part], rung: usize) -> &'a [&'b [u8]]
    requires rungs { rung < length parts.now }
    requires within { All (IsWithin (length lines.now)) parts.now }
    ensures value { map (λ l. l.now) result.now ≡ rung_of (map (λ l. l.now) lines.now) (part_in parts.now rung) }
    ensures count { (part_in parts.now rung).start + length result.now ≡ (part_in parts.now rung).end }
{
    let part = parts[rung];
    lines_between(lines, part.start, part.end)
}

/// The part of a rung: its lines, and its gap lines.
pub fn part_at(page: PageView<'_, '_>, rung: usize) -> Part
    requires rungs { rung < length page.parts.now }
    ensures value { result ≡ part_in page.entry.parts.now rung }
    ensures within { IsWithin (length page.entry.lines.now) result }
{
    page.parts[rung]
}

/// All lines of a rung, two for each row.
pub fn rung_at<'a, 'b>(page: PageView<'a, 'b>, rung: usize) -> &'a [&'b [u8]]
    requires rungs { rung < length page.parts.now }
    ensures value { map (λ l. l.now) result.now ≡ rung_at (seen page.entry) rung }
    ensures count { (part_in page.entry.parts.now rung).start + length result.now ≡ (part_in page.entry.parts.now rung).end }
{
    rung_in(page.lines, page.parts, rung)
}

/// The form of each cell in the first hundred rungs, read once for all rules.
///
/// # Errors
///
/// `AllocError` when out of memory.
#[tactic(auto, unfolding(crate::specs::ReadLines::forms_of))]
pub fn forms(
    alloc: Global,
    lines: &[&[u8]],
    parts: &[Part],
) -> Result<Vec<Option<Form>>, AllocError>
    requires within { All (IsWithin (length lines.now)) parts.now }
    ensures { IfOk result (λ v. v.items ≡ forms_of (map (λ l. l.now) lines.now) parts.now) }
{
    let mut forms = Vec::new(alloc);
    for n in 0..PLACES * parts.len().min(RUNGS) {
        let at = Place::from_number(n);
        let rung = rung_in(lines, parts, at.rung);
        let chars = text_at(rung, half_line(at.row, Half::Wire), at.column);
        forms.push(form_of(&chars))?;
    }
    Ok(forms)
}

/// What is written over each cell in the first hundred rungs, read once for all rules.
///
/// # Errors
///
/// `AllocError` when out of memory.
#[tactic(auto, unfolding(crate::specs::Tables::overs_of))]
pub fn overs(
    alloc: Global,
    decls: &Decls,
    lines: &[&[u8]],
    parts: &[Part],
) -> Result<Vec<NameOver>, AllocError>
    requires within { All (IsWithin (length lines.now)) parts.now }
    ensures { IfOk result (λ v. v.items ≡ overs_of decls.now (map (λ l. l.now) lines.now) parts.now) }
{
    let mut overs = Vec::new(alloc);
    for n in 0..PLACES * parts.len().min(RUNGS) {
        let at = Place::from_number(n);
        let rung = rung_in(lines, parts, at.rung);
        let chars = text_at(rung, half_line(at.row, Half::Name), at.column);
        overs.push(NameOver {
            written: has_text(&chars),
            name: refer_to(decls, word_in(&chars)),
        })?;
    }
    Ok(overs)
}

/// The form of the cell at a place; None where its characters have none.
pub fn form_at(page: PageView<'_, '_>, at: Place) -> Option<Form>
    ensures { result ≡ form_at (seen page.entry) at.rung at.row at.column }
{
    let number = at.number();
    if number < page.forms.len() {
        page.forms[number]
    } else {
        None
    }
}

/// What is written over a cell, read once for the whole page.
fn over_at(page: PageView<'_, '_>, at: Place) -> NameOver
    requires { at.rung < length page.parts.now }
    ensures { result ≡ over_with page.entry.decls.now (text_over (rung_at (seen page.entry) at.rung) at.row at.column) }
{
    page.overs[at.number()]
}

/// Whether something is written over the cell at a place.
pub fn is_written_over(page: PageView<'_, '_>, at: Place) -> bool
    requires { at.rung < length page.parts.now }
    ensures { result ≡ has_text (text_over (rung_at (seen page.entry) at.rung) at.row at.column) }
{
    over_at(page, at).written
}

/// The variable or instance that is named over the cell at a place.
pub fn name_over(page: PageView<'_, '_>, at: Place) -> Option<Reference>
    requires { at.rung < length page.parts.now }
    ensures { result ≡ name_over (seen page.entry) at.rung at.row at.column }
{
    over_at(page, at).name
}

/// The instance whose block is at a place.
#[tactic(auto, unfolding(crate::specs::Page::instance_at))]
pub fn instance_at(page: PageView<'_, '_>, at: Place) -> Option<usize>
    requires { at.rung < length page.parts.now }
    ensures { result ≡ instance_at (seen page.entry) at.rung at.row at.column }
{
    form_at(page, at)?.block()?;
    match name_over(page, at)?.symbol {
        Symbol::Instance(inst) => Some(inst),
        Symbol::Var(_) => None,
    }
}
