//! Reads the rungs of a project, a part of the file each.

ghost use Rattle.std.specs.Prelude.{◌≡◌, IfErr, IfOk, Ok, Err, ℕ, map, option_map, codes};
ghost use Rattle.clp_project.specs.Rungs.{read_of, rows_in, rung_in, rung_number, rung_with, rungs_in};
ghost use Rattle.clp_project.specs.RungFault.{IsRungFault};

use crate::element::{Element, row_in};
use crate::fault::ClpFault;
use crate::lines::{body_of, is_data, is_line, value_of};
use crate::number::{before, behind, number_in, other_in};
use std::alloc::{AllocError, Global};

/// The elements of a rung.
pub const ELEMENTS: usize = 60;

const BLANK: Element = Element {
    kind: 0,
    link: 0,
    class: 0,
    number: 0,
};

/// A rung as a project has it.
#[derive(Clone, Copy)]
pub struct ClpRung<'a> {
    pub number: u32,
    /// The number of the rung that is scanned after it.
    pub next: Option<u32>,
    pub label: &'a [u8],
    pub comment: &'a [u8],
    /// 6 rows of 10 elements, row by row.
    pub elements: [Element; ELEMENTS],
}

/// The elements of the rows, one row after the other.
fn rows_in(alloc: Global, mut lines: &[&[u8]]) -> Result<Option<Vec<Element>>, AllocError>
    ensures { IfOk result (λ o. option_map (λ v. v.items) o ≡ rows_in (map (λ l. l.now) lines.entry.now)) }
{
    let mut elements = Vec::new(alloc);
    while let [line, rest @ ..] = lines {
        if is_data(line) {
            match row_in(alloc, line)? {
                Some(row) => elements.extend_from_slice(&row)?,
                None => return Ok(None),
            }
        }
        lines = rest;
    }
    Ok(Some(elements))
}

/// The rung that the lines of a part are, by the elements of its rows.
fn rung_with<'a>(number: u32, body: &[&'a [u8]], rows: &[Element]) -> Option<ClpRung<'a>>
    ensures { option_map read_of result ≡ rung_with number (map (λ l. l.now) body.now) rows.now }
{
    let value = value_of(b"#NEXTRUNG=", body);
    let next = if value.is_empty() {
        None
    } else {
        other_in(value)?
    };
    if rows.len() != ELEMENTS {
        return None;
    }
    let mut elements = [BLANK; ELEMENTS];
    elements.copy_from_slice(rows);
    Some(ClpRung {
        number,
        next,
        label: value_of(b"#LABEL=", body),
        comment: value_of(b"#COMMENT=", body),
        elements,
    })
}

/// The rung that a part of the file is, from its lines.
#[tactic(auto, unfolding(crate::specs::Rungs::rung_in))]
fn rung_in<'a>(
    alloc: Global,
    number: u32,
    body: &[&'a [u8]],
) -> Result<Option<ClpRung<'a>>, AllocError>
    ensures { IfOk result (λ o. option_map read_of o ≡ rung_in number (map (λ l. l.now) body.now)) }
{
    match rows_in(alloc, body)? {
        Some(rows) => Ok(rung_with(number, body, &rows)),
        None => Ok(None),
    }
}

/// The number of the rung whose part begins with this line.
#[tactic(auto, unfolding(crate::specs::Rungs::rung_number))]
fn rung_number(line: &[u8]) -> Option<u32>
    ensures { result ≡ rung_number line.now }
{
    if line.starts_with(b"_FILE-rung_") && is_line(b"csv", behind(b'.', line)) {
        number_in(before(b'.', &line[11..]))
    } else {
        None
    }
}

/// The rungs of a project, from all parts of the file that are one.
pub(crate) fn rungs_in<'a>(
    alloc: Global,
    mut lines: &[&'a [u8]],
) -> Result<Vec<ClpRung<'a>>, ClpFault>
    ensures found { IfOk result (λ v. rungs_in (map (λ l. l.now) lines.entry.now) ≡ Ok (map read_of v.items)) }
    ensures none { IfErr result (λ e. IsRungFault (rungs_in (map (λ l. l.now) lines.entry.now)) e) }
{
    let mut rungs = Vec::new(alloc);
    while let [line, rest @ ..] = lines {
        if let Some(number) = rung_number(line) {
            match rung_in(alloc, number, body_of(rest))? {
                Some(rung) => rungs.push(rung)?,
                None => return Err(ClpFault::BadRung { rung: number }),
            }
        }
        lines = rest;
    }
    Ok(rungs)
}
