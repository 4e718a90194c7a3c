//! Reads the elements of a rung: their kind, link, class and number.

ghost use Rattle.std.specs.Prelude.{◌≡◌, ◌++◌, IfOk, map, option_map};
ghost use Rattle.clp_project.specs.Rungs.{element_in, elements_in, row_in};

use crate::lines::fields_of;
use crate::number::{before, behind, number_in};
use std::alloc::{AllocError, Global};

/// An element of a rung: its kind, whether a link goes up from its left, and the variable or the entry of a table that it has.
#[derive(Clone, Copy)]
pub struct Element {
    pub kind: u32,
    /// Not 0 where its row and the one above it are joined on its left.
    pub link: u32,
    /// The sort of the variable.
    pub class: u32,
    /// The number of the variable, or that of the entry in its table.
    pub number: u32,
}

/// The element of a field: its kind, its link, its class and its number.
#[tactic(auto, unfolding(crate::specs::Rungs::element_in))]
fn element_in(field: &[u8]) -> Option<Element>
    ensures { result ≡ element_in field.now }
{
    let rest = behind(b'-', field);
    let last = behind(b'-', rest);
    Some(Element {
        kind: number_in(before(b'-', field))?,
        link: number_in(before(b'-', rest))?,
        class: number_in(before(b'/', last))?,
        number: number_in(behind(b'/', last))?,
    })
}

/// The elements that the fields are, where each is one.
fn elements_in(alloc: Global, mut fields: &[&[u8]]) -> Result<Option<Vec<Element>>, AllocError>
    ensures { IfOk result (λ o. option_map (λ v. v.items) o ≡ elements_in (map (λ l. l.now) fields.entry.now)) }
{
    let mut elements = Vec::new(alloc);
    while let [field, rest @ ..] = fields {
        match element_in(field) {
            Some(element) => elements.push(element)?,
            None => return Ok(None),
        }
        fields = rest;
    }
    Ok(Some(elements))
}

/// The elements of a row, from its line.
#[tactic(auto, unfolding(crate::specs::Rungs::row_in))]
pub(crate) fn row_in(alloc: Global, line: &[u8]) -> Result<Option<Vec<Element>>, AllocError>
    ensures { IfOk result (λ o. option_map (λ v. v.items) o ≡ row_in line.now) }
{
    let fields = fields_of(alloc, line)?;
    if fields.len() != 10 {
        return Ok(None);
    }
    elements_in(alloc, &fields)
}
