//! The rungs in the order in which they are scanned.

ghost use Rattle.std.specs.Prelude.{◌≡◌, ◌==◌, ◌&&◌, IfErr, IfOk, find, length};
ghost use Rattle.clp_project.specs.Order.{arranged, arranged_so, IsOrderFault, way};

use crate::fault::ClpFault;
use crate::reading::ReadingOptions;
use crate::rung::ClpRung;
use crate::table::Section;
use std::alloc::{AllocError, Global};

/// A rung in its place in the scan, and the section that it is in.
#[derive(Clone, Copy)]
pub struct Placed<'a> {
    pub rung: ClpRung<'a>,
    pub section: u32,
}

/// The first rung with this number, out of all of the project.
fn rung_with<'a>(mut rungs: &[ClpRung<'a>], number: u32) -> Option<ClpRung<'a>>
    ensures { result ≡ find (λ r. r.number == number) rungs.entry.now }
{
    while let [rung, rest @ ..] = rungs {
        if rung.number == number {
            return Some(*rung);
        }
        rungs = rest;
    }
    None
}

/// Adds the rungs of a section, from its first to its last. Returns whether they lead there.
fn add_way<'a>(
    rungs: &[ClpRung<'a>],
    section: Section,
    placed: &mut Vec<Placed<'a>>,
) -> Result<bool, AllocError>
    ensures { IfOk result (λ found. arranged_so placed.old.items (way section.number section.last rungs.now (length rungs.now) section.first) found placed.new.items) }
{
    let mut number = section.first;
    for _count in 0..rungs.len() {
        let Some(rung) = rung_with(rungs, number) else {
            return Ok(false);
        };
        placed.push(Placed {
            rung,
            section: section.number,
        })?;
        if number == section.last {
            return Ok(true);
        }
        let Some(next) = rung.next else {
            return Ok(false);
        };
        number = next;
    }
    Ok(false)
}

/// The rungs of all sections that are scanned, one section after the other.
pub(crate) fn arranged<'a>(
    alloc: Global,
    reading: ReadingOptions,
    rungs: &[ClpRung<'a>],
    mut sections: &[Section],
) -> Result<Vec<Placed<'a>>, ClpFault>
    ensures found { IfOk result (λ v. arranged reading rungs.now sections.entry.now ≡ Ok v.items) }
    ensures none { IfErr result (λ e. IsOrderFault (arranged reading rungs.now sections.entry.now) e) }
{
    let mut placed = Vec::new(alloc);
    while let [section, rest @ ..] = sections {
        if section.language == 0 {
            if section.subroutine.is_none() && !add_way(rungs, *section, &mut placed)? {
                return Err(ClpFault::BrokenWay {
                    section: section.number,
                });
            }
        } else if !(reading.opened && section.language == 1) {
            return Err(ClpFault::NotLadder {
                section: section.number,
            });
        }
        sections = rest;
    }
    Ok(placed)
}
