//! The sites of a drawing while the lists that a scan goes through are made of them.

ghost use Rattle.std.specs.Prelude.{◌≡◌, ◌<◌, ◌≤◌, count_by, IfOk, ◌%◌, ◌/◌, option_map};
ghost use Rattle.std.specs.Option.{option_or};
ghost use Rattle.diagram_program.specs.declared.geometry.TheConstants.{RUNGS, ROWS};
ghost use Rattle.diagram_program.specs.Program.{site_in, feeds, goes_to, jump_of, has_memory};
ghost use Rattle.diagram_program.specs.Sheet.{drawing_of, IsOfEach};

use crate::cell::{Cell, Joint};
use crate::geometry::{PLACES, Place, ROWS};
use crate::site::Site;
use diagram_declarations::Decls;
use std::alloc::{AllocError, Global};

/// The row and the column of a jump, and its target.
pub(crate) type Jump = (usize, usize, usize);

/// A drawing while its gates are made.
#[derive(Clone, Copy)]
pub(crate) struct Sheet<'a> {
    pub decls: &'a Decls,
    pub rungs: usize,
    pub sites: &'a [Site],
}

/// The site with this number; past the last one it is empty.
pub(crate) fn site_in(sheet: Sheet<'_>, at: usize) -> Site
    ensures { result ≡ site_in (drawing_of sheet.entry) at }
{
    if at < sheet.sites.len() {
        sheet.sites[at]
    } else {
        Site {
            cell: Cell::Empty,
            right_link: false,
            joint: Joint::Blank,
            vertical: false,
        }
    }
}

/// Whether power from the row `from` of the column before enters the joint on the left of a place: that cell has a right link, its
/// joint is a wire or a crossing, and vertical links join all rows between.
#[tactic(auto, using(crate::proofs::JoinLaws::join_step))]
pub(crate) fn feeds(sheet: Sheet<'_>, at: Place, from: usize) -> bool
    requires { from < ROWS }
    ensures { result ≡ feeds (drawing_of sheet.entry) at.rung at.row at.column from }
{
    let source = at.in_row(from);
    if at.column == 0 || !site_in(sheet, source.before().number()).right_link {
        return false;
    }
    match site_in(sheet, source.number()).joint {
        Joint::Dash | Joint::Plus => {}
        Joint::Blank | Joint::Bar => return false,
    }
    let first = at.row.min(from);
    let mut all = true;
    for i in 0..at.row.max(from) - first {
        all = all && site_in(sheet, at.in_row(first + i).number()).vertical;
    }
    all
}

/// The jump that was found before a place, or else the one of the cell at the place.
fn first_jump(before: Option<Jump>, rungs: usize, cell: Cell, at: usize) -> Option<Jump>
    ensures { result ≡ option_or before (option_map (λ t. (at % ROWS, at / ROWS, t)) (goes_to rungs cell)) }
{
    match (before, cell) {
        (Some(jump), _) => Some(jump),
        (None, Cell::Jump { target }) => Some((at % ROWS, at / ROWS, target)),
        (None, Cell::Return) => Some((at % ROWS, at / ROWS, rungs)),
        (
            None,
            Cell::Empty
            | Cell::Wire
            | Cell::Contact { .. }
            | Cell::Coil { .. }
            | Cell::Block { .. }
            | Cell::Lower { .. },
        ) => None,
    }
}

/// The jump or return of one rung, where it has one.
#[tactic(auto, using(crate::proofs::JumpLaws::jump_step))]
fn rung_jump(sheet: Sheet<'_>, rung: usize) -> Option<Jump>
    requires rungs { rung < RUNGS }
    ensures { result ≡ jump_of (drawing_of sheet.entry) rung }
{
    let mut jump = None;
    for at in 0..PLACES {
        let cell = site_in(sheet, PLACES * rung + at).cell;
        jump = first_jump(jump, sheet.rungs, cell, at);
    }
    jump
}

/// The jump or return of each rung, where it has one.
pub(crate) fn jumps(alloc: Global, sheet: Sheet<'_>) -> Result<Vec<Option<Jump>>, AllocError>
    requires rungs { sheet.rungs ≤ RUNGS }
    ensures { IfOk result (λ v. IsOfEach sheet.entry.rungs None (jump_of (drawing_of sheet.entry)) v.items) }
{
    let mut jumps: Vec<Option<Jump>> = Vec::new(alloc);
    for rung in 0..sheet.rungs {
        jumps.push(rung_jump(sheet, rung))?;
    }
    Ok(jumps)
}

/// How many edge contacts and edge coils there are.
pub(crate) fn memories(sites: &[Site]) -> usize
    ensures { result ≡ count_by (λ s. has_memory s.cell) sites.now }
{
    sites.iter().filter(|s| s.cell.has_memory()).count()
}
