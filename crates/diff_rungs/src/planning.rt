//! Which rungs belong together: a longest sequence of rungs that both programs have in common.
//!
//! The plan is free. What is marked in the end is proved for any.

ghost use Rattle.std.specs.Prelude.{◌≡◌, ◌<◌, ◌≤◌, ◌+◌, ◌*◌, IfOk, List, length};
ghost use Rattle.diagram_program.specs.declared.geometry.TheConstants.{RUNGS};
ghost use Rattle.diff_matching.specs.Suited.{IsSuited};
ghost use Rattle.diff_rungs.specs.declared.planning.TheConstants.{SIZE, WIDTH};
ghost use Rattle.diff_rungs.specs.declared.reading.Rungs.{Rungs};
ghost use Rattle.diff_rungs.specs.Marks.{StayAsMany};
ghost use Rattle.diff_rungs.specs.Walking.{IsWithin, Reached};

use crate::marks::Marks;
use crate::reading::{Rungs, Versions, find_same, is_marked_memory, is_marked_variable};
use crate::walking::{Place, pass_both, pass_new, pass_old, pass_rest};
use crate::writing::act_same;
use diagram_program::Cell;
use diagram_program::geometry::RUNGS;
use diff_matching::{Matching, Pair};
use scan_cycle::Memory;
use std::alloc::Global;

/// How many entries a row of the table has.
const WIDTH: usize = RUNGS + 1;

/// How many entries the table has.
const SIZE: usize = WIDTH * WIDTH;

/// Where both programs go on.
#[derive(Clone, Copy)]
enum Way {
    Old,
    New,
    Both,
}

/// Whether what two cells write is in a pair.
fn are_paired(matching: &Matching, all: &Marks, old: Cell, new: Cell) -> bool {
    match (old, new) {
        (
            Cell::Coil { var, memory, .. },
            Cell::Coil {
                var: written,
                memory: kept,
                ..
            },
        ) => {
            let pair = Pair {
                old: var,
                new: written,
            };
            is_marked_variable(matching, all, pair) && is_marked_memory(matching, all, memory, kept)
        }
        (Cell::Contact { memory, .. }, Cell::Contact { memory: kept, .. }) => {
            is_marked_memory(matching, all, memory, kept)
        }
        _ => true,
    }
}

/// Whether two rungs have a jump by the same left link, or none.
fn leave_alike(versions: Versions<'_>, rungs: Rungs) -> bool
    requires old { rungs.old < versions.old.now.rungs }
    requires new { rungs.new < versions.new.now.rungs }
{
    match (versions.old.exit(rungs.old), versions.new.exit(rungs.new)) {
        (None, None) => true,
        (Some(old), Some(new)) => old.left == new.left,
        _ => false,
    }
}

/// Whether two rungs are the same where all that is in a pair is.
fn are_same(versions: Versions<'_>, all: &Marks, rungs: Rungs) -> bool
    requires old { rungs.old < versions.old.now.rungs }
    requires new { rungs.new < versions.new.now.rungs }
{
    let olds = versions.old.actions(rungs.old);
    let news = versions.new.actions(rungs.new);
    if olds.len() != news.len() || !leave_alike(versions, rungs) {
        return false;
    }
    for n in 0..olds.len() {
        let (old, new) = (olds[n], news[n]);
        if !are_paired(versions.matching, all, old.cell, new.cell)
            || !act_same(versions, all, all, old, new)
        {
            return false;
        }
    }
    find_same(versions, all, rungs)
}

/// How many rungs from these on are in common, by the table.
fn in_common(table: &[usize], old: usize, new: usize) -> usize
    requires old { old ≤ RUNGS }
    requires new { new ≤ RUNGS }
    requires size { length table.now ≡ SIZE }
{
    table[WIDTH * old + new]
}

/// Fills in a row of the table, from its end.
fn fill_row(versions: Versions<'_>, all: &Marks, old: usize, table: &mut [usize])
    requires rung { old < versions.old.now.rungs }
    requires few { old < RUNGS }
    requires size { length table.old ≡ SIZE }
    ensures { length table.new ≡ SIZE }
{
    let count = versions.new.rungs();
    for back in 0..count {
        let new = count - 1 - back;
        let same = are_same(versions, all, Rungs { old, new });
        table[WIDTH * old + new] = if same {
            in_common(table, old + 1, new + 1).saturating_add(1)
        } else {
            in_common(table, old + 1, new).max(in_common(table, old, new + 1))
        };
    }
}

/// For each rung of either program how many from these on are in common.
fn table(alloc: Global, versions: Versions<'_>, all: &Marks) -> Result<Vec<usize>, Memory>
    ensures { IfOk result (λ t. length t.items ≡ SIZE) }
{
    let mut table = vec![in alloc; 0; SIZE]?;
    let count = versions.old.rungs();
    for back in 0..count {
        fill_row(versions, all, count - 1 - back, &mut table);
    }
    Ok(table)
}

/// The way on which most rungs are in common, past both where that loses none.
fn choose_way(table: &[usize], place: Place) -> Way
    requires old { place.old_rung < RUNGS }
    requires new { place.new_rung < RUNGS }
    requires size { length table.now ≡ SIZE }
{
    let both = in_common(table, place.old_rung, place.new_rung);
    let past_old = in_common(table, place.old_rung + 1, place.new_rung);
    let past_new = in_common(table, place.old_rung, place.new_rung + 1);
    if past_old == both && past_old > in_common(table, place.old_rung + 1, place.new_rung + 1) {
        Way::Old
    } else if past_new == both
        && past_new > in_common(table, place.old_rung + 1, place.new_rung + 1)
    {
        Way::New
    } else {
        Way::Both
    }
}

/// Goes one step on, where rungs of both programs are left.
fn step(
    versions: Versions<'_>,
    table: &[usize],
    place: Place,
    leaps: &mut Vec<Rungs>,
    marks: &mut Marks,
) -> Result<Place, Memory>
    requires size { length table.now ≡ SIZE }
    requires within { IsWithin versions.old.now versions.new.now place }
    requires reached { Reached versions.matching.now versions.old.now versions.new.now place leaps.old.items marks.old }
    ensures within { IfOk result (λ r. IsWithin versions.entry.old.now versions.entry.new.now r) }
    ensures reached { IfOk result (λ r. Reached versions.entry.matching.now versions.entry.old.now versions.entry.new.now r leaps.new.items marks.new) }
    ensures many { IfOk result (λ _. StayAsMany marks.old marks.new) }
{
    if place.old_rung >= versions.old.rungs() || place.new_rung >= versions.new.rungs() {
        return Ok(place);
    }
    match choose_way(table, place) {
        Way::Old => Ok(pass_old(versions, place, leaps, marks)),
        Way::New => Ok(pass_new(versions, place, leaps, marks)),
        Way::Both => pass_both(versions, place, leaps, marks),
    }
}

/// Goes past all rungs of both programs, and leaves marked what is the same after them.
pub(crate) fn walk(
    alloc: Global,
    versions: Versions<'_>,
    all: &Marks,
    marks: &mut Marks,
) -> Result<Place, Memory>
    requires { IsSuited versions.matching.now versions.old.now versions.new.now }
    ensures end { IfOk result (λ r. (r.old_rung ≡ versions.entry.old.now.rungs) × (r.new_rung ≡ versions.entry.new.now.rungs)) }
    ensures reached { IfOk result (λ r. (leaps : List Rungs)
        × Reached versions.entry.matching.now versions.entry.old.now versions.entry.new.now r leaps marks.new) }
    ensures many { IfOk result (λ _. StayAsMany marks.old marks.new) }
{
    let table = table(alloc, versions, all)?;
    let mut place = Place {
        old_rung: 0,
        new_rung: 0,
        old_reach: 0,
        new_reach: 0,
        together: true,
    };
    let mut leaps = Vec::new(alloc);
    for _ in 0..2 * RUNGS {
        place = step(versions, &table, place, &mut leaps, marks)?;
    }
    Ok(pass_rest(versions, place, &leaps, marks))
}
