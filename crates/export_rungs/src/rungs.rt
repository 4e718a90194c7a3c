//! The statements of a whole rung.

ghost use Rattle.std.specs.Prelude.{◌≡◌, ◌<◌, ◌≤◌, ◌+◌, [], IfOk, IfSome, IsTrue, length, take};
ghost use Rattle.std.specs.List.{All};
ghost use Rattle.diagram_program.specs.Gates.{actions_of};
ghost use Rattle.st_statements.specs.declared.statement.StatementList.{StatementList};
ghost use Rattle.export_rungs.specs.Rungs.{Does};
ghost use Rattle.export_rungs.specs.Standing.{IsApart};
ghost use Rattle.export_rungs.specs.Steps.{Comes, Go, base_of};

use crate::cells::behind_plain;
use crate::edges::behind_edge_coil;
use crate::jumps::behind_jump;
use crate::latch::behind_latches;
use crate::lists::assignment_of;
use crate::meanings::meanings_of;
use crate::rung::Rung;
use crate::scan::Scan;
use diagram_program::gates::Action;
use diagram_program::{Cell, CoilMode};
use export_power::Known;
use st_statements::StatementList;
use std::alloc::{AllocError, Global};

/// The first variable that may stand for something within a rung.
fn base_of(scan: Scan<'_>) -> Option<usize>
    ensures { IfSome result (λ base. base ≡ base_of scan.entry.program.now scan.entry.jumps) }
{
    scan.program
        .decls()
        .vars()
        .len()
        .checked_add(scan.program.memories())?
        .checked_add(scan.jumps)
}

/// Whether none of these variables is this one.
fn is_apart(known: &[Known], variable: usize) -> bool
    ensures { IsTrue result → All (IsApart variable) known.now }
{
    known.iter().all(|other| other.variable != variable)
}

/// Whether a variable of the statements may stand for something within a rung.
fn is_free(scan: Scan<'_>, known: &[Known], variable: usize) -> bool
    ensures low { IsTrue result → base_of scan.entry.program.now scan.entry.jumps ≤ variable }
    ensures small { IsTrue result → variable < scan.entry.variables }
    ensures apart { IsTrue result → All (IsApart variable) known.now }
{
    match base_of(scan) {
        Some(base) => { base <= variable && variable < scan.variables && is_apart(known, variable) }
        None => false,
    }
}

/// The statements behind those that give variables what they stand for, where these cells are done; these variables are added to the list.
fn prepared<'a>(
    alloc: Global,
    scan: Scan<'_>,
    rung: usize,
    known: &mut Vec<Known>,
    done: &[Action],
    list: &'a StatementList,
) -> Result<&'a StatementList, AllocError>
    requires { rung < scan.program.now.rungs }
    ensures { IfOk result (λ rest. (first : StatementList)
        → Comes scan.entry.program.now scan.entry.variables scan.entry.jumps rung known.old.items done.now first list.now
        → Comes scan.entry.program.now scan.entry.variables scan.entry.jumps rung known.new.items done.now first rest.now) }
{
    let Some((variable, value, next)) = assignment_of(list) else {
        return Ok(list);
    };
    if !is_free(scan, known, variable) {
        return Ok(list);
    }
    let at = Rung { scan, rung, known };
    let meanings = meanings_of(alloc, at, done, variable, value)?;
    if meanings.is_empty() {
        return Ok(list);
    }
    known.extend_from_slice(&meanings)?;
    prepared(alloc, scan, rung, known, done, next)
}

/// Whether a cell is a set or a reset coil.
fn is_latch(cell: Cell) -> bool {
    matches!(
        cell,
        Cell::Coil {
            mode: CoilMode::Set | CoilMode::Reset,
            ..
        }
    )
}

/// The statements behind those of one cell, but of a set or a reset coil.
fn behind_one<'a>(
    at: Rung<'_>,
    actions: &[Action],
    done: usize,
    list: &'a StatementList,
) -> Option<&'a StatementList>
    requires { done < length actions.now }
    ensures { IfSome result (λ rest. Go at.entry.scan.program.now at.entry.scan.variables at.entry.scan.jumps at.entry.rung at.entry.known.now (take done actions.now) (take (done + 1) actions.now) list.now rest.now) }
{
    let before = &actions[..done];
    let after = &actions[..done + 1];
    let action = actions[done];
    match behind_plain(at, before, action, list) {
        Some(next) => Some(next),
        None => behind_edge_coil(at, before, after, action, list),
    }
}

/// The statements behind those of the next cells, and how many cells are done then.
fn behind_next<'a>(
    at: Rung<'_>,
    actions: &[Action],
    done: usize,
    list: &'a StatementList,
) -> Option<(usize, &'a StatementList)>
    requires { done < length actions.now }
    ensures does { IfSome result (λ x. Go at.entry.scan.program.now at.entry.scan.variables at.entry.scan.jumps at.entry.rung at.entry.known.now (take done actions.now) (take x.0 actions.now) list.now x.1.now) }
    ensures within { IfSome result (λ x. (done < x.0) × (x.0 ≤ length actions.now)) }
{
    if is_latch(actions[done].cell) {
        return behind_latches(at, actions, done, list);
    }
    let next = behind_one(at, actions, done, list)?;
    Some((done + 1, next))
}

/// The statements behind those of all cells, and behind those that give variables what they stand for; these variables are added to the list.
fn behind_all<'a>(
    alloc: Global,
    scan: Scan<'_>,
    rung: usize,
    known: &mut Vec<Known>,
    done: usize,
    list: &'a StatementList,
) -> Result<Option<&'a StatementList>, AllocError>
    requires rung { rung < scan.program.now.rungs }
    requires done { done ≤ length (actions_of scan.program.now rung) }
    ensures { IfOk result (λ o. IfSome o (λ rest. (first : StatementList)
        → Comes scan.entry.program.now scan.entry.variables scan.entry.jumps rung known.old.items (take done (actions_of scan.entry.program.now rung)) first list.now
        → Comes scan.entry.program.now scan.entry.variables scan.entry.jumps rung known.new.items (actions_of scan.entry.program.now rung) first rest.now)) }
{
    let actions = scan.program.actions(rung);
    // What follows here belongs to the next rung.
    if done >= actions.len() && scan.program.jump(rung).is_none() {
        return Ok(Some(list));
    }
    let ready = prepared(alloc, scan, rung, known, &actions[..done], list)?;
    if done >= actions.len() {
        return Ok(Some(ready));
    }
    let at = Rung { scan, rung, known };
    let Some((after, next)) = behind_next(at, actions, done, ready) else {
        return Ok(None);
    };
    behind_all(alloc, scan, rung, known, after, next)
}

/// The statements behind those that do what a rung does, whose jump has this number among the jumps; none where they do something else, or
/// in another form:
///
/// - Each cell that writes does so, by column and row: a coil by an assignment (`( )`, `(/)`), by two (`(P)`, `(N)`, with its memory) or by an
///   IF, which several `(S)` and `(R)` may share; a block by its call; an edge contact by the assignment of its memory.
/// - Before each of them, variables that the program doesn't have may be given what they stand for: an operand as it was at the start of the
///   rung, the power at the left of a place, and at the start of the rung whether an edge contact is closed.
/// - Last, a jump sets its flag, and a return is an IF with RETURN alone.
///
/// # Errors
///
/// `AllocError` when out of memory.
pub fn behind_rung<'a>(
    alloc: Global,
    scan: Scan<'_>,
    rung: usize,
    number: usize,
    list: &'a StatementList,
) -> Result<Option<&'a StatementList>, AllocError>
    requires { rung < scan.program.now.rungs }
    ensures { IfOk result (λ o. IfSome o (λ rest. Does scan.entry.program.now scan.entry.variables scan.entry.jumps rung number list.now rest.now)) }
{
    let mut known = Vec::new(alloc);
    let Some(ready) = behind_all(alloc, scan, rung, &mut known, 0, list)? else {
        return Ok(None);
    };
    let at = Rung {
        scan,
        rung,
        known: &known,
    };
    Ok(behind_jump(at, number, ready))
}
