//! The statement of a jump or return.

ghost use Rattle.std.specs.Prelude.{◌≡◌, ◌<◌, ◌*◌, ◌+◌, ◌==◌, IfSome, IsTrue, length, true, false};
ghost use Rattle.diagram_program.specs.declared.geometry.TheConstants.{ROWS};
ghost use Rattle.diagram_program.specs.Gates.{actions_of};
ghost use Rattle.diagram_program.specs.Program.{memories_of};
ghost use Rattle.st_statements.specs.declared.statement.StatementList.{StatementList};
ghost use Rattle.export_rungs.specs.Forms.{IsAssignment, IsLeave};
ghost use Rattle.export_rungs.specs.Rungs.{Does};
ghost use Rattle.export_rungs.specs.Steps.{Comes, Shows};

use crate::lists::{assignment_of, is_return, selection_of};
use crate::rung::{Rung, shows};
use crate::scan::Scan;
use diagram_program::geometry::{COLUMNS, ROWS};
use st_expression::Expression;
use st_statements::StatementList;

/// The variable of a jump's flag.
fn flag_of(scan: Scan<'_>, number: usize) -> Option<usize>
    ensures flag { IfSome result (λ v. v ≡ length scan.entry.program.now.decls.vars + memories_of scan.entry.program.now + number) }
    ensures few { IfSome result (λ v. number < scan.entry.jumps) }
{
    if number >= scan.jumps {
        return None;
    }
    scan.program
        .decls()
        .vars()
        .len()
        .checked_add(scan.program.memories())?
        .checked_add(number)
}

/// Whether an expression has the value of the left link of the rung's jump, which is at this row and column, where all cells are done.
fn shows_jump(at: Rung<'_>, expression: &Expression, row: usize, column: usize) -> bool
    ensures { IsTrue result → Shows at.entry.scan.program.now at.entry.rung (actions_of at.entry.scan.program.now at.entry.rung) at.entry.known.now (ROWS * column + row) expression.now }
{
    row < ROWS
        && column < COLUMNS
        && shows(
            at,
            at.scan.program.actions(at.rung),
            expression,
            ROWS * column + row,
        )
}

/// The condition of an IF with a RETURN alone, and the statements behind it.
fn leave_of(list: &StatementList) -> Option<(&Expression, &StatementList)>
    ensures { IfSome result (λ x. IsLeave x.0.now x.1.now list.now) }
{
    let (condition, accepted, next) = selection_of(list)?;
    if !is_return(accepted) {
        return None;
    }
    Some((condition, next))
}

/// The statements behind that of the rung's jump or return, if it has one.
pub(crate) fn behind_jump<'a>(
    at: Rung<'_>,
    number: usize,
    list: &'a StatementList,
) -> Option<&'a StatementList>
    ensures { IfSome result (λ rest. (first : StatementList)
        → Comes at.entry.scan.program.now at.entry.scan.variables at.entry.scan.jumps at.entry.rung at.entry.known.now (actions_of at.entry.scan.program.now at.entry.rung) first list.now
        → Does at.entry.scan.program.now at.entry.scan.variables at.entry.scan.jumps at.entry.rung number first rest.now) }
{
    let Some((row, column, target)) = at.scan.program.jump(at.rung) else {
        return Some(list);
    };
    if target == at.scan.program.rungs() {
        let (condition, next) = leave_of(list)?;
        if !shows_jump(at, condition, row, column) {
            return None;
        }
        return Some(next);
    }
    let flag = flag_of(at.scan, number)?;
    let (variable, value, next) = assignment_of(list)?;
    if variable != flag || !shows_jump(at, value, row, column) {
        return None;
    }
    Some(next)
}
