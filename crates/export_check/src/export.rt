//! All statements of a program.

ghost use Rattle.std.specs.Prelude.{IfOk, IsTrue};
ghost use Rattle.export_check.specs.Meaning.{IsExportOf};

use crate::course::{Point, is_rest};
use crate::flags::{behind_resets, first_flag};
use crate::jumps::jumps_of;
use crate::plan::Plan;
use diagram_program::Program;
use scan_cycle::laws::scan_follows_jumps;
use st_statements::StatementList;
use std::alloc::{AllocError, Global};

/// Whether each run of statements does what a scan of a program does; statements that do so in another form may be refused.
///
/// # Errors
///
/// `AllocError` when out of memory.
pub fn is_export(
    alloc: Global,
    program: &Program,
    variables: usize,
    list: &StatementList,
) -> Result<bool, AllocError>
    ensures { IfOk result (λ is. IsTrue is → IsExportOf program.now variables list.now) }
{
    scan_follows_jumps(program);
    let jumps = jumps_of(alloc, program)?;
    let Some(first) = first_flag(program, variables, jumps.len()) else {
        return Ok(false);
    };
    let plan = Plan {
        program,
        variables,
        jumps: &jumps,
        first,
    };
    let Some(rest) = behind_resets(plan, 0, list) else {
        return Ok(false);
    };
    let start = Point {
        rung: 0,
        number: 0,
        list: rest,
    };
    is_rest(alloc, plan, start)
}
