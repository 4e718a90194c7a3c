//! Laws over the definitions: each function does nothing, and its contract is the law.

ghost use Rattle.scan_held.specs.Holding.{MoreScansKeepRows, OneScanIsCauses, RepeatsAreNever};
ghost use Rattle.scan_cycle.specs.Programs.{diagram_of};

use crate::later_laws::goes_on_alike;
use diagram_program::Program;

/// With one scan the rows are those of the list of causes.
pub fn one_scan()
    ensures { OneScanIsCauses }
{}

/// With more scans the rows stay rows, each with the same first scan.
pub fn more_scans()
    ensures { MoreScansKeepRows }
{}

/// Where the state comes again, but for the time between, and the variable was OFF until then, no scan switches it on.
pub fn repeats(program: &Program)
    ensures { RepeatsAreNever (diagram_of program.now) }
{
    goes_on_alike(program);
}
