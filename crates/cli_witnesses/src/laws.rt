//! The law of witnesses: the function does nothing, and its contract is the law.

ghost use Rattle.cli_witnesses.specs.Laws.{AreRowsShown, AreRowsShownAssuming};

use diagram_program::Program;

/// Each row that says that something differs is shown by one of the witnesses of the verdicts.
pub fn rows_are_shown(old: &Program, new: &Program)
    ensures all { AreRowsShown old.now new.now }
    ensures assuming { AreRowsShownAssuming old.now new.now }
{
    let _old = old;
    let _new = new;
}
