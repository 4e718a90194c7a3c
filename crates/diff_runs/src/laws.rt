//! Laws over the definitions: each function does nothing, and its contract is the law.

ghost use Rattle.diff_runs.specs.Laws.{AreAssumedAlways, NeverShownWhereNeverOn, NotShownWhereStaysOff, ShownWhereSwitchedOn};

use diagram_program::Program;
use invariant_sets::laws::allowed_where_given;
use scan_cycle::scene::checked;

/// Where no run of a program in which two stand side by side ever leaves two symbols of theirs different, no runs of the two ever do.
pub fn never_shown(old: &Program, new: &Program, both: &Program)
    ensures { NeverShownWhereNeverOn old.now new.now both.now }
{
    let _old = old;
    let _new = new;
    checked(both);
}

/// The same of runs of few scans.
pub fn not_shown(old: &Program, new: &Program, both: &Program)
    ensures { NotShownWhereStaysOff old.now new.now both.now }
{
    let _old = old;
    let _new = new;
    checked(both);
}

/// Where a run of it leaves them different, the runs of the two programs that it has in it do.
pub fn shown(old: &Program, new: &Program, both: &Program)
    ensures { ShownWhereSwitchedOn old.now new.now both.now }
{
    checked(old);
    checked(new);
    checked(both);
    allowed_where_given(old);
    allowed_where_given(new);
}

/// Where nothing is assumed of the inputs, that is true in any scans.
pub fn nothing_assumed(old: &Program, new: &Program)
    ensures { AreAssumedAlways old.now new.now }
{
    let _old = old;
    let _new = new;
}
