//! Laws over the definitions: each function does nothing, and its contract is the law.

ghost use Rattle.scan_symbolic.specs.Laws.{LookAllows, LookIsScan, LookKeeps};
ghost use Rattle.scan_cycle.specs.Programs.{diagram_of};

use diagram_program::Program;
use scan_cycle::scene::checked;
use scan_signals::{Allowed, Relation, Signal};

/// The whole scan keeps each relation: from related inputs come related values.
pub fn related<R: Relation>()
    ensures { (at : R) → LookKeeps R.Left.algebra R.Right.algebra (R.related at) }
{}

/// A look is sound: from inputs that allow truth values at a place it leaves values that allow there what a scan leaves from
/// those truth values.
pub fn sound<S: Signal>(program: &Program)
    ensures { LookAllows S.value S.algebra S.place S.allows (diagram_of program.now) }
{
    related::<Allowed<S>>();
    look_is_scan(program);
}

/// Over truth values a look leaves the values that a scan leaves.
pub fn look_is_scan(program: &Program)
    ensures { LookIsScan (diagram_of program.now) }
{
    checked(program);
}
