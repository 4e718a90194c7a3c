//! Laws over the definitions: each function does nothing, and its contract is the law.

ghost use Rattle.scan_cycle.specs.Laws.{FollowsJumps};
ghost use Rattle.scan_cycle.specs.Programs.{diagram_of};
ghost use Rattle.scan_cycle.specs.Seen.{OneSight};

use crate::scene::checked;
use diagram_program::Program;

/// What a scan leaves is what the evaluation of its rungs leaves, one after the other along the jumps that are taken.
pub fn scan_follows_jumps(program: &Program)
    ensures { FollowsJumps (diagram_of program.now) }
{
    checked(program);
}

/// A scan shows one thing at each place: there is one list of marks of it.
pub fn one_sight(program: &Program)
    ensures { OneSight (diagram_of program.now) }
{
    checked(program);
}
