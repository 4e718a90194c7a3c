//! Laws over the definitions: each function does nothing, and its contract is the law.

ghost use Rattle.diff_matching.specs.Runs.{RunsAgree};

use diagram_program::Program;
use scan_cycle::scene::checked;

/// Where one scan of each of two programs, from any states that agree, leaves states that agree, all runs from states that agree do.
pub fn runs_agree(old: &Program, new: &Program)
    ensures { RunsAgree old.now new.now }
{
    checked(old);
    checked(new);
}
