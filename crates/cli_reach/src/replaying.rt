//! The simulation of a run that was found.

ghost use Rattle.std.specs.Prelude.{◌<◌, ◌≤◌, ◌^◌, All};
ghost use Rattle.scan_cycle.specs.Standing.{Fits};
ghost use Rattle.reach_runs.specs.Asking.{SwitchesOn};
ghost use Rattle.cli_reach.specs.Asking.{question_of};
ghost use Rattle.cli_reach.specs.Finding.{IsReplayed};

use crate::asking::Asked;
use reach_runs::RunScan;
use text_runs::{is_brief_simulated, is_simulated};

/// The moment of a scan has 64 bits. It is looked at for its type.
fn moment_is_small(scan: &RunScan)
    ensures { scan.now.moment < 2 ^ 64 }
{
    let _moment = scan.moment;
}

/// The moments of a run have 64 bits.
fn moments_are_small(run: &[RunScan])
    ensures { All (λ scan. scan.moment < 2 ^ 64) run.now }
{
    for number in 0..run.len() {
        moment_is_small(&run[number]);
    }
}

/// A simulation of the text of a run makes the run. The function changes nothing, and its contract is this law.
pub(crate) fn is_replayed(asked: &Asked, run: &[RunScan])
    requires fits { Fits asked.now.program asked.now.state }
    requires from { asked.now.state.moment ≤ asked.now.from }
    requires switches { SwitchesOn (question_of asked.now) run.now }
    ensures { IsReplayed (question_of asked.now) run.now }
{
    moments_are_small(run);
    is_simulated(&asked.program);
    is_brief_simulated(&asked.program);
}
