//! What is assumed of the inputs of two programs that are judged over runs.

ghost use Rattle.std.specs.Prelude.{◌≡◌, option_map};
ghost use Rattle.cli_verdicts.specs.Together.{assumption_read};
ghost use Rattle.cli_run_verdicts.specs.Assuming.{assumption, in_runs, nothing};

use cli_diff::ReadAssumed;
use diff_runs::{TwoAssumed, nothing as nothing_of_both};

/// What is true of the inputs of both programs in each scan, and of how many expressions it is made, where something is assumed.
#[derive(Clone, Copy)]
pub(crate) struct RunsAssuming<'a> {
    pub assumed: TwoAssumed<'a>,
    pub expressions: Option<u64>,
}

/// Nothing is assumed.
fn nothing<'a>() -> RunsAssuming<'a>
    ensures { assumption result ≡ nothing }
{
    RunsAssuming {
        assumed: nothing_of_both(),
        expressions: None,
    }
}

/// What is assumed by what was read of a request, where it assumes something.
pub(crate) fn assuming_by(read: &Option<ReadAssumed>) -> RunsAssuming<'_>
    ensures { assumption result ≡ in_runs (option_map assumption_read read.now) }
{
    match read {
        Some(read) => RunsAssuming {
            assumed: TwoAssumed {
                old: read.old.as_ref(),
                new: read.new.as_ref(),
            },
            expressions: Some(read.expressions),
        },
        None => nothing(),
    }
}
