//! Which states count.

ghost use Rattle.std.specs.Prelude.{◌≡◌};
ghost use Rattle.diff_cases.specs.Assuming.{assumed_of_both, nothing_of_both};

use diff_cases::Assumptions;
use invariant_sets::Staying;

/// Which states of two programs count, where nothing is assumed of their inputs.
#[derive(Drop)]
pub enum CountedStates {
    /// All.
    All,
    /// Those in which it is so what stays so in each of them.
    Reachable { old: Staying, new: Staying },
}

/// Which states of two programs count: of these those in which what is assumed of the inputs is true.
#[derive(Drop)]
pub struct Counted<'a> {
    pub states: CountedStates,
    pub assumed: Assumptions<'a>,
}

impl<'a> Counted<'a> {
    /// All of these.
    pub fn of(states: CountedStates) -> Counted<'a>
        ensures states { result.states ≡ states }
        ensures assumed { assumed_of_both result.assumed ≡ nothing_of_both }
    {
        Counted {
            states,
            assumed: Assumptions::nothing(),
        }
    }
}
