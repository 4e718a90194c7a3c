//! What is asked of the runs from a state.

ghost use Rattle.std.specs.Prelude.{◌≡◌, None};
ghost use Rattle.reach_runs.specs.Asking.{question_of};
ghost use Rattle.reach_runs.specs.declared.timing.Timing.TheVariants.{AnyMoments};

use crate::target::Literal;
use crate::timing::Timing;
use diagram_program::Program;
use scan_cycle::State;
use st_expression::Expression;

/// What is asked of the runs from a state: whether one switches the target on.
#[derive(Clone, Copy)]
pub struct RunQuery<'a> {
    pub program: &'a Program,
    pub state: &'a State,
    /// The moment from which on the scans are, in milliseconds.
    pub from: u64,
    pub timing: Timing,
    /// The inputs that change, as numbers of variables. The others keep what the state stores.
    pub listed: &'a [usize],
    /// It is ON where each of these is so.
    pub target: &'a [Literal],
    /// What is true of the inputs in each scan, if anything is assumed. An operand of it is an input, by its place in order of declaration.
    pub assumed: Option<&'a Expression>,
}

impl<'a> RunQuery<'a> {
    /// What is asked of the runs at any moments, with nothing assumed.
    pub fn unassumed(
        program: &'a Program,
        state: &'a State,
        from: u64,
        listed: &'a [usize],
        target: &'a [Literal],
    ) -> RunQuery<'a>
        ensures { question_of result ≡ record { program = program.now; state = state.now; from = from; timing = AnyMoments; listed = listed.now; target = target.now; assumed = None } }
    {
        RunQuery {
            program,
            state,
            from,
            timing: Timing::AnyMoments,
            listed,
            target,
            assumed: None,
        }
    }
}
