//! What is assumed of the inputs of both programs.

ghost use Rattle.std.specs.Prelude.{◌≡◌, ◌↔◌, IsTrue};
ghost use Rattle.invariant_cases.specs.Assuming.{IsTrueIn, assumed_of};
ghost use Rattle.diff_cases.specs.Assuming.{AreTrueIn, IsToldFalse, assumed_of_both, nothing_of_both};

use crate::partners::{Chosen, Side};
use assume_truth::{Inputs, assumed_truth};
use invariant_cases::{Assumption, Outcome};
use scan_cycle::State;
use scan_partial::Knowledge;
use scan_signals::Tri;

/// What is assumed of the inputs of each program: only states count in which both are true.
#[derive(Clone, Copy)]
pub struct Assumptions<'a> {
    pub of_old: Assumption<'a>,
    pub of_new: Assumption<'a>,
}

/// The inputs in a state.
#[derive(Clone, Copy)]
struct StoredInputs<'a> {
    inputs: &'a [usize],
    state: &'a State,
}

impl<'a> Inputs for StoredInputs<'a> {
    ghost use Rattle.std.specs.Prelude.{false, slice_index_or};
    ghost use Rattle.invariant_cases.specs.Assuming.{stored_inputs};

    type Signal = bool;

    ghost signal = { λ i place. slice_index_or (stored_inputs i.inputs.now i.state.now.held.values) place false };

    fn signal(&self, place: usize) -> bool {
        match self.inputs.get(place) {
            Some(input) => self.state.value_or_off(*input),
            None => false,
        }
    }
}

/// Whether what is assumed is true in a state.
fn is_true_in(assumption: Assumption<'_>, state: &State) -> bool
    ensures { IsTrue result ↔ IsTrueIn (assumed_of assumption.entry) state.now.held }
{
    let stored = StoredInputs {
        inputs: assumption.inputs,
        state,
    };
    assumed_truth(assumption.expression, &stored)
}

impl<'a> Assumptions<'a> {
    /// All states count.
    pub fn nothing() -> Assumptions<'a>
        ensures { assumed_of_both result ≡ nothing_of_both }
    {
        Assumptions {
            of_old: Assumption::nothing(),
            of_new: Assumption::nothing(),
        }
    }

    /// Whether both are true in a state of each program.
    pub fn are_true_in(self, old: &State, new: &State) -> bool
        ensures { IsTrue result ↔ AreTrueIn (assumed_of_both self.entry) old.now.held new.now.held }
    {
        is_true_in(self.of_old, old) && is_true_in(self.of_new, new)
    }

    /// Whether one of them is known to be false.
    pub fn is_one_false(self, old: &Knowledge<Tri, Outcome>, new: &Knowledge<Tri, Outcome>) -> bool
        ensures { IsTrue result ↔ IsToldFalse (assumed_of_both self.entry) old.now new.now }
    {
        self.of_old.is_false(old) || self.of_new.is_false(new)
    }

    /// An input that one of them names and that is open.
    pub(crate) fn open_input(
        self,
        old: &Knowledge<Tri, Outcome>,
        new: &Knowledge<Tri, Outcome>,
    ) -> Option<Chosen> {
        if let Some(point) = self.of_old.open_input(old) {
            return Some(Chosen {
                side: Side::Old,
                point,
            });
        }
        match self.of_new.open_input(new) {
            Some(point) => Some(Chosen {
                side: Side::New,
                point,
            }),
            None => None,
        }
    }
}
