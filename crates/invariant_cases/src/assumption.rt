//! What is assumed of the inputs.

ghost use Rattle.std.specs.Prelude.{◌≡◌, ◌↔◌, IsTrue, false, slice_index_or};
ghost use Rattle.assume_truth.specs.Truth.{assumed_truth};
ghost use Rattle.scan_signals.specs.Three.{three_known};
ghost use Rattle.scan_signals.specs.Truth.{plain};
ghost use Rattle.invariant_cases.specs.Assuming.{assumed_of, nothing, truth_told};

use crate::outcome::Outcome;
use crate::pinning::is_known;
use crate::point::Point;
use assume_truth::{Inputs, assumed_truth, is_named};
use scan_partial::Knowledge;
use scan_signals::Tri;
use st_expression::Expression;

/// What is assumed of the inputs: only states count in which it is true.
#[derive(Clone, Copy)]
pub struct Assumption<'a> {
    /// The numbers of the inputs' variables, in order of declaration.
    pub inputs: &'a [usize],
    /// An operand of it is an input, by its place among them; each state counts where there is none.
    pub expression: Option<&'a Expression>,
}

/// The inputs by what is known of the variables.
#[derive(Clone, Copy)]
struct KnownInputs<'a> {
    inputs: &'a [usize],
    known: &'a Knowledge<Tri, Outcome>,
}

impl<'a> Inputs for KnownInputs<'a> {
    ghost use Rattle.invariant_cases.specs.Assuming.{known_input};

    type Signal = Tri;

    ghost signal = { λ i place. known_input i.inputs.now i.known.now.values place };

    fn signal(&self, place: usize) -> Tri {
        match self.inputs.get(place) {
            Some(input) => self.known.value(*input),
            None => Tri::Off,
        }
    }
}

/// The inputs as a scan gives them.
#[derive(Clone, Copy)]
struct GivenInputs<'a> {
    values: &'a [bool],
}

impl<'a> Inputs for GivenInputs<'a> {
    ghost use Rattle.std.specs.Prelude.{false, slice_index_or};

    type Signal = bool;

    ghost signal = { λ i place. slice_index_or i.values.now place false };

    fn signal(&self, place: usize) -> bool {
        match self.values.get(place) {
            Some(value) => *value,
            None => false,
        }
    }
}

impl<'a> Assumption<'a> {
    /// Each state counts.
    pub fn nothing() -> Assumption<'a>
        ensures { assumed_of result ≡ nothing }
    {
        Assumption {
            inputs: &[],
            expression: None,
        }
    }

    /// Whether it is true with these values of the inputs, in order of declaration.
    pub fn allows(self, values: &[bool]) -> bool
        ensures { result ≡ assumed_truth plain (λ place. slice_index_or values.now place false) (assumed_of self.entry).expression }
    {
        let inputs = GivenInputs { values };
        assumed_truth(self.expression, &inputs)
    }

    /// Whether it is known to be false.
    pub fn is_false(self, known: &Knowledge<Tri, Outcome>) -> bool
        ensures { IsTrue result ↔ (truth_told (assumed_of self.entry) known.now ≡ three_known false) }
    {
        let inputs = KnownInputs {
            inputs: self.inputs,
            known,
        };
        is_known(assumed_truth(self.expression, &inputs), false)
    }

    /// An input that it names and that is open.
    pub fn open_input(self, known: &Knowledge<Tri, Outcome>) -> Option<Point> {
        for place in 0..self.inputs.len() {
            let input = self.inputs[place];
            if known.value(input) == Tri::Unsure && is_named(self.expression, place) {
                return Some(Point::Variable(input));
            }
        }
        None
    }
}
