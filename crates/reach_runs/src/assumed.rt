//! Whether what is assumed of the inputs is true of those that a scan gives.

ghost use Rattle.std.specs.Prelude.{◌≡◌, option_map};
ghost use Rattle.assume_truth.specs.Truth.{is_allowed};

use assume_truth::{Inputs, assumed_truth};
use st_expression::Expression;

/// The values that a scan gives the inputs, in order of declaration.
#[derive(Clone, Copy)]
struct GivenInputs<'a> {
    inputs: &'a [bool],
}

impl<'a> Inputs for GivenInputs<'a> {
    ghost use Rattle.st_expression.specs.Value.{held};

    type Signal = bool;

    ghost signal = { λ i. held i.inputs.now };

    fn signal(&self, place: usize) -> bool {
        match self.inputs.get(place) {
            Some(value) => *value,
            None => false,
        }
    }
}

/// Whether it is true of them; it is where nothing is assumed.
pub(crate) fn is_allowed(assumed: Option<&Expression>, inputs: &[bool]) -> bool
    ensures { result ≡ is_allowed (option_map (λ e. e.now) assumed.entry) inputs.now }
{
    let given = GivenInputs { inputs };
    assumed_truth(assumed, &given)
}
