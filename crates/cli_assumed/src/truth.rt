//! Whether what is assumed of the inputs is true of those of one scan.

ghost use Rattle.std.specs.Prelude.{◌≡◌, IfErr, IfOk, false, option_map, true};
ghost use Rattle.assume_truth.specs.Truth.{is_allowed};
ghost use Rattle.cli_inputs.specs.declared.fault.ToolFault.TheVariants.{NeverTrue};

use assume_truth::{Inputs, assumed_truth};
use cli_inputs::ToolFault;
use st_expression::Expression;

/// The values of the inputs, in order of declaration.
#[derive(Clone, Copy)]
struct GivenInputs<'a> {
    inputs: &'a [bool],
}

impl<'a> Inputs for GivenInputs<'a> {
    ghost use Rattle.st_expression.specs.Value.{held};

    type Signal = bool;

    ghost signal = { λ i. held i.inputs.now };

    fn signal(&self, place: usize) -> bool {
        match self.inputs.get(place) {
            Some(value) => *value,
            None => false,
        }
    }
}

/// Whether it is true of them; it is where nothing is assumed.
fn is_allowed(assumed: Option<&Expression>, inputs: &[bool]) -> bool
    ensures { result ≡ is_allowed (option_map (λ e. e.now) assumed.entry) inputs.now }
{
    let given = GivenInputs { inputs };
    assumed_truth(assumed, &given)
}

/// Refuses what is assumed where these values of the inputs, in order of declaration, make it false.
///
/// # Errors
///
/// `NeverTrue` where they do.
pub fn check_true(assumed: Option<&Expression>, inputs: &[bool]) -> Result<(), ToolFault>
    ensures allowed { IfOk result (λ _. is_allowed (option_map (λ e. e.now) assumed.entry) inputs.now ≡ true) }
    ensures refused { IfErr result (λ f. (f ≡ NeverTrue) × (is_allowed (option_map (λ e. e.now) assumed.entry) inputs.now ≡ false)) }
{
    if is_allowed(assumed, inputs) {
        return Ok(());
    }
    Err(ToolFault::NeverTrue)
}
