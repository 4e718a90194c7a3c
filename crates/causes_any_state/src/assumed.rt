//! Whether what is assumed of the inputs is true. An operand of it is an input, by its place in order of declaration: `inputs` are the
//! numbers of their variables.

ghost use Rattle.std.specs.Prelude.{◌≡◌, option_map, true};
ghost use Rattle.assume_truth.specs.Truth.{assumed_truth, is_allowed};
ghost use Rattle.scan_signals.specs.Three.{three};
ghost use Rattle.scan_signals.specs.Words.{words};
ghost use Rattle.scan_signals.specs.declared.tri.Tri.TheVariants.{Off};
ghost use Rattle.causes_any_state.specs.Truth.{block_input, open_input, stored_inputs};

use crate::numbers::open_bit;
use assume_truth::{Inputs, assumed_truth};
use scan_cycle::State;
use scan_signals::{Operations, Tri, Word64};
use st_expression::Expression;

/// The inputs with a number given, but for its last bits, which are open as the inputs are that are not listed.
#[derive(Clone, Copy)]
struct OpenInputs<'a> {
    inputs: &'a [usize],
    listed: &'a [usize],
    open_bits: u32,
    number: u64,
}

impl<'a> Inputs for OpenInputs<'a> {
    ghost use Rattle.causes_any_state.specs.Truth.{open_input};

    type Signal = Tri;

    ghost signal = { λ i place. open_input i.inputs.now i.listed.now i.open_bits i.number place };

    fn signal(&self, place: usize) -> Tri {
        match self.inputs.get(place) {
            Some(input) => open_bit(self.listed, *input, self.open_bits, self.number),
            None => Tri::Off,
        }
    }
}

/// The inputs in a state.
#[derive(Clone, Copy)]
struct StateInputs<'a> {
    inputs: &'a [usize],
    state: &'a State,
}

impl<'a> Inputs for StateInputs<'a> {
    ghost use Rattle.std.specs.Prelude.{false, slice_index_or};
    ghost use Rattle.causes_any_state.specs.Truth.{stored_inputs};

    type Signal = bool;

    ghost signal = { λ i place. slice_index_or (stored_inputs i.inputs.now i.state.now.held.values) place false };

    fn signal(&self, place: usize) -> bool {
        match self.inputs.get(place) {
            Some(input) => self.state.value_or_off(*input),
            None => false,
        }
    }
}

/// The inputs with the numbers of a block.
#[derive(Clone, Copy)]
struct BlockInputs<'a> {
    image: &'a [Word64],
}

impl<'a> Inputs for BlockInputs<'a> {
    ghost use Rattle.causes_any_state.specs.Truth.{block_input};

    type Signal = Word64;

    ghost signal = { λ i place. block_input i.image.now place };

    fn signal(&self, place: usize) -> Word64 {
        match self.image.get(place) {
            Some(input) => *input,
            None => Word64::known(false),
        }
    }
}

/// Whether what is known is that it is OFF.
fn is_off(known: Tri) -> bool
    ensures { result ≡ true → known ≡ Off }
{
    match known {
        Tri::Off => true,
        Tri::On | Tri::Unsure => false,
    }
}

/// Whether it is known to be false with the number, whatever its last bits and the inputs are that are not listed.
pub(crate) fn is_excluded(
    assumed: Option<&Expression>,
    inputs: &[usize],
    listed: &[usize],
    open_bits: u32,
    number: u64,
) -> bool
    ensures { result ≡ true → assumed_truth three (open_input inputs.now listed.now open_bits number) (option_map (λ e. e.now) assumed.entry) ≡ Off }
{
    let open = OpenInputs {
        inputs,
        listed,
        open_bits,
        number,
    };
    is_off(assumed_truth(assumed, &open))
}

/// Whether it is true in a state.
pub(crate) fn is_true(assumed: Option<&Expression>, inputs: &[usize], state: &State) -> bool
    ensures { result ≡ is_allowed (option_map (λ e. e.now) assumed.entry) (stored_inputs inputs.now state.now.held.values) }
{
    let stored = StateInputs { inputs, state };
    assumed_truth(assumed, &stored)
}

/// The places of a block with whose numbers it is true.
pub(crate) fn true_places(assumed: Option<&Expression>, image: &[Word64]) -> u64
    ensures { result ≡ (assumed_truth words (block_input image.now) (option_map (λ e. e.now) assumed.entry)).0 }
{
    let block = BlockInputs { image };
    assumed_truth(assumed, &block).0
}
