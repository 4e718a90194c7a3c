//! Whether what is assumed of the inputs can be true where some of them are open.

ghost use Rattle.std.specs.Prelude.{◌≡◌, ◌<◌, IfSome, List, Bool, Some, false, length, option_map, slice_index_or};
ghost use Rattle.scan_signals.specs.Relations.{Both};
ghost use Rattle.scan_signals.specs.Three.{three};
ghost use Rattle.scan_signals.specs.declared.tri.Tri.TheVariants as tri;
ghost use Rattle.assume_truth.specs.Truth.{is_allowed, truth};
ghost use Rattle.invariant_cases.specs.Allowing.{Allows};
ghost use Rattle.reach_search.specs.Inputs.{known_input};

use assume_truth::{Inputs, truth};
use scan_signals::Tri;
use st_expression::{Expression, Operand};

/// Inputs that are known in part, in order of declaration.
#[derive(Clone, Copy)]
struct KnownInputs<'a> {
    inputs: &'a [Tri],
}

impl<'a> Inputs for KnownInputs<'a> {
    ghost use Rattle.reach_search.specs.Inputs.{known_input};

    type Signal = Tri;

    ghost signal = { λ i. known_input i.inputs.now };

    fn signal(&self, place: usize) -> Tri {
        match self.inputs.get(place) {
            Some(input) => *input,
            None => Tri::Off,
        }
    }
}

/// What is known of an expression.
fn known_truth(expression: &Expression, inputs: &[Tri]) -> Tri
    ensures { result ≡ truth three (known_input inputs.now) expression.now }
{
    truth(expression, &KnownInputs { inputs })
}

/// An input that is open and leaves an expression open.
fn open_operand(expression: &Expression, inputs: &[Tri]) -> Option<usize>
    ensures range { IfSome result (λ input. input < length inputs.now) }
    ensures open { IfSome result (λ input. slice_index_or inputs.now input tri.Off ≡ tri.Unsure) }
{
    if known_truth(expression, inputs) != Tri::Unsure {
        return None;
    }
    match expression {
        Expression::Constant(_) | Expression::Operand(Operand::Output(_)) => None,
        Expression::Operand(Operand::Variable(place)) => {
            if *place < inputs.len() && inputs[*place] == Tri::Unsure {
                Some(*place)
            } else {
                None
            }
        }
        Expression::Not(negated) => open_operand(negated, inputs),
        Expression::Equal(first, second)
        | Expression::And(first, second)
        | Expression::Exclusive(first, second)
        | Expression::Or(first, second) => match open_operand(first, inputs) {
            Some(input) => Some(input),
            None => open_operand(second, inputs),
        },
    }
}

/// Whether an expression can be true. Both values are tried of at most so many inputs that it names.
fn may_be_true(expression: &Expression, inputs: &mut [Tri], left: usize) -> bool
    ensures same { inputs.new ≡ inputs.old }
    ensures never { result ≡ false → (xs : List Bool) → Both Allows inputs.old xs → is_allowed (Some expression.now) xs ≡ false }
{
    match known_truth(expression, inputs) {
        Tri::On => return true,
        Tri::Off => return false,
        Tri::Unsure => {}
    }
    let Some(input) = open_operand(expression, inputs) else {
        return true;
    };
    if left == 0 {
        return true;
    }
    inputs[input] = Tri::Off;
    if may_be_true(expression, inputs, left - 1) {
        inputs[input] = Tri::Unsure;
        return true;
    }
    inputs[input] = Tri::On;
    let on = may_be_true(expression, inputs, left - 1);
    inputs[input] = Tri::Unsure;
    on
}

/// Whether what is assumed can be true where some inputs are open, which are as they were afterwards. It is where nothing is assumed.
pub(crate) fn is_possible(assumed: Option<&Expression>, inputs: &mut [Tri]) -> bool
    ensures same { inputs.new ≡ inputs.old }
    ensures never { result ≡ false → (xs : List Bool) → Both Allows inputs.old xs → is_allowed (option_map (λ e. e.now) assumed.entry) xs ≡ false }
{
    let Some(expression) = assumed else {
        return true;
    };
    let left = inputs.len();
    may_be_true(expression, inputs, left)
}
