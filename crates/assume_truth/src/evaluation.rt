//! The truth of an expression over inputs that are signals.

ghost use Rattle.std.specs.Prelude.{◌≡◌, ℕ, Option, option_map};
ghost use Rattle.assume_truth.specs.Truth.{assumed_truth, exclusive, truth};

use scan_signals::Operations;
use st_expression::{Expression, Operand};

/// What the inputs are in a look, by their places in order of declaration.
pub trait Inputs {
    type Signal: Operations;

    ghost signal: { Self → ℕ → Self.Signal };

    /// The signal of the input at a place.
    fn signal(&self, place: usize) -> Self::Signal
        ensures { result ≡ signal self.now place };
}

/// ON where just one of two is.
fn exclusive<S: Operations>(one: S, other: S) -> S
    ensures { result ≡ exclusive S.algebra one other }
{
    S::choose(one, other.not(), other)
}

/// The truth of an expression, where each input has its signal. No output of a block is an input: it counts as OFF.
#[tactic(auto, unfolding(crate::specs::Truth::truth))]
pub fn truth<I: Inputs>(expression: &Expression, inputs: &I) -> I::Signal
    ensures { result ≡ truth I.Signal.algebra (I.signal inputs.now) expression.now }
{
    match expression {
        Expression::Constant(value) => I::Signal::known(*value),
        Expression::Operand(Operand::Variable(place)) => inputs.signal(*place),
        Expression::Operand(Operand::Output(_)) => I::Signal::known(false),
        Expression::Not(negated) => truth(negated, inputs).not(),
        Expression::Equal(first, second) => {
            exclusive(truth(first, inputs), truth(second, inputs)).not()
        }
        Expression::And(first, second) => truth(first, inputs).and(truth(second, inputs)),
        Expression::Exclusive(first, second) => {
            exclusive(truth(first, inputs), truth(second, inputs))
        }
        Expression::Or(first, second) => truth(first, inputs).or(truth(second, inputs)),
    }
}

/// The truth of what is assumed; ON where nothing is.
pub fn assumed_truth<I: Inputs>(assumed: Option<&Expression>, inputs: &I) -> I::Signal
    ensures { result ≡ assumed_truth I.Signal.algebra (I.signal inputs.now) (option_map (λ e. e.now) assumed.entry) }
{
    match assumed {
        Some(expression) => truth(expression, inputs),
        None => I::Signal::known(true),
    }
}
