//! A pair of what can be ON.

ghost use Rattle.std.specs.Prelude.{◌≡◌};
ghost use Rattle.invariant_cases.specs.Cases.{of_itself};

use diagram_declarations::Symbol;

/// Two variables, two instances, or one of each, of which an instance stands for its output.
#[derive(Clone, Copy, Debug, PartialEq, Eq)]
pub struct Pair {
    pub first: Symbol,
    pub second: Symbol,
}

impl Pair {
    /// The pair of one with itself: both are ON where it is.
    pub fn of_itself(symbol: Symbol) -> Pair
        ensures { result ≡ of_itself symbol }
    {
        Pair {
            first: symbol,
            second: symbol,
        }
    }
}
