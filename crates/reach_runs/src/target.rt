//! What a run is to bring about.

ghost use Rattle.std.specs.Prelude.{◌≡◌};
ghost use Rattle.std.specs.List.{list_all};
ghost use Rattle.reach_runs.specs.Asking.{is_so};

use diagram_declarations::Symbol;
use invariant_cases::points::is_on;
use scan_cycle::State;

/// A value of a variable, or of the output of an instance.
#[derive(Clone, Copy, Debug)]
pub struct Literal {
    pub symbol: Symbol,
    pub value: bool,
}

/// Whether it is so in a state.
fn is_so(state: &State, literal: Literal) -> bool
    ensures { result ≡ is_so state.now.held literal }
{
    if literal.value {
        is_on(state, literal.symbol)
    } else {
        !is_on(state, literal.symbol)
    }
}

/// Whether each of them is so in a state.
pub(crate) fn are_so(state: &State, literals: &[Literal]) -> bool
    ensures { result ≡ list_all (is_so state.now.held) literals.now }
{
    literals.iter().all(|literal| is_so(state, *literal))
}
