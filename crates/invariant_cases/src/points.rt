//! What can be ON, as a point of a case and in a state.

ghost use Rattle.std.specs.Prelude.{◌≡◌, IsTrue};
ghost use Rattle.invariant_cases.specs.Allowing.{is_on_in, AreApart, are_both_on};
ghost use Rattle.invariant_cases.specs.Cases.{point_of};

use crate::pair::Pair;
use crate::point::Point;
use diagram_declarations::Symbol;
use scan_cycle::State;

/// As a point of a case.
pub fn point_of(symbol: Symbol) -> Point
    ensures { result ≡ point_of symbol }
{
    match symbol {
        Symbol::Var(var) => Point::Variable(var),
        Symbol::Instance(inst) => Point::Output(inst),
    }
}

/// Whether it is ON in the state.
pub fn is_on(state: &State, symbol: Symbol) -> bool
    ensures { result ≡ is_on_in (point_of symbol) state.now.held }
{
    match symbol {
        Symbol::Var(var) => state.value_or_off(var),
        Symbol::Instance(inst) => state.stored(inst).q(),
    }
}

/// Whether both of a pair are ON in the state.
pub fn are_both_on(state: &State, pair: Pair) -> bool
    ensures { result ≡ are_both_on state.now.held pair }
{
    is_on(state, pair.first) && is_on(state, pair.second)
}

/// Whether of none of the pairs both are ON in the state.
pub fn are_apart(pairs: &[Pair], state: &State) -> bool
    ensures { IsTrue result → AreApart pairs.now state.now.held }
{
    for number in 0..pairs.len() {
        if are_both_on(state, pairs[number]) {
            return false;
        }
    }
    true
}
