//! What never changes shuts a target out.

ghost use Rattle.std.specs.Prelude.{◌≡◌, false, true};
ghost use Rattle.std.specs.List.{list_all};
ghost use Rattle.scan_cycle.specs.Rung.{Held};
ghost use Rattle.invariant_sets.specs.Never.{IsSo};
ghost use Rattle.reach_runs.specs.Asking.{is_so};
ghost use Rattle.reach_search.specs.Shutting.{claim_of};

use diagram_declarations::Symbol;
use invariant_sets::Set;
use reach_runs::Literal;
use scan_signals::Tri;

/// What a set claims of a variable, or of the output of an instance.
fn claim_of(steady: &Set, symbol: Symbol) -> Tri
    ensures { result ≡ claim_of steady.now symbol }
{
    match symbol {
        Symbol::Var(var) => steady.of_variable(var),
        Symbol::Instance(inst) => steady.of_instance(inst),
    }
}

/// Whether a set says that a literal isn't so.
fn is_denied(steady: &Set, literal: Literal) -> bool
    ensures { result ≡ true → (h : Held) → IsSo steady.now h → is_so h literal ≡ false }
{
    match claim_of(steady, literal.symbol) {
        Tri::On => !literal.value,
        Tri::Off => literal.value,
        Tri::Unsure => false,
    }
}

/// Whether a set says of one of some literals that it isn't so. Then they are never so together where it is so what the set says.
pub fn is_shut_out(steady: &Set, literals: &[Literal]) -> bool
    ensures { result ≡ true → (h : Held) → IsSo steady.now h → list_all (is_so h) literals.now ≡ false }
{
    for number in 0..literals.len() {
        if is_denied(steady, literals[number]) {
            return true;
        }
    }
    false
}
