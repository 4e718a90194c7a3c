//! What is known of the target.

ghost use Rattle.std.specs.Prelude.{◌≡◌};
ghost use Rattle.reach_search.specs.Visits.{known_of, told, told_all};

use diagram_declarations::Symbol;
use reach_runs::Literal;
use reach_states::Untimed;
use scan_partial::{Keep, Knowledge};
use scan_signals::{Operations, Tri};

/// What is known of the value of a variable, or of the output of an instance.
fn known_of(symbol: Symbol, known: &Knowledge<Tri, Untimed>) -> Tri
    ensures { result ≡ known_of known.now symbol }
{
    match symbol {
        Symbol::Var(var) => known.value(var),
        Symbol::Instance(inst) => known.kept(inst).q(),
    }
}

/// What is known of whether a literal is so.
fn told(literal: Literal, known: &Knowledge<Tri, Untimed>) -> Tri
    ensures { result ≡ told known.now literal }
{
    let value = known_of(literal.symbol, known);
    if literal.value { value } else { value.not() }
}

/// What is known of whether each literal is so.
pub(crate) fn told_all(literals: &[Literal], known: &Knowledge<Tri, Untimed>) -> Tri
    ensures { result ≡ told_all known.now literals.now }
{
    let mut all = Tri::On;
    for number in 0..literals.len() {
        all = all.and(told(literals[number], known));
    }
    all
}
