//! What a run to a number leaves.

ghost use Rattle.std.specs.Prelude.{◌≡◌, ◌+◌, ◌≤◌, length, true};
ghost use Rattle.causes_query.specs.Assignment.{bit_of};
ghost use Rattle.causes_in_runs.specs.Rows.{row_target, value_of};

use causes_query::source::{InputSource, bit};
use diagram_declarations::Symbol;
use reach_runs::Literal;

/// That a variable has a value.
pub(crate) fn value_of(var: usize, value: bool) -> Literal
    ensures { result ≡ value_of var value }
{
    Literal {
        symbol: Symbol::Var(var),
        value,
    }
}

/// The bit of a number at a place of so many listed inputs.
fn bit_at(listed: usize, place: usize, number: u64) -> bool
    requires within { place + 1 ≤ listed }
    requires few { listed ≤ 64 }
    ensures { result ≡ bit_of listed place number }
{
    let shift = (listed - (place + 1)) as u32;
    bit(InputSource::Listed { shift }, number)
}

/// Writes what a run to a number leaves: the coil ON, and the listed inputs at its bits.
pub(crate) fn write_target(target: &mut [Literal], coil: usize, listed: &[usize], number: u64)
    requires room { length target.old ≡ length listed.now + 1 }
    requires few { length listed.now ≤ 64 }
    ensures { target.new ≡ row_target coil listed.now number }
{
    target[0] = value_of(coil, true);
    for place in 0..listed.len() {
        target[place + 1] = value_of(listed[place], bit_at(listed.len(), place, number));
    }
}
