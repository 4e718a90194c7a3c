//! What a number gives the listed inputs.

ghost use Rattle.std.specs.Prelude.{◌≡◌, ◌==◌, ◌≤◌, length, position};
ghost use Rattle.causes_query.specs.Sources.{bit};
ghost use Rattle.causes_query.specs.declared.source.InputSource.TheVariants.{Listed};
ghost use Rattle.scan_signals.specs.declared.tri.Tri.TheVariants.{Unsure};
ghost use Rattle.causes_any_state.specs.Numbers.{IsGiven, known_by, prefix_bit};

use causes_query::source::{InputSource, bit};
use invariant_cases::Outcome;
use scan_partial::Knowledge;
use scan_signals::{Operations, Tri};

/// The place of a variable among the listed ones.
pub(crate) fn place_of(listed: &[usize], var: usize) -> Option<usize>
    ensures { result ≡ position (λ l. l == var) listed.now }
{
    listed.iter().position(|l| *l == var)
}

/// The bit that the number gives a variable, where it is listed and its bit is none of the last ones, which are open.
pub(crate) fn prefix_bit(listed: &[usize], var: usize, open_bits: u32, number: u64) -> Option<bool>
    requires { length listed.now ≤ 64 }
    ensures { result ≡ prefix_bit listed.now open_bits number var }
{
    match place_of(listed, var) {
        Some(place) => {
            let shift = (listed.len() - (place + 1)) as u32;
            if shift < open_bits {
                return None;
            }
            Some(bit(InputSource::Listed { shift }, number))
        }
        None => None,
    }
}

/// The bit with weight 2 ^ `shift` of a number.
fn bit_at(shift: usize, number: u64) -> bool
    ensures { result ≡ bit (Listed shift) number }
{
    if 64 <= shift {
        return false;
    }
    (number >> shift) & 1 == 1
}

/// What is known of a variable of which the number alone is given, but for its last bits.
pub(crate) fn open_bit(listed: &[usize], var: usize, open_bits: u32, number: u64) -> Tri
    ensures { result ≡ known_by (prefix_bit listed.now open_bits number var) Unsure }
{
    match place_of(listed, var) {
        Some(place) => {
            let shift = listed.len() - (place + 1);
            if shift < open_bits as usize {
                return Tri::Unsure;
            }
            Tri::known(bit_at(shift, number))
        }
        None => Tri::Unsure,
    }
}

/// Knows what the number gives the listed inputs, but for those of its last bits, which are open.
pub(crate) fn give(
    listed: &[usize],
    open_bits: u32,
    number: u64,
    variables: usize,
    known: &mut Knowledge<Tri, Outcome>,
)
    requires few { length listed.now ≤ 64 }
    requires variables { length known.old.values ≡ variables }
    ensures { IsGiven listed.now open_bits number known.old known.new }
{
    for var in 0..variables {
        if let Some(value) = prefix_bit(listed, var, open_bits, number) {
            known.put_value(var, if value { Tri::On } else { Tri::Off });
        }
    }
}
