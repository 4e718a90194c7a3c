//! Whether what is assumed of the inputs of a program is true with a combination.

ghost use Rattle.std.specs.Prelude.{◌≡◌, ◌≤◌, IfOk, length, option_map};
ghost use Rattle.scan_cycle.specs.Standing.{Fits};
ghost use Rattle.causes_query.specs.Sources.{bit};
ghost use Rattle.assume_search.specs.Assumed.{counts};
ghost use Rattle.diff_causes.specs.Asked.{asked};
ghost use Rattle.diff_held.specs.Counting.{IsCounting, assumption};

use assume_truth::{Inputs, assumed_truth};
use causes_query::source::{InputSource, sources};
use diff_causes::ProgramQuery;
use scan_cycle::Memory;
use st_expression::Expression;
use std::alloc::Global;

/// What tells of a program which combinations count.
#[derive(Drop)]
pub(crate) struct Counting<'a> {
    /// What is assumed, if anything is.
    pub assumed: Option<&'a Expression>,
    /// Where each input takes its value from.
    pub sources: Vec<InputSource>,
}

/// What tells it of the question to a program.
pub(crate) fn new_counting<'a>(
    alloc: Global,
    query: ProgramQuery<'a>,
    assumed: Option<&'a Expression>,
) -> Result<Counting<'a>, Memory>
    requires fits { Fits query.program.now query.state.now }
    requires few { length query.listed.now ≤ 64 }
    ensures assumed { IfOk result (λ c. assumption c ≡ option_map (λ e. e.now) assumed.entry) }
    ensures ready { IfOk result (IsCounting (asked query.entry)) }
{
    let sources = sources(
        alloc,
        query.program.decls().vars(),
        query.listed,
        query.state,
    )?;
    Ok(Counting { assumed, sources })
}

/// The value of an input with the combination of a number, by where it takes it from.
fn value_of(source: InputSource, number: u64) -> bool
    ensures { result ≡ bit source number }
{
    match source {
        InputSource::Listed { shift } => {
            if 64 <= shift {
                return false;
            }
            (number >> shift) & 1 == 1
        }
        InputSource::Stored(value) => value,
    }
}

/// The inputs with the combination of a number.
#[derive(Clone, Copy)]
pub(crate) struct NumberInputs<'a> {
    pub sources: &'a [InputSource],
    pub number: u64,
}

impl<'a> Inputs for NumberInputs<'a> {
    ghost use Rattle.causes_query.specs.Sources.{image_of};
    ghost use Rattle.st_expression.specs.Value.{held};

    type Signal = bool;

    ghost signal = { λ i. held (image_of i.number i.sources.now) };

    fn signal(&self, place: usize) -> bool {
        match self.sources.get(place) {
            Some(source) => value_of(*source, self.number),
            None => false,
        }
    }
}

/// Whether the combination of a number counts.
pub(crate) fn is_counted(counting: &Counting<'_>, number: u64) -> bool
    ensures { result ≡ counts (assumption counting.now) counting.now.sources.items number }
{
    let inputs = NumberInputs {
        sources: &counting.sources,
        number,
    };
    assumed_truth(counting.assumed, &inputs)
}
