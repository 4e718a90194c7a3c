//! The kinds of standard function blocks, and all that depends on the kind of a block.

ghost use Rattle.std.specs.Prelude.{◌≡◌};
ghost use Rattle.diagram_declarations.specs.Kind.{traits_of, parameter_word};

use crate::limits::{LONGEST_BISTABLE, LONGEST_INSTANCE};

/// The standard function blocks.
#[derive(Clone, Copy, Debug, PartialEq, Eq)]
pub enum BlockKind {
    /// On-delay timer.
    Ton,
    /// Off-delay timer.
    Tof,
    /// Pulse timer.
    Tp,
    /// Up-counter.
    Ctu,
    /// Down-counter.
    Ctd,
    /// Bistable, set dominant.
    Sr,
    /// Bistable, reset dominant.
    Rs,
}

/// The parameter that is the preset of a timer or a counter.
#[derive(Clone, Copy, Debug, PartialEq, Eq)]
pub enum Parameter {
    /// PT, a duration in milliseconds.
    Time,
    /// PV, a number of counts.
    Count,
}

/// The second input of a block, which is drawn below the first.
#[derive(Clone, Copy, Debug, PartialEq, Eq)]
pub enum Pin {
    /// R of a CTU or an SR.
    Reset,
    /// LD of a CTD.
    Load,
    /// R1 of an RS.
    Reset1,
}

/// The output of a block that a contact can read.
#[derive(Clone, Copy, Debug, PartialEq, Eq)]
pub enum Output {
    /// Q of a timer or a counter.
    Q,
    /// Q1 of a bistable.
    Q1,
}

/// What depends on the kind of a block.
#[derive(Clone, Copy)]
pub struct BlockTraits {
    /// The name of the type.
    pub word: &'static [u8],
    /// The parameter that may be preset; None for a bistable.
    pub parameter: Option<Parameter>,
    /// How many characters the name of an instance has at most.
    pub longest_name: usize,
    /// The input of the lower cell; None for a timer.
    pub second_input: Option<Pin>,
    /// The output that a contact can read.
    pub output: Output,
}

/// One line of the table: the traits of a kind of function blocks.
fn row(
    word: &'static [u8],
    parameter: Option<Parameter>,
    longest_name: usize,
    second_input: Option<Pin>,
    output: Output,
) -> BlockTraits
    ensures word { result.word.now ≡ word.now }
    ensures parameter { result.parameter ≡ parameter }
    ensures longest_name { result.longest_name ≡ longest_name }
    ensures second_input { result.second_input ≡ second_input }
    ensures output { result.output ≡ output }
{
    BlockTraits {
        word,
        parameter,
        longest_name,
        second_input,
        output,
    }
}

impl BlockKind {
    /// All kinds.
    pub const ALL: [BlockKind; 7] = [
        BlockKind::Ton,
        BlockKind::Tof,
        BlockKind::Tp,
        BlockKind::Ctu,
        BlockKind::Ctd,
        BlockKind::Sr,
        BlockKind::Rs,
    ];

    /// What depends on the kind: the table of the standard function blocks.
    pub fn traits(self) -> BlockTraits
        ensures word { result.word.now ≡ (traits_of self).word }
        ensures parameter { result.parameter ≡ (traits_of self).parameter }
        ensures longest_name { result.longest_name ≡ (traits_of self).longest_name }
        ensures second_input { result.second_input ≡ (traits_of self).second_input }
        ensures output { result.output ≡ (traits_of self).output }
    {
        match self {
            BlockKind::Ton => row(
                b"TON",
                Some(Parameter::Time),
                LONGEST_INSTANCE,
                None,
                Output::Q,
            ),
            BlockKind::Tof => row(
                b"TOF",
                Some(Parameter::Time),
                LONGEST_INSTANCE,
                None,
                Output::Q,
            ),
            BlockKind::Tp => row(
                b"TP",
                Some(Parameter::Time),
                LONGEST_INSTANCE,
                None,
                Output::Q,
            ),
            BlockKind::Ctu => row(
                b"CTU",
                Some(Parameter::Count),
                9,
                Some(Pin::Reset),
                Output::Q,
            ),
            BlockKind::Ctd => row(
                b"CTD",
                Some(Parameter::Count),
                9,
                Some(Pin::Load),
                Output::Q,
            ),
            BlockKind::Sr => row(b"SR", None, LONGEST_BISTABLE, Some(Pin::Reset), Output::Q1),
            BlockKind::Rs => row(b"RS", None, LONGEST_BISTABLE, Some(Pin::Reset1), Output::Q1),
        }
    }
}

impl Parameter {
    /// The word for a parameter of a block: PT or PV.
    pub(crate) fn word(self) -> &'static [u8]
        ensures { result.now ≡ parameter_word self }
    {
        match self {
            Parameter::Time => b"PT",
            Parameter::Count => b"PV",
        }
    }
}
