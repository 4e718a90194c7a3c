//! The names of blocks, of their inputs and of their outputs.

use diagram_declarations::limits::{LARGEST_COUNT, MOST_DIGITS};
use diagram_declarations::{
    BlockKind, Output, Parameter, digits_len, number, read_time, same_letters,
};

/// How the input of a trigger is spelled, and its output.
pub(crate) const CLOCK: &[u8] = b"CLK";

pub(crate) const TRIGGERED: &[u8] = b"Q";

/// What an input of a block is for.
#[derive(Clone, Copy)]
pub(crate) enum Input {
    First,
    Second,
    Preset,
}

/// How the inputs of a block are spelled.
#[derive(Clone, Copy)]
pub(crate) struct Inputs {
    pub first: &'static [u8],
    /// No bytes where there is no second input.
    pub second: &'static [u8],
    /// No bytes where there is no preset.
    pub preset: &'static [u8],
}

/// The block that a word names.
pub(crate) fn block_of(word: &[u8]) -> Option<BlockKind> {
    for kind in BlockKind::ALL {
        if same_letters(word, kind.traits().word) {
            return Some(kind);
        }
    }
    None
}

/// How the output of a block is spelled.
pub(crate) fn output_of(kind: BlockKind) -> &'static [u8] {
    match kind.traits().output {
        Output::Q => b"Q",
        Output::Q1 => b"Q1",
    }
}

/// How the preset of a block is spelled.
fn preset_of(kind: BlockKind) -> &'static [u8] {
    match kind.traits().parameter {
        Some(Parameter::Time) => b"PT",
        Some(Parameter::Count) => b"PV",
        None => b"",
    }
}

/// How the inputs of a block are spelled.
pub(crate) fn inputs_of(kind: BlockKind) -> Inputs {
    let (first, second): (&'static [u8], &'static [u8]) = match kind {
        BlockKind::Ton | BlockKind::Tof | BlockKind::Tp => (b"IN", b""),
        BlockKind::Ctu => (b"CU", b"R"),
        BlockKind::Ctd => (b"CD", b"LD"),
        BlockKind::Sr => (b"S1", b"R"),
        BlockKind::Rs => (b"S", b"R1"),
    };
    Inputs {
        first,
        second,
        preset: preset_of(kind),
    }
}

/// How others spell an input of a bistable.
fn plain_of(kind: BlockKind, word: &[u8]) -> Option<Input> {
    let (first, second): (&'static [u8], &'static [u8]) = match kind {
        BlockKind::Sr => (b"SET1", b"RESET"),
        BlockKind::Rs => (b"SET", b"RESET1"),
        _ => return None,
    };
    if same_letters(word, first) {
        return Some(Input::First);
    }
    if same_letters(word, second) {
        Some(Input::Second)
    } else {
        None
    }
}

/// The input of a trigger that a word names.
fn clock_of(word: &[u8]) -> Option<Input> {
    if same_letters(word, CLOCK) {
        Some(Input::First)
    } else {
        None
    }
}

/// The input of a block, or of a trigger where there is no kind, that a word names.
pub(crate) fn input_called(kind: Option<BlockKind>, word: &[u8]) -> Option<Input> {
    match kind {
        Some(kind) => input_of(kind, word),
        None => clock_of(word),
    }
}

/// The input of a block that a word names.
fn input_of(kind: BlockKind, word: &[u8]) -> Option<Input> {
    let inputs = inputs_of(kind);
    if word.is_empty() {
        return None;
    }
    if same_letters(word, inputs.first) {
        return Some(Input::First);
    }
    if same_letters(word, inputs.second) {
        return Some(Input::Second);
    }
    if same_letters(word, inputs.preset) {
        return Some(Input::Preset);
    }
    plain_of(kind, word)
}

/// Whether a word is made of letters, digits and underscores.
fn is_made_of_letters(word: &[u8]) -> bool {
    for byte in word {
        if !byte.is_ascii_alphanumeric() && *byte != b'_' {
            return false;
        }
    }
    true
}

/// Whether a word has the form of a name.
pub(crate) fn is_name(word: &[u8]) -> bool {
    match word {
        [first, ..] => !first.is_ascii_digit() && is_made_of_letters(word),
        [] => false,
    }
}

/// Whether a word is a number that a counter can count to.
fn is_count(word: &[u8]) -> bool {
    if word.is_empty() || word.len() > MOST_DIGITS || digits_len(word) < word.len() {
        return false;
    }
    number(word) <= u64::from(LARGEST_COUNT)
}

/// Whether a word is a preset that a block can have.
pub(crate) fn is_preset(kind: BlockKind, word: &[u8]) -> bool {
    match kind.traits().parameter {
        Some(Parameter::Time) => read_time(word).is_some(),
        Some(Parameter::Count) => is_count(word),
        None => false,
    }
}
