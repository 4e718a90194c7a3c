//! Presets of timers and counters.

ghost use Rattle.std.specs.Prelude.{◌≡◌, ◌≤◌, ◌<◌, ◌∷◌, true, length, IfSome, IfOk};
ghost use Rattle.diagram_declarations.specs.Grammar.{IsNumber};
ghost use Rattle.diagram_declarations.specs.Kind.{parameter_word};
ghost use Rattle.diagram_declarations.specs.Name.{same_letters};
ghost use Rattle.st_program.specs.Declarations.{IsPreset, Preset};
ghost use Rattle.st_words.specs.Places.{spelled};
ghost use Rattle.st_words.specs.declared.word.Word.{Word};

use crate::fault::{Expected, Refusal};
use crate::mark::Mark;
use crate::phrases::{behind, due, first_word, place_of};
use crate::spelling::bytes_of;
use diagram_declarations::limits::{LARGEST_COUNT, MOST_DIGITS};
use diagram_declarations::{BlockKind, Parameter, digits_len, number, read_time, same_letters};
use st_words::Word;

/// The number of a word of 1 to 5 digits that a counter can count to.
#[tactic(auto, using(crate::proofs::Ranges::all_digits))]
fn count_of(word: &[u8]) -> Option<u32>
    ensures { IfSome result (λ n. IsNumber word.now n × (n ≤ LARGEST_COUNT)) }
{
    if word.is_empty() || word.len() > MOST_DIGITS || digits_len(word) < word.len() {
        return None;
    }
    let count = number(word);
    if count <= u64::from(LARGEST_COUNT) {
        Some(count as u32)
    } else {
        None
    }
}

/// The value that a word gives a parameter.
pub(crate) fn preset_of(parameter: Parameter, word: &[u8]) -> Option<u32>
    ensures { IfSome result (IsPreset parameter word.now) }
{
    match parameter {
        Parameter::Time => read_time(word),
        Parameter::Count => count_of(word),
    }
}

/// Whether a word names a parameter.
pub(crate) fn is_parameter(parameter: Parameter, word: &[u8]) -> bool
    ensures { result ≡ same_letters word.now (parameter_word parameter) }
{
    match parameter {
        Parameter::Time => same_letters(word, b"PT"),
        Parameter::Count => same_letters(word, b"PV"),
    }
}

/// What is behind the name of a parameter.
fn behind_parameter<'a>(
    text: &[u8],
    parameter: Parameter,
    words: &'a [Word],
) -> Result<&'a [Word], Refusal>
    ensures named { IfOk result (λ rest. (name : Word) × (words.now ≡ name ∷ rest.now) × (same_letters (spelled text.now name) (parameter_word parameter) ≡ true)) }
    ensures shorter { IfOk result (λ rest. length rest.now < length words.now) }
{
    match first_word(words) {
        Some((name, rest)) if is_parameter(parameter, bytes_of(text, name)) => Ok(rest),
        _ => Err(Refusal::Due {
            at: place_of(words),
            expected: Expected::Parameter,
        }),
    }
}

/// The value of a parameter, and what is behind it.
fn read_value<'a>(
    text: &[u8],
    parameter: Parameter,
    words: &'a [Word],
) -> Result<(u32, &'a [Word]), Refusal>
    ensures value { IfOk result (λ x. (word : Word) × (words.now ≡ word ∷ x.1.now) × IsPreset parameter (spelled text.now word) x.0) }
    ensures shorter { IfOk result (λ x. length x.1.now < length words.now) }
{
    let fault = Refusal::Due {
        at: place_of(words),
        expected: Expected::Preset,
    };
    let Some((word, rest)) = first_word(words) else {
        return Err(fault);
    };
    match preset_of(parameter, bytes_of(text, word)) {
        Some(value) => Ok((value, rest)),
        None => Err(fault),
    }
}

/// The preset that a declaration gives a block, and what is behind it.
pub(crate) fn read_preset<'a>(
    text: &[u8],
    kind: BlockKind,
    words: &'a [Word],
) -> Result<(Option<u32>, &'a [Word]), Refusal>
    ensures preset { IfOk result (λ x. Preset text.now kind words.now x.1.now x.0) }
    ensures shorter { IfOk result (λ x. length x.1.now ≤ length words.now) }
{
    let Some(bracket) = behind(text, Mark::Becomes, words) else {
        return Ok((None, words));
    };
    let Some(parameter) = kind.traits().parameter else {
        return Err(Refusal::Member {
            at: place_of(words),
        });
    };
    let name = due(text, Mark::Open, bracket)?;
    let before = behind_parameter(text, parameter, name)?;
    let word = due(text, Mark::Becomes, before)?;
    let (value, after) = read_value(text, parameter, word)?;
    let rest = due(text, Mark::Close, after)?;
    Ok((Some(value), rest))
}
