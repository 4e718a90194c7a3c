//! The values that a text gives its INTs.

ghost use Rattle.std.specs.Prelude.{◌≡◌, ◌++◌, ◌∷◌, [], IfOk, IfSome, OnOk, Some};
ghost use Rattle.st_program.specs.Items.{AreValues, IsNewValue, values_in, with_value};
ghost use Rattle.st_program.specs.Symbols.{integer_value, integer_values, table};

use crate::declarations::integer_of;
use crate::fault::Refusal;
use crate::item::{Named, named_of};
use crate::mark::{Mark, is_mark, mark_of};
use crate::phrases::first_word;
use crate::spelling::bytes_of;
use crate::symbols::{MOST_NAMES, Sort, StVariable, Symbols};
use st_integers::{IntegerValue, variable_with};
use st_words::Word;
use std::alloc::{AllocError, Global};

/// What a variable stands for, where it is one of an INT.
fn integer_value(sort: Sort) -> Option<IntegerValue>
    ensures { result ≡ integer_value sort }
{
    match sort {
        Sort::Value(value) => Some(value),
        _ => None,
    }
}

/// What each variable stands for, where it is one of an INT.
///
/// # Errors
///
/// Memory runs out.
pub fn integer_values(
    alloc: Global,
    variables: &[StVariable],
) -> Result<Vec<Option<IntegerValue>>, AllocError>
    ensures { IfOk result (λ values. values.items ≡ integer_values variables.now) }
{
    variables
        .iter()
        .map(|variable| integer_value(variable.sort))
        .collect(alloc)
}

/// The number that words begin to assign to an INT, where the INT hasn't had it yet, and the variable that the INT is declared as.
fn new_value(
    text: &[u8],
    symbols: &Symbols,
    values: &[Option<IntegerValue>],
    words: &[Word],
) -> Option<(StVariable, IntegerValue)>
    requires { values.now ≡ values_in (table symbols.now) }
    ensures { IfSome result (λ x. IsNewValue text.now (table symbols.now) words.now x.0 x.1.integer x.1.value) }
{
    let (name, behind_name) = first_word(words)?;
    let (sign, behind_sign) = first_word(behind_name)?;
    let (digits, _) = first_word(behind_sign)?;
    if !is_mark(mark_of(bytes_of(text, sign)), Mark::Becomes) {
        return None;
    }
    let Named::Integer(integer) = named_of(text, symbols, bytes_of(text, name)) else {
        return None;
    };
    let value = integer_of(bytes_of(text, digits))?;
    let variable = symbols.variables.get(integer)?;
    match variable_with(values, integer, value) {
        Some(_) => None,
        None => Some((*variable, IntegerValue { integer, value })),
    }
}

/// Adds a variable for a value of an INT that is declared as another one.
fn add_value(
    symbols: &mut Symbols,
    values: &mut Vec<Option<IntegerValue>>,
    declared: StVariable,
    value: IntegerValue,
) -> Result<(), Refusal>
    ensures table { OnOk result (table symbols.new ≡ with_value (table symbols.old) declared value.integer value.value) }
    ensures values { OnOk result (values.new.items ≡ values.old.items ++ Some value ∷ []) }
{
    if symbols.variables.len() >= MOST_NAMES {
        return Err(Refusal::TooMany {
            at: Some(declared.name.start),
        });
    }
    symbols.variables.push(StVariable {
        initial: false,
        sort: Sort::Value(value),
        ..declared
    })?;
    values.push(Some(value))?;
    Ok(())
}

/// Adds a variable for each number that words assign to an INT. Returns what each variable stands for, where it is one of an INT.
pub(crate) fn add_values(
    alloc: Global,
    text: &[u8],
    symbols: &mut Symbols,
    words: &[Word],
) -> Result<Vec<Option<IntegerValue>>, Refusal>
    ensures added { IfOk result (λ values. AreValues text.now words.now (table symbols.old) (table symbols.new)) }
    ensures values { IfOk result (λ values. values.items ≡ values_in (table symbols.new)) }
{
    let mut values = integer_values(alloc, &symbols.variables)?;
    let mut rest = words;
    while let Some((_, after)) = first_word(rest) {
        if let Some((declared, value)) = new_value(text, symbols, &values, rest) {
            add_value(symbols, &mut values, declared, value)?;
        }
        rest = after;
    }
    Ok(values)
}
