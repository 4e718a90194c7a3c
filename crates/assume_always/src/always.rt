//! The numbers of the expressions that are always true.

ghost use Rattle.std.specs.Prelude.{◌≡◌, ◌++◌, ◌∷◌, ◌<◌, ◌+◌, ◌^◌, List, ℕ, IfOk, IfSome, IfNone, IsFalse, IsTrue, [], length, map, string_bytes};
ghost use Rattle.assume_always.specs.Always.{AreAlwaysTrue, IsAlwaysTrue, IsSometimesFalse, IsTold};

use assume_possible::is_satisfiable;
use assume_reading::{AssumptionFault, read_assumption};
use diagram_declarations::Decls;
use st_expression::Expression;
use std::alloc::{AllocError, Global};

/// Whether an expression is true whatever the inputs are: nothing makes the opposite true.
fn is_always_true(alloc: Global, expression: Expression) -> Result<bool, AllocError>
    ensures always { IfOk result (λ is. IsTrue is → IsAlwaysTrue expression) }
    ensures sometimes { IfOk result (λ is. IsFalse is → IsSometimesFalse expression) }
{
    let opposite = Expression::Not(Box::new(alloc, expression)?);
    let found = is_satisfiable(alloc, &opposite);
    drop(opposite);
    match found {
        Ok(is_found) => Ok(!is_found),
        Err(fault) => Err(fault),
    }
}

/// Whether a text says what is always true. A text that is refused doesn't.
fn says_always(alloc: Global, decls: &Decls, text: &[u8]) -> Result<bool, AllocError>
    ensures always { IfOk result (λ is. IsTrue is → (number : ℕ) (more : List ℕ) → IsTold decls.now number text.now more (number ∷ more)) }
    ensures other { IfOk result (λ is. IsFalse is → (number : ℕ) (more : List ℕ) → IsTold decls.now number text.now more more) }
{
    let expression = match read_assumption(alloc, decls, text) {
        Ok(expression) => expression,
        Err(AssumptionFault::Memory) => return Err(AllocError),
        Err(_) => return Ok(false),
    };
    match is_always_true(alloc, expression) {
        Ok(is_always) => Ok(is_always),
        Err(fault) => Err(fault),
    }
}

/// The first of some texts, and those behind it.
fn first_text(texts: &[String]) -> Option<(&[u8], &[String])>
    ensures first { IfSome result (λ x. map string_bytes texts.now ≡ x.0.now ∷ map string_bytes x.1.now) }
    ensures shorter { IfSome result (λ x. length x.1.now < length texts.now) }
    ensures none { IfNone result (map string_bytes texts.now ≡ []) }
{
    match texts {
        [text, behind @ ..] => Some((text.as_str().as_bytes(), behind)),
        [] => None,
    }
}

/// Adds a number where it is told.
fn add_told(is_told: bool, number: u64, numbers: &mut Vec<u64>) -> Result<(), AllocError>
    ensures told { IfOk result (λ _. IsTrue is_told → numbers.new.items ≡ numbers.old.items ++ number ∷ []) }
    ensures same { IfOk result (λ _. IsFalse is_told → numbers.new.items ≡ numbers.old.items) }
{
    if is_told {
        numbers.push(number)?;
    }
    Ok(())
}

/// Adds the numbers of the texts, counted from this one on, that are always true.
fn add_always(
    alloc: Global,
    decls: &Decls,
    number: u64,
    texts: &[String],
    numbers: &mut Vec<u64>,
) -> Result<(), AllocError>
    requires { number + length texts.now < 2 ^ 64 }
    ensures { IfOk result (λ _. (more : List ℕ) × AreAlwaysTrue decls.now number (map string_bytes texts.now) more × (numbers.new.items ≡ numbers.old.items ++ more)) }
{
    let Some((text, behind)) = first_text(texts) else {
        return Ok(());
    };
    let is_told = says_always(alloc, decls, text)?;
    add_told(is_told, number, numbers)?;
    match add_always(alloc, decls, number + 1, behind, numbers) {
        Ok(()) => Ok(()),
        Err(fault) => Err(fault),
    }
}

/// The numbers of the expressions that are always true, counted from 1: of each of them no values of the inputs make the opposite true. A text that
/// is refused has none.
///
/// # Errors
///
/// An error when out of memory.
pub fn always_true(alloc: Global, decls: &Decls, texts: &[String]) -> Result<Vec<u64>, AllocError>
    ensures { IfOk result (λ v. AreAlwaysTrue decls.now 1 (map string_bytes texts.now) v.items) }
{
    let mut numbers = Vec::new(alloc);
    match add_always(alloc, decls, 1, texts, &mut numbers) {
        Ok(()) => Ok(numbers),
        Err(fault) => Err(fault),
    }
}
