//! The search for input values that make an expression true, whatever inputs there are.

ghost use Rattle.std.specs.Prelude.{◌≡◌, IfOk, IsFalse, IsTrue};
ghost use Rattle.scan_signals.specs.Three.{three};
ghost use Rattle.assume_truth.specs.Truth.{truth};
ghost use Rattle.assume_possible.specs.Satisfiable.{IsSatisfiable, IsUnsatisfiable, IsUnsatisfiableFrom, first_input};

use assume_truth::{Inputs, is_named, truth};
use scan_signals::{Operations, Tri};
use st_expression::Expression;
use std::alloc::{AllocError, Global};

/// Inputs of which the first ones are known; the others may be OFF or ON.
#[derive(Clone, Copy)]
pub(crate) struct FirstInputs<'a> {
    pub known: &'a [bool],
}

impl<'a> Inputs for FirstInputs<'a> {
    ghost use Rattle.assume_possible.specs.Satisfiable.{first_input};

    type Signal = Tri;

    ghost signal = { λ i place. first_input i.known.now place };

    fn signal(&self, place: usize) -> Tri {
        match self.known.get(place) {
            Some(value) => Tri::known(*value),
            None => Tri::Unsure,
        }
    }
}

/// What is known of an expression by the first inputs.
fn truth_by(expression: &Expression, known: &[bool]) -> Tri
    ensures { result ≡ truth three (first_input known.now) expression.now }
{
    truth(expression, &FirstInputs { known })
}

/// Whether some values that begin with those known make an expression true. The next input is tried OFF first, and ON only where the expression
/// names it; what is known is as before then.
fn is_satisfiable_from(expression: &Expression, known: &mut Vec<bool>) -> Result<bool, AllocError>
    ensures known { IfOk result (λ _. known.new.items ≡ known.old.items) }
    ensures some { IfOk result (λ found. IsTrue found → IsSatisfiable expression.now) }
    ensures none { IfOk result (λ found. IsFalse found → IsUnsatisfiableFrom known.old.items expression.now) }
{
    match truth_by(expression, known) {
        Tri::On => return Ok(true),
        Tri::Off => return Ok(false),
        Tri::Unsure => (),
    }
    let place = known.len();
    known.push(false)?;
    let is_found = is_satisfiable_from(expression, known)?;
    known.pop();
    if is_found {
        return Ok(true);
    }
    if !is_named(Some(expression), place) {
        return Ok(false);
    }
    known.push(true)?;
    let is_found = is_satisfiable_from(expression, known)?;
    known.pop();
    Ok(is_found)
}

/// Whether any values of the inputs make an expression true. Only the inputs that it names are tried, in order of declaration, and each only where
/// those before it leave the truth open.
///
/// # Errors
///
/// An error when out of memory; nothing is said then.
pub fn is_satisfiable(alloc: Global, expression: &Expression) -> Result<bool, AllocError>
    ensures some { IfOk result (λ found. IsTrue found → IsSatisfiable expression.now) }
    ensures none { IfOk result (λ found. IsFalse found → IsUnsatisfiable expression.now) }
{
    let mut known = Vec::new(alloc);
    let is_found = is_satisfiable_from(expression, &mut known)?;
    drop(known);
    Ok(is_found)
}
