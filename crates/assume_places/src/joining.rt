//! What is assumed of two programs, joined into one expression.

ghost use Rattle.std.specs.Prelude.{◌≡◌, ◌&&◌, Bool, IfOk, List, None, option_map};
ghost use Rattle.assume_truth.specs.Truth.{is_allowed};
ghost use Rattle.assume_places.specs.Places.{IsJoint, IsPlaced};

use crate::placing::{Sides, both_boxed, placed};
use st_expression::Expression;
use std::alloc::{AllocError, Global};

/// What is assumed of the inputs of a program, and the place that each of these has among the inputs of another one.
#[derive(Clone, Copy)]
pub struct Placed<'a> {
    pub expression: Option<&'a Expression>,
    pub places: &'a [usize],
}

/// The same, said of the inputs there.
fn placed_there(alloc: Global, assumed: Placed<'_>) -> Result<Option<Expression>, AllocError>
    ensures placed { IfOk result (IsPlaced (option_map (λ e. e.now) assumed.entry.expression) assumed.entry.places.now) }
    ensures none { IfOk result (λ there. assumed.entry.expression ≡ None → there ≡ None) }
{
    let Some(expression) = assumed.expression else {
        return Ok(None);
    };
    match placed(alloc, expression, assumed.places) {
        Ok(there) => Ok(Some(there)),
        Err(fault) => Err(fault),
    }
}

/// Both, joined by AND, where there are two.
fn both(
    alloc: Global,
    first: Option<Expression>,
    second: Option<Expression>,
) -> Result<Option<Expression>, AllocError>
    ensures both { IfOk result (λ e. (values : List Bool) → is_allowed e values ≡ (is_allowed first values && is_allowed second values)) }
    ensures none { IfOk result (λ e. first ≡ None → second ≡ None → e ≡ None) }
{
    match (first, second) {
        (Some(first), Some(second)) => {
            let Sides { first, second } = both_boxed(alloc, Ok(first), Ok(second))?;
            Ok(Some(Expression::And(first, second)))
        }
        (Some(only), None) | (None, Some(only)) => Ok(Some(only)),
        (None, None) => Ok(None),
    }
}

/// What is assumed of the inputs of two programs, as one expression over the inputs of another one, in which each of them has a place; none where
/// nothing is assumed of either.
///
/// # Errors
///
/// `AllocError` when out of memory.
pub fn joined(
    alloc: Global,
    first: Placed<'_>,
    second: Placed<'_>,
) -> Result<Option<Expression>, AllocError>
    ensures joint { IfOk result (IsJoint (option_map (λ e. e.now) first.entry.expression) first.entry.places.now (option_map (λ e. e.now) second.entry.expression) second.entry.places.now) }
    ensures none { IfOk result (λ joint. first.entry.expression ≡ None → second.entry.expression ≡ None → joint ≡ None) }
{
    let of_first = placed_there(alloc, first)?;
    match placed_there(alloc, second) {
        Ok(of_second) => both(alloc, of_first, of_second),
        Err(fault) => {
            drop(of_first);
            Err(fault)
        }
    }
}
