//! An expression over the inputs of a program, said of the inputs of another one.

ghost use Rattle.std.specs.Prelude.{◌≡◌, ◌∷◌, [], IfOk, List, Bool, Ok, Some, true, false, slice_index_or};
ghost use Rattle.assume_places.specs.Places.{IsPlaced};
ghost use Rattle.st_expression.specs.Value.{held_by, value};

use st_expression::{Expression, Operand};
use std::alloc::{AllocError, Global};

/// Both sides of an operation.
pub(crate) struct Sides {
    pub first: Box<Expression>,
    pub second: Box<Expression>,
}

/// An input, by the place that it has there. Past the last place there is none, and it is OFF.
fn placed_input(place: usize, places: &[usize]) -> Expression
    ensures { IsPlaced (Some (Expression.Operand (Operand.Variable place))) places.now (Some result) }
{
    match places.get(place) {
        Some(there) => Expression::Operand(Operand::Variable(*there)),
        None => Expression::Constant(false),
    }
}

/// A box with an expression, where that was made.
fn boxed(alloc: Global, made: Result<Expression, AllocError>) -> Result<Box<Expression>, AllocError>
    ensures { IfOk result (λ b. made ≡ Ok b.value) }
{
    let inner = made?;
    Ok(Box::new(alloc, inner)?)
}

/// Boxes with two expressions, where both were made.
pub(crate) fn both_boxed(
    alloc: Global,
    first: Result<Expression, AllocError>,
    second: Result<Expression, AllocError>,
) -> Result<Sides, AllocError>
    ensures first { IfOk result (λ sides. first ≡ Ok sides.first.value) }
    ensures second { IfOk result (λ sides. second ≡ Ok sides.second.value) }
{
    let second = boxed(alloc, second)?;
    match boxed(alloc, first) {
        Ok(first) => Ok(Sides { first, second }),
        Err(fault) => {
            drop(second);
            Err(fault)
        }
    }
}

/// An expression in which each input has the place that it has among the inputs of another program: it is true of values there just where the
/// expression is true of the values at these places.
///
/// # Errors
///
/// `AllocError` when out of memory.
#[tactic(auto, unfolding(st_expression::specs::Value::value))]
pub fn placed(
    alloc: Global,
    expression: &Expression,
    places: &[usize],
) -> Result<Expression, AllocError>
    ensures { IfOk result (λ e. IsPlaced (Some expression.now) places.now (Some e)) }
{
    match expression {
        Expression::Constant(value) => Ok(Expression::Constant(*value)),
        Expression::Operand(Operand::Variable(place)) => Ok(placed_input(*place, places)),
        Expression::Operand(Operand::Output(number)) => {
            Ok(Expression::Operand(Operand::Output(*number)))
        }
        Expression::Not(negated) => {
            let inner = boxed(alloc, placed(alloc, negated, places))?;
            Ok(Expression::Not(inner))
        }
        Expression::Equal(first, second) => {
            let (first, second) = (placed(alloc, first, places), placed(alloc, second, places));
            let Sides { first, second } = both_boxed(alloc, first, second)?;
            Ok(Expression::Equal(first, second))
        }
        Expression::And(first, second) => {
            let (first, second) = (placed(alloc, first, places), placed(alloc, second, places));
            let Sides { first, second } = both_boxed(alloc, first, second)?;
            Ok(Expression::And(first, second))
        }
        Expression::Exclusive(first, second) => {
            let (first, second) = (placed(alloc, first, places), placed(alloc, second, places));
            let Sides { first, second } = both_boxed(alloc, first, second)?;
            Ok(Expression::Exclusive(first, second))
        }
        Expression::Or(first, second) => {
            let (first, second) = (placed(alloc, first, places), placed(alloc, second, places));
            let Sides { first, second } = both_boxed(alloc, first, second)?;
            Ok(Expression::Or(first, second))
        }
    }
}
