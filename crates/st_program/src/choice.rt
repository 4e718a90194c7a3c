//! Statements with INTs: they are set to a number, and choose among statements.

ghost use Rattle.std.specs.Prelude.{◌≡◌, ◌∷◌, ◌<◌, Some, count_by, length, IfOk, IfSome, OnOk};
ghost use Rattle.st_integers.specs.Values.{is_of_integer};
ghost use Rattle.st_program.specs.Notes.{noted};
ghost use Rattle.st_program.specs.Statements.{AddsTimes, IsEither, IsSet, Labels, Numbers, Selector, equals};
ghost use Rattle.st_program.specs.declared.item.Item.{Item};
ghost use Rattle.st_program.specs.declared.item.Named.TheVariants as Named;
ghost use Rattle.st_program.specs.declared.item.Literal.TheVariants as Literal;
ghost use Rattle.st_program.specs.declared.notes.Called.TheVariants as Called;

use crate::expressions::{after, due_at, expect, fault_at, first_item};
use crate::fault::{Expected, Refusal};
use crate::item::{Item, Literal, Named};
use crate::mark::{Mark, is_mark};
use crate::notes::{Called, Note, add_note};
use st_expression::{Expression, Operand};
use st_integers::{IntegerValue, variable_with};
use st_words::Word;
use std::alloc::Global;

/// What an INT is set to.
#[derive(Clone, Copy)]
pub(crate) struct Setting {
    pub integer: usize,
    /// The variable that is on while the INT has the number.
    pub chosen: usize,
}

/// Whether a variable stands for a value of an INT.
fn is_of_integer(integer: usize, of: Option<IntegerValue>) -> bool
    ensures { result ≡ is_of_integer integer of }
{
    match of {
        Some(of) => of.integer == integer,
        None => false,
    }
}

/// How many values an INT has.
fn values_of(integer: usize, values: &[Option<IntegerValue>]) -> usize
    ensures { result ≡ count_by (is_of_integer integer) values.now }
{
    values
        .iter()
        .filter(|of| is_of_integer(integer, **of))
        .count()
}

/// Notes as many statements that begin with a word.
fn add_notes(notes: &mut Vec<Note>, word: Word, times: usize) -> Result<(), Refusal>
    ensures { OnOk result (AddsTimes times (noted word Called.Nothing) notes.old.items notes.new.items) }
{
    if times == 0 {
        return Ok(());
    }
    add_note(notes, word, Called::Nothing)?;
    add_notes(notes, word, times - 1)
}

/// The number that items begin with, and what is behind it.
fn number_at(items: &[Item], expected: Expected) -> Result<(Item, u32, &[Item]), Refusal>
    ensures first { IfOk result (λ x. items.now ≡ x.0 ∷ x.2.now) }
    ensures number { IfOk result (λ x. x.0.literal ≡ Literal.Count x.1) }
{
    let fault = fault_at(items, expected);
    let Some((item, behind)) = first_item(items) else {
        return Err(fault);
    };
    match item.literal {
        Literal::Count(number) => Ok((item, number, behind)),
        _ => Err(fault),
    }
}

/// The setting of an INT that items begin with, and what is behind it.
pub(crate) fn set_at<'a>(
    values: &[Option<IntegerValue>],
    items: &'a [Item],
    notes: &mut Vec<Note>,
) -> Result<(Setting, &'a [Item]), Refusal>
    ensures set { IfOk result (λ x. IsSet values.now items.now x.1.now notes.old.items notes.new.items x.0.integer x.0.chosen) }
    ensures shorter { IfOk result (λ x. length x.1.now < length items.now) }
{
    let fault = fault_at(items, Expected::Integer);
    let Some((item, behind)) = first_item(items) else {
        return Err(fault);
    };
    let Named::Integer(integer) = item.named else {
        return Err(fault);
    };
    let value = expect(Mark::Becomes, behind)?;
    let (_, number, end) = number_at(value, Expected::Number)?;
    let Some(chosen) = variable_with(values, integer, number) else {
        return Err(fault_at(value, Expected::Number));
    };
    let rest = expect(Mark::Semicolon, end)?;
    add_notes(notes, item.word, values_of(integer, values))?;
    Ok((Setting { integer, chosen }, rest))
}

/// The INT that items begin with, and what is behind it.
fn integer_at(items: &[Item]) -> Result<(usize, &[Item]), Refusal>
    ensures integer { IfOk result (λ x. (name : Item) × (items.now ≡ name ∷ x.1.now) × (name.named ≡ Named.Integer x.0)) }
{
    let fault = fault_at(items, Expected::Integer);
    let Some((item, behind)) = first_item(items) else {
        return Err(fault);
    };
    match item.named {
        Named::Integer(integer) => Ok((integer, behind)),
        _ => Err(fault),
    }
}

/// The INT of a CASE, and what is behind its OF.
pub(crate) fn selector_at<'a>(
    items: &'a [Item],
    notes: &mut Vec<Note>,
) -> Result<(usize, &'a [Item]), Refusal>
    ensures selector { IfOk result (λ x. Selector items.now x.1.now notes.old.items notes.new.items x.0) }
    ensures shorter { IfOk result (λ x. length x.1.now < length items.now) }
{
    let fault = due_at(items, Expected::Mark(Mark::Case));
    let Some((item, named)) = first_item(items) else {
        return Err(fault);
    };
    if !is_mark(item.mark, Mark::Case) {
        return Err(fault);
    }
    let (integer, end) = integer_at(named)?;
    let rest = expect(Mark::Of, end)?;
    add_note(notes, item.word, Called::Nothing)?;
    Ok((integer, rest))
}

/// Whether an INT has a number: the variable of that value, or FALSE where it never has it.
fn equals(values: &[Option<IntegerValue>], integer: usize, number: u32) -> Expression
    ensures { result ≡ equals values.now integer number }
{
    match variable_with(values, integer, number) {
        Some(number) => Expression::Operand(Operand::Variable(number)),
        None => Expression::Constant(false),
    }
}

/// One expression or another.
fn either(alloc: Global, one: Expression, other: Expression) -> Result<Expression, Refusal>
    ensures { IfOk result (IsEither one other) }
{
    let one = Box::new(alloc, one)?;
    let other = Box::new(alloc, other)?;
    Ok(Expression::Or(one, other))
}

/// The numbers before statements of a CASE as a condition, and what is behind their colon.
pub(crate) fn numbers_at<'a>(
    alloc: Global,
    values: &[Option<IntegerValue>],
    integer: usize,
    items: &'a [Item],
) -> Result<(Expression, &'a [Item]), Refusal>
    ensures numbers { IfOk result (λ x. Numbers values.now integer items.now x.1.now x.0) }
    ensures shorter { IfOk result (λ x. length x.1.now < length items.now) }
{
    let (_, number, behind) = number_at(items, Expected::Number)?;
    let Some(others) = after(Mark::Comma, behind) else {
        let rest = expect(Mark::Colon, behind)?;
        return Ok((equals(values, integer, number), rest));
    };
    let (other, rest) = numbers_at(alloc, values, integer, others)?;
    let one = equals(values, integer, number);
    Ok((either(alloc, one, other)?, rest))
}

/// The numbers before statements of a CASE but the first ones, noted as a condition, and what is behind their colon.
pub(crate) fn labels_at<'a>(
    alloc: Global,
    values: &[Option<IntegerValue>],
    integer: usize,
    items: &'a [Item],
    notes: &mut Vec<Note>,
) -> Result<(Expression, &'a [Item]), Refusal>
    ensures labels { IfOk result (λ x. Labels values.now integer items.now x.1.now notes.old.items notes.new.items x.0) }
    ensures shorter { IfOk result (λ x. length x.1.now < length items.now) }
{
    let (item, _, _) = number_at(items, Expected::Mark(Mark::EndCase))?;
    add_note(notes, item.word, Called::Nothing)?;
    numbers_at(alloc, values, integer, items)
}
