//! Lists of statements.

ghost use Rattle.std.specs.Prelude.{◌≡◌, ◌≤◌, ◌<◌, List, Option, length, IfOk};
ghost use Rattle.st_integers.specs.declared.value.IntegerValue.{IntegerValue};
ghost use Rattle.st_statements.specs.declared.statement.StatementList.{StatementList};
ghost use Rattle.st_program.specs.Statements.{Body, Choices, Condition, Has, IsSelect, Otherwise, Reads, WithCopy, WithSimple, source_of};
ghost use Rattle.st_program.specs.declared.item.Item.{Item};
ghost use Rattle.st_program.specs.declared.mark.Mark.TheVariants as Mark;
ghost use Rattle.st_program.specs.declared.notes.Note.{Note};

use crate::arguments::Copied;
use crate::choice::{labels_at, numbers_at, selector_at, set_at};
use crate::expressions::{after, due_at, expect, expression_at, first_item};
use crate::fault::{Expected, Refusal};
use crate::item::{Item, Literal, Named};
use crate::mark::{Mark, is_mark};
use crate::notes::{Called, Note, add_note};
use crate::simple::{Simple, simple_at};
use st_expression::{Expression, Operand};
use st_integers::{IntegerValue, with_setting};
use st_statements::StatementList;
use std::alloc::Global;

/// What the output of a statement is.
fn source_of(simple: &Simple) -> Operand
    ensures { result ≡ source_of simple.now }
{
    match simple {
        Simple::Call { instance, .. } => Operand::Output(*instance),
        Simple::Trigger { output, .. } => Operand::Variable(*output),
        Simple::Assign { variable, .. } => Operand::Variable(*variable),
        Simple::Return => Operand::Variable(0),
    }
}

/// Statements in memory of their own.
fn boxed(alloc: Global, list: StatementList) -> Result<Box<StatementList>, Refusal>
    ensures { IfOk result (λ b. b.value ≡ list) }
{
    Ok(Box::new(alloc, list)?)
}

/// The statements behind a copy of an output, where it is copied.
fn with_copy(
    alloc: Global,
    source: Operand,
    copy: Option<Copied>,
    others: StatementList,
) -> Result<StatementList, Refusal>
    ensures { IfOk result (WithCopy source copy others) }
{
    match copy {
        Some(copied) => Ok(StatementList::Assign {
            variable: copied.variable,
            value: Expression::Operand(source),
            next: boxed(alloc, others)?,
        }),
        None => Ok(others),
    }
}

/// The statements behind another.
fn with_simple(
    alloc: Global,
    simple: Simple,
    others: StatementList,
) -> Result<StatementList, Refusal>
    ensures { IfOk result (WithSimple simple others) }
{
    // What is owned is dropped before a fault is returned: a `?` would drop each tree by its forms.
    let Ok(next) = boxed(alloc, others) else {
        drop(simple);
        return Err(Refusal::Memory);
    };
    Ok(match simple {
        Simple::Assign { variable, value } => StatementList::Assign {
            variable,
            value,
            next,
        },
        Simple::Trigger {
            output,
            memory,
            clock,
        } => StatementList::Trigger {
            output,
            memory,
            clock,
            next,
        },
        Simple::Call {
            instance,
            first,
            second,
        } => StatementList::Call {
            instance,
            first,
            second,
            next,
        },
        Simple::Return => StatementList::Return { next },
    })
}

/// The statements behind another and the copy of its output.
fn joined(
    alloc: Global,
    simple: Simple,
    copy: Option<Copied>,
    others: StatementList,
) -> Result<StatementList, Refusal>
    ensures { IfOk result (λ whole. (copied : StatementList) × WithCopy (source_of simple) copy others copied × WithSimple simple copied whole) }
{
    let source = source_of(&simple);
    match with_copy(alloc, source, copy, others) {
        Ok(copied) => with_simple(alloc, simple, copied),
        Err(fault) => {
            drop(simple);
            Err(fault)
        }
    }
}

/// An IF before other statements.
fn select(
    alloc: Global,
    condition: Expression,
    accepted: StatementList,
    otherwise: StatementList,
    others: StatementList,
) -> Result<StatementList, Refusal>
    ensures { IfOk result (IsSelect condition accepted otherwise others) }
{
    let accepted = match boxed(alloc, accepted) {
        Ok(accepted) => accepted,
        Err(fault) => {
            drop(condition);
            drop(otherwise);
            drop(others);
            return Err(fault);
        }
    };
    let otherwise = match boxed(alloc, otherwise) {
        Ok(otherwise) => otherwise,
        Err(fault) => {
            drop(condition);
            drop(accepted);
            drop(others);
            return Err(fault);
        }
    };
    let next = match boxed(alloc, others) {
        Ok(next) => next,
        Err(fault) => {
            drop(condition);
            drop(accepted);
            drop(otherwise);
            return Err(fault);
        }
    };
    Ok(StatementList::Select {
        condition,
        accepted,
        otherwise,
        next,
    })
}

/// The condition behind IF or ELSIF, and what is behind its THEN.
fn condition_at<'a>(
    alloc: Global,
    mark: Mark,
    items: &'a [Item],
    notes: &mut Vec<Note>,
) -> Result<(Expression, &'a [Item]), Refusal>
    ensures condition { IfOk result (λ x. Condition mark items.now x.1.now notes.old.items notes.new.items x.0) }
    ensures shorter { IfOk result (λ x. length x.1.now < length items.now) }
{
    let fault = due_at(items, Expected::Mark(mark));
    let Some((item, behind)) = first_item(items) else {
        return Err(fault);
    };
    if !is_mark(item.mark, mark) {
        return Err(fault);
    }
    add_note(notes, item.word, Called::Nothing)?;
    let (condition, end) = expression_at(alloc, behind)?;
    match expect(Mark::Then, end) {
        Ok(rest) => Ok((condition, rest)),
        Err(fault) => {
            drop(condition);
            Err(fault)
        }
    }
}

/// What is behind semicolons with nothing before them.
fn after_empty(items: &[Item]) -> &[Item]
    ensures empty { (values : List (Option IntegerValue)) (rest : List Item) (before after : List Note) (all : StatementList)
        → Reads values Body result.now rest before after all → Reads values Body items.now rest before after all }
    ensures shorter { length result.now ≤ length items.now }
{
    let mut rest = items;
    while let Some(behind) = after(Mark::Semicolon, rest) {
        rest = behind;
    }
    rest
}

/// What begins where a statement is due.
enum Start {
    Simple,
    Select,
    /// `CASE`
    Choice,
    /// An INT that is set.
    Setting,
    /// The end of the text, or a keyword behind the last statement of a list.
    End,
}

/// What begins some items.
fn start_of(items: &[Item]) -> Start {
    let Some((item, _)) = first_item(items) else {
        return Start::End;
    };
    match (item.mark, item.named, item.literal) {
        (Mark::If, _, _) => Start::Select,
        (Mark::Case, _, _) => Start::Choice,
        (Mark::Elsif | Mark::Else | Mark::EndIf | Mark::EndCase | Mark::EndProgram, _, _) =>
            Start::End,
        (_, Named::Integer(_), _) => Start::Setting,
        (_, _, Literal::Count(_)) => Start::End,
        _ => Start::Simple,
    }
}

/// The statements that items begin with, and what is behind them.
#[cycle(statements)]
pub(crate) fn statements_at<'a>(
    alloc: Global,
    values: &[Option<IntegerValue>],
    items: &'a [Item],
    notes: &mut Vec<Note>,
) -> Result<(StatementList, &'a [Item]), Refusal>
    ensures reads { IfOk result (λ x. Reads values.now Body items.now x.1.now notes.old.items notes.new.items x.0) }
    ensures shorter { IfOk result (λ x. length x.1.now ≤ length items.now) }
{
    let begun = after_empty(items);
    match start_of(begun) {
        Start::End => Ok((StatementList::End, begun)),
        Start::Select => select_at(alloc, values, begun, notes),
        Start::Choice => choose_at(alloc, values, begun, notes),
        Start::Setting => {
            let (set, behind) = set_at(values, begun, notes)?;
            let (others, rest) = statements_at(alloc, values, behind, notes)?;
            let whole = with_setting(alloc, values, set.integer, set.chosen, others)?;
            Ok((whole, rest))
        }
        Start::Simple => {
            let (simple, copy, behind) = simple_at(alloc, begun, notes)?;
            match statements_at(alloc, values, behind, notes) {
                Ok((others, rest)) => Ok((joined(alloc, simple, copy, others)?, rest)),
                Err(fault) => {
                    drop(simple);
                    Err(fault)
                }
            }
        }
    }
}

/// An IF and the statements behind it, and what is behind them.
#[cycle(statements)]
fn select_at<'a>(
    alloc: Global,
    values: &[Option<IntegerValue>],
    items: &'a [Item],
    notes: &mut Vec<Note>,
) -> Result<(StatementList, &'a [Item]), Refusal>
    ensures reads { IfOk result (λ x. Reads values.now Body items.now x.1.now notes.old.items notes.new.items x.0) }
    ensures shorter { IfOk result (λ x. length x.1.now < length items.now) }
{
    let (condition, arm) = condition_at(alloc, Mark::If, items, notes)?;
    let (accepted, other) = match statements_at(alloc, values, arm, notes) {
        Ok(read) => read,
        Err(fault) => {
            drop(condition);
            return Err(fault);
        }
    };
    match otherwise_at(alloc, values, other, notes) {
        Ok((otherwise, end)) => {
            let (whole, rest) = with_others(
                alloc, values, condition, accepted, otherwise, end, notes,
            )?;
            Ok((whole, rest))
        }
        Err(fault) => {
            drop(condition);
            drop(accepted);
            Err(fault)
        }
    }
}

/// The statements behind a semicolon, and what is behind them.
#[cycle(statements)]
fn others_at<'a>(
    alloc: Global,
    values: &[Option<IntegerValue>],
    items: &'a [Item],
    notes: &mut Vec<Note>,
) -> Result<(StatementList, &'a [Item]), Refusal>
    ensures reads { IfOk result (λ x. (behind : List Item) × Has Mark.Semicolon items.now behind × Reads values.now Body behind x.1.now notes.old.items notes.new.items x.0) }
    ensures shorter { IfOk result (λ x. length x.1.now < length items.now) }
{
    let behind = expect(Mark::Semicolon, items)?;
    statements_at(alloc, values, behind, notes)
}

/// An IF before the statements behind its semicolon, and what is behind them.
#[cycle(statements)]
fn with_others<'a>(
    alloc: Global,
    values: &[Option<IntegerValue>],
    condition: Expression,
    accepted: StatementList,
    otherwise: StatementList,
    items: &'a [Item],
    notes: &mut Vec<Note>,
) -> Result<(StatementList, &'a [Item]), Refusal>
    ensures reads { IfOk result (λ x. (behind : List Item) × (others : StatementList) × Has Mark.Semicolon items.now behind
        × Reads values.now Body behind x.1.now notes.old.items notes.new.items others × IsSelect condition accepted otherwise others x.0) }
    ensures shorter { IfOk result (λ x. length x.1.now < length items.now) }
{
    match others_at(alloc, values, items, notes) {
        Ok((others, rest)) => Ok((select(alloc, condition, accepted, otherwise, others)?, rest)),
        Err(fault) => {
            drop(condition);
            drop(accepted);
            drop(otherwise);
            Err(fault)
        }
    }
}

/// What is run where a condition is FALSE, up to END_IF, and what is behind that.
#[cycle(statements)]
fn otherwise_at<'a>(
    alloc: Global,
    values: &[Option<IntegerValue>],
    items: &'a [Item],
    notes: &mut Vec<Note>,
) -> Result<(StatementList, &'a [Item]), Refusal>
    ensures reads { IfOk result (λ x. Reads values.now Otherwise items.now x.1.now notes.old.items notes.new.items x.0) }
    ensures shorter { IfOk result (λ x. length x.1.now < length items.now) }
{
    if let Some(rest) = after(Mark::EndIf, items) {
        return Ok((StatementList::End, rest));
    }
    if let Some(arm) = after(Mark::Else, items) {
        let (all, rest) = last_at(alloc, values, Mark::EndIf, arm, notes)?;
        return Ok((all, rest));
    }
    let (condition, arm) = condition_at(alloc, Mark::Elsif, items, notes)?;
    let (accepted, other) = match statements_at(alloc, values, arm, notes) {
        Ok(read) => read,
        Err(fault) => {
            drop(condition);
            return Err(fault);
        }
    };
    match otherwise_at(alloc, values, other, notes) {
        Ok((otherwise, rest)) => {
            let whole = select(alloc, condition, accepted, otherwise, StatementList::End)?;
            Ok((whole, rest))
        }
        Err(fault) => {
            drop(condition);
            drop(accepted);
            Err(fault)
        }
    }
}

/// The statements behind ELSE up to the word that ends an IF or a CASE, and what is behind that.
#[cycle(statements)]
fn last_at<'a>(
    alloc: Global,
    values: &[Option<IntegerValue>],
    mark: Mark,
    items: &'a [Item],
    notes: &mut Vec<Note>,
) -> Result<(StatementList, &'a [Item]), Refusal>
    ensures reads { IfOk result (λ x. (end : List Item) × Reads values.now Body items.now end notes.old.items notes.new.items x.0 × Has mark end x.1.now) }
    ensures shorter { IfOk result (λ x. length x.1.now < length items.now) }
{
    let (all, end) = statements_at(alloc, values, items, notes)?;
    match expect(mark, end) {
        Ok(rest) => Ok((all, rest)),
        Err(fault) => {
            drop(all);
            Err(fault)
        }
    }
}

/// A CASE and the statements behind it, and what is behind them.
#[cycle(statements)]
fn choose_at<'a>(
    alloc: Global,
    values: &[Option<IntegerValue>],
    items: &'a [Item],
    notes: &mut Vec<Note>,
) -> Result<(StatementList, &'a [Item]), Refusal>
    ensures reads { IfOk result (λ x. Reads values.now Body items.now x.1.now notes.old.items notes.new.items x.0) }
    ensures shorter { IfOk result (λ x. length x.1.now < length items.now) }
{
    let (integer, numbers) = selector_at(items, notes)?;
    let (condition, arm) = numbers_at(alloc, values, integer, numbers)?;
    let (accepted, other) = match statements_at(alloc, values, arm, notes) {
        Ok(read) => read,
        Err(fault) => {
            drop(condition);
            return Err(fault);
        }
    };
    match choices_at(alloc, values, integer, other, notes) {
        Ok((otherwise, end)) => {
            let (whole, rest) = with_others(
                alloc, values, condition, accepted, otherwise, end, notes,
            )?;
            Ok((whole, rest))
        }
        Err(fault) => {
            drop(condition);
            drop(accepted);
            Err(fault)
        }
    }
}

/// What is run where an INT has none of the numbers before, up to END_CASE, and what is behind that.
#[cycle(statements)]
fn choices_at<'a>(
    alloc: Global,
    values: &[Option<IntegerValue>],
    integer: usize,
    items: &'a [Item],
    notes: &mut Vec<Note>,
) -> Result<(StatementList, &'a [Item]), Refusal>
    ensures reads { IfOk result (λ x. Reads values.now (Choices integer) items.now x.1.now notes.old.items notes.new.items x.0) }
    ensures shorter { IfOk result (λ x. length x.1.now < length items.now) }
{
    if let Some(rest) = after(Mark::EndCase, items) {
        return Ok((StatementList::End, rest));
    }
    if let Some(arm) = after(Mark::Else, items) {
        let (all, rest) = last_at(alloc, values, Mark::EndCase, arm, notes)?;
        return Ok((all, rest));
    }
    let (condition, arm) = labels_at(alloc, values, integer, items, notes)?;
    let (accepted, other) = match statements_at(alloc, values, arm, notes) {
        Ok(read) => read,
        Err(fault) => {
            drop(condition);
            return Err(fault);
        }
    };
    match choices_at(alloc, values, integer, other, notes) {
        Ok((otherwise, rest)) => {
            let whole = select(alloc, condition, accepted, otherwise, StatementList::End)?;
            Ok((whole, rest))
        }
        Err(fault) => {
            drop(condition);
            drop(accepted);
            Err(fault)
        }
    }
}
