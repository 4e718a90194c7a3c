//! The arguments of a call.

ghost use Rattle.std.specs.Prelude.{◌≡◌, ◌∷◌, ◌<◌, List, Some, false, length, IfOk, IfSome};
ghost use Rattle.st_program.specs.Statements.{Arguments, Expressed, Has, IsArgument, nothing_given, with_argument};
ghost use Rattle.st_program.specs.declared.item.Item.{Item};
ghost use Rattle.st_program.specs.declared.item.Named.TheVariants as Named;
ghost use Rattle.st_program.specs.declared.mark.Mark.TheVariants.{Becomes, Yields};

use crate::expressions::{after, due_at, expect, expression_at, fault_at, first_item};
use crate::fault::{Expected, Refusal};
use crate::formal::{Callee, Role, role_of};
use crate::item::{Item, Literal, Named};
use crate::mark::Mark;
use diagram_declarations::{BlockKind, Parameter};
use st_expression::Expression;
use st_words::Word;
use std::alloc::Global;

/// The variable that an output is copied to, and its word in the call.
#[derive(Clone, Copy)]
pub(crate) struct Copied {
    pub word: Word,
    pub variable: usize,
}

/// An argument of a call.
#[derive(Drop)]
pub(crate) enum Argument {
    First(Expression),
    Second(Expression),
    Preset(Literal),
    Output(Copied),
}

/// The arguments of a call.
#[derive(Drop)]
pub(crate) struct Given {
    pub first: Option<Expression>,
    pub second: Option<Expression>,
    pub preset: Option<Literal>,
    pub output: Option<Copied>,
}

/// No arguments.
fn nothing_given() -> Given
    ensures { result ≡ nothing_given }
{
    Given {
        first: None,
        second: None,
        preset: None,
        output: None,
    }
}

/// The arguments with one more; None where it is given already.
fn with_argument(argument: Argument, given: Given) -> Option<Given>
    ensures { IfSome result (λ g. with_argument argument given ≡ Some g) }
{
    match argument {
        Argument::First(e) if given.first.is_none() => {
            drop(given.first);
            Some(Given {
                first: Some(e),
                ..given
            })
        }
        Argument::Second(e) if given.second.is_none() => {
            drop(given.second);
            Some(Given {
                second: Some(e),
                ..given
            })
        }
        Argument::Preset(literal) if given.preset.is_none() => Some(Given {
            preset: Some(literal),
            ..given
        }),
        Argument::Output(copied) if given.output.is_none() => Some(Given {
            output: Some(copied),
            ..given
        }),
        other => {
            drop(other);
            drop(given);
            None
        }
    }
}

/// The value of an input, and what is behind it.
fn input_at(alloc: Global, items: &[Item]) -> Result<(Expression, &[Item]), Refusal>
    ensures input { IfOk result (λ x. (value : List Item) × Has Becomes items.now value × Expressed value x.1.now x.0) }
    ensures shorter { IfOk result (λ x. length x.1.now < length items.now) }
{
    expression_at(alloc, expect(Mark::Becomes, items)?)
}

/// The value of a preset, and what is behind it.
fn preset_at(items: &[Item]) -> Result<(Literal, &[Item]), Refusal>
    ensures preset { IfOk result (λ x. (value : Item) × Has Becomes items.now (value ∷ x.1.now) × (x.0 ≡ value.literal)) }
    ensures shorter { IfOk result (λ x. length x.1.now < length items.now) }
{
    let behind = expect(Mark::Becomes, items)?;
    match first_item(behind) {
        Some((value, rest)) => Ok((value.literal, rest)),
        None => Err(due_at(behind, Expected::Preset)),
    }
}

/// The variable that an output is copied to, and what is behind it.
fn output_at(items: &[Item]) -> Result<(Copied, &[Item]), Refusal>
    ensures output { IfOk result (λ x. (target : Item) × Has Yields items.now (target ∷ x.1.now) × (target.named ≡ Named.Variable x.0.variable false) × (x.0.word ≡ target.word)) }
    ensures shorter { IfOk result (λ x. length x.1.now < length items.now) }
{
    let behind = expect(Mark::Yields, items)?;
    let Some((target, rest)) = first_item(behind) else {
        return Err(fault_at(behind, Expected::Name));
    };
    match target.named {
        Named::Variable {
            number,
            is_input: false,
        } => {
            let copied = Copied {
                word: target.word,
                variable: number,
            };
            Ok((copied, rest))
        }
        Named::Variable { .. } => Err(Refusal::Input {
            at: Some(target.word.start),
        }),
        _ => Err(fault_at(behind, Expected::Name)),
    }
}

/// An argument, and what is behind it.
fn argument_at(
    alloc: Global,
    callee: Callee,
    items: &[Item],
) -> Result<(Argument, &[Item]), Refusal>
    ensures argument { IfOk result (λ x. IsArgument callee items.now x.1.now x.0) }
    ensures shorter { IfOk result (λ x. length x.1.now < length items.now) }
{
    let Some((item, behind)) = first_item(items) else {
        return Err(due_at(items, Expected::Argument));
    };
    match role_of(callee, item.formal) {
        Role::First => {
            let (value, rest) = input_at(alloc, behind)?;
            Ok((Argument::First(value), rest))
        }
        Role::Second => {
            let (value, rest) = input_at(alloc, behind)?;
            Ok((Argument::Second(value), rest))
        }
        Role::Preset => {
            let (value, rest) = preset_at(behind)?;
            Ok((Argument::Preset(value), rest))
        }
        Role::Output => {
            let (copied, rest) = output_at(behind)?;
            Ok((Argument::Output(copied), rest))
        }
        Role::Nothing => Err(Refusal::Member {
            at: Some(item.word.start),
        }),
    }
}

/// The arguments with one more.
fn add_argument(argument: Argument, given: Given, at: Option<usize>) -> Result<Given, Refusal>
    ensures { IfOk result (λ g. with_argument argument given ≡ Some g) }
{
    with_argument(argument, given).ok_or(Refusal::Due {
        at,
        expected: Expected::Argument,
    })
}

/// The arguments of a call up to its parenthesis, and what is behind it.
pub(crate) fn arguments_at(
    alloc: Global,
    callee: Callee,
    items: &[Item],
) -> Result<(Given, &[Item]), Refusal>
    ensures arguments { IfOk result (λ x. Arguments callee items.now x.1.now x.0) }
    ensures shorter { IfOk result (λ x. length x.1.now < length items.now) }
{
    let at = first_item(items).map(|x| x.0.word.start);
    let (argument, behind) = argument_at(alloc, callee, items)?;
    match after(Mark::Comma, behind) {
        // The argument is dropped before a fault is returned: a `?` would drop it by its forms.
        Some(others) => match arguments_at(alloc, callee, others) {
            Ok((given, rest)) => Ok((add_argument(argument, given, at)?, rest)),
            Err(fault) => {
                drop(argument);
                Err(fault)
            }
        },
        None => match expect(Mark::Close, behind) {
            Ok(rest) => Ok((add_argument(argument, nothing_given(), at)?, rest)),
            Err(fault) => {
                drop(argument);
                Err(fault)
            }
        },
    }
}
