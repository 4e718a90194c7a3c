//! Statements but IF.

ghost use Rattle.std.specs.Prelude.{◌≡◌, ◌∷◌, ◌<◌, List, false, Some, length, IfOk, OnOk};
ghost use Rattle.st_program.specs.Notes.{Adds, noted};
ghost use Rattle.st_program.specs.Statements.{Copies, Has, IsCall, IsClock, IsSimple, agreed, second_of, settled, settled_by, value_as};
ghost use Rattle.st_program.specs.declared.item.Named.TheVariants as Named;
ghost use Rattle.st_program.specs.declared.mark.Mark.TheVariants as Mark;
ghost use Rattle.st_program.specs.declared.notes.Called.TheVariants as Called;
ghost use Rattle.st_program.specs.declared.notes.Note.{Note};

use crate::arguments::{Copied, Given, arguments_at};
use crate::expressions::{expect, expression_at, fault_at, first_item};
use crate::fault::{Expected, Refusal};
use crate::formal::Callee;
use crate::item::{Item, Literal, Named};
use crate::mark::{Mark, is_mark};
use crate::notes::{Called, Note, add_note, has_block, has_trigger, triggers};
use diagram_declarations::{BlockKind, Parameter};
use st_expression::Expression;
use st_words::Word;
use std::alloc::Global;

/// A statement but IF.
#[derive(Drop)]
pub(crate) enum Simple {
    Assign {
        variable: usize,
        value: Expression,
    },
    Trigger {
        output: usize,
        memory: usize,
        clock: Expression,
    },
    Call {
        instance: usize,
        first: Expression,
        second: Expression,
    },
    Return,
}

/// The value that a preset gives a parameter.
fn value_as(parameter: Parameter, literal: Literal) -> Option<u32>
    ensures { result ≡ value_as parameter literal }
{
    match (parameter, literal) {
        (Parameter::Time, Literal::Time(n)) => Some(n),
        (Parameter::Count, Literal::Count(n)) => Some(n),
        _ => None,
    }
}

/// The preset of a declaration and of a call; None where they differ.
fn agreed(declared: Option<u32>, given: u32) -> Option<u32>
    ensures { result ≡ agreed declared given }
{
    match declared {
        Some(preset) => { if preset == given { Some(given) } else { None } }
        None => Some(given),
    }
}

/// The preset of a block, by its declaration or by its call; 0 of a bistable.
fn settled(kind: BlockKind, declared: Option<u32>, given: Option<Literal>) -> Option<u32>
    ensures { result ≡ settled kind declared given }
{
    match (kind.traits().parameter, given) {
        (None, None) => Some(0),
        (None, Some(_)) => None,
        (Some(_), None) => declared,
        (Some(parameter), Some(literal)) => match value_as(parameter, literal) {
            Some(value) => agreed(declared, value),
            None => None,
        },
    }
}

/// What a trigger looks at.
fn clock_of(alloc: Global, falling: bool, clock: Expression) -> Result<Expression, Refusal>
    ensures { IfOk result (IsClock falling clock) }
{
    if falling {
        Ok(Expression::Not(Box::new(alloc, clock)?))
    } else {
        Ok(clock)
    }
}

/// The second input of a block, FALSE where it isn't given.
fn second_of(second: Option<Expression>) -> Expression
    ensures { result ≡ second_of second }
{
    match second {
        Some(expression) => expression,
        None => Expression::Constant(false),
    }
}

/// The first input of a call, and the second one, FALSE where it isn't given.
fn inputs_of(given: Given, at: Option<usize>) -> Result<(Expression, Expression), Refusal>
    ensures first { IfOk result (λ x. given.first ≡ Some x.0) }
    ensures second { IfOk result (λ x. x.1 ≡ second_of given.second) }
{
    let Given { first, second, .. } = given;
    match first {
        Some(first) => Ok((first, second_of(second))),
        None => {
            drop(second);
            Err(Refusal::Due {
                at,
                expected: Expected::Argument,
            })
        }
    }
}

/// Notes that an output is copied to a variable, where it is.
fn note_copy(notes: &mut Vec<Note>, output: Option<Copied>) -> Result<(), Refusal>
    ensures { OnOk result (Copies output notes.old.items notes.new.items) }
{
    match output {
        Some(copied) => add_note(notes, copied.word, Called::Nothing),
        None => Ok(()),
    }
}

/// Notes a call, and that its output is copied to a variable, where it is.
fn note_call(
    notes: &mut Vec<Note>,
    word: Word,
    called: Called,
    output: Option<Copied>,
) -> Result<(), Refusal>
    ensures { OnOk result ((between : List Note) × Adds notes.old.items (noted word called) between × Copies output between notes.new.items) }
{
    add_note(notes, word, called)?;
    note_copy(notes, output)
}

/// Notes a statement that calls nothing. Returns what is behind its semicolon.
fn end_of<'a>(word: Word, items: &'a [Item], notes: &mut Vec<Note>) -> Result<&'a [Item], Refusal>
    ensures ends { IfOk result (λ rest. Has Mark.Semicolon items.now rest.now) }
    ensures notes { OnOk result (Adds notes.old.items (noted word Called.Nothing) notes.new.items) }
    ensures shorter { IfOk result (λ rest. length rest.now < length items.now) }
{
    let rest = expect(Mark::Semicolon, items)?;
    add_note(notes, word, Called::Nothing)?;
    Ok(rest)
}

/// The rest of an assignment to a variable, and what is behind it.
fn assign_at<'a>(
    alloc: Global,
    item: Item,
    variable: usize,
    items: &'a [Item],
    notes: &mut Vec<Note>,
) -> Result<(Simple, Option<Copied>, &'a [Item]), Refusal>
    requires { item.named ≡ Named.Variable variable false }
    ensures simple { IfOk result (λ x. IsSimple (item ∷ items.now) x.2.now notes.old.items notes.new.items x.0 x.1) }
    ensures shorter { IfOk result (λ x. length x.2.now < length items.now) }
{
    let behind = expect(Mark::Becomes, items)?;
    let (value, end) = expression_at(alloc, behind)?;
    match end_of(item.word, end, notes) {
        Ok(rest) => Ok((Simple::Assign { variable, value }, None, rest)),
        // A `?` would drop the value by its forms.
        Err(fault) => {
            drop(value);
            Err(fault)
        }
    }
}

/// What is behind a RETURN.
fn return_at<'a>(
    item: Item,
    items: &'a [Item],
    notes: &mut Vec<Note>,
) -> Result<(Simple, Option<Copied>, &'a [Item]), Refusal>
    requires { item.mark ≡ Mark.Return }
    ensures simple { IfOk result (λ x. IsSimple (item ∷ items.now) x.2.now notes.old.items notes.new.items x.0 x.1) }
    ensures shorter { IfOk result (λ x. length x.2.now < length items.now) }
{
    let rest = end_of(item.word, items, notes)?;
    Ok((Simple::Return, None, rest))
}

/// The arguments of a call up to its semicolon, and what is behind it.
fn call_at(alloc: Global, callee: Callee, items: &[Item]) -> Result<(Given, &[Item]), Refusal>
    ensures call { IfOk result (λ x. IsCall callee items.now x.1.now x.0) }
    ensures shorter { IfOk result (λ x. length x.1.now < length items.now) }
{
    let inside = expect(Mark::Open, items)?;
    let (given, end) = arguments_at(alloc, callee, inside)?;
    match expect(Mark::Semicolon, end) {
        Ok(rest) => Ok((given, rest)),
        Err(fault) => {
            drop(given);
            Err(fault)
        }
    }
}

/// The rest of a call of a trigger, and what is behind it.
fn trigger_at<'a>(
    alloc: Global,
    item: Item,
    number: usize,
    falling: bool,
    items: &'a [Item],
    notes: &mut Vec<Note>,
) -> Result<(Simple, Option<Copied>, &'a [Item]), Refusal>
    requires { item.named ≡ Named.Trigger number falling }
    ensures simple { IfOk result (λ x. IsSimple (item ∷ items.now) x.2.now notes.old.items notes.new.items x.0 x.1) }
    ensures shorter { IfOk result (λ x. length x.2.now < length items.now) }
{
    let at = Some(item.word.start);
    if has_trigger(notes, number) {
        return Err(Refusal::Call { at });
    }
    let (given, rest) = call_at(alloc, Callee::Trigger, items)?;
    let output = given.output;
    let (first, second) = inputs_of(given, at)?;
    // A trigger has no second input.
    drop(second);
    let clock = clock_of(alloc, falling, first)?;
    let memory = triggers(notes);
    match note_call(notes, item.word, Called::Trigger(number), output) {
        Ok(()) => {
            let simple = Simple::Trigger {
                output: number,
                memory,
                clock,
            };
            Ok((simple, output, rest))
        }
        Err(fault) => {
            drop(clock);
            Err(fault)
        }
    }
}

/// What a block is declared as.
#[derive(Clone, Copy)]
struct Declared {
    number: usize,
    kind: BlockKind,
    preset: Option<u32>,
}

/// The rest of a call of a timer, a counter or a bistable, and what is behind it.
fn block_at<'a>(
    alloc: Global,
    item: Item,
    block: Declared,
    items: &'a [Item],
    notes: &mut Vec<Note>,
) -> Result<(Simple, Option<Copied>, &'a [Item]), Refusal>
    requires { item.named ≡ Named.Block block.number block.kind block.preset }
    ensures simple { IfOk result (λ x. IsSimple (item ∷ items.now) x.2.now notes.old.items notes.new.items x.0 x.1) }
    ensures shorter { IfOk result (λ x. length x.2.now < length items.now) }
{
    let at = Some(item.word.start);
    let number = block.number;
    if has_block(notes, number) {
        return Err(Refusal::Call { at });
    }
    let (given, rest) = call_at(alloc, Callee::Block(block.kind), items)?;
    let output = given.output;
    let Some(preset) = settled(block.kind, block.preset, given.preset) else {
        drop(given);
        return Err(Refusal::Call { at });
    };
    let (first, second) = inputs_of(given, at)?;
    match note_call(notes, item.word, Called::Block { number, preset }, output) {
        Ok(()) => {
            let simple = Simple::Call {
                instance: number,
                first,
                second,
            };
            Ok((simple, output, rest))
        }
        Err(fault) => {
            drop(first);
            drop(second);
            Err(fault)
        }
    }
}

/// A statement but IF, the variable that its output is copied to, and what is behind it.
pub(crate) fn simple_at<'a>(
    alloc: Global,
    items: &'a [Item],
    notes: &mut Vec<Note>,
) -> Result<(Simple, Option<Copied>, &'a [Item]), Refusal>
    ensures simple { IfOk result (λ x. IsSimple items.now x.2.now notes.old.items notes.new.items x.0 x.1) }
    ensures shorter { IfOk result (λ x. length x.2.now < length items.now) }
{
    let Some((item, behind)) = first_item(items) else {
        return Err(fault_at(items, Expected::Statement));
    };
    if is_mark(item.mark, Mark::Return) {
        return return_at(item, behind, notes);
    }
    match item.named {
        Named::Variable {
            number,
            is_input: false,
        } => assign_at(alloc, item, number, behind, notes),
        Named::Variable { .. } => Err(Refusal::Input {
            at: Some(item.word.start),
        }),
        Named::Trigger { number, falling } => {
            trigger_at(alloc, item, number, falling, behind, notes)
        }
        Named::Block {
            number,
            kind,
            preset,
        } => {
            let block = Declared {
                number,
                kind,
                preset,
            };
            block_at(alloc, item, block, behind, notes)
        }
        Named::Nothing | Named::Integer(_) | Named::Compared => {
            Err(fault_at(items, Expected::Statement))
        }
    }
}
