//! Expressions and symbols among the words of statements.

ghost use Rattle.std.specs.Prelude.{◌≡◌, ◌∷◌, [], ◌<◌, ◌≤◌, drop, length, List, IfNone, IfOk, IfSome};
ghost use Rattle.st_program.specs.Expressions.{BeginsAs};
ghost use Rattle.st_program.specs.Statements.{Expressed, Has};
ghost use Rattle.st_program.specs.declared.item.Item.{Item};

use crate::fault::{Expected, Refusal};
use crate::item::{Item, Literal, Named};
use crate::mark::{Mark, is_mark};
use st_expression::{Expression, ReadFault, Token, laws, read_expression};
use std::alloc::{AllocError, Global};

/// The first of some items, and what is behind it.
pub(crate) fn first_item(items: &[Item]) -> Option<(Item, &[Item])>
    ensures first { IfSome result (λ x. items.now ≡ x.0 ∷ x.1.now) }
    ensures none { IfNone result (items.now ≡ []) }
{
    match items {
        [item, rest @ ..] => Some((*item, rest)),
        [] => None,
    }
}

/// Why another word is due where these items begin.
pub(crate) fn due_at(items: &[Item], expected: Expected) -> Refusal {
    let Some((item, _)) = first_item(items) else {
        return Refusal::Due { at: None, expected };
    };
    let at = Some(item.word.start);
    match item.mark {
        Mark::Undrawable => Refusal::Undrawable { at },
        _ => Refusal::Due { at, expected },
    }
}

/// Why neither an operand nor a statement begins these items: the word may be a name that isn't declared, or one of a block.
pub(crate) fn fault_at(items: &[Item], expected: Expected) -> Refusal {
    let Some((item, _)) = first_item(items) else {
        return due_at(items, expected);
    };
    let at = Some(item.word.start);
    match (item.mark, item.named, item.literal) {
        (Mark::Other, _, _) if item.is_member => Refusal::Member { at },
        (Mark::Other, Named::Trigger { .. } | Named::Block { .. }, _) => Refusal::Member { at },
        (Mark::Other, Named::Integer(_), _) => Refusal::Integer { at },
        (Mark::Other, Named::Nothing, Literal::Nothing) if item.is_name => Refusal::Name { at },
        _ => due_at(items, expected),
    }
}

/// What is behind a keyword or a symbol; None where the items don't begin with it.
pub(crate) fn after(mark: Mark, items: &[Item]) -> Option<&[Item]>
    ensures has { IfSome result (λ rest. Has mark items.now rest.now) }
    ensures shorter { IfSome result (λ rest. length rest.now < length items.now) }
{
    match first_item(items) {
        Some((item, rest)) if is_mark(item.mark, mark) => Some(rest),
        _ => None,
    }
}

/// What is behind a keyword or a symbol that is due.
pub(crate) fn expect(mark: Mark, items: &[Item]) -> Result<&[Item], Refusal>
    ensures has { IfOk result (λ rest. Has mark items.now rest.now) }
    ensures shorter { IfOk result (λ rest. length rest.now < length items.now) }
{
    match after(mark, items) {
        Some(rest) => Ok(rest),
        None => Err(due_at(items, Expected::Mark(mark))),
    }
}

/// The tokens of items, up to the first that no expression has.
fn tokens_of(alloc: Global, items: &[Item]) -> Result<Vec<Token>, AllocError>
    ensures { IfOk result (λ tokens. (rest : List Item) × BeginsAs items.now rest tokens.items) }
{
    let mut tokens = Vec::new(alloc);
    let mut rest = items;
    while let Some((item, behind)) = first_item(rest) {
        if let Token::Other = item.token {
            return Ok(tokens);
        }
        tokens.push(item.token)?;
        rest = behind;
    }
    Ok(tokens)
}

/// The items behind the first ones.
fn skip(items: &[Item], count: usize) -> &[Item]
    ensures { result.now ≡ drop count items.now }
{
    match items.get(count..) {
        Some(rest) => rest,
        None => &[],
    }
}

/// Why no expression begins some items.
fn expression_fault(fault: ReadFault, items: &[Item], tokens: usize) -> Refusal {
    match fault {
        ReadFault::Memory => Refusal::Memory,
        ReadFault::TooDeep => Refusal::TooDeep {
            at: first_item(items).map(|x| x.0.word.start),
        },
        ReadFault::NoExpression => fault_at(skip(items, tokens), Expected::Expression),
    }
}

/// The expression that items begin with, and what is behind it.
pub(crate) fn expression_at(alloc: Global, items: &[Item]) -> Result<(Expression, &[Item]), Refusal>
    ensures expressed { IfOk result (λ x. Expressed items.now x.1.now x.0) }
    ensures shorter { IfOk result (λ x. length x.1.now ≤ length items.now) }
{
    let tokens = tokens_of(alloc, items)?;
    match read_expression(alloc, &tokens) {
        Ok((expression, behind)) => {
            // The tokens of an expression are those before the rest, and they are that expression before any rest.
            laws::tokens();
            let taken = tokens.len().saturating_sub(behind.len());
            Ok((expression, skip(items, taken)))
        }
        Err(fault) => Err(expression_fault(fault, items, tokens.len())),
    }
}
