//! Several texts, of which all are assumed.

ghost use Rattle.std.specs.Prelude.{◌≡◌, ◌∷◌, [], ◌<◌, IfErr, IfNone, IfOk, IfSome, length, map, string_bytes};
ghost use Rattle.assume_reading.specs.Reading.{IsAssumption, Refuses};
ghost use Rattle.assume_reading.specs.Several.{AreAssumptions, IsFirstRefused, IsWith};
ghost use Rattle.assume_reading.specs.declared.fault.AssumptionFault.TheVariants.{Memory};
ghost use Rattle.st_expression.specs.Grammar.{Joins};
ghost use Rattle.st_expression.specs.declared.expression.Expression.{Expression};
ghost use Rattle.st_expression.specs.declared.token.Token.TheVariants.{And};

use crate::assumption::read_assumption;
use crate::fault::{AssumptionFault, RefusedText};
use diagram_declarations::Decls;
use st_expression::Expression;
use std::alloc::Global;

/// Joins two expressions by AND.
///
/// # Errors
///
/// `Memory` where memory runs out.
pub fn joined(
    alloc: Global,
    first: Expression,
    second: Expression,
) -> Result<Expression, AssumptionFault>
    ensures joined { IfOk result (Joins And first second) }
    ensures memory { IfErr result (λ f. f ≡ Memory) }
{
    let first = Box::new(alloc, first)?;
    let second = Box::new(alloc, second)?;
    Ok(Expression::And(first, second))
}

/// What was assumed before, if anything was, AND one more expression.
fn with(
    alloc: Global,
    before: Option<Expression>,
    next: Expression,
) -> Result<Expression, AssumptionFault>
    ensures with { IfOk result (IsWith before next) }
    ensures memory { IfErr result (λ f. f ≡ Memory) }
{
    match before {
        Some(before) => joined(alloc, before, next),
        None => Ok(next),
    }
}

/// What was assumed before, if anything was, AND what one more text says.
fn with_text(
    alloc: Global,
    decls: &Decls,
    before: Option<Expression>,
    text: &[u8],
) -> Result<Expression, AssumptionFault>
    ensures with { IfOk result (λ all. (next : Expression) × IsAssumption decls.now text.now next × IsWith before next all) }
    ensures refused { IfErr result (Refuses decls.now text.now) }
{
    match read_assumption(alloc, decls, text) {
        Ok(next) => with(alloc, before, next),
        Err(fault) => {
            drop(before);
            Err(fault)
        }
    }
}

/// The first of some texts, and those behind it.
fn first_text(texts: &[String]) -> Option<(&[u8], &[String])>
    ensures first { IfSome result (λ x. map string_bytes texts.now ≡ x.0.now ∷ map string_bytes x.1.now) }
    ensures shorter { IfSome result (λ x. length x.1.now < length texts.now) }
    ensures none { IfNone result (map string_bytes texts.now ≡ []) }
{
    match texts {
        [text, behind @ ..] => Some((text.as_str().as_bytes(), behind)),
        [] => None,
    }
}

/// Reads several expressions over the inputs of a program and joins them by AND; None where there is no text.
///
/// # Errors
///
/// The number of the first text that is refused, and why, as `read_assumption` has it.
pub fn read_assumptions(
    alloc: Global,
    decls: &Decls,
    texts: &[String],
) -> Result<Option<Expression>, RefusedText>
    ensures read { IfOk result (AreAssumptions decls.now (map string_bytes texts.now)) }
    ensures refused { IfErr result (λ r. IsFirstRefused decls.now (map string_bytes texts.now) r.number r.fault) }
{
    let mut all = None;
    let mut rest = texts;
    while let Some((text, behind)) = first_text(rest) {
        all = match with_text(alloc, decls, all, text) {
            Ok(more) => Some(more),
            Err(fault) => {
                let number = texts.len() - behind.len();
                return Err(RefusedText { number, fault });
            }
        };
        rest = behind;
    }
    Ok(all)
}
