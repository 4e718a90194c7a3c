//! An expression that tokens are to their end.

ghost use Rattle.std.specs.Prelude.{[], IfErr, IfOk};
ghost use Rattle.assume_reading.specs.Whole.{RefusesTokens};
ghost use Rattle.st_expression.specs.Grammar.{IsExpression};

use crate::fault::AssumptionFault;
use st_expression::{Expression, ReadFault, Token, laws, read_expression};
use std::alloc::Global;

/// The expression that all of the tokens are.
pub(crate) fn whole_expression(
    alloc: Global,
    tokens: &[Token],
) -> Result<Expression, AssumptionFault>
    ensures read { IfOk result (IsExpression tokens.now []) }
    ensures refused { IfErr result (RefusesTokens tokens.now) }
{
    match read_expression(alloc, tokens) {
        Ok((expression, [])) => Ok(expression),
        Ok((expression, _)) => {
            // The longest expression at the start of the tokens ends at one place, and so none ends behind the last token.
            laws::unambiguous();
            drop(expression);
            Err(AssumptionFault::NoExpression)
        }
        Err(ReadFault::NoExpression) => Err(AssumptionFault::NoExpression),
        Err(ReadFault::TooDeep) => Err(AssumptionFault::TooDeep),
        Err(ReadFault::Memory) => Err(AssumptionFault::Memory),
    }
}
