//! A text, read as what is assumed of the inputs of a program.

ghost use Rattle.std.specs.Prelude.{IfErr, IfOk};
ghost use Rattle.assume_reading.specs.Reading.{IsAssumption, Refuses};

use crate::fault::AssumptionFault;
use crate::tokens::tokens_of;
use crate::whole::whole_expression;
use diagram_declarations::Decls;
use st_expression::Expression;
use st_words::{WordFault, laws, read_words};
use std::alloc::Global;

/// Reads an expression over the inputs of a program. An operand is an input, by its place among the inputs. Letter case makes no difference.
///
/// # Errors
///
/// `Character` has the first place where no word begins, `NotAnInput` the first word that is neither one of an expression nor the name of an
/// input. `NoExpression` where such words are no expression, `TooDeep` where they are nested too deep, `Memory` where memory runs out.
pub fn read_assumption(
    alloc: Global,
    decls: &Decls,
    text: &[u8],
) -> Result<Expression, AssumptionFault>
    ensures read { IfOk result (IsAssumption decls.now text.now) }
    ensures refused { IfErr result (Refuses decls.now text.now) }
{
    let words = match read_words(alloc, text) {
        Ok(words) => words,
        Err(WordFault::Memory) => return Err(AssumptionFault::Memory),
        Err(WordFault::Character { at }) => return Err(AssumptionFault::Character { at }),
    };
    // A text has one list of words: where these are no expression, no others are.
    laws::unambiguous();
    let tokens = match tokens_of(alloc, decls, text, &words) {
        Ok(tokens) => tokens,
        Err(fault) => return Err(fault),
    };
    match whole_expression(alloc, &tokens) {
        Ok(expression) => Ok(expression),
        Err(fault) => Err(fault),
    }
}
