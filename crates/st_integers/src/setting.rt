//! The statements that set an INT.

ghost use Rattle.std.specs.Prelude.{◌+◌, ◌<◌, ◌^◌, IfOk, length};
ghost use Rattle.st_integers.specs.Settings.{IsSetting};

use crate::value::{IntegerValue, is_of_integer};
use st_expression::Expression;
use st_statements::StatementList;
use std::alloc::{AllocError, Global};

/// The setting of the variables from a number on, of which the values are given, before other statements.
fn setting_from(
    alloc: Global,
    values: &[Option<IntegerValue>],
    integer: usize,
    chosen: usize,
    number: usize,
    others: StatementList,
) -> Result<StatementList, AllocError>
    requires { number + length values.now < 2 ^ 64 }
    ensures { IfOk result (IsSetting values.now integer chosen number others) }
{
    let [of, rest @ ..] = values else {
        return Ok(others);
    };
    let between = setting_from(alloc, rest, integer, chosen, number + 1, others)?;
    if !is_of_integer(integer, *of) {
        return Ok(between);
    }
    Ok(StatementList::Assign {
        variable: number,
        value: Expression::Constant(number == chosen),
        next: Box::new(alloc, between)?,
    })
}

/// The statements that give an INT the value of a variable, before other statements.
///
/// # Errors
///
/// `AllocError` when out of memory.
pub fn with_setting(
    alloc: Global,
    values: &[Option<IntegerValue>],
    integer: usize,
    chosen: usize,
    others: StatementList,
) -> Result<StatementList, AllocError>
    ensures { IfOk result (IsSetting values.now integer chosen 0 others) }
{
    setting_from(alloc, values, integer, chosen, 0, others)
}
