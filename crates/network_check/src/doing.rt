//! The statements behind those that do what one element does.

ghost use Rattle.std.specs.Prelude.{IfSome};
ghost use Rattle.network_check.specs.declared.effect.Effect.TheVariants.{Call, Coil, Return, Trigger};
ghost use Rattle.network_check.specs.Doing.{Does, assigning, latching};

use crate::powers::shows;
use crate::selections::{is_return, latches, selection_of};
use network_power::{Links, Network};
use st_statements::StatementList;

/// Behind the assignment of the power, or of its inverse.
pub(crate) fn behind_assignment<'a>(
    net: Network<'_>,
    variable: usize,
    inverse: bool,
    left: Links,
    list: &'a StatementList,
) -> Option<&'a StatementList>
    ensures { IfSome result (λ next. Does net.entry (Coil variable (assigning inverse) left) list.now next.now) }
{
    match list {
        StatementList::Assign {
            variable: written,
            value,
            next,
        } if *written == variable && shows(net, left, inverse, value) => Some(next),
        _ => None,
    }
}

/// Behind an IF that switches a variable on, or off.
pub(crate) fn behind_latch<'a>(
    net: Network<'_>,
    variable: usize,
    on: bool,
    left: Links,
    list: &'a StatementList,
) -> Option<&'a StatementList>
    ensures { IfSome result (λ next. Does net.entry (Coil variable (latching on) left) list.now next.now) }
{
    let (condition, accepted, next) = selection_of(list)?;
    if latches(accepted, variable, on) && shows(net, left, false, condition) {
        Some(next)
    } else {
        None
    }
}

/// Behind the call of a trigger by the power, or by its inverse.
pub(crate) fn behind_trigger<'a>(
    net: Network<'_>,
    output: usize,
    memory: usize,
    falling: bool,
    left: Links,
    list: &'a StatementList,
) -> Option<&'a StatementList>
    ensures { IfSome result (λ next. Does net.entry (Trigger output memory falling left) list.now next.now) }
{
    match list {
        StatementList::Trigger {
            output: written,
            memory: kept,
            clock,
            next,
        } if *written == output && *kept == memory && shows(net, left, falling, clock) => Some(
            next,
        ),
        _ => None,
    }
}

/// Behind the call of a block by the power at both of its inputs.
pub(crate) fn behind_call<'a>(
    net: Network<'_>,
    instance: usize,
    first: Links,
    second: Links,
    list: &'a StatementList,
) -> Option<&'a StatementList>
    ensures { IfSome result (λ next. Does net.entry (Call instance first second) list.now next.now) }
{
    match list {
        StatementList::Call {
            instance: called,
            first: upper,
            second: lower,
            next,
        } if *called == instance
            && shows(net, first, false, upper)
            && shows(net, second, false, lower) => Some(next),
        _ => None,
    }
}

/// Behind an IF with a RETURN.
pub(crate) fn behind_return<'a>(
    net: Network<'_>,
    left: Links,
    list: &'a StatementList,
) -> Option<&'a StatementList>
    ensures { IfSome result (λ next. Does net.entry (Return left) list.now next.now) }
{
    let (condition, accepted, next) = selection_of(list)?;
    if is_return(accepted) && shows(net, left, false, condition) {
        Some(next)
    } else {
        None
    }
}
