//! What a jump passes over, as the two arms of an IF.

ghost use Rattle.std.specs.Prelude.{◌≡◌, ◌++◌, IfSome, IsTrue, length};
ghost use Rattle.network_check.specs.Doing.{AreArms, AreShorter, IsAlways};

use crate::effect::Effect;
use crate::powers::shows;
use crate::selections::is_end;
use network_power::{Links, Network};
use st_expression::Expression;
use st_statements::StatementList;

/// What the two arms of an IF do, and what is done behind both.
#[derive(Clone, Copy)]
pub(crate) struct Arms<'a> {
    pub first: &'a [Effect],
    pub second: &'a [Effect],
    pub rest: &'a [Effect],
}

/// Some elements up to a number of them, and those behind.
pub(crate) fn parted(effects: &[Effect], over: usize) -> Option<(&[Effect], &[Effect])>
    ensures all { IfSome result (λ x. effects.now ≡ x.0.now ++ x.1.now) }
    ensures count { IfSome result (λ x. length x.0.now ≡ over) }
{
    if over > effects.len() {
        return None;
    }
    Some(effects.split_at(over))
}

/// The arms of an IF without ELSE.
fn one_arm<'a>(net: Network<'_>, over: &'a [Effect], behind: &'a [Effect]) -> Arms<'a>
    ensures shorter { AreShorter over.now behind.now result.first.now result.second.now result.rest.now }
    ensures arms { AreArms net.entry over.now behind.now result.first.now result.second.now result.rest.now }
{
    Arms {
        first: over,
        second: &[],
        rest: behind,
    }
}

/// Whether there is power on the left of something always.
#[tactic(auto, using(crate::proofs::Statements::always_by))]
fn is_always(net: Network<'_>, left: Links) -> bool
    ensures { IsTrue result → IsAlways net.entry left }
{
    shows(net, left, false, &Expression::Constant(true))
}

/// The arms of an IF with an ELSE: the elements that are passed over end in a jump that always has power and passes over some.
#[tactic(auto, using(crate::proofs::Jumps::two_arms_at, crate::proofs::Jumps::shorter_arms))]
fn two_arms<'a>(net: Network<'_>, over: &'a [Effect], behind: &'a [Effect]) -> Option<Arms<'a>>
    ensures shorter { IfSome result (λ x. AreShorter over.now behind.now x.first.now x.second.now x.rest.now) }
    ensures arms { IfSome result (λ x. AreArms net.entry over.now behind.now x.first.now x.second.now x.rest.now) }
{
    let [
        first @ ..,
        Effect::Jump {
            over: further,
            left,
        },
    ] = over
    else {
        return None;
    };
    if *further == 0 || !is_always(net, *left) {
        return None;
    }
    let (second, rest) = parted(behind, *further)?;
    Some(Arms {
        first,
        second,
        rest,
    })
}

/// The arms of an IF with this ELSE, by the elements over which a jump leads and those behind.
pub(crate) fn arms_of<'a>(
    net: Network<'_>,
    over: &'a [Effect],
    behind: &'a [Effect],
    otherwise: &StatementList,
) -> Option<Arms<'a>>
    ensures shorter { IfSome result (λ x. AreShorter over.now behind.now x.first.now x.second.now x.rest.now) }
    ensures arms { IfSome result (λ x. AreArms net.entry over.now behind.now x.first.now x.second.now x.rest.now) }
{
    match two_arms(net, over, behind) {
        Some(arms) => Some(arms),
        None if is_end(otherwise) => Some(one_arm(net, over, behind)),
        None => None,
    }
}
