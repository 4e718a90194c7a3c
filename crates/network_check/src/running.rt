//! Statements, compared with what the elements of a network do.

ghost use Rattle.std.specs.Prelude.{ℕ, IfSome, IsTrue, List};
ghost use Rattle.diagram_declarations.specs.declared.decls.Instance.{Instance};
ghost use Rattle.scan_cycle.specs.Rung.{Held};
ghost use Rattle.st_statements.specs.Run.{run};
ghost use Rattle.network_check.specs.declared.effect.Effect.TheVariants.{Jump};
ghost use Rattle.network_check.specs.Doing.{AreWithin, Chooses, DoAll, Does};
ghost use Rattle.network_check.specs.Runs.{Runs};

use crate::arms::{Arms, arms_of, parted};
use crate::doing::{behind_assignment, behind_call, behind_latch, behind_return, behind_trigger};
use crate::effect::{CoilKind, Effect};
use crate::powers::shows;
use crate::selections::{Choice, choice_of, is_end};
use network_power::{Links, Network};
use st_statements::StatementList;

/// The statements behind those that do what one element does.
fn behind<'a>(
    net: Network<'_>,
    effect: Effect,
    list: &'a StatementList,
) -> Option<&'a StatementList>
    ensures { IfSome result (λ next. Does net.entry effect list.now next.now) }
{
    match effect {
        Effect::Coil {
            variable,
            kind,
            left,
        } => match kind {
            CoilKind::Plain => behind_assignment(net, variable, false, left, list),
            CoilKind::Negated => behind_assignment(net, variable, true, left, list),
            CoilKind::Set => behind_latch(net, variable, true, left, list),
            CoilKind::Reset => behind_latch(net, variable, false, left, list),
        },
        Effect::Trigger {
            output,
            memory,
            falling,
            left,
        } => behind_trigger(net, output, memory, falling, left, list),
        Effect::Call {
            instance,
            first,
            second,
        } => behind_call(net, instance, first, second, list),
        Effect::Return { left } => behind_return(net, left, list),
        Effect::Jump { .. } | Effect::Label => None,
    }
}

/// What an IF does, and what is done behind it.
#[derive(Clone, Copy)]
struct Choosing<'a> {
    choice: Choice<'a>,
    arms: Arms<'a>,
}

/// The IF that a list begins with, where it chooses what a jump does: its first arm where the jump has no power, its second where it has.
#[tactic(auto, using(crate::proofs::Jumps::choose, crate::proofs::Jumps::within))]
fn chosen<'a>(
    net: Network<'_>,
    over: usize,
    left: Links,
    effects: &'a [Effect],
    list: &'a StatementList,
) -> Option<Choosing<'a>>
    ensures shorter { IfSome result (λ x. AreWithin effects.now x.arms.first.now x.arms.second.now x.arms.rest.now) }
    ensures chooses { IfSome result (λ x. Chooses net.entry (Jump over left) effects.now x.arms.first.now x.arms.second.now x.arms.rest.now x.choice.accepted.now x.choice.otherwise.now x.choice.next.now list.now) }
{
    let choice = choice_of(list)?;
    if !shows(net, left, true, choice.condition) {
        return None;
    }
    let (passed, behind) = parted(effects, over)?;
    let arms = arms_of(net, passed, behind, choice.otherwise)?;
    Some(Choosing { choice, arms })
}

/// Whether statements do what elements do, one after the other.
#[tactic(auto, using(crate::proofs::Statements::none_do, crate::proofs::Statements::label_does, crate::proofs::Statements::jump_does, crate::proofs::Statements::more_do))]
fn do_all(net: Network<'_>, effects: &[Effect], list: &StatementList) -> bool
    ensures { IsTrue result → DoAll net.entry effects.now list.now }
{
    let [effect, rest @ ..] = effects else {
        return is_end(list);
    };
    match effect {
        Effect::Label => do_all(net, rest, list),
        Effect::Jump { over, left } => match chosen(net, *over, *left, rest, list) {
            Some(Choosing { choice, arms }) => {
                do_all(net, arms.first, choice.accepted)
                    && do_all(net, arms.second, choice.otherwise)
                    && do_all(net, arms.rest, choice.next)
            }
            None => false,
        },
        _ => match behind(net, *effect, list) {
            Some(next) => do_all(net, rest, next),
            None => false,
        },
    }
}

/// Whether statements do what the elements of a network do, one after the other, whatever the instances, the state and the moment.
///
/// Each element has one statement, in order, and none is left. Its expressions have the power on the left of the element, by `is_fed`:
///
/// - of a coil an assignment, of a negated one that of NOT of the power
/// - of a set or reset coil an IF without ELSE that assigns TRUE or FALSE and does nothing else
/// - of a trigger its call, by the power, or of one of falling edges by NOT of it
/// - of a block its call; FALSE where nothing is connected
/// - of a return an IF without ELSE that begins with a RETURN
/// - of a jump an IF by NOT of the power, with the statements of the elements that it passes over; where the last of these is a jump that always
///   has power, those that that one passes over are its ELSE
///
/// A label has none.
pub fn is_run(network: Network<'_>, effects: &[Effect], statements: &StatementList) -> bool
    ensures { IsTrue result → (instances : List Instance) (now : ℕ) (h : Held)
        → Runs network.entry instances now effects.now h (run instances now statements.now h) }
{
    do_all(network, effects, statements)
}
