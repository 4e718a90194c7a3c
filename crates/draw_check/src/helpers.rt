//! Helpers: variables that stand for a part of an expression, each written by a rung above the one that reads it.

ghost use Rattle.std.specs.Prelude.{◌<◌, ◌≤◌, IfOk, IfSome, IsTrue};
ghost use Rattle.std.specs.List.{All};
ghost use Rattle.draw_check.specs.Groups.{IsWritten};
ghost use Rattle.draw_check.specs.Steps.{ArePrepared, IsOther};

use crate::coils::coil_on;
use crate::plan::{Network, Plan, is_link, only_action};
use draw_power::Helper;
use st_expression::Expression;
use st_statements::is_within;
use std::alloc::AllocError;

/// The part that the helper of a rung stands for.
fn part_of<'a>(plan: Plan<'a>, rung: usize) -> Option<&'a Expression> {
    match plan.parts.get(rung) {
        Some(Some(part)) => Some(*part),
        _ => None,
    }
}

/// Whether no helper is the variable.
fn are_others(helpers: &[Helper<'_>], variable: usize) -> bool
    ensures { IsTrue result → All (IsOther variable) helpers.now }
{
    helpers.iter().all(|helper| helper.variable != variable)
}

/// The helper for a part that a rung writes.
fn helper_on<'a>(
    plan: Plan<'a>,
    rung: usize,
    helpers: &[Helper<'a>],
    part: &'a Expression,
) -> Option<Helper<'a>>
    requires { rung < plan.program.now.rungs }
    ensures { IfSome result (λ new. IsWritten plan.entry.program.now plan.entry.variables rung helpers.now new) }
{
    let network = Network {
        program: plan.program,
        rung,
        helpers,
    };
    let action = only_action(plan.program, rung)?;
    let (_, variable) = action.cell.coil()?;
    let on = coil_on(action, variable)?;
    if variable < plan.variables
        || variable >= plan.program.decls().vars().len()
        || !are_others(helpers, variable)
        || !is_within(part, plan.variables)
        || !is_link(network, action.place as usize, 0, part, on)
    {
        return None;
    }
    Some(Helper { variable, part })
}

/// The rung behind those that write helpers, from a rung on; these helpers are left in the list.
#[tactic(auto, using(crate::proofs::Preparing::prepared_none, crate::proofs::Preparing::prepared_by))]
pub(crate) fn prepare<'a>(
    plan: Plan<'a>,
    helpers: &mut Vec<Helper<'a>>,
    rung: usize,
) -> Result<Option<usize>, AllocError>
    ensures prepared { IfOk result (λ o. IfSome o (λ m. ArePrepared plan.entry.program.now plan.entry.variables helpers.new.items rung m)) }
    ensures within { IfOk result (λ o. IfSome o (λ m. (rung ≤ m) × (m < plan.entry.program.now.rungs))) }
{
    helpers.clear();
    for at in rung..plan.program.rungs() {
        let Some(part) = part_of(plan, at) else {
            return Ok(Some(at));
        };
        let Some(helper) = helper_on(plan, at, helpers, part) else {
            return Ok(None);
        };
        helpers.push(helper)?;
    }
    Ok(None)
}
