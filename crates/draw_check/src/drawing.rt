//! All rungs of a drawing.

ghost use Rattle.std.specs.Prelude.{◌≡◌, ◌+◌, ◌<◌, ◌≤◌, IfOk, IfSome, IsTrue, true};
ghost use Rattle.st_statements.specs.declared.statement.StatementList.{StatementList};
ghost use Rattle.st_statements.specs.Operands.{are_within};
ghost use Rattle.draw_check.specs.Meaning.{IsDrawingOf};
ghost use Rattle.draw_check.specs.Steps.{Draws, Prepares};
ghost use Rattle.draw_check.specs.Groups.{AreArms};

use crate::helpers::prepare;
use crate::jump::{branch, is_left};
use crate::plan::{Network, Plan};
use crate::statements::{Selection, behind, is_end, is_leave, return_of, selection_of};
use draw_power::Helper;
use scan_cycle::laws::scan_follows_jumps;
use st_statements::{StatementList, are_within};
use std::alloc::{AllocError, Global};

/// The rung behind those that do the statements, from a rung on; none where the rungs do something else.
#[cycle(drawing)]
#[tactic(auto, using(crate::proofs::Rungs::end_by, crate::proofs::Within::returns_within))]
fn rungs_of<'a>(
    plan: Plan<'a>,
    helpers: &mut Vec<Helper<'a>>,
    list: &StatementList,
    rung: usize,
) -> Result<Option<usize>, AllocError>
    requires rung { rung ≤ plan.program.now.rungs }
    requires within { are_within plan.variables list.now ≡ true }
    ensures draws { IfOk result (λ o. IfSome o (λ k. Draws plan.entry.program.now plan.entry.variables list.now rung k)) }
    ensures rungs { IfOk result (λ o. IfSome o (λ k. (rung ≤ k) × (k ≤ plan.entry.program.now.rungs))) }
{
    if is_end(list) {
        return Ok(Some(rung));
    }
    if rung >= plan.program.rungs() {
        return Ok(None);
    }
    if let Some(next) = return_of(list) {
        if !is_left(plan.program, rung, plan.program.rungs()) {
            return Ok(None);
        }
        return rungs_of(plan, helpers, next, rung + 1);
    }
    let Some(main) = prepare(plan, helpers, rung)? else {
        return Ok(None);
    };
    rungs_from(plan, helpers, list, rung, main)
}

/// The same where the helpers of the first statement have been written above the rung `main`.
#[cycle(drawing)]
#[tactic(auto, using(crate::proofs::Within::selection_within))]
fn rungs_from<'a>(
    plan: Plan<'a>,
    helpers: &mut Vec<Helper<'a>>,
    list: &StatementList,
    rung: usize,
    main: usize,
) -> Result<Option<usize>, AllocError>
    requires main { (rung ≤ main) × (main < plan.program.now.rungs) }
    requires within { are_within plan.variables list.now ≡ true }
    requires prepared { Prepares plan.program.now plan.variables helpers.old.items rung main }
    ensures draws { IfOk result (λ o. IfSome o (λ k. Draws plan.entry.program.now plan.entry.variables list.now rung k)) }
    ensures rungs { IfOk result (λ o. IfSome o (λ k. (rung ≤ k) × (k ≤ plan.entry.program.now.rungs))) }
{
    let network = Network {
        program: plan.program,
        rung: main,
        helpers,
    };
    if main >= plan.program.rungs() {
        return Ok(None);
    }
    match behind(network, plan.variables, list) {
        Some(rest) => rungs_of(plan, helpers, rest, main + 1),
        None => rungs_of_selection(plan, helpers, list, rung, main),
    }
}

/// The same where the first statement is an IF that is drawn by jumps.
#[cycle(drawing)]
#[tactic(auto, using(crate::proofs::Within::selection_within))]
fn rungs_of_selection<'a>(
    plan: Plan<'a>,
    helpers: &mut Vec<Helper<'a>>,
    list: &StatementList,
    rung: usize,
    main: usize,
) -> Result<Option<usize>, AllocError>
    requires main { (rung ≤ main) × (main < plan.program.now.rungs) }
    requires within { are_within plan.variables list.now ≡ true }
    requires prepared { Prepares plan.program.now plan.variables helpers.old.items rung main }
    ensures draws { IfOk result (λ o. IfSome o (λ k. Draws plan.entry.program.now plan.entry.variables list.now rung k)) }
    ensures rungs { IfOk result (λ o. IfSome o (λ k. (rung ≤ k) × (k ≤ plan.entry.program.now.rungs))) }
{
    let Some(selection) = selection_of(list) else {
        return Ok(None);
    };
    let Selection {
        condition,
        accepted,
        otherwise,
        next,
    } = selection;
    let network = Network {
        program: plan.program,
        rung: main,
        helpers,
    };
    if main >= plan.program.rungs() {
        return Ok(None);
    }
    if is_leave(network, condition, accepted, otherwise) {
        return rungs_of(plan, helpers, next, main + 1);
    }
    let Some(target) = branch(network, condition, false) else {
        return Ok(None);
    };
    let Some(end) = end_of_arms(plan, helpers, accepted, otherwise, main + 1, target)? else {
        return Ok(None);
    };
    rungs_of(plan, helpers, next, end)
}

/// The rung behind both arms of an IF, which begin at these rungs.
#[cycle(drawing)]
#[tactic(auto, using(crate::proofs::Rungs::arms_by))]
fn end_of_arms<'a>(
    plan: Plan<'a>,
    helpers: &mut Vec<Helper<'a>>,
    accepted: &StatementList,
    otherwise: &StatementList,
    first: usize,
    target: usize,
) -> Result<Option<usize>, AllocError>
    requires first { first ≤ plan.program.now.rungs }
    requires within { (are_within plan.variables accepted.now ≡ true) × (are_within plan.variables otherwise.now ≡ true) }
    ensures arms { IfOk result (λ o. IfSome o (λ end. AreArms plan.entry.program.now plan.entry.variables accepted.now otherwise.now first target end)) }
    ensures rungs { IfOk result (λ o. IfSome o (λ end. (first ≤ end) × (end ≤ plan.entry.program.now.rungs))) }
{
    if target < first || target > plan.program.rungs() {
        return Ok(None);
    }
    let Some(behind) = rungs_of(plan, helpers, accepted, first)? else {
        return Ok(None);
    };
    let Some(end) = rungs_of(plan, helpers, otherwise, target)? else {
        return Ok(None);
    };
    if behind == end {
        return Ok(Some(end));
    }
    if behind >= plan.program.rungs() || !is_left(plan.program, behind, end) {
        return Ok(None);
    }
    Ok(Some(end))
}

/// Whether a program is a drawing of statements, as the plan says; one that is may be refused where it is drawn otherwise.
///
/// # Errors
///
/// `AllocError` when out of memory.
#[tactic(auto, using(crate::proofs::Whole::whole))]
pub fn is_drawing(alloc: Global, plan: Plan<'_>, list: &StatementList) -> Result<bool, AllocError>
    ensures { IfOk result (λ is. IsTrue is → IsDrawingOf plan.entry.variables list.now plan.entry.program.now) }
{
    scan_follows_jumps(plan.program);
    if !are_within(list, plan.variables) {
        return Ok(false);
    }
    let mut helpers = Vec::new(alloc);
    match rungs_of(plan, &mut helpers, list, 0)? {
        Some(end) => Ok(end == plan.program.rungs()),
        None => Ok(false),
    }
}
