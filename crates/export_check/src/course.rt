//! Along the rungs, and along the statements that do them.

ghost use Rattle.std.specs.Prelude.{◌≡◌, ◌+◌, ◌^◌, ◌<◌, ◌≤◌, IfOk, IfSome, IsTrue, length};
ghost use Rattle.st_statements.specs.declared.statement.StatementList.TheVariants.{End};
ghost use Rattle.diagram_program.specs.Program.{memories_of};
ghost use Rattle.draw_check.specs.Groups.{IsSelection};
ghost use Rattle.export_check.specs.Course.{Exports, IsBody, IsStep, Leads};

use crate::flags::is_guard;
use crate::jumps::{are_alike, are_aside, count_below};
use crate::plan::Plan;
use export_rungs::{Scan, behind_rung};
use st_expression::Expression;
use st_statements::StatementList;
use std::alloc::{AllocError, Global};

/// How far program and statements have been compared.
#[derive(Clone, Copy)]
pub(crate) struct Point<'a> {
    /// The next rung.
    pub rung: usize,
    /// How many jumps are above it.
    pub number: usize,
    /// The statements that are left.
    pub list: &'a StatementList,
}

/// An IF without ELSE.
#[derive(Clone, Copy)]
struct Group<'a> {
    guard: &'a Expression,
    body: &'a StatementList,
    next: &'a StatementList,
}

/// Whether no statement is left.
fn is_end(list: &StatementList) -> bool
    ensures { IsTrue result → list.now ≡ End }
{
    matches!(list, StatementList::End)
}

/// The IF without ELSE that a list begins with.
fn group_of(list: &StatementList) -> Option<Group<'_>>
    ensures { IfSome result (λ group. IsSelection group.guard.now group.body.now End group.next.now list.now) }
{
    match list {
        StatementList::Select {
            condition,
            accepted,
            otherwise,
            next,
        } if is_end(otherwise) => Some(Group {
            guard: condition,
            body: accepted,
            next,
        }),
        _ => None,
    }
}

/// The point behind a rung.
fn behind<'a>(
    alloc: Global,
    plan: Plan<'_>,
    point: Point<'a>,
) -> Result<Option<Point<'a>>, AllocError>
    ensures { IfOk result (λ o. IfSome o (λ next. IsStep plan.entry.program.now plan.entry.variables plan.entry.jumps.now point.entry.rung point.entry.number point.entry.list.now next.rung next.number next.list.now)) }
{
    if point.rung >= plan.program.rungs() {
        return Ok(None);
    }
    let scan = Scan {
        program: plan.program,
        variables: plan.variables,
        jumps: plan.jumps.len(),
    };
    let Some(list) = behind_rung(alloc, scan, point.rung, point.number, point.list)? else {
        return Ok(None);
    };
    match count_below(plan.program, plan.jumps, point.rung, point.number) {
        Some(number) => Ok(Some(Point {
            rung: point.rung + 1,
            number,
            list,
        })),
        None => Ok(None),
    }
}

/// The point behind the rungs that the body of an IF does: the same jumps pass over each of them.
fn behind_body<'a>(
    alloc: Global,
    plan: Plan<'_>,
    point: Point<'a>,
) -> Result<Option<Point<'a>>, AllocError>
    ensures { IfOk result (λ o. IfSome o (λ end. IsBody plan.entry.program.now plan.entry.variables plan.entry.jumps.now point.entry.rung point.entry.number point.entry.list.now end.rung end.number)) }
{
    let Some(next) = behind(alloc, plan, point)? else {
        return Ok(None);
    };
    if next.rung < plan.program.rungs() && are_alike(plan.jumps, point.rung, next.rung) {
        return behind_body(alloc, plan, next);
    }
    if !is_end(next.list) {
        return Ok(None);
    }
    Ok(Some(next))
}

/// The point behind an IF that does rungs that jumps pass over.
fn behind_group<'a>(
    alloc: Global,
    plan: Plan<'_>,
    point: Point<'a>,
) -> Result<Option<Point<'a>>, AllocError>
    requires flags { plan.first ≡ length plan.program.now.decls.vars + memories_of plan.program.now }
    requires room { plan.first + length plan.jumps.now < 2 ^ 64 }
    ensures below { IfOk result (λ o. IfSome o (λ next. point.entry.rung < next.rung)) }
    ensures leads { IfOk result (λ o. IfSome o (λ next. Leads plan.entry.program.now plan.entry.variables plan.entry.jumps.now point.entry.rung point.entry.number point.entry.list.now next.rung next.number next.list.now)) }
{
    let Some(group) = group_of(point.list) else {
        return Ok(None);
    };
    if !is_guard(plan, point.rung, group.guard) {
        return Ok(None);
    }
    let start = Point {
        list: group.body,
        ..point
    };
    let Some(end) = behind_body(alloc, plan, start)? else {
        return Ok(None);
    };
    Ok(Some(Point {
        list: group.next,
        ..end
    }))
}

/// The point behind a rung that no jump passes over, or behind an IF.
fn behind_next<'a>(
    alloc: Global,
    plan: Plan<'_>,
    point: Point<'a>,
) -> Result<Option<Point<'a>>, AllocError>
    requires flags { plan.first ≡ length plan.program.now.decls.vars + memories_of plan.program.now }
    requires room { plan.first + length plan.jumps.now < 2 ^ 64 }
    ensures below { IfOk result (λ o. IfSome o (λ next. point.entry.rung < next.rung)) }
    ensures leads { IfOk result (λ o. IfSome o (λ next. Leads plan.entry.program.now plan.entry.variables plan.entry.jumps.now point.entry.rung point.entry.number point.entry.list.now next.rung next.number next.list.now)) }
{
    if are_aside(plan.jumps, point.rung) {
        behind(alloc, plan, point)
    } else {
        behind_group(alloc, plan, point)
    }
}

/// Whether the statements do all rungs from a point on.
pub(crate) fn is_rest(alloc: Global, plan: Plan<'_>, point: Point<'_>) -> Result<bool, AllocError>
    requires flags { plan.first ≡ length plan.program.now.decls.vars + memories_of plan.program.now }
    requires room { plan.first + length plan.jumps.now < 2 ^ 64 }
    ensures { IfOk result (λ is. IsTrue is → Exports plan.entry.program.now plan.entry.variables plan.entry.jumps.now point.entry.rung point.entry.number point.entry.list.now) }
{
    if point.rung >= plan.program.rungs() {
        return Ok(is_end(point.list));
    }
    match behind_next(alloc, plan, point)? {
        Some(next) => is_rest(alloc, plan, next),
        None => Ok(false),
    }
}
