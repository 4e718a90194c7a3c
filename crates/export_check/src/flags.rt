//! Flags: variables that say whether a jump was taken.

ghost use Rattle.std.specs.Prelude.{◌≡◌, ◌+◌, ◌^◌, ◌<◌, ◌≤◌, IfSome, IsTrue, false, length};
ghost use Rattle.diagram_program.specs.Program.{memories_of};
ghost use Rattle.st_expression.specs.declared.expression.Expression.TheVariants.{Constant};
ghost use Rattle.draw_check.specs.Groups.{IsAssignment};
ghost use Rattle.export_check.specs.Flags.{IsAnyOf, IsFlag, IsGuard, ReadsFrom, Resets};

use crate::jumps::passes_there;
use crate::plan::Plan;
use diagram_program::Program;
use st_expression::{Expression, Operand};
use st_statements::{StatementList, reads};

/// The variable that is the first flag: it comes behind those of the program and of the memories. None where the statements have too few variables
/// for so many flags.
pub(crate) fn first_flag(program: &Program, variables: usize, count: usize) -> Option<usize>
    ensures { IfSome result (λ first. (first ≡ length program.now.decls.vars + memories_of program.now) × (first + count ≤ variables)) }
{
    let values = program.decls().vars().len();
    let behind = variables
        .checked_sub(values)?
        .checked_sub(program.memories())?;
    if behind < count {
        return None;
    }
    Some(values + program.memories())
}

/// Whether an operand is the flag of a jump that passes over a rung.
fn is_flag(plan: Plan<'_>, rung: usize, operand: &Operand) -> bool
    ensures { IsTrue result → IsFlag plan.entry.first plan.entry.jumps.now rung operand.now }
{
    match operand {
        Operand::Variable(variable) => {
            *variable >= plan.first && passes_there(plan.jumps, *variable - plan.first, rung)
        }
        Operand::Output(_) => false,
    }
}

/// Whether an expression is the OR of flags, each of a jump that passes over a rung.
fn is_any_of(plan: Plan<'_>, rung: usize, expression: &Expression) -> bool
    ensures { IsTrue result → IsAnyOf plan.entry.first plan.entry.jumps.now rung expression.now }
{
    match expression {
        Expression::Operand(operand) => is_flag(plan, rung, operand),
        Expression::Or(a, b) => is_any_of(plan, rung, a) && is_any_of(plan, rung, b),
        _ => false,
    }
}

/// Whether an expression looks at the flag of each jump that passes over a rung, from this number on.
fn reads_from(plan: Plan<'_>, number: usize, rung: usize, expression: &Expression) -> bool
    requires { plan.first + length plan.jumps.now < 2 ^ 64 }
    ensures { IsTrue result → ReadsFrom number plan.entry.first plan.entry.jumps.now rung expression.now }
{
    if number >= plan.jumps.len() {
        return true;
    }
    if passes_there(plan.jumps, number, rung) && !reads(expression, plan.first + number) {
        return false;
    }
    reads_from(plan, number + 1, rung, expression)
}

/// Whether an expression is on just where no jump whose flag is on passes over a rung.
pub(crate) fn is_guard(plan: Plan<'_>, rung: usize, expression: &Expression) -> bool
    requires { plan.first + length plan.jumps.now < 2 ^ 64 }
    ensures { IsTrue result → IsGuard plan.entry.first plan.entry.jumps.now rung expression.now }
{
    match expression {
        Expression::Not(any) => is_any_of(plan, rung, any) && reads_from(plan, 0, rung, any),
        _ => false,
    }
}

/// The statements behind one that switches a variable off.
fn behind_reset(list: &StatementList, flag: usize) -> Option<&StatementList>
    ensures { IfSome result (λ next. IsAssignment flag (Constant false) next.now list.now) }
{
    match list {
        StatementList::Assign {
            variable,
            value: Expression::Constant(false),
            next,
        } if *variable == flag => Some(next),
        _ => None,
    }
}

/// The statements behind those that switch the flags off, from this number on.
pub(crate) fn behind_resets<'a>(
    plan: Plan<'_>,
    number: usize,
    list: &'a StatementList,
) -> Option<&'a StatementList>
    requires { plan.first + length plan.jumps.now < 2 ^ 64 }
    ensures { IfSome result (λ rest. Resets plan.entry.first number (length plan.entry.jumps.now) list.now rest.now) }
{
    if number >= plan.jumps.len() {
        return Some(list);
    }
    let next = behind_reset(list, plan.first + number)?;
    behind_resets(plan, number + 1, next)
}
