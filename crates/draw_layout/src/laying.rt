//! Statements, one after the other.

use crate::coils::Coils;
use crate::fitting::{Feed, feed_of, fit, row_feed_of};
use crate::forms::{Form, ends_in_jumps, form_of, is_end};
use crate::names::{Comment, Names};
use crate::picture::kind_in;
use crate::placing::Helpers;
use crate::rungs::{Second, Target, block_rung, second_pin};
use crate::shared::Shared;
use crate::sheet::{Layout, Sheet, stored_feed};
use crate::size::{LARGEST, Size};
use diagram_program::CoilMode;
use diagram_program::geometry::{COLUMNS, ROWS};
use st_expression::Expression;
use st_statements::{StatementList, constant_of};
use std::alloc::{AllocError, Global};

/// The largest network of the second input of a block: the first one has the row above it.
const BELOW: Size = Size {
    width: COLUMNS - 1,
    height: ROWS - 1,
};

/// Draws the assignments that wait for others, if there are any.
fn draw_shared(sheet: &mut Sheet<'_, '_>) -> Result<(), AllocError> {
    let shared = sheet.shared;
    sheet.shared = Shared::new();
    let Some(value) = shared.value else {
        return Ok(());
    };
    let mut parts = Vec::new(sheet.alloc);
    fit(value, true, LARGEST, &mut parts)?;
    sheet.add_coils(&parts, stored_feed(value), shared.coils)
}

/// Draws coils that see the power of an expression.
fn draw_coils<'a>(
    sheet: &mut Sheet<'a, '_>,
    expression: &'a Expression,
    coils: Coils,
) -> Result<(), AllocError> {
    let mut parts = Vec::new(sheet.alloc);
    let feed = feed_of(expression, true, LARGEST, &mut parts)?;
    sheet.add_coils(&parts, feed, coils)
}

/// Draws a jump that is taken where an expression is `on`.
fn draw_jump<'a>(
    sheet: &mut Sheet<'a, '_>,
    expression: &'a Expression,
    on: bool,
    target: Target,
) -> Result<(), AllocError> {
    let mut parts = Vec::new(sheet.alloc);
    let feed = feed_of(expression, on, LARGEST, &mut parts)?;
    sheet.add_jump(&parts, feed, target)
}

/// What leads to the second input of a block: nothing where it is never on.
fn second_feed_of<'a>(
    expression: &'a Expression,
    parts: &mut Vec<&'a Expression>,
) -> Result<Option<Feed<'a>>, AllocError> {
    if constant_of(expression) == Some(false) {
        return Ok(None);
    }
    Ok(Some(feed_of(expression, true, BELOW, parts)?))
}

/// Draws a block.
fn draw_call<'a>(
    sheet: &mut Sheet<'a, '_>,
    instance: usize,
    first: &'a Expression,
    second: &'a Expression,
) -> Result<(), AllocError> {
    let mut parts = Vec::new(sheet.alloc);
    let kind = kind_in(sheet.names, instance);
    let (upper, lower) = match second_pin(kind) {
        Some(pin) => {
            let upper = row_feed_of(first, &mut parts)?;
            let feed = second_feed_of(second, &mut parts)?;
            (upper, Some(Second { pin, feed }))
        }
        None => (feed_of(first, true, LARGEST, &mut parts)?, None),
    };
    let number = sheet.add_helpers(&parts)?;
    let helpers = Helpers {
        parts: &parts,
        first: number,
    };
    sheet.add_rung(&block_rung(instance, upper, lower, helpers), None)
}

/// Takes an assignment, which waits for others to share its rung.
fn take_assignment<'a>(
    sheet: &mut Sheet<'a, '_>,
    variable: usize,
    value: &'a Expression,
) -> Result<(), AllocError> {
    if !sheet.shared.takes(value) {
        draw_shared(sheet)?;
    }
    sheet.begin(1);
    sheet.shared = sheet.shared.with(variable, value);
    Ok(())
}

/// Draws the first statement, which is no assignment and no `IF`.
fn draw_first<'a>(sheet: &mut Sheet<'a, '_>, list: &'a StatementList) -> Result<(), AllocError> {
    draw_shared(sheet)?;
    sheet.begin(1);
    match list {
        StatementList::Trigger { output, clock, .. } => {
            draw_coils(sheet, clock, Coils::one(CoilMode::Rising, *output))
        }
        StatementList::Call {
            instance,
            first,
            second,
            ..
        } => draw_call(sheet, *instance, first, second),
        StatementList::Return { .. } => sheet.add_jump(&[], Feed::Rail, Target::Exit),
        StatementList::End | StatementList::Assign { .. } | StatementList::Select { .. } => Ok(()),
    }
}

/// The arms of an `IF` that is drawn with jumps.
#[derive(Clone, Copy)]
struct Arms<'a> {
    accepted: &'a StatementList,
    otherwise: &'a StatementList,
    /// Where the statements behind the `IF` begin, if that has a target already.
    behind: Option<Target>,
}

/// Where the arms of an `IF` lead.
#[derive(Clone, Copy)]
struct Targets {
    /// Where the condition leads that isn't met.
    skip: Target,
    /// Where the first arm ends.
    inner: Target,
}

/// Draws the condition of an `IF`, with its arms where they are coils or a RETURN; otherwise tells where they lead.
fn draw_condition<'a>(
    sheet: &mut Sheet<'a, '_>,
    condition: &'a Expression,
    arms: Arms<'_>,
) -> Result<Option<Targets>, AllocError> {
    draw_shared(sheet)?;
    sheet.begin(1);
    match form_of(arms.accepted, arms.otherwise) {
        Form::Latches(coils) => {
            sheet.begin(coils.count());
            draw_coils(sheet, condition, coils)?;
            Ok(None)
        }
        Form::Exit => {
            sheet.begin(1);
            draw_jump(sheet, condition, true, Target::Exit)?;
            Ok(None)
        }
        Form::Jumps => {
            let targets = targets_of(sheet, arms);
            draw_jump(sheet, condition, false, targets.skip)?;
            Ok(Some(targets))
        }
    }
}

/// Where the arms of an `IF` lead: without a second arm both the condition and the first arm lead behind it.
fn targets_of(sheet: &mut Sheet<'_, '_>, arms: Arms<'_>) -> Targets {
    if is_end(arms.otherwise) {
        let behind = match arms.behind {
            Some(target) => target,
            None => sheet.new_label(),
        };
        return Targets {
            skip: behind,
            inner: behind,
        };
    }
    let skip = sheet.new_label();
    let inner = if ends_in_jumps(arms.accepted) {
        sheet.new_label()
    } else {
        Target::Exit
    };
    Targets { skip, inner }
}

/// Draws the jump over the second arm of an `IF`, where there is one, and gives where both arms end.
fn draw_else(
    sheet: &mut Sheet<'_, '_>,
    arms: Arms<'_>,
    targets: Targets,
) -> Result<Target, AllocError> {
    if is_end(arms.otherwise) {
        return Ok(targets.skip);
    }
    let behind = match arms.behind {
        Some(target) => target,
        None => sheet.new_label(),
    };
    sheet.place(targets.inner);
    sheet.add_jump(&[], Feed::Rail, behind)?;
    sheet.place(targets.skip);
    Ok(behind)
}

/// Draws statements, which end at the target.
fn draw_list<'a>(
    list: &'a StatementList,
    sheet: &mut Sheet<'a, '_>,
    end: Target,
) -> Result<(), AllocError> {
    match list {
        StatementList::End => draw_shared(sheet),
        StatementList::Assign {
            variable,
            value,
            next,
        } => {
            take_assignment(sheet, *variable, value)?;
            draw_list(next, sheet, end)
        }
        StatementList::Trigger { next, .. }
        | StatementList::Call { next, .. }
        | StatementList::Return { next } => {
            draw_first(sheet, list)?;
            draw_list(next, sheet, end)
        }
        StatementList::Select {
            condition,
            accepted,
            otherwise,
            next,
        } => {
            let arms = Arms {
                accepted,
                otherwise,
                behind: if is_end(next) { Some(end) } else { None },
            };
            if let Some(targets) = draw_condition(sheet, condition, arms)? {
                draw_list(accepted, sheet, targets.inner)?;
                let behind = draw_else(sheet, arms, targets)?;
                draw_list(otherwise, sheet, behind)?;
                if !is_end(next) {
                    sheet.place(behind);
                }
            }
            draw_list(next, sheet, end)
        }
    }
}

/// Lays out statements as rungs that do the same, with what helpers they need: AND in series, OR one below the other. Comments go by the order of
/// their statements.
///
/// # Errors
///
/// `AllocError` when out of memory.
pub fn lay_out<'a>(
    alloc: Global,
    list: &'a StatementList,
    names: &Names<'_>,
    comments: &[Comment<'_>],
) -> Result<Layout<'a>, AllocError> {
    let mut sheet = Sheet::new(alloc, names, comments);
    draw_list(list, &mut sheet, Target::Exit)?;
    sheet.add_last_comments();
    sheet.end()
}
