//! How the arms of an `IF` are drawn.

use crate::coils::{Coil, Coils};
use diagram_program::CoilMode;
use st_statements::{StatementList, constant_of};

/// How an `IF` is drawn.
#[derive(Clone, Copy)]
pub(crate) enum Form {
    /// The condition sets and resets coils.
    Latches(Coils),
    /// The condition ends the scan.
    Exit,
    /// Its inverse jumps over the statements.
    Jumps,
}

/// The coils that statements are, behind those from before them: assignments of constants to different variables. None where they are others.
fn latches_of(list: &StatementList, coils: Coils) -> Option<Coils> {
    match list {
        StatementList::End => Some(coils),
        StatementList::Assign {
            variable,
            value,
            next,
        } => {
            if coils.is_full() || coils.writes(*variable) {
                return None;
            }
            let mode = match constant_of(value) {
                Some(true) => CoilMode::Set,
                Some(false) => CoilMode::Reset,
                None => return None,
            };
            latches_of(
                next,
                coils.with(Coil {
                    mode,
                    variable: *variable,
                }),
            )
        }
        StatementList::Trigger { .. }
        | StatementList::Call { .. }
        | StatementList::Select { .. }
        | StatementList::Return { .. } => None,
    }
}

/// Whether there is no statement.
pub(crate) fn is_end(list: &StatementList) -> bool {
    matches!(list, StatementList::End)
}

/// Whether there is a RETURN and nothing else.
fn is_return(list: &StatementList) -> bool {
    match list {
        StatementList::Return { next } => is_end(next),
        _ => false,
    }
}

/// How an `IF` with these arms is drawn.
pub(crate) fn form_of(accepted: &StatementList, otherwise: &StatementList) -> Form {
    if !is_end(otherwise) {
        return Form::Jumps;
    }
    if is_return(accepted) {
        return Form::Exit;
    }
    match latches_of(accepted, Coils::new()) {
        Some(coils) if !coils.is_empty() => Form::Latches(coils),
        _ => Form::Jumps,
    }
}

/// Whether the last statement is an `IF` that jumps to its end.
pub(crate) fn ends_in_jumps(list: &StatementList) -> bool {
    match list {
        StatementList::End => false,
        StatementList::Assign { next, .. } => ends_in_jumps(next),
        StatementList::Trigger { next, .. } => ends_in_jumps(next),
        StatementList::Call { next, .. } => ends_in_jumps(next),
        StatementList::Return { next } => ends_in_jumps(next),
        StatementList::Select {
            accepted,
            otherwise,
            next,
            ..
        } => {
            if is_end(next) {
                matches!(form_of(accepted, otherwise), Form::Jumps)
            } else {
                ends_in_jumps(next)
            }
        }
    }
}
