//! Assignments that share a rung.

use crate::coils::{Coil, Coils};
use crate::tree::same;
use diagram_program::CoilMode;
use st_expression::Expression;
use st_statements::constant_of;

/// The mode of a coil that stores an expression. One that is never on is the inverse of the rail.
pub(crate) fn store_mode(value: &Expression) -> CoilMode {
    match constant_of(value) {
        Some(false) => CoilMode::Inverse,
        _ => CoilMode::Store,
    }
}

/// Assignments that share a rung.
#[derive(Clone, Copy)]
pub(crate) struct Shared<'a> {
    pub(crate) value: Option<&'a Expression>,
    pub(crate) coils: Coils,
}

impl<'a> Shared<'a> {
    /// None.
    pub(crate) fn new() -> Shared<'a> {
        Shared {
            value: None,
            coils: Coils::new(),
        }
    }

    /// Whether an assignment of a value may share the rung: it has the same one, and sees none that an earlier one writes.
    pub(crate) fn takes(&self, value: &Expression) -> bool {
        let Some(first) = self.value else {
            return true;
        };
        let is_same = same(first, value)
            || (constant_of(first).is_some() && constant_of(value).is_some());
        is_same && !self.coils.is_full() && !self.coils.are_read_by(value)
    }

    /// These and one more.
    pub(crate) fn with(self, variable: usize, value: &'a Expression) -> Shared<'a> {
        let first = match self.value {
            Some(first) => first,
            None => value,
        };
        Shared {
            value: Some(first),
            coils: self.coils.with(Coil {
                mode: store_mode(value),
                variable,
            }),
        }
    }
}
