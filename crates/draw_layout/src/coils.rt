//! Coils one under the other.

use diagram_program::CoilMode;
use diagram_program::geometry::ROWS;
use st_expression::Expression;
use st_statements::reads;

/// A coil.
#[derive(Clone, Copy)]
pub(crate) struct Coil {
    pub(crate) mode: CoilMode,
    pub(crate) variable: usize,
}

/// The coils of a rung, from top to bottom.
#[derive(Clone, Copy)]
pub(crate) struct Coils {
    rows: [Option<Coil>; ROWS],
    count: usize,
}

impl Coils {
    /// None.
    pub(crate) fn new() -> Coils {
        Coils {
            rows: [None; ROWS],
            count: 0,
        }
    }

    /// Just one.
    pub(crate) fn one(mode: CoilMode, variable: usize) -> Coils {
        Coils::new().with(Coil { mode, variable })
    }

    /// These and one more below them. Past the last row there is none.
    pub(crate) fn with(self, coil: Coil) -> Coils {
        let mut coils = self;
        if let Some(row) = coils.rows.get_mut(self.count) {
            *row = Some(coil);
            coils.count = self.count.saturating_add(1);
        }
        coils
    }

    /// How many there are.
    pub(crate) fn count(&self) -> usize {
        self.count
    }

    /// Whether there is none.
    pub(crate) fn is_empty(&self) -> bool {
        self.count == 0
    }

    /// Whether there is one in each row.
    pub(crate) fn is_full(&self) -> bool {
        self.count >= ROWS
    }

    /// The coil in a row.
    pub(crate) fn get(&self, row: usize) -> Option<Coil> {
        match self.rows.get(row) {
            Some(coil) => *coil,
            None => None,
        }
    }

    /// Whether one writes a variable.
    pub(crate) fn writes(&self, variable: usize) -> bool {
        for row in 0..ROWS {
            if let Some(coil) = self.get(row) {
                if coil.variable == variable {
                    return true;
                }
            }
        }
        false
    }

    /// Whether one writes a variable that an expression looks at.
    pub(crate) fn are_read_by(&self, expression: &Expression) -> bool {
        for row in 0..ROWS {
            if let Some(coil) = self.get(row) {
                if reads(expression, coil.variable) {
                    return true;
                }
            }
        }
        false
    }
}
