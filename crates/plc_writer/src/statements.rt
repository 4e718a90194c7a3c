//! Statements as networks.

use crate::diagram::{Diagram, START};
use crate::elements::Coil;
use crate::power::{inverse_of, rows_of};
use st_expression::Expression;
use st_statements::StatementList;

/// What an IF without ELSE is.
#[derive(Clone, Copy)]
enum Selection {
    /// A coil that is set or reset.
    Latch { coil: Coil, variable: usize },
    Return,
    /// Statements that are jumped over.
    Passed,
}

/// Whether no statement is left.
fn is_end(list: &StatementList) -> bool {
    matches!(list, StatementList::End)
}

/// What an IF with these statements is, if contacts have its condition.
fn selection_of(condition: &Expression, accepted: &StatementList) -> Selection {
    if inverse_of(condition).is_some() {
        return Selection::Passed;
    }
    match accepted {
        StatementList::Assign {
            variable,
            value: Expression::Constant(on),
            next,
        } if is_end(next) => Selection::Latch {
            coil: if *on { Coil::Set } else { Coil::Reset },
            variable: *variable,
        },
        StatementList::Return { next } if is_end(next) => Selection::Return,
        _ => Selection::Passed,
    }
}

impl Diagram<'_> {
    /// Writes the network of a coil with a power.
    fn write_powered(&mut self, coil: Coil, variable: usize, power: &Expression) {
        let rows = rows_of(power);
        let rail = self.write_rail(rows);
        let power = self.write_power(power, rail, START);
        let spot = START.right(power.columns);
        let number = self.write_coil(coil, variable, power.ends, spot);
        self.write_right_rail(spot.right(1), number);
        self.end_network(rows);
    }

    /// Writes the network of a variable that is switched off: a negated coil with power always.
    fn write_off(&mut self, variable: usize) {
        let rail = self.write_rail(1);
        let number = self.write_coil(Coil::Negated, variable, rail, START);
        self.write_right_rail(START.right(1), number);
        self.end_network(1);
    }

    /// Writes the network of an assignment.
    fn write_assignment(&mut self, variable: usize, value: &Expression) {
        if let Expression::Constant(false) = value {
            return self.write_off(variable);
        }
        match inverse_of(value) {
            Some(power) => self.write_powered(Coil::Negated, variable, power),
            None => self.write_powered(Coil::Plain, variable, value),
        }
    }

    /// Writes the network of a return.
    fn write_leave(&mut self, condition: &Expression) {
        let rows = rows_of(condition);
        let rail = self.write_rail(rows);
        let power = self.write_power(condition, rail, START);
        self.write_return(power.ends, START.right(power.columns));
        self.end_network(rows);
    }

    /// Writes the network of a jump to the next label.
    fn write_passing(&mut self, condition: &Expression) -> usize {
        self.labels = self.labels.saturating_add(1);
        let (label, rows) = (self.labels, rows_of(condition));
        let rail = self.write_rail(rows);
        let power = self.write_power(condition, rail, START);
        self.write_jump(label, power.ends, START.right(power.columns));
        self.end_network(rows);
        label
    }

    /// Writes the networks of an IF, but of the statements that are jumped over. The label behind these.
    fn write_selection(
        &mut self,
        condition: &Expression,
        accepted: &StatementList,
    ) -> Option<usize> {
        match selection_of(condition, accepted) {
            Selection::Latch { coil, variable } => {
                self.statements = self.statements.saturating_add(1);
                self.write_powered(coil, variable, condition);
                None
            }
            Selection::Return => {
                self.statements = self.statements.saturating_add(1);
                self.write_leave(condition);
                None
            }
            Selection::Passed => match condition {
                Expression::Not(a) => Some(self.write_passing(a)),
                _ => None,
            },
        }
    }

    /// Writes statements, each as a network of its own. Nothing is written for one that no element is.
    pub(crate) fn write_statements(&mut self, list: &StatementList) {
        self.statements = self.statements.saturating_add(1);
        match list {
            StatementList::Assign {
                variable,
                value,
                next,
            } => {
                self.write_assignment(*variable, value);
                self.write_statements(next);
            }
            StatementList::Call {
                instance,
                first,
                second,
                next,
            } => {
                self.write_call(*instance, first, second);
                self.write_statements(next);
            }
            StatementList::Select {
                condition,
                accepted,
                next,
                ..
            } => {
                if let Some(label) = self.write_selection(condition, accepted) {
                    self.write_statements(accepted);
                    self.write_label(label);
                }
                self.write_statements(next);
            }
            StatementList::Trigger { next, .. } | StatementList::Return { next } => {
                self.write_statements(next);
            }
            StatementList::End => {
                self.statements = self.statements.saturating_sub(1);
            }
        }
    }
}
