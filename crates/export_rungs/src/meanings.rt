//! What an expression stands for before the cells of a rung have done anything.

ghost use Rattle.std.specs.Prelude.{◌≡◌, ◌<◌, ℕ, [], IfOk, IfSome, IsTrue, List, length};
ghost use Rattle.std.specs.List.{All};
ghost use Rattle.diagram_program.specs.declared.geometry.TheConstants.{PLACES};
ghost use Rattle.diagram_program.specs.Program.{cell_of};
ghost use Rattle.export_power.specs.declared.known.Meaning.TheVariants as meaning;
ghost use Rattle.export_rungs.specs.Standing.{IsEdgeOf, IsMeaning, Means};

use crate::cells::{begins, variable_of};
use crate::forms::{falling_contact, rising_contact};
use crate::lists::{both_of, inverse_of, is_variable};
use crate::rung::Rung;
use diagram_program::gates::Action;
use diagram_program::geometry::{PLACES, ROWS};
use diagram_program::{Cell, Operand};
use export_power::{Known, Meaning, Network, ends_before, is_power};
use st_expression::Expression;
use std::alloc::{AllocError, Global};

/// The operand of a contact that an expression is.
fn operand_of(expression: &Expression) -> Option<Operand> {
    match expression {
        Expression::Operand(st_expression::Operand::Variable(number)) => Some(Operand::Var(
            *number,
        )),
        Expression::Operand(st_expression::Operand::Output(number)) => {
            Some(Operand::Output(*number))
        }
        _ => None,
    }
}

/// The operand that an expression is, as it was at the start of the rung.
#[tactic(auto, using(crate::proofs::Standing::start_by))]
fn start_of(at: Rung<'_>, done: &[Action], expression: &Expression) -> Option<Meaning>
    ensures { IfSome result (λ m. Means at.entry.scan.program.now at.entry.scan.variables at.entry.scan.jumps at.entry.rung at.entry.known.now done.now expression.now m) }
{
    let operand = operand_of(expression)?;
    if begins(at, done, expression, operand) {
        Some(Meaning::Start(operand))
    } else {
        None
    }
}

/// Whether an expression says that an operand has become on: `x AND NOT m`, with the variable of the memory.
#[tactic(auto, using(crate::proofs::Standing::rising_by))]
fn is_rising(at: Rung<'_>, expression: &Expression, cell: Cell) -> bool
    ensures { IsTrue result → IsEdgeOf at.entry.scan.program.now at.entry.scan.variables at.entry.scan.jumps at.entry.rung at.entry.known.now expression.now cell }
{
    let Some((operand, memory)) = rising_contact(cell) else {
        return false;
    };
    let Some(own) = variable_of(at.scan.program, memory) else {
        return false;
    };
    let Some((read, remembered)) = both_of(expression) else {
        return false;
    };
    let Some(kept) = inverse_of(remembered) else {
        return false;
    };
    is_variable(kept, own) && begins(at, &[], read, operand)
}

/// Whether an expression says that an operand has become off: `NOT x AND m`, with the variable of the memory.
#[tactic(auto, using(crate::proofs::Standing::falling_by))]
fn is_falling(at: Rung<'_>, expression: &Expression, cell: Cell) -> bool
    ensures { IsTrue result → IsEdgeOf at.entry.scan.program.now at.entry.scan.variables at.entry.scan.jumps at.entry.rung at.entry.known.now expression.now cell }
{
    let Some((operand, memory)) = falling_contact(cell) else {
        return false;
    };
    let Some(own) = variable_of(at.scan.program, memory) else {
        return false;
    };
    let Some((inverse, kept)) = both_of(expression) else {
        return false;
    };
    let Some(read) = inverse_of(inverse) else {
        return false;
    };
    is_variable(kept, own) && begins(at, &[], read, operand)
}

/// The contact with an edge that an expression says to be closed.
fn closed_of(at: Rung<'_>, expression: &Expression) -> Option<Meaning>
    ensures { IfSome result (λ m. Means at.entry.scan.program.now at.entry.scan.variables at.entry.scan.jumps at.entry.rung at.entry.known.now [] expression.now m) }
{
    for place in 0..PLACES {
        let cell = cell_there(at, place);
        if is_rising(at, expression, cell) || is_falling(at, expression, cell) {
            return Some(Meaning::Closed(place));
        }
    }
    None
}

/// The cell at a place of the rung.
#[tactic(auto, using(crate::proofs::Standing::at_place))]
fn cell_there(at: Rung<'_>, place: usize) -> Cell
    requires { place < PLACES }
    ensures { result ≡ cell_of at.entry.scan.program.now at.entry.rung place }
{
    at.scan.program.cell(at.rung, place % ROWS, place / ROWS)
}

/// The power that leads to a place, if an expression has its value.
fn power_at(at: Rung<'_>, done: &[Action], expression: &Expression, place: usize) -> Option<Meaning>
    requires { place < PLACES }
    ensures { IfSome result (λ m. Means at.entry.scan.program.now at.entry.scan.variables at.entry.scan.jumps at.entry.rung at.entry.known.now done.now expression.now m) }
{
    let ends = ends_before(at.scan.program, at.rung, place);
    let network = Network {
        program: at.scan.program,
        rung: at.rung,
        known: at.known,
        done,
    };
    if is_power(network, expression, ends) {
        Some(Meaning::Power(ends))
    } else {
        None
    }
}

/// The operand that an expression stands for where these cells are done, or the edge contact, if no cell is done.
fn operand_or_edge(at: Rung<'_>, done: &[Action], expression: &Expression) -> Option<Meaning>
    ensures { IfSome result (λ m. Means at.entry.scan.program.now at.entry.scan.variables at.entry.scan.jumps at.entry.rung at.entry.known.now done.now expression.now m) }
{
    if let Some(found) = start_of(at, done, expression) {
        return Some(found);
    }
    if let [] = done {
        return closed_of(at, expression);
    }
    None
}

/// All that a variable stands for to which an expression is assigned where these cells are done: an operand or an edge contact, and the
/// power at the left of each place that has this value.
///
/// # Errors
///
/// `AllocError` when out of memory.
pub(crate) fn meanings_of(
    alloc: Global,
    at: Rung<'_>,
    done: &[Action],
    variable: usize,
    expression: &Expression,
) -> Result<Vec<Known>, AllocError>
    ensures { IfOk result (λ xs. All (IsMeaning at.entry.scan.program.now at.entry.scan.variables at.entry.scan.jumps at.entry.rung at.entry.known.now done.now variable expression.now) xs.items) }
{
    let mut found = Vec::new(alloc);
    if let Some(meaning) = operand_or_edge(at, done, expression) {
        found.push(Known { variable, meaning })?;
    }
    for place in 0..PLACES {
        if let Some(meaning) = power_at(at, done, expression, place) {
            found.push(Known { variable, meaning })?;
        }
    }
    Ok(found)
}
