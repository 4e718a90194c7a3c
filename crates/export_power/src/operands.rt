//! What the operands of expressions stand for.

ghost use Rattle.std.specs.Prelude.{◌≡◌, ◌<◌, ℕ, Bool, IsTrue};
ghost use Rattle.scan_signals.specs.Truth.{plain};
ghost use Rattle.scan_cycle.specs.Cells.{Frame, Kept, operand_value};
ghost use Rattle.st_expression.specs.Value.{value};
ghost use Rattle.st_statements.specs.Run.{seen};
ghost use Rattle.export_power.specs.Sight.{Sees, is_block_of, is_called, is_written};
ghost use Rattle.export_power.specs.Carried.{Means, Stands};

use crate::cells::unwired;
use crate::ends::{Ends, is_same};
use crate::known::Meaning;
use crate::network::Network;
use diagram_program::Cell;
use diagram_program::gates::Action;
use st_expression::{Expression, Operand};

/// Whether one of these cells is a coil on a variable.
fn is_written(done: &[Action], variable: usize) -> bool
    ensures { result ≡ is_written variable done.now }
{
    done.iter().any(|a| a.cell.is_coil_of(variable))
}

/// Whether a cell is the block of an instance.
fn is_block_of(cell: Cell, instance: usize) -> bool
    ensures { result ≡ is_block_of instance cell }
{
    match cell {
        Cell::Block { inst } => inst == instance,
        _ => false,
    }
}

/// Whether one of these cells is the block of an instance.
pub(crate) fn is_called(done: &[Action], instance: usize) -> bool
    ensures { result ≡ is_called instance done.now }
{
    done.iter().any(|a| is_block_of(a.cell, instance))
}

/// Whether both are one operand's value at the start of the rung, or one contact.
fn is_same_meaning(first: Meaning, second: Meaning) -> bool
    ensures { IsTrue result → first ≡ second }
{
    match (first, second) {
        (Meaning::Start(operand), Meaning::Start(other)) => operand == other,
        (Meaning::Closed(place), Meaning::Closed(other)) => place == other,
        _ => false,
    }
}

/// Whether an operand is a variable that is known to stand for this, an operand's value or a contact.
pub(crate) fn is_known(net: Network<'_>, operand: Operand, meaning: Meaning) -> bool
    ensures { IsTrue result → Stands net.entry operand meaning }
{
    let Operand::Variable(variable) = operand else {
        return false;
    };
    for known in net.known {
        if known.variable == variable && is_same_meaning(known.meaning, meaning) {
            return true;
        }
    }
    false
}

/// Whether a variable of this meaning has the value of the power at these ends.
#[tactic(auto, using(crate::proofs::Back::same_power))]
fn is_power_at(net: Network<'_>, meaning: Meaning, ends: Ends) -> bool
    requires { net.rung < net.program.now.rungs }
    ensures { IsTrue result → Means net.entry meaning (Meaning.Power ends) }
{
    match meaning {
        Meaning::Power(other) => is_same(unwired(net, other), unwired(net, ends)),
        Meaning::Start(_) | Meaning::Closed(_) => false,
    }
}

/// Whether an operand is a variable that is known to have the value of the power at these ends.
pub(crate) fn is_known_power(net: Network<'_>, operand: Operand, ends: Ends) -> bool
    requires { net.rung < net.program.now.rungs }
    ensures { IsTrue result → Stands net.entry operand (Meaning.Power ends) }
{
    let Operand::Variable(variable) = operand else {
        return false;
    };
    for known in net.known {
        if known.variable == variable && is_power_at(net, known.meaning, ends) {
            return true;
        }
    }
    false
}

/// Whether an operand is the one that a contact reads, and no statement has changed it since the start of the rung.
fn is_unchanged(net: Network<'_>, operand: Operand, read: diagram_program::Operand) -> bool
    ensures { IsTrue result → Stands net.entry operand (Meaning.Start read) }
{
    match (operand, read) {
        (Operand::Variable(number), diagram_program::Operand::Var(other)) => {
            number == other
                && number < net.program.decls().vars().len()
                && !is_written(net.done, number)
        }
        (Operand::Output(number), diagram_program::Operand::Output(other)) => {
            number == other && !is_called(net.done, number)
        }
        _ => false,
    }
}

/// Whether an operand has the value that a contact's operand had at the start of the rung.
pub(crate) fn stands_for(net: Network<'_>, operand: Operand, read: diagram_program::Operand) -> bool
    ensures { IsTrue result → Stands net.entry operand (Meaning.Start read) }
{
    is_unchanged(net, operand, read) || is_known(net, operand, Meaning::Start(read))
}

/// Whether an expression is an operand that has the value which a contact's operand had at the start of the rung.
pub fn is_operand(
    network: Network<'_>,
    expression: &Expression,
    operand: diagram_program::Operand,
) -> bool
    ensures { IsTrue result → (k : Kept) (now : ℕ) (f s : Frame Bool)
        → Sees network.entry.program.now network.entry.rung network.entry.done.now network.entry.known.now k now f s
        → value (seen s) expression.now ≡ operand_value plain f operand }
{
    match expression {
        Expression::Operand(sought) => stands_for(network, *sought, operand),
        _ => false,
    }
}
