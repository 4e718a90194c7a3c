//! Which places of a program have a warning.

ghost use Rattle.std.specs.Prelude.{◌≡◌, ◌*◌, ◌<◌, ◌≤◌, ◌↔◌, IsTrue, Some, true};
ghost use Rattle.diagram_program.specs.declared.geometry.TheConstants.{PLACES};
ghost use Rattle.diagram_program.specs.Program.{block_in, cell_in, is_coil_of};
ghost use Rattle.text_warnings.specs.Warned.{Clashes, Draws, HasCell, HasCellBefore, IsLooseCrossing, IsNeverRead, IsNeverWritten, IsUnused, IsUnwritten, IsWarned, IsWrittenTwice, Reads};

use crate::apart::is_apart;
use crate::leading::leads_nowhere;
use crate::reaching::is_never_reached;
use crate::symbols::{clashes, draws, draws_any_of, is_of_kind, operand_of, reads};
use crate::warning::Warning;
use diagram_declarations::{Symbol, VarKind};
use diagram_program::geometry::{PLACES, Place, ROWS};
use diagram_program::{Cell, CoilMode, Joint, Program};

/// The cell at a place. Places go by rung, column and row.
pub(crate) fn cell_in(program: &Program, place: usize) -> Cell
    requires { place < PLACES * program.now.rungs }
    ensures { result ≡ cell_in program.now place }
{
    let _rungs = program.rungs();
    program.site(Place::from_number(place)).cell
}

/// Whether two crossings are one above the other without a vertical wire between them, so that they aren't connected.
fn is_loose_crossing(program: &Program, at: Place) -> bool
    requires { at.rung < program.now.rungs }
    ensures { IsTrue result ↔ IsLooseCrossing program.now at.rung at.row at.column }
{
    at.column >= 1
        && at.row + 1 < ROWS
        && program.site(at).joint == Joint::Plus
        && program.site(at.in_row(at.row + 1)).joint == Joint::Plus
        && !program.site(at).vertical
}

/// Whether a contact at one of the first places reads the variable or the instance.
fn is_read_before(program: &Program, symbol: Symbol, count: usize) -> bool
    requires { count ≤ PLACES * program.now.rungs }
    ensures { IsTrue result ↔ HasCellBefore program.now (Reads symbol) count }
{
    for place in 0..count {
        if reads(symbol, cell_in(program, place)) {
            return true;
        }
    }
    false
}

/// Whether a coil at one of the first places writes the variable.
fn is_written_before(program: &Program, var: usize, count: usize) -> bool
    requires { count ≤ PLACES * program.now.rungs }
    ensures { IsTrue result ↔ HasCellBefore program.now (λ c. is_coil_of var c ≡ true) count }
{
    for place in 0..count {
        if cell_in(program, place).is_coil_of(var) {
            return true;
        }
    }
    false
}

/// Whether a coil at one of the first places is not meant beside one of this mode on the variable.
fn clashes_before(program: &Program, mode: CoilMode, var: usize, count: usize) -> bool
    requires { count ≤ PLACES * program.now.rungs }
    ensures { IsTrue result ↔ HasCellBefore program.now (Clashes mode var) count }
{
    for place in 0..count {
        if clashes(mode, var, cell_in(program, place)) {
            return true;
        }
    }
    false
}

/// Whether some block of the program is that of the instance.
fn is_drawn(program: &Program, inst: usize) -> bool
    ensures { IsTrue result ↔ HasCell program.now (λ c. block_in c ≡ Some inst) }
{
    for place in 0..PLACES * program.rungs() {
        if draws(inst, cell_in(program, place)) {
            return true;
        }
    }
    false
}

/// Whether something of the variable or the instance is drawn.
fn is_used(program: &Program, symbol: Symbol) -> bool
    ensures { IsTrue result ↔ HasCell program.now (Draws symbol) }
{
    for place in 0..PLACES * program.rungs() {
        if draws_any_of(symbol, cell_in(program, place)) {
            return true;
        }
    }
    false
}

/// Whether nothing of the variable or the instance is drawn.
pub(crate) fn is_unused(program: &Program, symbol: Symbol) -> bool
    ensures { IsTrue result ↔ IsUnused program.now symbol }
{
    !is_used(program, symbol)
}

/// Whether a contact reads the variable or the instance.
fn is_read(program: &Program, symbol: Symbol) -> bool
    ensures { IsTrue result ↔ HasCell program.now (Reads symbol) }
{
    is_read_before(program, symbol, PLACES * program.rungs())
}

/// Whether nothing gives the variable, or the output of the instance, a value.
fn is_unwritten(program: &Program, symbol: Symbol) -> bool
    ensures { IsTrue result ↔ IsUnwritten program.now symbol }
{
    match symbol {
        Symbol::Var(var) => {
            !is_of_kind(VarKind::Input, program.decls(), var) && !program.has_coil(var)
        }
        Symbol::Instance(inst) => !is_drawn(program, inst),
    }
}

/// Whether a coil writes a variable that an earlier one writes in a way that clashes with it.
fn is_written_twice(program: &Program, place: usize) -> bool
    requires { place < PLACES * program.now.rungs }
    ensures { IsTrue result ↔ IsWrittenTwice program.now place }
{
    match cell_in(program, place).coil() {
        Some((mode, var)) => clashes_before(program, mode, var, place),
        None => false,
    }
}

/// Whether a contact reads what nothing writes, and is the first to do so.
fn is_never_written(program: &Program, place: usize) -> bool
    requires { place < PLACES * program.now.rungs }
    ensures { IsTrue result ↔ IsNeverWritten program.now place }
{
    match operand_of(cell_in(program, place)) {
        Some(symbol) => is_unwritten(program, symbol) && !is_read_before(program, symbol, place),
        None => false,
    }
}

/// Whether a coil writes a memory that nothing reads, and is the first to do so.
fn is_never_read(program: &Program, place: usize) -> bool
    requires { place < PLACES * program.now.rungs }
    ensures { IsTrue result ↔ IsNeverRead program.now place }
{
    match cell_in(program, place).coil() {
        Some((_, var)) => {
            is_of_kind(VarKind::Memory, program.decls(), var)
                && !is_read(program, Symbol::Var(var))
                && !is_written_before(program, var, place)
        }
        None => false,
    }
}

/// Whether the place has the warning. Places go by rung, column and row.
pub(crate) fn is_warned(program: &Program, place: usize, warning: Warning) -> bool
    requires { place < PLACES * program.now.rungs }
    ensures { IsTrue result ↔ IsWarned program.now place warning }
{
    let _rungs = program.rungs();
    let at = Place::from_number(place);
    match warning {
        Warning::LooseCrossing => is_loose_crossing(program, at),
        Warning::Apart => is_apart(program, at),
        Warning::LeadsNowhere => leads_nowhere(program, at),
        Warning::WrittenTwice => is_written_twice(program, place),
        Warning::NeverWritten => is_never_written(program, place),
        Warning::NeverRead => is_never_read(program, place),
        Warning::NeverReached => is_never_reached(program, at),
    }
}
