//! What a cell uses, and how.

ghost use Rattle.std.specs.Prelude.{◌≡◌, ◌*◌, ◌<◌};
ghost use Rattle.diagram_program.specs.declared.geometry.TheConstants.{PLACES};
ghost use Rattle.diagram_program.specs.Program.{cell_in};
ghost use Rattle.text_cross_reference.specs.Uses.{use_of, use_word};

use diagram_declarations::Symbol;
use diagram_program::geometry::{PLACES, ROWS};
use diagram_program::{Cell, CoilMode, Mode, Operand, Program};

/// How a cell uses a variable or an instance.
#[derive(Clone, Copy)]
pub(crate) enum Use {
    /// A contact reads it.
    Contact(Mode),
    /// A coil writes it.
    Coil(CoilMode),
    /// It is the block that is drawn.
    Block,
}

/// The word for a use in the column of uses.
pub(crate) fn use_word(used: Use) -> &'static [u8]
    ensures { result.now ≡ use_word used }
{
    match used {
        Use::Contact(Mode::Plain) => b"contact",
        Use::Contact(Mode::Negated) => b"not_contact",
        Use::Contact(Mode::Rising) => b"rise_contact",
        Use::Contact(Mode::Falling) => b"fall_contact",
        Use::Coil(CoilMode::Store) => b"coil",
        Use::Coil(CoilMode::Inverse) => b"not_coil",
        Use::Coil(CoilMode::Set) => b"set_coil",
        Use::Coil(CoilMode::Reset) => b"reset_coil",
        Use::Coil(CoilMode::Rising) => b"rise_coil",
        Use::Coil(CoilMode::Falling) => b"fall_coil",
        Use::Block => b"block",
    }
}

/// How a cell uses a variable or instance: reads it, or writes it in one way or another; None where it doesn't.
fn use_of(symbol: Symbol, cell: Cell) -> Option<Use>
    ensures { result ≡ use_of symbol cell }
{
    let (used, how) = match cell {
        Cell::Contact { mode, operand, .. } => match operand {
            Operand::Var(var) => (Symbol::Var(var), Use::Contact(mode)),
            Operand::Output(inst) => (Symbol::Instance(inst), Use::Contact(mode)),
        },
        Cell::Coil { mode, var, .. } => (Symbol::Var(var), Use::Coil(mode)),
        Cell::Block { inst } => (Symbol::Instance(inst), Use::Block),
        Cell::Empty | Cell::Wire | Cell::Lower { .. } | Cell::Jump { .. } | Cell::Return =>
            return None,
    };
    if symbol == used { Some(how) } else { None }
}

/// How the cell at a place uses the symbol, if it does. Places go by rung, column and row.
pub(crate) fn use_at(program: &Program, symbol: Symbol, place: usize) -> Option<Use>
    requires { place < PLACES * program.now.rungs }
    ensures { result ≡ use_of symbol (cell_in program.now place) }
{
    let (rung, at) = (place / PLACES, place % PLACES);
    use_of(symbol, program.cell(rung, at % ROWS, at / ROWS))
}
