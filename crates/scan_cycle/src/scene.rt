//! A rung of a program that is evaluated at a moment, and what the scan reads of the program.

ghost use Rattle.std.specs.Prelude.{◌≡◌, ◌<◌};
ghost use Rattle.diagram_program.specs.declared.geometry.TheConstants.{PLACES};
ghost use Rattle.scan_cycle.specs.Programs.{diagram_of, IsSound};

use diagram_declarations::BlockKind;
use diagram_program::geometry::ROWS;
use diagram_program::{Cell, Program};

/// The rung that is evaluated.
#[derive(Clone, Copy)]
pub struct Scene<'a> {
    pub program: &'a Program,
    pub now: u64,
    pub rung: usize,
}

/// Does nothing: its contract is what holds of every program that was read.
pub fn checked(program: &Program)
    ensures { IsSound (diagram_of program.now) }
{
    program.checked();
    let _instances = program.decls().instances();
}

/// The kind and the preset of an instance, by its number.
#[tactic(auto, unfolding(crate::specs::Programs::diagram_of))]
pub fn instance(program: &Program, inst: usize) -> (BlockKind, u32)
    ensures kind { result.0 ≡ (diagram_of program.now).kind inst }
    ensures preset { result.1 ≡ (diagram_of program.now).preset inst }
{
    match program.decls().instances().get(inst) {
        Some(instance) => (instance.kind, instance.preset),
        None => (BlockKind::Ton, 0),
    }
}

/// The cell at a place of a rung; places go by column and row.
#[tactic(auto, unfolding(crate::specs::Programs::diagram_of))]
pub fn cell(program: &Program, rung: usize, place: usize) -> Cell
    requires rung { rung < program.now.rungs }
    requires place { place < PLACES }
    ensures { result ≡ (diagram_of program.now).cell rung place }
{
    program.cell(rung, place % ROWS, place / ROWS)
}
