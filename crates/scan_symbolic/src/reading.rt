//! Which steps are kept, and what a kept step reads.

ghost use Rattle.std.specs.Prelude.{◌≡◌, ◌<◌, length, true};
ghost use Rattle.diagram_program.specs.declared.steps.Step.{Step};
ghost use Rattle.scan_cycle.specs.Programs.{diagram_of};
ghost use Rattle.scan_symbolic.specs.Stepping.{IsWithin};
ghost use Rattle.scan_symbolic.specs.Slicing.{by_gate, by_own, cell_ends, cell_values, keeps, mark, operand_ends, operand_values, reads};

use crate::marks::Marks;
use diagram_program::gates::OWN;
use diagram_program::steps::{Rare, Spot, Step};
use diagram_program::{Cell, Operand, Program};
use scan_cycle::scene::cell;

/// Whether a step that isn't a plain contact writes something that a step after it reads.
fn keeps_rare(program: &Program, marks: &Marks, rare: Rare) -> bool
    requires { IsWithin program.now.rungs (length program.now.decls.vars) (Step.Rare rare) }
    ensures { result ≡ keeps program.now marks.now (Step.Rare rare) }
{
    match rare {
        Rare::Wire { spot }
        | Rare::Rising { spot, .. }
        | Rare::Falling { spot, .. }
        | Rare::Block { spot, .. }
        | Rare::Own { spot, .. } => {
            marks.has_link(spot.place as usize) || marks.has_link(OWN + spot.place as usize)
        }
        Rare::Store { var, .. } | Rare::Set { var, .. } | Rare::Reset { var, .. } => {
            marks.has_value(var as usize)
        }
        Rare::End { inst, .. } => marks.has_end(inst as usize),
        Rare::Act { rung, place, .. } => match cell(program, rung as usize, place as usize) {
            Cell::Coil { var, .. } => marks.has_value(var),
            Cell::Block { inst } => marks.has_end(inst),
            Cell::Empty
            | Cell::Wire
            | Cell::Contact { .. }
            | Cell::Lower { .. }
            | Cell::Jump { .. }
            | Cell::Return => false,
        },
        Rare::Leave { .. } | Rare::Turn { .. } => marks.has_guards(),
    }
}

/// Whether a step writes something that a step after it reads.
pub(crate) fn keeps(program: &Program, marks: &Marks, step: Step) -> bool
    requires { IsWithin program.now.rungs (length program.now.decls.vars) step }
    ensures { result ≡ keeps program.now marks.now step }
{
    match step {
        Step::Is { spot, .. } | Step::Not { spot, .. } => marks.has_link(spot.place as usize),
        Step::Rare(rare) => keeps_rare(program, marks, rare),
    }
}

/// Marks what a gate reads, its left link and the OR of the rows above; the link that it writes is no longer marked.
fn read_gate(marks: &mut Marks, spot: Spot)
    ensures { marks.new ≡ record marks.old { links = by_gate spot marks.old.links } }
{
    marks.write_link(spot.place as usize);
    marks.read_link(spot.left as usize);
    marks.read_link(spot.other as usize);
}

/// The same for a gate that also keeps what its cell alone lets through.
fn read_own(marks: &mut Marks, spot: Spot)
    ensures { marks.new ≡ record marks.old { links = by_own spot marks.old.links } }
{
    marks.write_link(spot.place as usize);
    marks.write_link(OWN + spot.place as usize);
    marks.read_link(spot.left as usize);
    marks.read_link(spot.other as usize);
}

/// Marks what a contact reads: its variable, or the Q of its instance.
fn read_operand(marks: &mut Marks, operand: Operand)
    ensures { marks.new ≡ record marks.old { values = operand_values operand marks.old.values; ends = operand_ends operand marks.old.ends } }
{
    match operand {
        Operand::Var(var) => marks.read_value(var),
        Operand::Output(inst) => marks.read_end(inst),
    }
}

/// Marks what a cell reads besides links: only contacts read something.
fn read_cell(marks: &mut Marks, cell: Cell)
    ensures { marks.new ≡ record marks.old { values = cell_values cell marks.old.values; ends = cell_ends cell marks.old.ends } }
{
    match cell.contact() {
        Some((_, operand)) => read_operand(marks, operand),
        None => {}
    }
}

/// Marks what a step reads that writes a variable or a Q: its link, and the guard of its rung.
fn read_write(marks: &mut Marks, place: usize)
    ensures { marks.new ≡ record marks.old { links = mark marks.old.links place; guards = true } }
{
    marks.read_link(place);
    marks.read_guards();
}

/// Marks what a step reads that isn't a plain contact.
fn read_rare(program: &Program, marks: &mut Marks, rare: Rare)
    requires { IsWithin program.now.rungs (length program.now.decls.vars) (Step.Rare rare) }
    ensures { marks.new ≡ reads program.now (Step.Rare rare) marks.old }
{
    match rare {
        Rare::Wire { spot } => read_own(marks, spot),
        Rare::Rising { spot, var, .. } | Rare::Falling { spot, var, .. } => {
            marks.read_value(var as usize);
            read_own(marks, spot);
        }
        Rare::Block { spot, below, .. } => {
            read_own(marks, spot);
            marks.read_link(below as usize);
        }
        Rare::Own { spot, below, rung } => {
            read_cell(marks, cell(program, rung as usize, spot.place as usize));
            read_own(marks, spot);
            marks.read_link(below as usize);
        }
        Rare::Store { left, .. } | Rare::Set { left, .. } | Rare::Reset { left, .. } => {
            read_write(marks, left as usize);
        }
        Rare::End { place, .. } => read_write(marks, OWN + place as usize),
        Rare::Act { place, left, .. } => {
            marks.read_link(left as usize);
            read_write(marks, OWN + place as usize);
        }
        Rare::Leave { left, .. } => marks.read_link(left as usize),
        Rare::Turn { .. } => {}
    }
}

/// Marks what a step reads, before what the steps after it read.
pub(crate) fn read_step(program: &Program, marks: &mut Marks, step: Step)
    requires { IsWithin program.now.rungs (length program.now.decls.vars) step }
    ensures { marks.new ≡ reads program.now step marks.old }
{
    match step {
        Step::Is { spot, var } | Step::Not { spot, var } => {
            marks.read_value(var as usize);
            read_gate(marks, spot);
        }
        Step::Rare(rare) => read_rare(program, marks, rare),
    }
}
