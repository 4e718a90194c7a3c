//! What stays marked after a rung.

ghost use Rattle.std.specs.Prelude.{◌≡◌, ◌<◌, [], ◌∷◌, IfOk, IsTrue, length};
ghost use Rattle.diagram_program.specs.Gates.{actions_of};
ghost use Rattle.diff_rungs.specs.Marks.{StayAsMany};
ghost use Rattle.diff_rungs.specs.Reading.{FindSame};
ghost use Rattle.diff_rungs.specs.Writing.{ActSame, AreActionsSpoiled, CoilSame, KeepSame, RungsKeepSame, WriteSame};

use crate::marks::{Marks, Side, restore_cells, spoil_cell};
use crate::reading::{
    Rungs, Versions, find_same, is_marked_memory, is_marked_variable, read_same, step_same,
};
use diagram_program::gates::Action;
use diagram_program::{Cell, CoilMode, Program};
use diff_matching::{Matching, Pair};
use scan_cycle::Memory;

/// A coil, by what it writes.
#[derive(Clone, Copy)]
pub(crate) struct Coil {
    pub(crate) mode: CoilMode,
    pub(crate) var: usize,
    pub(crate) memory: Option<usize>,
}

/// Whether two coils write the same by the same link.
fn coil_same(matching: &Matching, marks: &Marks, old: Coil, new: Coil) -> bool
    ensures { IsTrue result → CoilSame matching.now marks.now old new }
{
    if old.mode != new.mode {
        return false;
    }
    match old.mode {
        CoilMode::Store | CoilMode::Inverse => true,
        CoilMode::Set | CoilMode::Reset => {
            let pair = Pair {
                old: old.var,
                new: new.var,
            };
            is_marked_variable(matching, marks, pair)
        }
        CoilMode::Rising | CoilMode::Falling => {
            is_marked_memory(matching, marks, old.memory, new.memory)
        }
    }
}

/// Whether two cells write the same by the same links. What contacts remember is marked or not at the start of the rung.
fn write_same(versions: Versions<'_>, start: &Marks, marks: &Marks, old: Cell, new: Cell) -> bool
    ensures { IsTrue result
        → WriteSame versions.entry.matching.now versions.entry.old.now versions.entry.new.now start.now marks.now old new }
{
    let matching = versions.matching;
    match (old, new) {
        (Cell::Contact { operand, .. }, Cell::Contact { operand: read, .. }) => read_same(
            matching, start, operand, read,
        ),
        (
            Cell::Coil { mode, var, memory },
            Cell::Coil {
                mode: other,
                var: written,
                memory: kept,
            },
        ) => {
            let new = Coil {
                mode: other,
                var: written,
                memory: kept,
            };
            coil_same(matching, marks, Coil { mode, var, memory }, new)
        }
        (Cell::Block { inst: old }, Cell::Block { inst: new }) => {
            step_same(versions, marks, Pair { old, new })
        }
        _ => false,
    }
}

/// Whether two actions write the same.
pub(crate) fn act_same(
    versions: Versions<'_>,
    start: &Marks,
    marks: &Marks,
    old: Action,
    new: Action,
) -> bool
    ensures { IsTrue result
        → ActSame versions.entry.matching.now versions.entry.old.now versions.entry.new.now start.now marks.now old new }
{
    old.left == new.left
        && old.below == new.below
        && write_same(versions, start, marks, old.cell, new.cell)
}

/// What is marked after an action of each rung.
fn write_both(versions: Versions<'_>, start: &Marks, marks: &mut Marks, old: Action, new: Action)
    ensures same { KeepSame versions.entry.matching.now versions.entry.old.now versions.entry.new.now start.now
        (old ∷ []) (new ∷ []) marks.old marks.new }
    ensures many { StayAsMany marks.old marks.new }
{
    let same = act_same(versions, start, marks, old, new);
    spoil_cell(versions.matching, marks, Side::Old, old.cell);
    spoil_cell(versions.matching, marks, Side::New, new.cell);
    if same {
        restore_cells(versions.matching, marks, old.cell, new.cell);
    }
}

/// What is marked after all actions of two rungs that find the same left links.
fn write_each(versions: Versions<'_>, rungs: Rungs, start: &Marks, marks: &mut Marks)
    requires old { rungs.old < versions.old.now.rungs }
    requires new { rungs.new < versions.new.now.rungs }
    requires as_long { length (actions_of versions.old.now rungs.old) ≡ length (actions_of versions.new.now rungs.new) }
    ensures same { KeepSame versions.entry.matching.now versions.entry.old.now versions.entry.new.now start.now
        (actions_of versions.entry.old.now rungs.old) (actions_of versions.entry.new.now rungs.new) marks.old marks.new }
    ensures many { StayAsMany marks.old marks.new }
{
    let olds = versions.old.actions(rungs.old);
    let news = versions.new.actions(rungs.new);
    for n in 0..olds.len() {
        write_both(versions, start, marks, olds[n], news[n]);
    }
}

/// Takes the marks of all that a rung of one of the programs writes.
pub(crate) fn spoil_rung(
    matching: &Matching,
    marks: &mut Marks,
    side: Side,
    program: &Program,
    rung: usize,
)
    requires { rung < program.now.rungs }
    ensures { AreActionsSpoiled side matching.now (actions_of program.now rung) marks.old marks.new }
{
    for action in program.actions(rung) {
        spoil_cell(matching, marks, side, action.cell);
    }
}

/// What is marked after a rung of each program, which are both evaluated. Tells whether they find the same left links.
pub(crate) fn write_rungs(
    versions: Versions<'_>,
    rungs: Rungs,
    marks: &mut Marks,
) -> Result<bool, Memory>
    requires old { rungs.old < versions.old.now.rungs }
    requires new { rungs.new < versions.new.now.rungs }
    ensures same { IfOk result (λ _. RungsKeepSame versions.entry.matching.now versions.entry.old.now versions.entry.new.now
        rungs.old rungs.new marks.old marks.new) }
    ensures links { IfOk result (λ r. IsTrue r → FindSame versions.entry.matching.now versions.entry.old.now versions.entry.new.now
        marks.old rungs.old rungs.new) }
    ensures many { IfOk result (λ _. StayAsMany marks.old marks.new) }
{
    let as_long = versions.old.actions(rungs.old).len() == versions.new.actions(rungs.new).len();
    let found = find_same(versions, marks, rungs);
    if as_long && found {
        let start = marks.copy()?;
        write_each(versions, rungs, &start, marks);
    } else {
        spoil_rung(versions.matching, marks, Side::Old, versions.old, rungs.old);
        spoil_rung(versions.matching, marks, Side::New, versions.new, rungs.new);
    }
    Ok(found)
}
