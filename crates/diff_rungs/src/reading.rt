//! Whether a rung of each program finds the same left links.

ghost use Rattle.std.specs.Prelude.{◌<◌, IsTrue};
ghost use Rattle.diagram_program.specs.declared.geometry.TheConstants.{PLACES};
ghost use Rattle.diff_rungs.specs.Reading.{FindSame, GiveSame, IsMarkedInstance, IsMarkedMemory, IsMarkedVariable, LetSame, ReadSame, SaySame, StepSame};

use crate::marks::{Marks, is_marked};
use diagram_program::gates::{Gate, Literal};
use diagram_program::geometry::PLACES;
use diagram_program::{Cell, Operand, Program};
use diff_cases::partners::are_of_one_kind;
use diff_matching::{Matching, Pair};
use scan_cycle::scene::cell;

/// Two programs, and what belongs together in them.
#[derive(Clone, Copy)]
pub(crate) struct Versions<'a> {
    pub(crate) matching: &'a Matching,
    pub(crate) old: &'a Program,
    pub(crate) new: &'a Program,
}

/// A rung of each program.
#[derive(Clone, Copy)]
pub(crate) struct Rungs {
    pub(crate) old: usize,
    pub(crate) new: usize,
}

/// Whether two variables are a marked pair.
pub(crate) fn is_marked_variable(matching: &Matching, marks: &Marks, pair: Pair) -> bool
    ensures { IsTrue result → IsMarkedVariable matching.now marks.now pair.old pair.new }
{
    is_marked(matching.inputs(), &marks.inputs, pair)
        || is_marked(matching.variables(), &marks.variables, pair)
}

/// Whether two instances are a marked pair.
fn is_marked_instance(matching: &Matching, marks: &Marks, pair: Pair) -> bool
    ensures { IsTrue result → IsMarkedInstance matching.now marks.now pair.old pair.new }
{
    is_marked(matching.instances(), &marks.instances, pair)
}

/// Whether two memories are a marked pair, or there is none.
pub(crate) fn is_marked_memory(
    matching: &Matching,
    marks: &Marks,
    old: Option<usize>,
    new: Option<usize>,
) -> bool
    ensures { IsTrue result → IsMarkedMemory matching.now marks.now old new }
{
    match (old, new) {
        (None, None) => true,
        (Some(old), Some(new)) => {
            is_marked(matching.memories(), &marks.memories, Pair { old, new })
        }
        (None, Some(_)) | (Some(_), None) => false,
    }
}

/// Whether contacts read the same.
pub(crate) fn read_same(matching: &Matching, marks: &Marks, old: Operand, new: Operand) -> bool
    ensures { IsTrue result → ReadSame matching.now marks.now old new }
{
    match (old, new) {
        (Operand::Var(old), Operand::Var(new)) => {
            is_marked_variable(matching, marks, Pair { old, new })
        }
        (Operand::Output(old), Operand::Output(new)) => {
            is_marked_instance(matching, marks, Pair { old, new })
        }
        (Operand::Var(_), Operand::Output(_)) | (Operand::Output(_), Operand::Var(_)) => false,
    }
}

/// Whether two instances make the same step by the same inputs.
pub(crate) fn step_same(versions: Versions<'_>, marks: &Marks, pair: Pair) -> bool
    ensures { IsTrue result
        → StepSame versions.entry.matching.now versions.entry.old.now versions.entry.new.now marks.now pair.old pair.new }
{
    is_marked_instance(versions.matching, marks, pair)
        && are_of_one_kind(versions.old, versions.new, pair)
}

/// Whether two cells let the same through.
fn let_same(versions: Versions<'_>, marks: &Marks, old: Cell, new: Cell) -> bool
    ensures { IsTrue result
        → LetSame versions.entry.matching.now versions.entry.old.now versions.entry.new.now marks.now old new }
{
    let matching = versions.matching;
    match (old, new) {
        (Cell::Wire, Cell::Wire) | (Cell::Coil { .. }, Cell::Coil { .. }) => true,
        (
            Cell::Contact {
                mode,
                operand,
                memory,
            },
            Cell::Contact {
                mode: other,
                operand: read,
                memory: kept,
            },
        ) => {
            mode == other
                && read_same(matching, marks, operand, read)
                && is_marked_memory(matching, marks, memory, kept)
        }
        (Cell::Block { inst: old }, Cell::Block { inst: new }) => {
            step_same(versions, marks, Pair { old, new })
        }
        _ => false,
    }
}

/// Whether two literals say the same at a place.
fn say_same(
    versions: Versions<'_>,
    marks: &Marks,
    rungs: Rungs,
    place: usize,
    old: Literal,
    new: Literal,
) -> bool
    requires old { rungs.old < versions.old.now.rungs }
    requires new { rungs.new < versions.new.now.rungs }
    requires place { place < PLACES }
    ensures { IsTrue result
        → SaySame versions.entry.matching.now versions.entry.old.now versions.entry.new.now marks.now rungs.old rungs.new place old new }
{
    match (old, new) {
        (Literal::Is(old), Literal::Is(new)) | (Literal::Not(old), Literal::Not(new)) => {
            let pair = Pair {
                old: old as usize,
                new: new as usize,
            };
            is_marked_variable(versions.matching, marks, pair)
        }
        (Literal::Other, Literal::Other) => let_same(
            versions,
            marks,
            cell(versions.old, rungs.old, place),
            cell(versions.new, rungs.new, place),
        ),
        _ => false,
    }
}

/// Whether two gates give the same by the same links.
fn give_same(versions: Versions<'_>, marks: &Marks, rungs: Rungs, old: Gate, new: Gate) -> bool
    requires old { rungs.old < versions.old.now.rungs }
    requires new { rungs.new < versions.new.now.rungs }
    ensures { IsTrue result
        → GiveSame versions.entry.matching.now versions.entry.old.now versions.entry.new.now marks.now rungs.old rungs.new old new }
{
    let place = old.place as usize;
    place < PLACES
        && old.place == new.place
        && old.left == new.left
        && old.below == new.below
        && old.other == new.other
        && say_same(versions, marks, rungs, place, old.literal, new.literal)
}

/// Whether two rungs find the same left links.
pub(crate) fn find_same(versions: Versions<'_>, marks: &Marks, rungs: Rungs) -> bool
    requires old { rungs.old < versions.old.now.rungs }
    requires new { rungs.new < versions.new.now.rungs }
    ensures { IsTrue result
        → FindSame versions.entry.matching.now versions.entry.old.now versions.entry.new.now marks.now rungs.old rungs.new }
{
    let olds = versions.old.gates(rungs.old);
    let news = versions.new.gates(rungs.new);
    if olds.len() != news.len() {
        return false;
    }
    for n in 0..olds.len() {
        if !give_same(versions, marks, rungs, olds[n], news[n]) {
            return false;
        }
    }
    true
}
