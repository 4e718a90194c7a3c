//! Whether the rows of two states are the same but for their moments.

ghost use Rattle.std.specs.Prelude.{◌≡◌, false, map, slice_index_or, true};
ghost use Rattle.scan_cycle.specs.Standing.{Fits};
ghost use Rattle.text_trace.specs.Room.{ArePicked};
ghost use Rattle.text_trace.specs.Trace.{AreAlike, is_output};
ghost use Rattle.text_trace.specs.Watching.{column_text};

use crate::column::Column;
use crate::watching::{count_of, elapsed};
use diagram_declarations::Decls;
use diagram_program::Program;
use scan_cycle::State;

/// Whether a variable has the same value in both states.
fn same_value(before: &State, after: &State, var: usize) -> bool
    ensures same { result ≡ true → slice_index_or before.now.held.values var false ≡ slice_index_or after.now.held.values var false }
    ensures other { result ≡ false → slice_index_or before.now.held.values var false ≡ slice_index_or after.now.held.values var false → ⊥ }
{
    before.value_or_off(var) == after.value_or_off(var)
}

/// Whether the variables with these numbers have the same values in both states.
fn same_values(outputs: &[usize], before: &State, after: &State) -> bool
    ensures same { result ≡ true → map (λ n. slice_index_or before.now.held.values n false) outputs.now ≡ map (λ n. slice_index_or after.now.held.values n false) outputs.now }
    ensures other { result ≡ false → map (λ n. slice_index_or before.now.held.values n false) outputs.now ≡ map (λ n. slice_index_or after.now.held.values n false) outputs.now → ⊥ }
{
    for number in 0..outputs.len() {
        if !same_value(before, after, outputs[number]) {
            return false;
        }
    }
    true
}

/// Whether a column has the same field in both states.
fn same_field(decls: &Decls, before: &State, after: &State, column: Column) -> bool
    ensures same { result ≡ true → column_text decls.now before.now column ≡ column_text decls.now after.now column }
    ensures other { result ≡ false → column_text decls.now before.now column ≡ column_text decls.now after.now column → ⊥ }
{
    match column {
        Column::Value(var) => before.value_or_off(var) == after.value_or_off(var),
        Column::Output(inst) => before.stored(inst).q() == after.stored(inst).q(),
        Column::Elapsed(inst) => elapsed(decls, before, inst) == elapsed(decls, after, inst),
        Column::Count(inst) => count_of(before.stored(inst)) == count_of(after.stored(inst)),
    }
}

/// Whether these columns have the same fields in both states.
fn same_fields(decls: &Decls, watched: &[Column], before: &State, after: &State) -> bool
    ensures same { result ≡ true → map (column_text decls.now before.now) watched.now ≡ map (column_text decls.now after.now) watched.now }
    ensures other { result ≡ false → map (column_text decls.now before.now) watched.now ≡ map (column_text decls.now after.now) watched.now → ⊥ }
{
    for number in 0..watched.len() {
        if !same_field(decls, before, after, watched[number]) {
            return false;
        }
    }
    true
}

/// Whether the rows of two states are the same but for their moments.
pub(crate) fn are_alike(
    program: &Program,
    outputs: &[usize],
    watched: &[Column],
    before: &State,
    after: &State,
) -> bool
    requires before { Fits program.now before.now }
    requires after { Fits program.now after.now }
    requires picked { ArePicked is_output program.now.decls.vars outputs.now }
    ensures same { result ≡ true → AreAlike program.now watched.now before.now after.now }
    ensures other { result ≡ false → AreAlike program.now watched.now before.now after.now → ⊥ }
{
    same_values(outputs, before, after) && same_fields(program.decls(), watched, before, after)
}
