//! Which rungs use what: marks, made once for a program.

ghost use Rattle.std.specs.Prelude.{◌≡◌, ◌<◌, ℕ, length, map, [], replicate, slice_index_or, slice_set, true, false, IfOk};
ghost use Rattle.diagram_program.specs.declared.geometry.TheConstants.{PLACES};
ghost use Rattle.scan_cycle.specs.Programs.{diagram_of};
ghost use Rattle.scan_incremental.specs.Resting.{marked, operand_uses_output, operand_uses_variable, AreUsers, HasCell, IsMore};

use diagram_program::geometry::PLACES;
use diagram_program::{Cell, Operand, Program};
use scan_cycle::scene::cell;
use std::alloc::{AllocError, Global};
use std::marker::Model;

/// For each variable, and for each instance's output, a mark for each rung that uses it.
#[derive(Drop)]
pub(crate) struct Users {
    variables: Vec<Vec<bool>>,
    outputs: Vec<Vec<bool>>,
}

impl Model for Users {
    ghost use Rattle.std.specs.Prelude.{map};
    ghost use Rattle.scan_incremental.specs.Resting.{UsedBy};

    ghost Value = { UsedBy };

    ghost view = { λ u. record { variables = map (λ v. v.items) u.variables.items; outputs = map (λ v. v.items) u.outputs.items } };
}

/// The marks of a variable or an output, one for each rung; none past the last number.
fn marks_of(rows: &[Vec<bool>], number: usize) -> &[bool]
    ensures { result.now ≡ slice_index_or (map (λ v. v.items) rows.now) number [] }
{
    match rows.get(number) {
        Some(marks) => marks,
        None => &[],
    }
}

/// Marks for this many variables or outputs, none of them set.
fn no_marks(alloc: Global, count: usize, rungs: usize) -> Result<Vec<Vec<bool>>, AllocError>
    ensures { IfOk result (λ v. map (λ x. x.items) v.items ≡ replicate count (replicate rungs false)) }
{
    let mut rows: Vec<Vec<bool>> = Vec::new(alloc);
    for _ in 0..count {
        rows.push(vec![in alloc; false; rungs]?)?;
    }
    Ok(rows)
}

/// Marks a rung as one that uses the variable or output of this row of marks.
fn mark_one(marks: &mut [bool], rung: usize)
    ensures { marks.new ≡ slice_set marks.old rung true }
{
    if rung < marks.len() {
        marks[rung] = true;
    }
}

/// Marks a rung in the row of a variable or an output; past the last one nothing is marked.
fn mark(rows: &mut [Vec<bool>], number: usize, rung: usize)
    ensures { map (λ v. v.items) rows.new ≡ slice_set (map (λ v. v.items) rows.old) number
        (slice_set (slice_index_or (map (λ v. v.items) rows.old) number []) rung true) }
{
    if number < rows.len() {
        mark_one(&mut rows[number], rung);
    }
}

impl Users {
    /// The marks of a program: which rungs use each variable and each output.
    ///
    /// # Errors
    ///
    /// `AllocError` when out of memory.
    pub(crate) fn new(alloc: Global, program: &Program) -> Result<Users, AllocError>
        ensures { IfOk result (λ u. AreUsers (diagram_of program.now) u) }
    {
        let (decls, rungs) = (program.decls(), program.rungs());
        let mut users = Users {
            variables: no_marks(alloc, decls.vars().len(), rungs)?,
            outputs: no_marks(alloc, decls.instances().len(), rungs)?,
        };
        for rung in 0..rungs {
            users.mark_rung(program, rung);
        }
        Ok(users)
    }

    /// Marks a rung as one that uses what a contact reads.
    fn mark_operand(&mut self, operand: Operand, rung: usize)
        ensures more { IsMore self.old self.new }
        ensures variables { (v : ℕ) → operand_uses_variable v operand ≡ true → marked self.new.variables v rung ≡ true }
        ensures outputs { (i : ℕ) → operand_uses_output i operand ≡ true → marked self.new.outputs i rung ≡ true }
    {
        match operand {
            Operand::Var(var) => mark(&mut self.variables, var, rung),
            Operand::Output(inst) => mark(&mut self.outputs, inst, rung),
        }
    }

    /// Marks a rung as one that uses the variable or output of one of its cells.
    fn mark_cell(&mut self, cell: Cell, rung: usize)
        ensures more { IsMore self.old self.new }
        ensures has { HasCell self.new rung cell }
    {
        match cell {
            Cell::Contact { operand, .. } => self.mark_operand(operand, rung),
            Cell::Coil { var, .. } => mark(&mut self.variables, var, rung),
            Cell::Empty
            | Cell::Wire
            | Cell::Block { .. }
            | Cell::Lower { .. }
            | Cell::Jump { .. }
            | Cell::Return => {}
        }
    }

    /// Marks a rung as one that uses all that its cells use.
    fn mark_rung(&mut self, program: &Program, rung: usize)
        requires { rung < program.now.rungs }
        ensures more { IsMore self.old self.new }
        ensures has { (e : ℕ) → e < PLACES → HasCell self.new rung ((diagram_of program.now).cell rung e) }
    {
        for place in 0..PLACES {
            self.mark_cell(cell(program, rung, place), rung);
        }
    }

    /// The marks of the rungs that use a variable. What has no mark counts as marked.
    pub(crate) fn of_variable(&self, var: usize) -> &[bool]
        ensures { result.now ≡ slice_index_or self.now.variables var [] }
    {
        marks_of(&self.variables, var)
    }

    /// The marks of the rungs that read the output of an instance. What has no mark counts as marked.
    pub(crate) fn of_output(&self, inst: usize) -> &[bool]
        ensures { result.now ≡ slice_index_or self.now.outputs inst [] }
    {
        marks_of(&self.outputs, inst)
    }
}
