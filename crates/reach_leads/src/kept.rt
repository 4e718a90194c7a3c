//! What of a state a search keeps: all else is left open. The less is kept, the fewer states there are.

ghost use Rattle.std.specs.Prelude.{◌≡◌, ℕ};
ghost use Rattle.scan_cycle.specs.Programs.{diagram_of};
ghost use Rattle.scan_cycle.specs.Rung.{Held};
ghost use Rattle.scan_partial.specs.Sizes.{HasSizes};
ghost use Rattle.reach_leads.specs.Forgetting.{forgotten};
ghost use Rattle.reach_runs.specs.declared.timing.Timing.{Timing as TimingOf};
ghost use Rattle.reach_states.specs.Allowing.{AllowsState};

use diagram_program::Program;
use invariant_cases::Point;
use reach_states::Untimed;
use scan_cycle::Memory;
use scan_partial::Knowledge;
use scan_signals::Tri;
use std::alloc::Global;

/// Which variables, memories and instances are kept.
#[derive(Drop)]
pub struct Kept {
    pub values: Vec<bool>,
    pub memories: Vec<bool>,
    pub blocks: Vec<bool>,
}

/// Marks one, and says whether it wasn't.
fn mark(marks: &mut [bool], number: usize) -> bool {
    match marks.get_mut(number) {
        Some(marked) if !*marked => {
            *marked = true;
            true
        }
        _ => false,
    }
}

/// Marks all, and says whether one wasn't.
fn mark_all(marks: &mut [bool]) -> bool {
    let mut is_new = false;
    for number in 0..marks.len() {
        is_new = is_new || !marks[number];
        marks[number] = true;
    }
    is_new
}

/// Marks those that are marked in another, and says whether one wasn't.
fn mark_each(marks: &mut [bool], others: &[bool]) -> bool {
    let mut is_new = false;
    for number in 0..others.len() {
        if others[number] {
            let marked = mark(marks, number);
            is_new = is_new || marked;
        }
    }
    is_new
}

/// Whether one is marked.
pub(crate) fn is_marked(marks: &[bool], number: usize) -> bool {
    match marks.get(number) {
        Some(marked) => *marked,
        None => false,
    }
}

impl Kept {
    /// Nothing is kept.
    ///
    /// # Errors
    ///
    /// `Memory` when out of memory.
    pub fn nothing(alloc: Global, program: &Program) -> Result<Kept, Memory> {
        let decls = program.decls();
        Ok(Kept {
            values: vec![in alloc; false; decls.vars().len()]?,
            memories: vec![in alloc; false; program.memories()]?,
            blocks: vec![in alloc; false; decls.instances().len()]?,
        })
    }

    /// Keeps what a point is of too, and says whether it wasn't kept.
    pub fn add(&mut self, point: Point) -> bool {
        match point {
            Point::Variable(var) => mark(&mut self.values, var),
            Point::Memory(number) => mark(&mut self.memories, number),
            Point::Output(inst) | Point::Answer(inst) => mark(&mut self.blocks, inst),
        }
    }

    /// Keeps what another keeps too, and says whether something wasn't kept.
    pub fn add_each(&mut self, other: &Kept) -> bool {
        let values = mark_each(&mut self.values, &other.values);
        let memories = mark_each(&mut self.memories, &other.memories);
        let blocks = mark_each(&mut self.blocks, &other.blocks);
        values || memories || blocks
    }

    /// Keeps all, and says whether something wasn't kept.
    pub fn add_all(&mut self) -> bool {
        let values = mark_all(&mut self.values);
        let memories = mark_all(&mut self.memories);
        let blocks = mark_all(&mut self.blocks);
        values || memories || blocks
    }
}

/// Leaves the variables open that aren't kept, and the inputs, which the next scan gives.
fn forget_values(program: &Program, kept: &Kept, known: &mut Knowledge<Tri, Untimed>)
    requires { HasSizes program.now known.old }
    ensures allows { (timing : TimingOf) (now : ℕ) (held : Held) → AllowsState timing (diagram_of program.now) now known.old held
        → AllowsState timing (diagram_of program.now) now known.new held }
    ensures sizes { HasSizes program.now known.new }
{
    let vars = program.decls().vars();
    for var in 0..vars.len() {
        if vars[var].is_input() || !is_marked(&kept.values, var) {
            known.put_value(var, Tri::Unsure);
        }
    }
}

/// Leaves the memories open that aren't kept.
fn forget_memories(program: &Program, kept: &Kept, known: &mut Knowledge<Tri, Untimed>)
    requires { HasSizes program.now known.old }
    ensures allows { (timing : TimingOf) (now : ℕ) (held : Held) → AllowsState timing (diagram_of program.now) now known.old held
        → AllowsState timing (diagram_of program.now) now known.new held }
    ensures sizes { HasSizes program.now known.new }
{
    for number in 0..program.memories() {
        if !is_marked(&kept.memories, number) {
            known.put_memory(number, Tri::Unsure);
        }
    }
}

/// Of an instance its kind alone.
fn forgotten(kept: Untimed) -> Untimed
    ensures { result ≡ forgotten kept }
{
    match kept {
        Untimed::Timer { .. } | Untimed::Counter { .. } | Untimed::Output(_) => {
            Untimed::Output(Tri::Unsure)
        }
        Untimed::Anything => kept,
    }
}

/// Leaves open what instances store that aren't kept.
fn forget_blocks(program: &Program, kept: &Kept, known: &mut Knowledge<Tri, Untimed>)
    requires { HasSizes program.now known.old }
    ensures allows { (timing : TimingOf) (now : ℕ) (held : Held) → AllowsState timing (diagram_of program.now) now known.old held
        → AllowsState timing (diagram_of program.now) now known.new held }
    ensures sizes { HasSizes program.now known.new }
{
    for inst in 0..program.decls().instances().len() {
        if !is_marked(&kept.blocks, inst) {
            known.keep(inst, forgotten(known.kept(inst)));
        }
    }
}

/// Leaves open what isn't kept, and the inputs.
pub fn forget(program: &Program, kept: &Kept, known: &mut Knowledge<Tri, Untimed>)
    requires { HasSizes program.now known.old }
    ensures allows { (timing : TimingOf) (now : ℕ) (held : Held) → AllowsState timing (diagram_of program.now) now known.old held
        → AllowsState timing (diagram_of program.now) now known.new held }
    ensures sizes { HasSizes program.now known.new }
{
    forget_values(program, kept, known);
    forget_memories(program, kept, known);
    forget_blocks(program, kept, known);
}
